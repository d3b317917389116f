// Whether an image may be started (document 01, "Header" and "Numbers given back"): the header's
// checks, then its digest, then the signature checker's answer.
#![tactic(auto)]

ghost use Rattle.std.specs.Prelude.{◌≡◌};
ghost use Rattle.header.specs.Checks.{header_check};
ghost use Rattle.image.specs.Verdict.{digest_check, verdict};
ghost use Rattle.refusal.specs.Numbers.{number_or_zero};

use refusal::Refusal;

// 17 where an image whose header passes has another digest than its digest tag says. So short a message always has
// a digest: the unwrap is proved, and tests nothing.
fn check_digest(image: &[u8]) -> Result<(), Refusal>
    requires { header_check image.now ≡ 0 }
    ensures { number_or_zero result ≡ digest_check image.now }
{
    let end = header::LENGTH + header::number_at::<u32>(image, 4) as usize;
    let digest = sha256::long_digest_of_two(header::covered(image), &image[256..end]).unwrap();
    if compare::same(header::view(image, header::DIGEST), &digest) {
        Ok(())
    } else {
        Err(Refusal::Digest)
    }
}

// The first of the checks 10 to 16, 30, 17, 18 that an image fails. signed is the signature checker's answer.
#[tactic(auto, unfolding(crate::specs::Verdict::verdict))]
pub fn verify(image: &[u8], signed: bool) -> Result<(), Refusal>
    ensures { number_or_zero result ≡ verdict image.now signed }
{
    header::check(image)?;
    check_digest(image)?;
    if signed {
        Ok(())
    } else {
        Err(Refusal::Signature)
    }
}
