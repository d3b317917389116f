// The C library: entries on numbers and byte slices only, which decide nothing themselves.
// include/frondicare.h declares them for C. C knows neither Result nor an enum with data: so here alone a refusal is a
// number, 0 where there is none, an answer is flat, and a geometry is five numbers.
#![tactic(auto)]

mod flash_entries;
mod list_entries;
mod loader_entries;
mod run_entries;
mod state_entries;

ghost use Rattle.std.specs.Prelude.{◌≡◌, ◌++◌};
ghost use Rattle.header.specs.Checks.{version_of};
ghost use Rattle.header.specs.Lookup.{lookup};
ghost use Rattle.image.specs.Verdict.{verdict};
ghost use Rattle.refusal.specs.Numbers.{numbered, number_or_zero};
ghost use Rattle.sha256.specs.Digest.{answer};
ghost use Rattle.writer.specs.Writer.{to_sign, write_check, buffer_after};
ghost use Rattle.frondicare.specs.Digests.{number_in, filled};
ghost use Rattle.frondicare.specs.Tags.{place_of, flat_version};

use header::Tag;
use refusal::Refusal;
use writer::{Contents, Fields};

// Where a tag's content lies in its header, with the number 0; or document 01's number, and zeros.
#[repr(C)]
#[derive(Clone, Copy, Debug, PartialEq, Eq, Default)]
pub struct TagPlace {
    pub number: u32,
    pub at: usize,
    pub len: usize,
}

impl From<Result<Tag, Refusal>> for TagPlace {
    ghost from_gives = { λ tag place. place ≡ place_of (numbered tag) };

    fn from(tag: Result<Tag, Refusal>) -> TagPlace {
        match tag {
            Ok(t) => TagPlace {
                number: 0,
                at: t.at,
                len: t.len,
            },
            Err(refusal) => TagPlace {
                number: refusal.number(),
                ..TagPlace::default()
            },
        }
    }
}

// An image's version, with the number 0; or document 01's number, and 0.
#[repr(C)]
#[derive(Clone, Copy, Debug, PartialEq, Eq)]
pub struct FlatVersion {
    pub number: u32,
    pub version: u32,
}

impl From<Result<u32, Refusal>> for FlatVersion {
    ghost from_gives = { λ version flat. flat ≡ flat_version (numbered version) };

    fn from(version: Result<u32, Refusal>) -> FlatVersion {
        match version {
            Ok(version) => FlatVersion { number: 0, version },
            Err(refusal) => FlatVersion {
                number: refusal.number(),
                version: 0,
            },
        }
    }
}

pub(crate) fn number_or_zero(answer: Result<(), Refusal>) -> u32
    ensures { result ≡ number_or_zero answer }
{
    match answer {
        Ok(()) => 0,
        Err(why) => why.number(),
    }
}

// Stores the bytes and answers 0, or answers document 01's number and stores nothing.
fn store(answer: Result<[u8; 32], Refusal>, digest: &mut [u8; 32]) -> u32
    ensures number { result ≡ number_in (numbered answer) }
    ensures bytes { digest.new ≡ filled (numbered answer) digest.old }
{
    match answer {
        Ok(bytes) => {
            *digest = bytes;
            0
        }
        Err(refusal) => refusal.number(),
    }
}

// Stores the digest of a message.
#[unsafe(no_mangle)]
pub extern "C" fn frondicare_digest(message: &[u8], digest: &mut [u8; 32]) -> u32
    ensures number { result ≡ number_in (answer message.now) }
    ensures bytes { digest.new ≡ filled (answer message.now) digest.old }
{
    store(sha256::digest(message), digest)
}

// The same for a message in two pieces.
#[unsafe(no_mangle)]
pub extern "C" fn frondicare_digest_of_two(
    first: &[u8],
    second: &[u8],
    digest: &mut [u8; 32],
) -> u32
    ensures number { result ≡ number_in (answer (first.now ++ second.now)) }
    ensures bytes { digest.new ≡ filled (answer (first.now ++ second.now)) digest.old }
{
    store(sha256::digest_of_two(first, second), digest)
}

// The verdict on an image: 0, or the number of the first check that it fails.
#[unsafe(no_mangle)]
pub extern "C" fn frondicare_verify(image: &[u8], signature_ok: bool) -> u32
    ensures { result ≡ verdict image.now signature_ok }
{
    number_or_zero(image::verify(image, signature_ok))
}

// The first tag of a type in a header.
#[unsafe(no_mangle)]
pub extern "C" fn frondicare_find_tag(header: &[u8], kind: u16) -> TagPlace
    ensures { result ≡ place_of (lookup header.now kind) }
{
    header::find_tag(header, kind).into()
}

// The version in the header of an image.
#[unsafe(no_mangle)]
pub extern "C" fn frondicare_version_of(image: &[u8]) -> FlatVersion
    ensures { result ≡ flat_version (version_of image.now) }
{
    header::version_of(image).into()
}

// The writer's first call: stores the digest to be signed.
#[unsafe(no_mangle)]
pub extern "C" fn frondicare_digest_to_sign(
    fields: Fields,
    firmware: &[u8],
    custom: &[u8],
    hint: &[u8; 32],
    digest: &mut [u8; 32],
) -> u32
    ensures number { result ≡ number_in (to_sign fields firmware.now custom.now hint.now) }
    ensures bytes { digest.new ≡ filled (to_sign fields firmware.now custom.now hint.now) digest.old }
{
    let contents = Contents {
        fields,
        firmware,
        custom,
        hint,
    };
    store(contents.digest_to_sign(), digest)
}

// The writer's second call: the same for the header.
#[unsafe(no_mangle)]
pub extern "C" fn frondicare_write_header(
    buffer: &mut [u8],
    fields: Fields,
    firmware: &[u8],
    custom: &[u8],
    hint: &[u8; 32],
    signature: &[u8; 64],
) -> u32
    ensures number { result ≡ write_check buffer.old firmware.now custom.now }
    ensures bytes { buffer.new ≡ buffer_after buffer.old fields firmware.now custom.now hint.now signature.now }
{
    let contents = Contents {
        fields,
        firmware,
        custom,
        hint,
    };
    number_or_zero(contents.write_header(buffer, signature))
}
