// The checks of an image's header, and the version of an image that passes them.
ghost use Rattle.std.specs.Prelude.{◌∷◌, [], ◌≡◌, Err};
ghost use Rattle.refusal.specs.Numbers.{numbered, number_or_zero};
ghost use Rattle.refusal.specs.declared.Refusal.TheVariants as R;
ghost use Rattle.header.specs.Walk.{header_walk};
ghost use Rattle.header.specs.Checks.{first_refusal, marked, walk_check, tags_check, coverage_check, header_check, version_of};
ghost use Rattle.header.specs.Seen.{must_be_covered, required_after, nothing_seen, seen_after, first_seen};

use crate::number::number_at;
use crate::tags::{Tag, Tags};
use crate::{DIGEST, FIRMWARE_TYPE, FIRST, LENGTH, SIGNATURE, TIMESTAMP, VERSION, view};
use refusal::Refusal;

// A type whose tag has to stand exactly once, its length, and what its tags so far come to.
#[derive(Clone, Copy, Debug, PartialEq, Eq)]
struct Required {
    kind: u16,
    len: usize,
    state: Result<(), Refusal>,
}

impl Required {
    fn new(kind: u16, len: usize) -> Required
        ensures { result ≡ record { kind = kind; len = len; state = Err R.TagMissing } }
    {
        Required {
            kind,
            len,
            state: Err(Refusal::TagMissing),
        }
    }

    fn after(self, t: Tag) -> Required
        ensures { result ≡ required_after self t }
    {
        if t.kind != self.kind {
            return self;
        }
        let state = if self.state != Err(Refusal::TagMissing) {
            Err(Refusal::TagRepeated)
        } else if t.len == self.len {
            Ok(())
        } else {
            Err(Refusal::TagLength)
        };
        Required { state, ..self }
    }
}

fn must_be_covered(kind: u16) -> bool
    ensures { result ≡ must_be_covered kind }
{
    (kind == VERSION) | (kind == TIMESTAMP) | (kind == FIRMWARE_TYPE)
}

// What the walk has met so far: the mandatory types, in document 01's order; a digest tag; and behind one a tag that
// the digest has to cover.
#[derive(Clone, Copy, Debug, PartialEq, Eq)]
struct Seen {
    required: [Required; 5],
    digest_met: bool,
    uncovered: bool,
}

impl Seen {
    fn new() -> Seen
        ensures { result ≡ nothing_seen }
    {
        Seen {
            required: [
                Required::new(VERSION, 4),
                Required::new(TIMESTAMP, 8),
                Required::new(DIGEST, 32),
                Required::new(SIGNATURE, 64),
                Required::new(FIRMWARE_TYPE, 2),
            ],
            digest_met: false,
            uncovered: false,
        }
    }

    fn meet(&mut self, t: Tag)
        ensures { self.new ≡ seen_after self.old t }
    {
        for r in &mut self.required {
            *r = r.after(t);
        }
        self.uncovered |= self.digest_met & must_be_covered(t.kind);
        self.digest_met |= t.kind == DIGEST;
    }

    // The first refusal that the tags come to.
    fn check(self) -> Result<(), Refusal>
        ensures { number_or_zero result ≡ first_seen self }
    {
        // All are read before the first is answered: a `?` in the loop took 3 per cent of a header's checks longer.
        let mut first = Ok(());
        for r in self.required {
            first = first.and(r.state);
        }
        first?;
        if self.uncovered {
            Err(Refusal::Uncovered)
        } else {
            Ok(())
        }
    }
}

fn is_marked(image: &[u8]) -> bool
    ensures { result ≡ marked image.now }
{
    image.starts_with(b"WOLF")
}

// The mandatory types and what the digest covers, in one walk over the tags.
fn check_tags(header: &[u8]) -> Result<(), Refusal>
    ensures { number_or_zero result ≡ first_refusal (walk_check (header_walk header.now).number
        ∷ tags_check (header_walk header.now).tags ∷ coverage_check (header_walk header.now).tags ∷ []) }
{
    let mut seen = Seen::new();
    for t in Tags::new(header, FIRST) {
        seen.meet(t?);
    }
    seen.check()
}

// The first of the checks that an image's header fails.
#[tactic(auto, unfolding(crate::specs::Checks::header_check))]
pub fn check(image: &[u8]) -> Result<(), Refusal>
    ensures { number_or_zero result ≡ header_check image.now }
{
    if image.len() < LENGTH {
        return Err(Refusal::Length);
    }
    if !is_marked(image) {
        return Err(Refusal::Mark);
    }
    let size = number_at::<u32>(image, 4) as usize;
    if size == 0 || image.len() - LENGTH < size {
        return Err(Refusal::Size);
    }
    check_tags(image)
}

// The version of an image whose header passes its checks.
#[tactic(auto, using(crate::proofs::Refusals::refused), unfolding(crate::specs::Checks::version_of))]
pub fn version_of(image: &[u8]) -> Result<u32, Refusal>
    ensures { numbered result ≡ version_of image.now }
{
    check(image)?;
    Ok(number_at(view(image, VERSION), 0))
}
