// The walk over the tags of a header, or of any bytes that hold tags.
ghost use Rattle.std.specs.Prelude.{◌≡◌};
ghost use Rattle.std.specs.Iterator.{YieldsFirst, item_count};
ghost use Rattle.refusal.specs.Numbers.{numbered};
ghost use Rattle.header.specs.Walk.{step_at, walk};
ghost use Rattle.header.specs.Items.{items};
ghost use Rattle.header.specs.Lookup.{matches, first};

use crate::LENGTH;
use crate::number::{byte_at, number_at};
use refusal::Refusal;

// A tag: its type, where its content starts and how long it is, and where the walk goes on.
#[derive(Clone, Copy, Debug, PartialEq, Eq)]
pub struct Tag {
    pub kind: u16,
    pub at: usize,
    pub len: usize,
    pub next: usize,
}

// What the walk finds at a place: a byte of padding, and the next place; or a tag.
#[derive(Clone, Copy, Debug, PartialEq, Eq)]
pub enum WalkStep {
    Padding(usize),
    Met(Tag),
}

// One step of the walk at place p of bytes whose tags end at place end. Where it stops, it gives what a lookup then
// refuses with.
#[tactic(auto, using(crate::proofs::Numbers::too_narrow, crate::proofs::Numbers::wide_enough), unfolding(crate::specs::Walk::step_at))]
pub fn walk_step(s: &[u8], end: usize, p: usize) -> Result<WalkStep, Refusal>
    ensures { numbered result ≡ step_at s.now end p }
{
    if end <= p {
        return Err(Refusal::TagAbsent);
    }
    if byte_at(s, p) == 0xFF {
        return Ok(WalkStep::Padding(p + 1));
    }
    if end - p < 4 {
        return Err(Refusal::TagOverrun);
    }
    let kind = number_at::<u16>(s, p);
    if kind == 0 {
        return Err(Refusal::TagAbsent);
    }
    let at = p + 4;
    let len = number_at::<u16>(s, p + 2) as usize;
    if end - at < len {
        return Err(Refusal::TagOverrun);
    }
    Ok(WalkStep::Met(Tag {
        kind,
        at,
        len,
        next: at + len,
    }))
}

fn is_wanted(wanted: Option<u16>, kind: u16) -> bool
    ensures { result ≡ matches wanted kind }
{
    match wanted {
        None => true,
        Some(k) => kind == k,
    }
}

// The first wanted tag from a place of a header on. Inlined: else a lookup copies its answer, and a list of 62 tags took
// 866 ns in place of 415.
#[inline(always)]
pub(crate) fn find(header: &[u8], start: usize, wanted: Option<u16>) -> Result<Tag, Refusal>
    ensures { numbered result ≡ first wanted (walk header.now 256 start) }
{
    let mut p = start;
    loop {
        match walk_step(header, LENGTH, p)? {
            WalkStep::Padding(next) => p = next,
            WalkStep::Met(t) => {
                if is_wanted(wanted, t.kind) {
                    return Ok(t);
                }
                p = t.next;
            }
        }
    }
}

// All tags of a header from a place on. One that passes the end comes last, as a refusal.
#[derive(Drop)]
pub(crate) struct Tags<'a> {
    header: &'a [u8],
    p: usize,
}

impl<'a> Tags<'a> {
    pub(crate) fn new(header: &'a [u8], p: usize) -> Tags<'a>
        ensures { (result.header.now ≡ header.now) × (result.p ≡ p) }
    {
        Tags { header, p }
    }
}

impl<'a> Iterator for Tags<'a> {
    type Item = Result<Tag, Refusal>;

    ghost next_gives = { YieldsFirst (λ s. items (walk s.header.now 256 s.p)) };

    ghost remaining = { item_count (λ s. items (walk s.header.now 256 s.p)) };

    fn next(&mut self) -> Option<Result<Tag, Refusal>> {
        match find(self.header, self.p, None) {
            Ok(t) => {
                self.p = t.next;
                Some(Ok(t))
            }
            Err(stop) => {
                if stop == Refusal::TagAbsent {
                    return None;
                }
                self.p = LENGTH;
                Some(Err(stop))
            }
        }
    }
}
