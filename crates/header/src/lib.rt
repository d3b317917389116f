// The 256-byte image header (document 01, "Header"): its tags, one of them looked up, and its checks.
// Every public function is total.
#![tactic(auto)]

mod checks;
mod number;
mod tags;

ghost use Rattle.std.specs.Prelude.{◌≡◌};
ghost use Rattle.refusal.specs.Numbers.{numbered};
ghost use Rattle.header.specs.Lookup.{lookup_from, lookup, view_of, covered_of};

pub use checks::{check, version_of};
pub use number::{LittleEndian, byte_at, number_at};
use refusal::Refusal;
pub use tags::{Tag, WalkStep, walk_step};

pub const LENGTH: usize = 256;

// Where a header's tags start.
pub const FIRST: usize = 8;

// The types that document 01 names. Any u16 is a type, custom ones too, so these are numbers and no enum.
pub const VERSION: u16 = 0x0001;

pub const TIMESTAMP: u16 = 0x0002;

pub const DIGEST: u16 = 0x0003;

pub const HINT: u16 = 0x0010;

pub const SIGNATURE: u16 = 0x0020;

pub const FIRMWARE_TYPE: u16 = 0x0030;

// The first wanted tag from a place on: of one type, or of any.
#[tactic(auto, unfolding(crate::specs::Lookup::lookup_from))]
pub fn next_tag(header: &[u8], from: usize, wanted: Option<u16>) -> Result<Tag, Refusal>
    ensures { numbered result ≡ lookup_from header.now from wanted }
{
    if header.len() < LENGTH {
        return Err(Refusal::Length);
    }
    if !(FIRST..=LENGTH).contains(&from) {
        return Err(Refusal::LookupStart);
    }
    tags::find(header, from, wanted)
}

// The first tag of a type.
#[tactic(auto, unfolding(crate::specs::Lookup::lookup))]
pub fn find_tag(header: &[u8], kind: u16) -> Result<Tag, Refusal>
    ensures { numbered result ≡ lookup header.now kind }
{
    next_tag(header, FIRST, Some(kind))
}

// The content of the first tag of a type, or the empty part where it is not found: as document 01 has a view.
pub fn view(header: &[u8], kind: u16) -> &[u8]
    ensures { result.now ≡ view_of header.now kind }
{
    match find_tag(header, kind) {
        Ok(t) => &header[t.at..t.at + t.len],
        Err(_) => &header[..0],
    }
}

// The part that the digest covers: up to the type of the first digest tag, or the empty part where
// there is none, as a view.
pub fn covered(header: &[u8]) -> &[u8]
    ensures { result.now ≡ covered_of header.now }
{
    match find_tag(header, DIGEST) {
        Ok(t) => &header[..t.at - 4],
        Err(_) => &header[..0],
    }
}
