// The entry that lists tags: lookup from a place on.
ghost use Rattle.std.specs.Prelude.{◌≡◌};
ghost use Rattle.header.specs.Lookup.{lookup_from};
ghost use Rattle.refusal.specs.Numbers.{numbered};
ghost use Rattle.frondicare.specs.Tags.{wanted_by, listed_tag};

use header::Tag;
use refusal::Refusal;

// A tag and where the next lookup goes on, with the number 0; or the papers' number, and zeros.
#[repr(C)]
#[derive(Clone, Copy, Debug, PartialEq, Eq, Default)]
pub struct ListedTag {
    pub number: u32,
    pub kind: u16,
    pub at: usize,
    pub len: usize,
    pub next: usize,
}

impl From<Result<Tag, Refusal>> for ListedTag {
    ghost from_gives = { λ tag listed. listed ≡ listed_tag (numbered tag) };

    fn from(tag: Result<Tag, Refusal>) -> ListedTag {
        match tag {
            Ok(t) => ListedTag {
                number: 0,
                kind: t.kind,
                at: t.at,
                len: t.len,
                next: t.next,
            },
            Err(refusal) => ListedTag {
                number: refusal.number(),
                ..ListedTag::default()
            },
        }
    }
}

fn wanted_by(any: bool, kind: u16) -> Option<u16>
    ensures { result ≡ wanted_by any kind }
{
    if any { None } else { Some(kind) }
}

// The first tag from a place of a header on, of any type or of one.
#[unsafe(no_mangle)]
pub extern "C" fn frondicare_next_tag(header: &[u8], from: usize, any: bool, kind: u16) -> ListedTag
    ensures { result ≡ listed_tag (lookup_from header.now from (wanted_by any kind)) }
{
    header::next_tag(header, from, wanted_by(any, kind)).into()
}
