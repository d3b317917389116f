// Document 01, "Numbers given back", and document 02's: each refusal by what it says, and its number. One list for
// all crates, since a number means the same wherever it comes from.
#![tactic(auto)]

ghost use Rattle.std.specs.Prelude.{◌≡◌};
ghost use Rattle.refusal.specs.Numbers.{number};

use std::fmt;

#[derive(Clone, Copy, Debug, PartialEq, Eq)]
pub enum Refusal {
    // Geometry: the sector size is not listed; the sector count is not 1 to 64; an offset is unaligned or an area
    // passes the end; areas overlap.
    SectorSize = 1,
    SectorCount = 2,
    AreaPlace = 3,
    AreaOverlap = 4,
    // The simulator alone: under 24 bytes of input, or over 65,536 of flash.
    Input = 5,
    // An image: shorter than 256 bytes (so a header, and the writer's buffer where it is not 256); no mark; a size
    // that is 0 or does not fit (also of a firmware to be packed and of a message); a tag that passes the end; a
    // mandatory tag missing, repeated, of wrong length; another digest; the signature checker says no.
    Length = 10,
    Mark = 11,
    Size = 12,
    TagOverrun = 13,
    TagMissing = 14,
    TagRepeated = 15,
    TagLength = 16,
    Digest = 17,
    Signature = 18,
    // Of the update: its version is not greater.
    Version = 19,
    // The flags are ill-formed; trigger while BOOT is on trial; trigger or confirm while a swap is begun; confirm with
    // nothing on trial.
    Flags = 20,
    OnTrial = 21,
    SwapBegun = 22,
    NothingOnTrial = 23,
    // The step is not accepted.
    Step = 24,
    // Lookup: no such tag.
    TagAbsent = 25,
    // Writer: the custom run is over 82 bytes; ill-formed.
    CustomLength = 26,
    CustomForm = 27,
    // Run: a counter has no room for 4096 steps; the number of steps is above 4096.
    Counters = 28,
    RunNumber = 29,
    // The digest does not cover a tag that it has to.
    Uncovered = 30,
    // A lookup starts before the tags or behind them.
    LookupStart = 31,
}

impl Refusal {
    pub fn number(self) -> u32
        ensures { result ≡ number self }
    {
        self as u32
    }
}

impl fmt::Display for Refusal {
    fn fmt<W: fmt::Write>(&self, f: &mut fmt::Formatter<W>) -> fmt::Result {
        write!(f, "REFUSE {}", self.number())
    }
}
