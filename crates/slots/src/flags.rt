// Document 01, "Trailers and flags": the sector flags in UPDATE's trailer, and how far the exchange has come.
ghost use Rattle.std.specs.List.{suffix_len};
ghost use Rattle.std.specs.Prelude.{◌≡◌, ◌==◌, ◌+◌, ◌≤◌, ◌<◌, length, drop};
ghost use Rattle.compare.specs.Compare.{all};
ghost use Rattle.refusal.specs.Numbers.{numbered};
ghost use Rattle.slots.specs.Flags.{new, half, with_half, FlagPlace, flag, flags, progress_of, flag_step};

use crate::trailers::Trailer;
use flash::Step;
use refusal::Refusal;

// How far a sector is exchanged: not, or by one copy, two or all three. The number is what half a byte of flash has.
#[derive(Clone, Copy)]
pub(crate) enum Flag {
    New = 0xF,
    Swapping = 0x7,
    Backup = 0x3,
    Updated = 0x0,
}

impl TryFrom<u8> for Flag {
    type Error = Refusal;

    ghost use Rattle.slots.specs.FlagKinds.{Read};

    ghost try_from_gives = { Read };

    fn try_from(half: u8) -> Result<Flag, Refusal> {
        match half {
            0xF => Ok(Flag::New),
            0x7 => Ok(Flag::Swapping),
            0x3 => Ok(Flag::Backup),
            0x0 => Ok(Flag::Updated),
            _ => Err(Refusal::Flags),
        }
    }
}

impl Flag {
    ghost use Rattle.slots.specs.Exchange.{next_flag};
    ghost use Rattle.slots.specs.FlagKinds.{value};
    ghost use Rattle.slots.specs.Flags.{stage, flag_of};

    // The current sector's at a progress.
    #[tactic(auto, unfolding(crate::specs::Flags::flag_of))]
    pub fn at(reached: usize) -> Flag
        ensures { value result ≡ flag_of reached }
    {
        match reached % 3 {
            0 => Flag::New,
            1 => Flag::Swapping,
            _ => Flag::Backup,
        }
    }

    pub fn value(self) -> u8
        ensures { (result ≡ value self) × (result < 16) }
    {
        self as u8
    }

    // What it adds to the progress where its sector is the current one.
    #[tactic(auto, unfolding(crate::specs::Flags::stage))]
    fn stage(self) -> usize
        ensures { (result ≡ stage (value self)) × (result < 3) }
    {
        match self {
            Flag::New | Flag::Updated => 0,
            Flag::Swapping => 1,
            Flag::Backup => 2,
        }
    }

    // The flag that follows it.
    #[tactic(auto, unfolding(crate::specs::Exchange::next_flag))]
    pub fn next(self) -> Flag
        ensures { value result ≡ next_flag (value self) }
    {
        match self {
            Flag::New => Flag::Swapping,
            Flag::Swapping => Flag::Backup,
            Flag::Backup | Flag::Updated => Flag::Updated,
        }
    }
}

// The half of a byte that is sector i's flag.
#[tactic(auto, unfolding(crate::specs::Flags::half))]
fn half(i: usize, b: u8) -> u8
    ensures { result ≡ half i b }
{
    if i % 2 == 0 { b % 16 } else { b / 16 }
}

// The byte with that half replaced.
#[tactic(auto, unfolding(crate::specs::Flags::with_half))]
fn with_half(i: usize, v: u8, b: u8) -> u8
    requires { v < 16 }
    ensures { result ≡ with_half i v b }
{
    if i % 2 == 0 {
        b / 16 * 16 + v
    } else {
        v * 16 + b % 16
    }
}

// How many bytes at the end of a part are v.
fn count_at_end(part: &[u8], v: u8) -> usize
    ensures { result ≡ suffix_len (λ b. b == v) part.now }
{
    part.iter().rev().take_while(|byte| **byte == v).count()
}

impl Trailer<'_> {
    ghost use Rattle.slots.specs.FlagKinds.{RunEnd, value};

    // The place of sector i's flag byte.
    #[tactic(auto, unfolding(crate::specs::Flags::flag_at))]
    fn flag_place(&self, i: usize) -> usize
        requires { i < self.now.flags }
        ensures { FlagPlace (length self.now.bytes.now) i result }
    {
        self.bytes.len() - 6 - i / 2
    }

    // What stands where sector i's flag is.
    #[tactic(auto, unfolding(crate::specs::Flags::flag))]
    fn flag(&self, i: usize) -> u8
        requires { i < self.now.flags }
        ensures { result ≡ flag self.now.bytes.now i }
    {
        half(i, self.bytes[self.flag_place(i)])
    }

    // Where the run of a flag from a sector on ends: at the first sector with another one, or behind the last.
    fn run_end(&self, from: usize, flag: Flag) -> usize
        requires { from ≤ self.now.flags }
        ensures { RunEnd self.now.flags self.now.bytes.now (value flag) from result }
    {
        (from..self.flags)
            .find(|i| self.flag(*i) != flag.value())
            .unwrap_or(self.flags)
    }

    // The same, two flags at once while one byte tells both: by run_end alone the progress of 64 sectors takes 116 ns,
    // and so it is 38.
    fn run_end_by_pairs(&self, from: usize, flag: Flag) -> usize
        requires { from ≤ self.now.flags }
        ensures { RunEnd self.now.flags self.now.bytes.now (value flag) from result }
    {
        let v = flag.value();
        if from == self.flags || self.flag(from) != v {
            return from;
        }
        let end = self.bytes.len() - 5;
        let pair = from.div_ceil(2);
        let pairs = &self.bytes[end - self.flags / 2..end - pair];
        self.run_end(2 * (pair + count_at_end(pairs, 17 * v)), flag)
    }

    // Whether the flags from a sector on are all new.
    #[tactic(auto, using(crate::proofs::Runs::all_run))]
    pub fn is_new_from(&self, from: usize) -> bool
        requires { from ≤ self.now.flags }
        ensures { result ≡ all new (drop from (flags self.now.flags self.now.bytes.now)) }
    {
        self.run_end_by_pairs(from, Flag::New) == self.flags
    }

    // The progress by the flags.
    pub fn progress(&self) -> Result<usize, Refusal>
        ensures { numbered result ≡ progress_of (flags self.now.flags self.now.bytes.now) }
    {
        let i = self.run_end_by_pairs(0, Flag::Updated);
        if i == self.flags {
            return Ok(3 * i);
        }
        let flag = Flag::try_from(self.flag(i))?;
        if self.is_new_from(i + 1) {
            return Ok(3 * i + flag.stage());
        }
        Err(Refusal::Flags)
    }

    // The step that writes sector i's flag.
    #[tactic(auto, unfolding(crate::specs::Flags::flag_step))]
    pub fn flag_step(&self, i: usize, flag: Flag) -> Step
        requires { i < self.now.flags }
        ensures { result ≡ flag_step self.now.at self.now.bytes.now i (value flag) }
    {
        let k = self.flag_place(i);
        Step::Byte(self.at + k, with_half(i, flag.value(), self.bytes[k]))
    }
}
