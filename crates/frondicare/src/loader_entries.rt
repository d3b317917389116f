// The entries that say what to do next: the next step, trigger and confirm. C has no enum with data, so an
// answer goes out as numbers.
ghost use Rattle.std.specs.Prelude.{◌≡◌};
ghost use Rattle.loader.specs.Answers.{numbered_answer};
ghost use Rattle.loader.specs.Checks.{image_checks};
ghost use Rattle.loader.specs.Decisions.{next_step};
ghost use Rattle.loader.specs.Requests.{trigger_answer, confirm_answer};
ghost use Rattle.refusal.specs.Numbers.{number, numbered};
ghost use Rattle.frondicare.specs.Answers.{flat_step, flat_number, flat_answer, flat_work};
ghost use Rattle.frondicare.specs.Steps.{geometry_of};

use crate::flash_entries::{BYTE, COPY, ERASE, MARK, geometry_of};
use flash::Step;
use loader::{Answer, Signed};
use refusal::Refusal;

// An answer's kind.
const STEP: u32 = 0;

const LAST_STEP: u32 = 1;

const BOOT: u32 = 2;

const REFUSED: u32 = 3;

const FINISHED: u32 = 4;

// A step's op and numbers are those that frondicare_apply_step takes. What an answer doesn't use is 0.
#[repr(C)]
#[derive(Clone, Copy, Debug, PartialEq, Eq, Default)]
pub struct FlatAnswer {
    pub kind: u32,
    pub number: u32,
    pub op: u32,
    pub value: u32,
    pub at: usize,
    pub to: usize,
}

fn flat_step(kind: u32, step: Step) -> FlatAnswer
    ensures { result ≡ flat_step kind step }
{
    let rest = FlatAnswer {
        kind,
        ..FlatAnswer::default()
    };
    match step {
        Step::Erase(at) => FlatAnswer {
            op: ERASE,
            at,
            ..rest
        },
        Step::Copy(from, to) => FlatAnswer {
            op: COPY,
            at: from,
            to,
            ..rest
        },
        Step::Byte(at, value) => FlatAnswer {
            op: BYTE,
            at,
            value: value as u32,
            ..rest
        },
        Step::Mark(at) => FlatAnswer {
            op: MARK,
            at,
            ..rest
        },
    }
}

fn flat_number(kind: u32, number: u32) -> FlatAnswer
    ensures { result ≡ flat_number kind number }
{
    FlatAnswer {
        kind,
        number,
        ..FlatAnswer::default()
    }
}

impl From<Refusal> for FlatAnswer {
    ghost from_gives = { λ refusal flat. flat ≡ flat_number 3 (number refusal) };

    fn from(refusal: Refusal) -> FlatAnswer {
        flat_number(REFUSED, refusal.number())
    }
}

impl From<Result<Option<Step>, Refusal>> for FlatAnswer {
    ghost from_gives = { λ work flat. flat ≡ flat_work (numbered work) };

    fn from(work: Result<Option<Step>, Refusal>) -> FlatAnswer {
        match work {
            Ok(Some(step)) => flat_step(STEP, step),
            Ok(None) => flat_number(FINISHED, 0),
            Err(refusal) => refusal.into(),
        }
    }
}

impl From<Result<Answer, Refusal>> for FlatAnswer {
    ghost from_gives = { λ answer flat. flat ≡ flat_answer (numbered_answer answer) };

    fn from(answer: Result<Answer, Refusal>) -> FlatAnswer {
        match answer {
            Ok(Answer::Step(step)) => flat_step(STEP, step),
            Ok(Answer::LastStep(step)) => flat_step(LAST_STEP, step),
            Ok(Answer::Boot(None)) => flat_number(BOOT, 0),
            Ok(Answer::Boot(Some(why))) => flat_number(BOOT, why.number()),
            Err(refusal) => refusal.into(),
        }
    }
}

// The next step of an update or a return, or a boot.
#[unsafe(no_mangle)]
pub extern "C" fn frondicare_next_step(
    flash: &[u8],
    sector_size: usize,
    sector_count: usize,
    boot: usize,
    update: usize,
    swap: usize,
    boot_signed: bool,
    update_signed: bool,
) -> FlatAnswer
    ensures { result ≡ flat_answer (next_step image_checks (geometry_of sector_size sector_count boot update swap) flash.now boot_signed update_signed) }
{
    let g = geometry_of(sector_size, sector_count, boot, update, swap);
    let signed = Signed {
        boot: boot_signed,
        update: update_signed,
    };
    loader::next_step(flash, g, signed).into()
}

// The next step that stages UPDATE's image, or finished.
#[unsafe(no_mangle)]
pub extern "C" fn frondicare_trigger(
    flash: &[u8],
    sector_size: usize,
    sector_count: usize,
    boot: usize,
    update: usize,
    swap: usize,
) -> FlatAnswer
    ensures { result ≡ flat_work (trigger_answer (geometry_of sector_size sector_count boot update swap) flash.now) }
{
    let g = geometry_of(sector_size, sector_count, boot, update, swap);
    loader::trigger(flash, g).into()
}

// The step that confirms the image on trial, or finished.
#[unsafe(no_mangle)]
pub extern "C" fn frondicare_confirm(
    flash: &[u8],
    sector_size: usize,
    sector_count: usize,
    boot: usize,
    update: usize,
    swap: usize,
) -> FlatAnswer
    ensures { result ≡ flat_work (confirm_answer (geometry_of sector_size sector_count boot update swap) flash.now) }
{
    let g = geometry_of(sector_size, sector_count, boot, update, swap);
    loader::confirm(flash, g).into()
}
