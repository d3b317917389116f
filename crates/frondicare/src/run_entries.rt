// The entries of the run, and of the record in which it counts its steps. Each passes the
// caller's record on and decides nothing itself.
ghost use Rattle.std.specs.Prelude.{◌≡◌};
ghost use Rattle.loader.specs.Checks.{image_checks};
ghost use Rattle.runner.specs.MostSteps.{most_steps_of};
ghost use Rattle.runner.specs.Runs.{run_of};
ghost use Rattle.frondicare.specs.Additions.{step_by, addition_check, counts_left};
ghost use Rattle.frondicare.specs.Answers.{FlatLeaves};
ghost use Rattle.frondicare.specs.Steps.{geometry_of};

use crate::flash_entries::{geometry_of, step_of};
use crate::loader_entries::FlatAnswer;
use crate::number_or_zero;
use loader::Signed;
use refusal::Refusal;
use runner::{StepCounts, add_step, run};

// Decides and does up to a number of steps, each counted in the caller's record as it is done.
#[unsafe(no_mangle)]
pub extern "C" fn frondicare_run(
    flash: &mut [u8],
    sector_size: usize,
    sector_count: usize,
    boot: usize,
    update: usize,
    swap: usize,
    boot_signed: bool,
    update_signed: bool,
    most_steps: u32,
    counts: &mut StepCounts,
) -> FlatAnswer
    ensures { FlatLeaves counts.old (run_of image_checks (geometry_of sector_size sector_count boot update swap) most_steps boot_signed
        update_signed flash.old counts.old) result flash.new counts.new }
{
    let g = geometry_of(sector_size, sector_count, boot, update, swap);
    let signed = Signed {
        boot: boot_signed,
        update: update_signed,
    };
    run(flash, g, signed, most_steps, counts).into()
}

// No run does more steps, and with this number it always ends.
#[unsafe(no_mangle)]
pub extern "C" fn frondicare_most_steps(sector_count: usize) -> u32
    ensures { result ≡ most_steps_of sector_count }
{
    runner::most_steps(sector_count)
}

// Adds one finished step, by its op, to the caller's record and answers 0, or answers document 01's
// number and changes nothing.
#[unsafe(no_mangle)]
pub extern "C" fn frondicare_add_step(counts: &mut StepCounts, op: u32) -> u32
    ensures { (result ≡ addition_check counts.old (step_by op)) × (counts.new ≡ counts_left counts.old (step_by op)) }
{
    match step_of(op, 0, 0, 0) {
        Some(step) => number_or_zero(add_step(counts, step)),
        None => Refusal::Step.number(),
    }
}
