// The bounded run (document 01, "The next step"): one step decided and done, the record of finished steps,
// and the run, which decides and does up to a number of steps and counts them in the caller's record.
// Every public function is total. A refusal before the first step changes no byte and no counter; a run's later
// one keeps the steps done.
#![tactic(auto)]

mod counts;
mod one_step;

ghost use Rattle.std.specs.Prelude.{◌≡◌};
ghost use Rattle.loader.specs.Answers.{numbered_answer};
ghost use Rattle.loader.specs.Checks.{image_checks};
ghost use Rattle.refusal.specs.Numbers.{number_or_zero};
ghost use Rattle.runner.specs.Counts.{counts_check, counts_after};
ghost use Rattle.runner.specs.MostSteps.{most_steps_of};
ghost use Rattle.runner.specs.Runs.{run_check, run_of, Leaves};

pub use counts::StepCounts;
use counts::{check_counts, count_step};
use flash::{Geometry, Step, check_geometry};
use loader::{Answer, Signed, next_step};
pub use one_step::{Advanced, advance};
use refusal::Refusal;

// Adds one finished step to the caller's record, or is refused (28) where a counter is above 4,294,963,199.
#[tactic(auto, using(refusal::proofs::Told::refuses, crate::proofs::Rooms::room_to_add), unfolding(crate::specs::Counts::counts_check, crate::specs::Counts::counts_after))]
pub fn add_step(counts: &mut StepCounts, step: Step) -> Result<(), Refusal>
    ensures { (number_or_zero result ≡ counts_check counts.old) × (counts.new ≡ counts_after counts.old step) }
{
    check_counts(*counts)?;
    count_step(counts, step);
    Ok(())
}

// No run does more steps where a slot has count image sectors; 0 where that is not 1 to 64: a call that can't fail, as
// from C.
#[tactic(auto, unfolding(crate::specs::MostSteps::most_steps_of))]
pub fn most_steps(count: usize) -> u32
    ensures { result ≡ most_steps_of count }
{
    match count {
        1..=64 => 2 * (9 * count as u32 + 4),
        _ => 0,
    }
}

// The refusals before the first step: the geometry's, 29, 28.
#[tactic(auto, unfolding(crate::specs::Runs::run_check))]
fn check_run(g: Geometry, len: usize, number: u32, counts: StepCounts) -> Result<(), Refusal>
    ensures { number_or_zero result ≡ run_check g len number counts }
{
    check_geometry(g, len)?;
    if number > 4096 {
        return Err(Refusal::RunNumber);
    }
    check_counts(counts)
}

// A run of up to a number of steps (0 to 4096). Each finished step is counted in the caller's record as it
// is done. It answers a boot, a refusal or, with the number used up, the step due.
#[tactic(auto, using(refusal::proofs::Told::refuses), unfolding(crate::specs::Runs::run_of, crate::specs::Counts::with_steps))]
pub fn run(
    flash: &mut [u8],
    g: Geometry,
    signed: Signed,
    number: u32,
    counts: &mut StepCounts,
) -> Result<Answer, Refusal>
    ensures { Leaves counts.old (run_of image_checks g number signed.boot signed.update flash.old counts.old)
        (numbered_answer result) flash.new counts.new }
{
    check_run(g, flash.len(), number, *counts)?;
    let mut signed = signed;
    // A number of steps, and no list to go over.
    for _ in 0..number {
        let done = advance(flash, g, signed);
        match done.answer? {
            Answer::Step(step) => {
                count_step(counts, step);
                signed = signed.turned(done.turned);
            }
            Answer::LastStep(step) => {
                count_step(counts, step);
                return Ok(Answer::Boot(None));
            }
            boot @ Answer::Boot(_) => return Ok(boot),
        }
    }
    next_step(flash, g, signed)
}
