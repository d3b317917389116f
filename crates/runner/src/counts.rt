// The record of finished steps, one counter per kind.
ghost use Rattle.std.specs.Prelude.{◌≡◌};
ghost use Rattle.refusal.specs.Numbers.{number_or_zero};
ghost use Rattle.runner.specs.Counts.{with_step, roomy, counts_check, RoomFor};

use flash::Step;
use refusal::Refusal;

// A counter up to this has room for the 4096 steps of a run.
const MOST_COUNT: u32 = 4_294_963_199;

#[repr(C)]
#[derive(Clone, Copy, Debug, PartialEq, Eq)]
pub struct StepCounts {
    pub erases: u32,
    pub copies: u32,
    pub bytes: u32,
    pub marks: u32,
}

#[tactic(auto, unfolding(crate::specs::Counts::roomy))]
fn is_roomy(counts: StepCounts) -> bool
    ensures { result ≡ roomy counts }
{
    [counts.erases, counts.copies, counts.bytes, counts.marks]
        .iter()
        .all(|count| *count <= MOST_COUNT)
}

#[tactic(auto, unfolding(crate::specs::Counts::counts_check))]
pub(crate) fn check_counts(counts: StepCounts) -> Result<(), Refusal>
    ensures { number_or_zero result ≡ counts_check counts }
{
    if !is_roomy(counts) {
        return Err(Refusal::Counters);
    }
    Ok(())
}

// One finished step more in the caller's record: the one thin function by which the run and `add_step` add.
pub(crate) fn count_step(counts: &mut StepCounts, step: Step)
    requires { RoomFor counts.old 1 }
    ensures { counts.new ≡ with_step counts.old step }
{
    match step {
        Step::Erase(_) => counts.erases += 1,
        Step::Copy(_, _) => counts.copies += 1,
        Step::Byte(_, _) => counts.bytes += 1,
        Step::Mark(_) => counts.marks += 1,
    }
}
