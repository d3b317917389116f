// The loader's decisions (document 01, "The next step"): the next step of an update or a return, trigger
// and confirm, and whether it is mid-swap. They read the lent flash and change nothing; flash::apply_step
// carries a step out.
// Every public function is total: the geometry's numbers 1 to 4 first, then what document 01 says.
#![tactic(auto)]

mod answers;
mod decisions;
mod mid_swap;
mod requests;
mod states;

ghost use Rattle.std.specs.Prelude.{◌≡◌};
ghost use Rattle.refusal.specs.Numbers.{numbered};
ghost use Rattle.loader.specs.Answers.{numbered_answer};
ghost use Rattle.loader.specs.Checks.{image_checks};
ghost use Rattle.loader.specs.Decisions.{next_step};
ghost use Rattle.loader.specs.MidSwap.{mid_swap_answer};
ghost use Rattle.loader.specs.Requests.{trigger_answer, confirm_answer};

pub use answers::{Answer, Signed};
use flash::{Geometry, Step};
use refusal::Refusal;
use slots::Board;
pub use states::UPDATING;

// The next step on the way to a boot. The signature checker's answers go by the slots as they are, but in
// mid-swap by the slots before that swap.
#[tactic(auto, using(header::proofs::Refusals::refused), unfolding(crate::specs::Decisions::next_step))]
pub fn next_step(flash: &[u8], g: Geometry, signed: Signed) -> Result<Answer, Refusal>
    ensures { numbered_answer result ≡ next_step image_checks g flash.now signed.boot signed.update }
{
    decisions::decide(&Board::new(flash, g)?, signed)
}

// The next step that stages UPDATE's image, or none where it is staged; refused while a swap is begun and
// while BOOT is on trial.
#[tactic(auto, using(header::proofs::Refusals::refused), unfolding(crate::specs::Requests::trigger_answer))]
pub fn trigger(flash: &[u8], g: Geometry) -> Result<Option<Step>, Refusal>
    ensures { numbered result ≡ trigger_answer g flash.now }
{
    requests::trigger(&Board::new(flash, g)?)
}

// The step that confirms the image on trial, or none where it is confirmed; refused while a swap is begun
// and where nothing is on trial.
#[tactic(auto, using(header::proofs::Refusals::refused), unfolding(crate::specs::Requests::confirm_answer))]
pub fn confirm(flash: &[u8], g: Geometry) -> Result<Option<Step>, Refusal>
    ensures { numbered result ≡ confirm_answer g flash.now }
{
    requests::confirm(&Board::new(flash, g)?)
}

// Whether it is mid-swap; not where the geometry is refused.
#[tactic(auto, using(header::proofs::Refusals::refused), unfolding(crate::specs::MidSwap::mid_swap_answer))]
pub fn in_mid_swap(flash: &[u8], g: Geometry) -> bool
    ensures { result ≡ mid_swap_answer g flash.now }
{
    Board::new(flash, g).is_ok_and(|board| mid_swap::is_mid_swap(&board))
}
