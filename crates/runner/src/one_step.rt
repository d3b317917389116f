// One step decided and done.
ghost use Rattle.std.specs.Prelude.{◌≡◌, eqb, ◌&&◌, length};
ghost use Rattle.flash.specs.Geometry.{geometry_check};
ghost use Rattle.flash.specs.Steps.{flash_after};
ghost use Rattle.loader.specs.Answers as A;
ghost use Rattle.loader.specs.Answers.{numbered_answer};
ghost use Rattle.loader.specs.Checks.{image_checks};
ghost use Rattle.loader.specs.Decisions.{next_step};
ghost use Rattle.runner.specs.Runs.{all_updated, after_answer, turns};

use flash::{Geometry, Step, apply_step};
use loader::{Answer, Signed, UPDATING, next_step};
use refusal::Refusal;
use slots::{Board, Slot};

// What was decided and, if it is a step, done. turned: that step made the last flag 0, and from there on the
// signature checker's answers go by the slots exchanged. (No flag of the answer: both hold of every call.)
#[derive(Clone, Copy)]
pub struct Advanced {
    pub answer: Result<Answer, Refusal>,
    pub turned: bool,
}

// Whether UPDATE is sound with 70 and all flags are 0; not where the geometry is refused.
#[tactic(auto, using(loader::proofs::Tested::progress_tests), unfolding(crate::specs::Runs::all_updated))]
fn is_all_updated(flash: &[u8], g: Geometry) -> bool
    ensures { result ≡ (eqb (geometry_check g (length flash.now)) 0 && all_updated g flash.now) }
{
    match Board::new(flash, g) {
        Ok(board) => {
            board.is_sound_with(Slot::Update, UPDATING)
                && board.progress() == Ok(3 * board.geometry.count)
        }
        Err(_) => false,
    }
}

// Carries a step out, and says whether it made the last flag 0. A step that is refused changes nothing.
#[tactic(auto, using(crate::proofs::OneStep::turning))]
fn carry_out(flash: &mut [u8], g: Geometry, step: Step) -> bool
    ensures { (flash.new ≡ flash_after g flash.old step) × (result ≡ turns g flash.old (A.Step step)) }
{
    let before = is_all_updated(flash, g);
    let _ = apply_step(flash, g, step);
    !before && is_all_updated(flash, g)
}

// Decides the next step and carries it out; a boot or a refusal changes nothing.
pub fn advance(flash: &mut [u8], g: Geometry, signed: Signed) -> Advanced
    ensures { (numbered_answer result.answer ≡ next_step image_checks g flash.old signed.boot signed.update)
        × ((flash.new ≡ after_answer g flash.old (numbered_answer result.answer))
        × (result.turned ≡ turns g flash.old (numbered_answer result.answer))) }
{
    let answer = next_step(flash, g, signed);
    let turned = match answer {
        Ok(Answer::Step(step)) => carry_out(flash, g, step),
        Ok(Answer::LastStep(step)) => {
            let _ = apply_step(flash, g, step);
            false
        }
        Ok(Answer::Boot(_)) | Err(_) => false,
    };
    Advanced { answer, turned }
}
