// Document 01, "The next step": the order of decision. A slot is verified where its decision asks for it,
// and at most once; in mid-swap neither is.
ghost use Rattle.std.specs.Prelude.{◌≡◌, Ok};
ghost use Rattle.refusal.specs.Numbers.{number_or_zero};
ghost use Rattle.loader.specs.Answers.{number_for, numbered_answer};
ghost use Rattle.loader.specs.Checks.{version_rule, image_checks};
ghost use Rattle.loader.specs.Decisions.{or_else, boot_or, go_back, why, spend, finish, staged_decision, decision};
ghost use Rattle.loader.specs.States.{testing};
ghost use Rattle.slots.specs.Exchange.{exchange_of};

use crate::answers::{Answer, Signed};
use crate::states::{SPENT, TESTING, UPDATING, is_on_trial, is_staged};
use flash::Step;
use header::version_of;
use image::verify;
use refusal::Refusal;
use slots::{Board, Slot};

// Refuses where BOOT's header passes its checks and UPDATE's version isn't greater.
#[tactic(auto, unfolding(crate::specs::Checks::version_rule, header::specs::Checks::version_of))]
fn version_rule(boot: &[u8], update: &[u8]) -> Result<(), Refusal>
    ensures { number_or_zero result ≡ version_rule boot.now update.now }
{
    match version_of(boot) {
        Ok(old) if version_of(update).unwrap_or(0) <= old => Err(Refusal::Version),
        _ => Ok(()),
    }
}

// Decision 6. why is what UPDATE was passed over for, if it was.
#[tactic(auto, using(header::proofs::Refusals::refused), unfolding(crate::specs::Decisions::boot_or))]
fn boot_or(board: &Board, signed: Signed, why: Option<Refusal>) -> Result<Answer, Refusal>
    ensures { numbered_answer result
        ≡ boot_or image_checks board.now.geometry board.now.flash.now signed.boot (number_for why) }
{
    verify(board.image(Slot::Boot), signed.boot)?;
    Ok(Answer::Boot(why))
}

// Decision 5: a return is an update without the version rule.
#[tactic(auto, using(header::proofs::Refusals::refused), unfolding(crate::specs::Decisions::go_back))]
fn go_back(board: &Board, signed: Signed) -> Result<Answer, Refusal>
    ensures { numbered_answer result
        ≡ go_back image_checks board.now.geometry board.now.flash.now signed.boot signed.update }
{
    if let Err(why) = verify(board.image(Slot::Update), signed.update) {
        return boot_or(board, signed, Some(why));
    }
    match board.renewal(Slot::Update, UPDATING) {
        Some(step) => Ok(Answer::Step(step)),
        None => boot_or(board, signed, None),
    }
}

// Decision 3 where all flags are F: refuses UPDATE where it is passed over. With other flags nothing is asked.
#[tactic(auto, using(header::proofs::Refusals::refused), unfolding(crate::specs::Decisions::passed_over))]
fn passed_over(board: &Board, signed: Signed, reached: usize) -> Result<(), Refusal>
    ensures { number_or_zero result
        ≡ why image_checks board.now.geometry board.now.flash.now signed.update reached }
{
    if reached != 0 {
        return Ok(());
    }
    let update = board.image(Slot::Update);
    verify(update, signed.update)?;
    if is_on_trial(board) {
        return Ok(());
    }
    version_rule(board.image(Slot::Boot), update)
}

// The end of decision 2: the state 30, which is the last step before booting if BOOT passes.
#[tactic(auto, using(header::proofs::Refusals::refused), unfolding(crate::specs::Decisions::spend))]
fn spend(board: &Board, signed: Signed) -> Answer
    ensures { numbered_answer (Ok result)
        ≡ spend image_checks board.now.geometry board.now.flash.now signed.boot }
{
    let step = Step::Byte(board.state_at(Slot::Update), SPENT);
    match verify(board.image(Slot::Boot), signed.boot) {
        Ok(()) => Answer::LastStep(step),
        Err(_) => Answer::Step(step),
    }
}

// Decision 2.
#[tactic(auto, unfolding(crate::specs::Decisions::finish))]
fn finish(board: &Board, signed: Signed) -> Answer
    ensures { numbered_answer (Ok result)
        ≡ finish image_checks board.now.geometry board.now.flash.now testing signed.boot }
{
    match board.renewal(Slot::Boot, TESTING) {
        Some(step) => Answer::Step(step),
        None => spend(board, signed),
    }
}

// Decision 4, and 2 where all flags are 0.
fn exchange(board: &Board, signed: Signed, reached: usize) -> Answer
    ensures { numbered_answer (Ok result)
        ≡ or_else (exchange_of board.now.geometry board.now.flash.now reached)
        (finish image_checks board.now.geometry board.now.flash.now testing signed.boot) }
{
    match board.exchange(reached) {
        Some(step) => Answer::Step(step),
        None => finish(board, signed),
    }
}

// Decisions 1 to 4.
#[tactic(auto, using(crate::proofs::ByProgress::at_refusal))]
fn swap(board: &Board, signed: Signed) -> Result<Answer, Refusal>
    ensures { numbered_answer result
        ≡ staged_decision image_checks board.now.geometry board.now.flash.now testing signed.boot signed.update }
{
    let reached = board.progress()?;
    match passed_over(board, signed, reached) {
        Ok(()) => Ok(exchange(board, signed, reached)),
        Err(why) => boot_or(board, signed, Some(why)),
    }
}

#[tactic(auto, unfolding(crate::specs::Decisions::decision))]
pub(crate) fn decide(board: &Board, signed: Signed) -> Result<Answer, Refusal>
    ensures { numbered_answer result
        ≡ decision image_checks board.now.geometry board.now.flash.now signed.boot signed.update }
{
    if is_staged(board) {
        return swap(board, signed);
    }
    if is_on_trial(board) {
        return go_back(board, signed);
    }
    boot_or(board, signed, None)
}
