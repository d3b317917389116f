// Document 01, "The next step": trigger and confirm.
ghost use Rattle.std.specs.Prelude.{◌≡◌};
ghost use Rattle.refusal.specs.Numbers.{numbered};
ghost use Rattle.loader.specs.Requests.{swap_begun, triggering, confirming};

use crate::states::{SUCCESS, UPDATING, is_on_trial, is_staged};
use flash::Step;
use refusal::Refusal;
use slots::{Board, Slot};

// Whether UPDATE is sound with 70 and some flag isn't F.
#[tactic(auto, using(crate::proofs::Tested::all_new), unfolding(crate::specs::Requests::swap_begun))]
fn is_swap_begun(board: &Board) -> bool
    ensures { result ≡ swap_begun board.now.geometry board.now.flash.now }
{
    is_staged(board) && board.progress() != Ok(0)
}

#[tactic(auto, unfolding(crate::specs::Requests::triggering))]
pub(crate) fn trigger(board: &Board) -> Result<Option<Step>, Refusal>
    ensures { numbered result ≡ triggering board.now.geometry board.now.flash.now }
{
    if is_swap_begun(board) {
        return Err(Refusal::SwapBegun);
    }
    if is_on_trial(board) {
        return Err(Refusal::OnTrial);
    }
    Ok(board.renewal(Slot::Update, UPDATING))
}

#[tactic(auto, unfolding(crate::specs::Requests::confirming))]
pub(crate) fn confirm(board: &Board) -> Result<Option<Step>, Refusal>
    ensures { numbered result ≡ confirming board.now.geometry board.now.flash.now }
{
    if is_swap_begun(board) {
        return Err(Refusal::SwapBegun);
    }
    if is_on_trial(board) {
        return Ok(Some(Step::Byte(board.state_at(Slot::Boot), SUCCESS)));
    }
    if board.is_sound_with(Slot::Boot, SUCCESS) {
        return Ok(None);
    }
    Err(Refusal::NothingOnTrial)
}
