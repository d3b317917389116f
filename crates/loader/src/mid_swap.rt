// Document 01, "What the loader covers": when it is mid-swap.
ghost use Rattle.std.specs.Prelude.{◌≡◌};
ghost use Rattle.loader.specs.MidSwap.{mid_swap};

use crate::states::is_staged;
use slots::Board;

// Whether UPDATE is sound with 70 and its flags are neither all F nor all 0; they may be ill-formed.
// (Beside is_swap_begun, which says less: one line each over the progress, and what they say differs.)
#[tactic(auto, using(crate::proofs::Tested::progress_tests), unfolding(crate::specs::MidSwap::mid_swap))]
pub(crate) fn is_mid_swap(board: &Board) -> bool
    ensures { result ≡ mid_swap board.now.geometry board.now.flash.now }
{
    if !is_staged(board) {
        return false;
    }
    let progress = board.progress();
    progress != Ok(0) && progress != Ok(3 * board.geometry.count)
}
