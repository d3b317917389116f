// What the loader reads of a flash: its slots' images and trailers, and the flags in UPDATE's trailer.
// A `Board` is a flash whose geometry is accepted. Every public function is total: the geometry's numbers 1 to 4
// first, then what document 01 says.
#![tactic(auto)]

mod board;
mod exchanges;
mod flags;
mod places;
mod trailers;

ghost use Rattle.std.specs.Prelude.{◌≡◌};
ghost use Rattle.refusal.specs.Numbers.{numbered};
ghost use Rattle.slots.specs.Answers.{image_answer, sound_answer, state_answer, state_at_answer, renewal_answer, progress_answer, exchange_answer, next_flag_answer};

pub use board::Board;
use flash::{Geometry, Step};
pub use places::{Place, Slot};
use refusal::Refusal;

// A slot's image, or the empty part where the geometry is refused. This call, the next and state_at can't fail; who
// wants the refusal takes a `Board`.
#[tactic(auto, using(crate::proofs::Boards::refused), unfolding(crate::specs::Answers::image_answer))]
pub fn image(flash: &[u8], g: Geometry, slot: Slot) -> &[u8]
    ensures { result.now ≡ image_answer g flash.now slot }
{
    match Board::new(flash, g) {
        Ok(board) => board.image(slot),
        Err(_) => &flash[..0],
    }
}

// Whether a slot's trailer is sound with a state; not where the geometry is refused.
#[tactic(auto, using(crate::proofs::Boards::refused), unfolding(crate::specs::Answers::sound_answer))]
pub fn is_sound_with(flash: &[u8], g: Geometry, slot: Slot, state: u8) -> bool
    ensures { result ≡ sound_answer g flash.now slot state }
{
    match Board::new(flash, g) {
        Ok(board) => board.is_sound_with(slot, state),
        Err(_) => false,
    }
}

// A slot's state byte, where its trailer is sound.
#[tactic(auto, using(crate::proofs::Boards::refused), unfolding(crate::specs::Answers::state_answer))]
pub fn state(flash: &[u8], g: Geometry, slot: Slot) -> Result<Option<u8>, Refusal>
    ensures { numbered result ≡ state_answer g flash.now slot }
{
    Ok(Board::new(flash, g)?.state(slot))
}

// Where a slot's state byte lies, or 0 where the geometry is refused.
#[tactic(auto, using(crate::proofs::Boards::refused), unfolding(crate::specs::Answers::state_at_answer))]
pub fn state_at(flash: &[u8], g: Geometry, slot: Slot) -> usize
    ensures { result ≡ state_at_answer g flash.now slot }
{
    match Board::new(flash, g) {
        Ok(board) => board.state_at(slot),
        Err(_) => 0,
    }
}

// The next step that renews a slot's trailer to a state, or none where it is renewed.
#[tactic(auto, using(crate::proofs::Boards::refused), unfolding(crate::specs::Answers::renewal_answer))]
pub fn renewal(flash: &[u8], g: Geometry, slot: Slot, state: u8) -> Result<Option<Step>, Refusal>
    ensures { numbered result ≡ renewal_answer g flash.now slot state }
{
    Ok(Board::new(flash, g)?.renewal(slot, state))
}

// How far the exchange has come, by the flags: three for each finished sector, one or two in the
// current one. 20 where they are ill-formed.
#[tactic(auto, using(crate::proofs::Boards::refused), unfolding(crate::specs::Answers::progress_answer))]
pub fn progress(flash: &[u8], g: Geometry) -> Result<usize, Refusal>
    ensures { numbered result ≡ progress_answer g flash.now }
{
    Board::new(flash, g)?.progress()
}

// The step that writes the flag after a progress, or none where all flags are 0.
#[tactic(auto, using(crate::proofs::Boards::refused), unfolding(crate::specs::Answers::next_flag_answer))]
pub fn next_flag(flash: &[u8], g: Geometry, reached: usize) -> Result<Option<Step>, Refusal>
    ensures { numbered result ≡ next_flag_answer g flash.now reached }
{
    Ok(Board::new(flash, g)?.next_flag(reached))
}

// The next step of the exchange at a progress: a copy with its erase before and its flag after, or
// none where all flags are 0.
#[tactic(auto, using(crate::proofs::Boards::refused), unfolding(crate::specs::Answers::exchange_answer))]
pub fn exchange(flash: &[u8], g: Geometry, reached: usize) -> Result<Option<Step>, Refusal>
    ensures { numbered result ≡ exchange_answer g flash.now reached }
{
    Ok(Board::new(flash, g)?.exchange(reached))
}
