// Document 01, "Trailers and flags": the states that the decisions go by.
ghost use Rattle.std.specs.Prelude.{◌≡◌};
ghost use Rattle.loader.specs.States.{staged, on_trial};

use slots::{Board, Slot};

pub const UPDATING: u8 = 0x70;

pub(crate) const SPENT: u8 = 0x30;

pub(crate) const TESTING: u8 = 0x10;

pub(crate) const SUCCESS: u8 = 0x00;

pub(crate) fn is_staged(board: &Board) -> bool
    ensures { result ≡ staged board.now.geometry board.now.flash.now }
{
    board.is_sound_with(Slot::Update, UPDATING)
}

pub(crate) fn is_on_trial(board: &Board) -> bool
    ensures { result ≡ on_trial board.now.geometry board.now.flash.now }
{
    board.is_sound_with(Slot::Boot, TESTING)
}
