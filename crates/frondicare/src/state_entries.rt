// The entries that say how a flash stands: each slot's state, and whether it is mid-swap.
ghost use Rattle.std.specs.Prelude.{◌≡◌};
ghost use Rattle.loader.specs.MidSwap.{mid_swap_answer};
ghost use Rattle.refusal.specs.Numbers.{numbered};
ghost use Rattle.slots.specs.Answers.{state_answer};
ghost use Rattle.slots.specs.declared.places.Slot.TheVariants.{Boot, Update};
ghost use Rattle.frondicare.specs.States.{flat_state};
ghost use Rattle.frondicare.specs.Steps.{geometry_of};

use crate::flash_entries::geometry_of;
use refusal::Refusal;
use slots::Slot;

// No byte, so that it is never taken for a state.
const NO_STATE: u32 = 256;

// The state byte of a sound trailer; NO_STATE where it is not sound, or where number says why the geometry
// is refused.
#[repr(C)]
#[derive(Clone, Copy, Debug, PartialEq, Eq)]
pub struct FlatState {
    pub number: u32,
    pub state: u32,
}

impl From<Result<Option<u8>, Refusal>> for FlatState {
    ghost from_gives = { λ state flat. flat ≡ flat_state (numbered state) };

    fn from(state: Result<Option<u8>, Refusal>) -> FlatState {
        match state {
            Ok(Some(byte)) => FlatState {
                number: 0,
                state: byte as u32,
            },
            Ok(None) => FlatState {
                number: 0,
                state: NO_STATE,
            },
            Err(refusal) => FlatState {
                number: refusal.number(),
                state: NO_STATE,
            },
        }
    }
}

// BOOT's state.
#[unsafe(no_mangle)]
pub extern "C" fn frondicare_boot_state(
    flash: &[u8],
    sector_size: usize,
    sector_count: usize,
    boot: usize,
    update: usize,
    swap: usize,
) -> FlatState
    ensures { result ≡ flat_state (state_answer (geometry_of sector_size sector_count boot update swap) flash.now Boot) }
{
    let g = geometry_of(sector_size, sector_count, boot, update, swap);
    slots::state(flash, g, Slot::Boot).into()
}

// UPDATE's state.
#[unsafe(no_mangle)]
pub extern "C" fn frondicare_update_state(
    flash: &[u8],
    sector_size: usize,
    sector_count: usize,
    boot: usize,
    update: usize,
    swap: usize,
) -> FlatState
    ensures { result ≡ flat_state (state_answer (geometry_of sector_size sector_count boot update swap) flash.now Update) }
{
    let g = geometry_of(sector_size, sector_count, boot, update, swap);
    slots::state(flash, g, Slot::Update).into()
}

// Whether it is mid-swap; not where the geometry is refused.
#[unsafe(no_mangle)]
pub extern "C" fn frondicare_in_mid_swap(
    flash: &[u8],
    sector_size: usize,
    sector_count: usize,
    boot: usize,
    update: usize,
    swap: usize,
) -> bool
    ensures { result ≡ mid_swap_answer (geometry_of sector_size sector_count boot update swap) flash.now }
{
    let g = geometry_of(sector_size, sector_count, boot, update, swap);
    loader::in_mid_swap(flash, g)
}
