// A flash with a geometry that its check accepts: its sectors, and what the loader reads of them.
ghost use Rattle.std.specs.Prelude.{◌≡◌, length};
ghost use Rattle.flash.specs.Geometry.{geometry_check};

use crate::places::{Place, Slot};
use crate::trailers::Trailer;
use flash::{Geometry, Step, check_geometry};
use refusal::Refusal;

#[derive(Clone, Copy)]
pub struct Board<'a> {
    pub flash: &'a [u8],
    pub geometry: Geometry,
    pub ghost accepted: { geometry_check geometry (length flash.now) ≡ 0 },
}

impl<'a> Board<'a> {
    ghost use Rattle.std.specs.Prelude.{◌+◌, IfOk};
    ghost use Rattle.refusal.specs.Numbers.{number_or_zero, numbered};
    ghost use Rattle.slots.specs.Flags.{flags, progress_of};
    ghost use Rattle.slots.specs.Places.{start, offset, Within, SectorIs, bytes_at, image_of, trailer_of};
    ghost use Rattle.slots.specs.Trailers.{state_at, sound_with, state_of, flag_count, renewal_of};
    ghost use Rattle.slots.specs.declared.places.Place.TheVariants.{Sector};
    ghost use Rattle.slots.specs.declared.places.Slot.TheVariants.{Update};

    pub fn new(flash: &'a [u8], geometry: Geometry) -> Result<Board<'a>, Refusal>
        ensures board { IfOk result (λ b. (b.flash.now ≡ flash.now) × (b.geometry ≡ geometry)) }
        ensures number { number_or_zero result ≡ geometry_check geometry (length flash.now) }
    {
        check_geometry(geometry, flash.len())?;
        Ok(Board { flash, geometry })
    }

    fn start(&self, slot: Slot) -> usize
        ensures { result ≡ start self.now.geometry slot }
    {
        match slot {
            Slot::Boot => self.geometry.boot,
            Slot::Update => self.geometry.update,
        }
    }

    #[tactic(auto, using(crate::proofs::Boards::sector_inside), unfolding(crate::specs::Places::offset))]
    pub(crate) fn offset(&self, place: Place) -> usize
        requires { Within self.now.geometry place }
        ensures { result ≡ offset self.now.geometry place }
    {
        match place {
            Place::Sector(slot, i) => self.start(slot) + i * self.geometry.size,
            Place::Swap => self.geometry.swap,
        }
    }

    #[tactic(auto, using(crate::proofs::Boards::sector_inside, crate::proofs::Boards::sector_read), unfolding(crate::specs::Places::bytes_at))]
    pub(crate) fn sector(&self, place: Place) -> &'a [u8]
        requires { Within self.now.geometry place }
        ensures { SectorIs self.now.geometry (bytes_at self.now.geometry self.now.flash.now place) result.now }
    {
        let from = self.offset(place);
        &self.flash[from..from + self.geometry.size]
    }

    // A slot's image.
    #[tactic(auto, using(crate::proofs::Boards::image_inside), unfolding(crate::specs::Places::image_of))]
    pub fn image(&self, slot: Slot) -> &'a [u8]
        ensures { result.now ≡ image_of self.now.geometry self.now.flash.now slot }
    {
        let from = self.start(slot);
        &self.flash[from..from + self.geometry.count * self.geometry.size]
    }

    // BOOT's trailer has no flags.
    pub(crate) fn trailer(&self, slot: Slot) -> Trailer<'a>
        ensures bytes { SectorIs self.now.geometry (trailer_of self.now.geometry self.now.flash.now slot) result.bytes.now }
        ensures at { result.at ≡ offset self.now.geometry (Sector slot self.now.geometry.count) }
        ensures flags { result.flags ≡ flag_count self.now.geometry slot }
    {
        let place = Place::Sector(slot, self.geometry.count);
        let flags = match slot {
            Slot::Boot => 0,
            Slot::Update => self.geometry.count,
        };
        Trailer {
            bytes: self.sector(place),
            at: self.offset(place),
            flags,
        }
    }

    // Whether a slot's trailer is sound with a state.
    pub fn is_sound_with(&self, slot: Slot, state: u8) -> bool
        ensures { result ≡ sound_with (trailer_of self.now.geometry self.now.flash.now slot) state }
    {
        self.trailer(slot).is_sound_with(state)
    }

    // A slot's state byte, where its trailer is sound.
    pub fn state(&self, slot: Slot) -> Option<u8>
        ensures { result ≡ state_of (trailer_of self.now.geometry self.now.flash.now slot) }
    {
        self.trailer(slot).state()
    }

    // Where a slot's state byte lies.
    #[tactic(auto, using(crate::proofs::Boards::board_long), unfolding(crate::specs::Trailers::state_at))]
    pub fn state_at(&self, slot: Slot) -> usize
        ensures { result ≡ state_at self.now.geometry slot }
    {
        self.trailer(slot).state_at()
    }

    // The next step that renews a slot's trailer to a state, or none where it is renewed. A state is a byte and no
    // enum: on flash any byte may stand, and the answer is promised for each.
    pub fn renewal(&self, slot: Slot, state: u8) -> Option<Step>
        ensures { result ≡ renewal_of self.now.geometry self.now.flash.now slot state }
    {
        self.trailer(slot).renewal(state)
    }

    // How far the exchange has come, by the flags: three for each finished sector, one or two in the
    // current one.
    pub fn progress(&self) -> Result<usize, Refusal>
        ensures { numbered result
            ≡ progress_of (flags self.now.geometry.count (trailer_of self.now.geometry self.now.flash.now Update)) }
    {
        self.trailer(Slot::Update).progress()
    }
}
