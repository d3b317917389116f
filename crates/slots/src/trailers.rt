// Document 01, "Trailers and flags": a slot's trailer, and its renewal to a state.
ghost use Rattle.std.specs.Prelude.{◌+◌, ◌^◌, ◌≤◌, ◌<◌, length};

use compare::all;
use flash::Step;

// A trailer's bytes, where it lies in the flash, and how many sectors have a flag in it.
#[derive(Clone, Copy)]
pub(crate) struct Trailer<'a> {
    pub bytes: &'a [u8],
    pub at: usize,
    pub flags: usize,
    pub ghost long: { 256 ≤ length bytes.now },
    pub ghost inside: { at + length bytes.now < 2 ^ 64 },
    pub ghost few: { flags ≤ 64 },
}

impl Trailer<'_> {
    ghost use Rattle.std.specs.Prelude.{◌≡◌, ◌-◌};
    ghost use Rattle.flash.specs.Cuts.{sound};
    ghost use Rattle.slots.specs.Trailers.{sound_with, state_of, all_but_state, renewed_to, renew};

    // Whether it ends in the closing bytes.
    #[tactic(auto, using(crate::proofs::Renewals::sound_read))]
    fn is_sound(&self) -> bool
        ensures { result ≡ sound self.now.bytes.now }
    {
        self.bytes.ends_with(b"BOOT")
    }

    #[tactic(auto, unfolding(crate::specs::Trailers::sound_with))]
    pub fn is_sound_with(&self, state: u8) -> bool
        ensures { result ≡ sound_with self.now.bytes.now state }
    {
        self.is_sound() & (self.bytes[self.bytes.len() - 5] == state)
    }

    #[tactic(auto, unfolding(crate::specs::Trailers::state_of))]
    pub fn state(&self) -> Option<u8>
        ensures { result ≡ state_of self.now.bytes.now }
    {
        if self.is_sound() {
            return Some(self.bytes[self.bytes.len() - 5]);
        }
        None
    }

    // Where the state byte lies.
    pub fn state_at(&self) -> usize
        ensures { result ≡ self.now.at + length self.now.bytes.now - 5 }
    {
        self.at + self.bytes.len() - 5
    }

    // Whether all bytes are FF except the state byte, which is state.
    #[tactic(auto, using(crate::proofs::Renewals::all_read))]
    fn is_all_but_state(&self, state: u8) -> bool
        ensures { result ≡ all_but_state self.now.bytes.now state }
    {
        let end = self.bytes.len() - 4;
        let at = end - 1;
        all(0xFF, &self.bytes[..at]) & (self.bytes[at] == state) & all(0xFF, &self.bytes[end..])
    }

    #[tactic(auto, unfolding(crate::specs::Trailers::renewed_to))]
    fn is_renewed(&self, state: u8) -> bool
        ensures { result ≡ renewed_to self.now.bytes.now self.now.flags state }
    {
        self.is_sound_with(state) & self.is_new_from(0)
    }

    // The step that renews it to a state.
    #[tactic(auto, unfolding(crate::specs::Trailers::renew))]
    pub fn renewal(&self, state: u8) -> Option<Step>
        ensures { result ≡ renew self.now.at self.now.bytes.now self.now.flags state }
    {
        if self.is_renewed(state) {
            return None;
        }
        if all(0xFF, self.bytes) {
            return Some(Step::Byte(self.state_at(), state));
        }
        if self.is_all_but_state(state) {
            return Some(Step::Mark(self.at + self.bytes.len() - 4));
        }
        Some(Step::Erase(self.at))
    }
}
