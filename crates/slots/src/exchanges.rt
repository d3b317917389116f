// Document 01, decision 4: a sector is exchanged by three copies, from UPDATE to SWAP, from BOOT to
// UPDATE and from SWAP to BOOT, and a flag is written after each.
ghost use Rattle.std.specs.Prelude.{◌≡◌, ◌*◌, ◌/◌, ◌≤◌, ◌<◌, MatchOption};
ghost use Rattle.slots.specs.Exchange.{source, target, exchange_step, exchange_of, next_flag_of};
ghost use Rattle.slots.specs.FlagKinds.{value};
ghost use Rattle.slots.specs.Flags.{flag_of};
ghost use Rattle.slots.specs.Places.{Within};

use crate::board::Board;
use crate::flags::Flag;
use crate::places::{Place, Slot};
use compare::{all, same};
use flash::Step;

impl Board<'_> {
    // From where to where sector i is copied where its flag is the lowest that isn't 0.
    #[tactic(auto, unfolding(crate::specs::Exchange::source, crate::specs::Exchange::target))]
    fn copy_places(&self, i: usize, flag: Flag) -> (Place, Place)
        requires { i < self.now.geometry.count }
        ensures from { (result.0 ≡ source i (value flag)) × Within self.now.geometry result.0 }
        ensures to { (result.1 ≡ target i (value flag)) × Within self.now.geometry result.1 }
    {
        match flag {
            Flag::New => (Place::Sector(Slot::Update, i), Place::Swap),
            Flag::Swapping => (Place::Sector(Slot::Boot, i), Place::Sector(Slot::Update, i)),
            Flag::Backup | Flag::Updated => (Place::Swap, Place::Sector(Slot::Boot, i)),
        }
    }

    // The step that is due where sector i's flag is the lowest that isn't 0.
    #[tactic(auto, unfolding(crate::specs::Exchange::exchange_step, crate::specs::Flags::flag_step_of))]
    fn exchange_step(&self, i: usize, flag: Flag) -> Step
        requires { i < self.now.geometry.count }
        ensures { result ≡ exchange_step self.now.geometry self.now.flash.now i (value flag) }
    {
        let (from, to) = self.copy_places(i, flag);
        let target = self.sector(to);
        if same(self.sector(from), target) {
            return self.trailer(Slot::Update).flag_step(i, flag.next());
        }
        if all(0xFF, target) {
            return Step::Copy(self.offset(from), self.offset(to));
        }
        Step::Erase(self.offset(to))
    }

    // The current sector at a progress and its flag, or none where all are finished.
    fn current(&self, reached: usize) -> Option<(usize, Flag)>
        ensures { MatchOption result (3 * self.now.geometry.count ≤ reached) (λ c.
            (c.0 ≡ reached / 3) × (value c.1 ≡ flag_of reached) × (reached < 3 * self.now.geometry.count)) }
    {
        let i = reached / 3;
        if self.geometry.count <= i {
            return None;
        }
        Some((i, Flag::at(reached)))
    }

    // The next step of the exchange at a progress: a copy with its erase before and its flag after, or
    // none where all flags are 0.
    #[tactic(auto, unfolding(crate::specs::Exchange::exchange_of))]
    pub fn exchange(&self, reached: usize) -> Option<Step>
        ensures { result ≡ exchange_of self.now.geometry self.now.flash.now reached }
    {
        let (i, flag) = self.current(reached)?;
        Some(self.exchange_step(i, flag))
    }

    // The step that writes the flag after a progress, or none where all flags are 0.
    #[tactic(auto, unfolding(crate::specs::Exchange::next_flag_of, crate::specs::Flags::flag_step_of))]
    pub fn next_flag(&self, reached: usize) -> Option<Step>
        ensures { result ≡ next_flag_of self.now.geometry self.now.flash.now reached }
    {
        let (i, flag) = self.current(reached)?;
        Some(self.trailer(Slot::Update).flag_step(i, flag.next()))
    }
}
