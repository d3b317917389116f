// Document 01, "Flash steps and cuts": which steps are accepted, and a step carried out.
ghost use Rattle.std.specs.Prelude.{◌≡◌, true, ◌+◌, ◌%◌, ◌≤◌, length, take, drop};
ghost use Rattle.flash.specs.Bytes.{blank, overlay, write};
ghost use Rattle.flash.specs.Steps.{sector_start, trailer_byte, mark_place, accepted, applied};
ghost use Rattle.flash.specs.Valid.{Apart};

use crate::bytes::{erase, write};
use crate::geometry::{Area, Layout, is_aligned};
use std::fmt;

// A step with its offsets; a copy goes from the first to the second.
#[derive(Clone, Copy, Debug, PartialEq, Eq)]
pub enum Step {
    Erase(usize),
    Copy(usize, usize),
    Byte(usize, u8),
    Mark(usize),
}

impl fmt::Display for Step {
    fn fmt<W: fmt::Write>(&self, f: &mut fmt::Formatter<W>) -> fmt::Result {
        match self {
            Step::Erase(at) => write!(f, "E {at}"),
            Step::Copy(from, to) => write!(f, "C {from} {to}"),
            Step::Byte(at, value) => write!(f, "B {at} {value}"),
            Step::Mark(at) => write!(f, "M {at}"),
        }
    }
}

#[tactic(auto, using(crate::proofs::Areas::areas_in), unfolding(crate::specs::Steps::sector_start, crate::specs::Steps::trailer_byte, crate::specs::Steps::mark_place))]
impl Layout {
    fn is_sector_start(self, at: usize) -> bool
        ensures { result ≡ sector_start self.shape.geometry at }
    {
        is_aligned(at, self.shape.geometry.size)
            && (self.shape.boot().contains(at)
                || self.shape.update().contains(at)
                || self.shape.swap().contains(at))
    }

    fn is_trailer_byte(self, at: usize) -> bool
        ensures { result ≡ trailer_byte self.shape.geometry at }
    {
        let g = self.shape.geometry;
        let image = self.shape.image_size();
        let boot = Area {
            start: g.boot + image,
            size: g.size,
        };
        let update = Area {
            start: g.update + image,
            size: g.size,
        };
        boot.contains(at) || update.contains(at)
    }

    fn is_mark_place(self, at: usize) -> bool
        ensures { result ≡ mark_place self.shape.geometry at }
    {
        let g = self.shape.geometry;
        let slot = self.shape.slot_size();
        at == g.boot + slot - 4 || at == g.update + slot - 4
    }

    pub(crate) fn is_accepted(self, step: Step) -> bool
        ensures { result ≡ accepted self.shape.geometry step }
    {
        match step {
            Step::Erase(at) => self.is_sector_start(at),
            Step::Copy(from, to) => {
                self.is_sector_start(from) && self.is_sector_start(to) && from != to
            }
            Step::Byte(at, _) => self.is_trailer_byte(at),
            Step::Mark(at) => self.is_mark_place(at),
        }
    }

    // An accepted step, whole.
    #[tactic(auto, using(crate::proofs::Targets::fits_by_variant), unfolding(crate::specs::Steps::closing))]
    pub(crate) fn carry_out(self, flash: &mut [u8], step: Step)
        requires { (length flash.old ≡ self.len) × (accepted self.shape.geometry step ≡ true) }
        ensures { flash.new ≡ applied self.shape.geometry flash.old step }
    {
        match step {
            Step::Erase(at) => erase_at(flash, at, self.shape.geometry.size),
            Step::Copy(from, to) => copy_sector(flash, from, to, self.shape.geometry.size),
            Step::Byte(at, value) => write_at(flash, at, &[value]),
            Step::Mark(at) => write_at(flash, at, b"BOOT"),
        }
    }
}

// Copies a sector by pages of 256 bytes: the stack is small, and a slice is not lent twice.
fn copy_sector(flash: &mut [u8], from: usize, to: usize, z: usize)
    requires { (z % 256 ≡ 0) × (from + z ≤ length flash.old) × (to + z ≤ length flash.old) × Apart from z to z }
    ensures { flash.new ≡ write flash.old to (take z (drop from flash.old)) }
{
    let mut page = [0u8; 256];
    for k in (0..z).step_by(256) {
        page.copy_from_slice(&flash[from + k..from + k + 256]);
        write(&mut flash[to..], k, &page);
    }
}

#[tactic(auto, using(crate::proofs::Loops::lent_on))]
fn erase_at(flash: &mut [u8], at: usize, z: usize)
    requires { at + z ≤ length flash.old }
    ensures { flash.new ≡ overlay flash.old at (blank z) }
{
    erase(&mut flash[at..], z);
}

#[tactic(auto, using(crate::proofs::Loops::lent_on))]
fn write_at(flash: &mut [u8], at: usize, data: &[u8])
    requires { at + length «data».now ≤ length flash.old }
    ensures { flash.new ≡ write flash.old at «data».now }
{
    write(&mut flash[at..], 0, data);
}
