// The entries on a flash. C has no geometry and no step: both come as numbers.
ghost use Rattle.std.specs.Prelude.{None, ◌≡◌, length};
ghost use Rattle.flash.specs.Geometry.{geometry_check};
ghost use Rattle.refusal.specs.Numbers.{number_or_zero};
ghost use Rattle.frondicare.specs.Steps.{geometry_of, step_of, number_of, flash_left};

use crate::number_or_zero;
use flash::{Geometry, Step, apply_step, check_geometry};
use refusal::Refusal;

// A step's op.
pub(crate) const ERASE: u32 = 0;

pub(crate) const COPY: u32 = 1;

pub(crate) const BYTE: u32 = 2;

pub(crate) const MARK: u32 = 3;

pub(crate) fn geometry_of(
    size: usize,
    count: usize,
    boot: usize,
    update: usize,
    swap: usize,
) -> Geometry
    ensures { result ≡ geometry_of size count boot update swap }
{
    Geometry {
        size,
        count,
        boot,
        update,
        swap,
    }
}

// The number that a geometry is refused with on a flash of flash_len bytes, or 0.
#[unsafe(no_mangle)]
pub extern "C" fn frondicare_check_geometry(
    flash_len: usize,
    sector_size: usize,
    sector_count: usize,
    boot: usize,
    update: usize,
    swap: usize,
) -> u32
    ensures { result ≡ geometry_check (geometry_of sector_size sector_count boot update swap) flash_len }
{
    number_or_zero(check_geometry(
        geometry_of(sector_size, sector_count, boot, update, swap),
        flash_len,
    ))
}

// The step that an op and its arguments stand for. A value above 255 is no byte.
#[tactic(auto, unfolding(crate::specs::Steps::step_of))]
pub(crate) fn step_of(op: u32, at: usize, to: usize, value: u32) -> Option<Step>
    ensures { result ≡ step_of op at to value }
{
    match op {
        ERASE => Some(Step::Erase(at)),
        COPY => Some(Step::Copy(at, to)),
        BYTE => Some(Step::Byte(at, u8::try_from(value).ok()?)),
        MARK => Some(Step::Mark(at)),
        _ => None,
    }
}

// What is answered where there is no step: the geometry's refusal first.
fn no_step(g: Geometry, len: usize) -> Result<(), Refusal>
    ensures { number_or_zero result ≡ number_of g len None }
{
    check_geometry(g, len)?;
    Err(Refusal::Step)
}

// Carries a step out and answers 0, or answers document 01's number and changes nothing.
#[unsafe(no_mangle)]
pub extern "C" fn frondicare_apply_step(
    flash: &mut [u8],
    sector_size: usize,
    sector_count: usize,
    boot: usize,
    update: usize,
    swap: usize,
    op: u32,
    at: usize,
    to: usize,
    value: u32,
) -> u32
    ensures number { result ≡ number_of (geometry_of sector_size sector_count boot update swap) (length flash.old) (step_of op at to value) }
    ensures bytes { flash.new ≡ flash_left (geometry_of sector_size sector_count boot update swap) flash.old (step_of op at to value) }
{
    let g = geometry_of(sector_size, sector_count, boot, update, swap);
    match step_of(op, at, to, value) {
        Some(step) => number_or_zero(apply_step(flash, g, step)),
        None => number_or_zero(no_step(g, flash.len())),
    }
}
