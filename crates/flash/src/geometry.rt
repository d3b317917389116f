// Document 01, "Geometry": the three areas of a flash, and numbers 1 to 4. No sum here can wrap.
ghost use Rattle.std.specs.Prelude.{◌≡◌, true, ◌+◌, ◌^◌, ◌≤◌, ◌<◌, IfOk};
ghost use Rattle.flash.specs.Geometry.{listed, counted, aligned, fits, apart, image_size, slot_size, placed, disjoint, geometry_check};
ghost use Rattle.flash.specs.Steps.{within};
ghost use Rattle.refusal.specs.Numbers.{number_or_zero};

use refusal::Refusal;

// Each slot has count + 1 sectors of size bytes, the last one its trailer. SWAP is one sector.
#[derive(Clone, Copy, Debug, PartialEq, Eq)]
pub struct Geometry {
    pub size: usize,
    pub count: usize,
    pub boot: usize,
    pub update: usize,
    pub swap: usize,
}

fn is_listed(size: usize) -> bool
    ensures { result ≡ listed size }
{
    matches!(size, 256 | 512 | 1024 | 2048 | 4096)
}

fn is_counted(count: usize) -> bool
    ensures { result ≡ counted count }
{
    (1..=64).contains(&count)
}

pub(crate) fn is_aligned(at: usize, size: usize) -> bool
    requires { 0 < size }
    ensures { result ≡ aligned at size }
{
    at % size == 0
}

// A part of a flash: size bytes from a start on.
#[derive(Clone, Copy)]
pub(crate) struct Area {
    pub(crate) start: usize,
    pub(crate) size: usize,
}

impl Area {
    // Whether it ends by the end of len bytes.
    fn is_fitting(self, len: usize) -> bool
        ensures { result ≡ fits self.start self.size len }
    {
        self.start <= len && self.size <= len - self.start
    }

    // Whether the two have no byte in common.
    fn is_apart(self, other: Area) -> bool
        requires { (self.start + self.size < 2 ^ 64) × (other.start + other.size < 2 ^ 64) }
        ensures { result ≡ apart self.start self.size other.start other.size }
    {
        self.start + self.size <= other.start || other.start + other.size <= self.start
    }

    pub(crate) fn contains(self, at: usize) -> bool
        requires { self.start + self.size < 2 ^ 64 }
        ensures { result ≡ within at self.start self.size }
    {
        (self.start..self.start + self.size).contains(&at)
    }
}

// A geometry whose two sizes are those that there are, so that no area's size can wrap.
#[derive(Clone, Copy)]
pub(crate) struct Shape {
    pub(crate) geometry: Geometry,
    ghost listed: { listed geometry.size ≡ true },
    ghost counted: { counted geometry.count ≡ true },
}

#[tactic(auto, using(crate::proofs::Areas::placed_in), unfolding(crate::specs::Geometry::placed, crate::specs::Geometry::disjoint))]
impl Shape {
    pub(crate) fn image_size(self) -> usize
        ensures { (result ≡ image_size self.geometry) × (result ≤ 262144) }
    {
        self.geometry.count * self.geometry.size
    }

    pub(crate) fn slot_size(self) -> usize
        ensures { result ≡ slot_size self.geometry }
    {
        self.image_size() + self.geometry.size
    }

    pub(crate) fn boot(self) -> Area
        ensures { (result.start ≡ self.geometry.boot) × (result.size ≡ slot_size self.geometry) }
    {
        Area {
            start: self.geometry.boot,
            size: self.slot_size(),
        }
    }

    pub(crate) fn update(self) -> Area
        ensures { (result.start ≡ self.geometry.update) × (result.size ≡ slot_size self.geometry) }
    {
        Area {
            start: self.geometry.update,
            size: self.slot_size(),
        }
    }

    pub(crate) fn swap(self) -> Area
        ensures { (result.start ≡ self.geometry.swap) × (result.size ≡ self.geometry.size) }
    {
        Area {
            start: self.geometry.swap,
            size: self.geometry.size,
        }
    }

    fn is_placed(self, len: usize) -> bool
        ensures { result ≡ placed self.geometry len }
    {
        let g = self.geometry;
        is_aligned(g.boot, g.size)
            && is_aligned(g.update, g.size)
            && is_aligned(g.swap, g.size)
            && self.boot().is_fitting(len)
            && self.update().is_fitting(len)
            && self.swap().is_fitting(len)
    }

    fn is_disjoint(self, len: usize) -> bool
        requires { placed self.geometry len ≡ true }
        ensures { result ≡ disjoint self.geometry }
    {
        self.boot().is_apart(self.update())
            && self.boot().is_apart(self.swap())
            && self.update().is_apart(self.swap())
    }
}

// A geometry that was checked for a flash of len bytes.
#[derive(Clone, Copy)]
pub(crate) struct Layout {
    pub(crate) shape: Shape,
    pub(crate) len: usize,
    ghost accepted: { geometry_check shape.geometry len ≡ 0 },
}

#[tactic(auto, unfolding(crate::specs::Geometry::geometry_check))]
impl Layout {
    pub(crate) fn new(geometry: Geometry, len: usize) -> Result<Layout, Refusal>
        ensures layout { IfOk result (λ l. (l.shape.geometry ≡ geometry) × (l.len ≡ len)) }
        ensures number { number_or_zero result ≡ geometry_check geometry len }
    {
        if !is_listed(geometry.size) {
            return Err(Refusal::SectorSize);
        }
        if !is_counted(geometry.count) {
            return Err(Refusal::SectorCount);
        }
        let shape = Shape { geometry };
        if !shape.is_placed(len) {
            return Err(Refusal::AreaPlace);
        }
        if !shape.is_disjoint(len) {
            return Err(Refusal::AreaOverlap);
        }
        Ok(Layout { shape, len })
    }
}

// What a geometry is refused with on a flash of len bytes.
pub fn check_geometry(g: Geometry, len: usize) -> Result<(), Refusal>
    ensures { number_or_zero result ≡ geometry_check g len }
{
    Layout::new(g, len)?;
    Ok(())
}
