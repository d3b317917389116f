// Document 01, "Geometry": the sectors of the three areas.
#[derive(Clone, Copy, Debug, PartialEq, Eq)]
pub enum Slot {
    Boot,
    Update,
}

// A sector of the three areas. Sector count of a slot is its trailer.
#[derive(Clone, Copy, Debug, PartialEq, Eq)]
pub enum Place {
    Sector(Slot, usize),
    Swap,
}
