// What stands in the input.
use flash::Geometry;
use header::{byte_at, number_at};
use records::part;
use slots::Slot;

// A case: a name's length (1 byte), the name, a head, the patches' length (2 bytes) and the patches.
#[derive(Clone, Copy)]
pub(crate) struct Case<'a> {
    pub(crate) name: &'a [u8],
    pub(crate) head: Head,
    pub(crate) patches: &'a [u8],
}

// The numbers behind a case's name: a command letter (1 byte), a kind (1: an op or a slot), a value (2, of which a byte
// counts: a byte's value, or a state), and of 8 bytes each the sector size, the sector count, BOOT, UPDATE, SWAP, the
// flash's length, an offset or a progress, and a copy's target.
#[derive(Clone, Copy)]
pub(crate) struct Head {
    pub(crate) command: u8,
    pub(crate) kind: u8,
    pub(crate) value: u8,
    pub(crate) geometry: Geometry,
    pub(crate) flash_len: usize,
    pub(crate) at: usize,
    pub(crate) to: usize,
}

const HEAD: usize = 68;

// Bytes that lie over a flash from an offset on: the offset (2 bytes), their length (2) and the bytes.
#[derive(Clone, Copy)]
pub(crate) struct Patch<'a> {
    pub(crate) at: usize,
    pub(crate) bytes: &'a [u8],
}

pub(crate) fn first_case(s: &[u8]) -> (Case<'_>, usize) {
    let name_len = byte_at(s, 0) as usize;
    let head = 1 + name_len;
    let patches = head + HEAD + 2;
    let patches_len = number_at::<u16>(s, head + HEAD) as usize;
    let case = Case {
        name: part(s, 1, name_len),
        head: head_of(part(s, head, HEAD)),
        patches: part(s, patches, patches_len),
    };
    (case, patches + patches_len)
}

pub(crate) fn first_patch(s: &[u8]) -> (Patch<'_>, usize) {
    let len = number_at::<u16>(s, 2) as usize;
    let patch = Patch {
        at: number_at::<u16>(s, 0) as usize,
        bytes: part(s, 4, len),
    };
    (patch, 4 + len)
}

fn head_of(s: &[u8]) -> Head {
    let number = |p| number_at::<u64>(s, p) as usize;
    Head {
        command: byte_at(s, 0),
        kind: byte_at(s, 1),
        value: byte_at(s, 2),
        geometry: Geometry {
            size: number(4),
            count: number(12),
            boot: number(20),
            update: number(28),
            swap: number(36),
        },
        flash_len: number(44),
        at: number(52),
        to: number(60),
    }
}

impl Head {
    pub(crate) fn slot(&self) -> Slot {
        match self.kind {
            0 => Slot::Boot,
            _ => Slot::Update,
        }
    }
}

impl Patch<'_> {
    // As far as the flash goes.
    pub(crate) fn lay(self, flash: &mut [u8]) {
        for (to, byte) in flash.iter_mut().skip(self.at).zip(self.bytes) {
            *to = *byte;
        }
    }
}
