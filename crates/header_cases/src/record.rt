// What stands in the input.
use header::{byte_at, number_at};
use records::{copy, part};
use writer::{Contents, Fields};

// A case: a name's length (1 byte), the name, a head, the body (a header, an image or a firmware), a custom run, and for
// D and H a hint (32 bytes) and a signature (64).
#[derive(Clone, Copy)]
pub(crate) struct Case<'a> {
    pub(crate) name: &'a [u8],
    pub(crate) head: Head,
    pub(crate) body: &'a [u8],
    pub(crate) custom: &'a [u8],
    pub(crate) hint: [u8; 32],
    pub(crate) signature: [u8; 64],
}

// The numbers behind a case's name: a command letter (1 byte), the signature checker's answer or for L whether any type
// will do (1), a type (2), the body's length (4), the custom run's length (4), version (4), timestamp (8), firmware type
// (2), the buffer's length or for L the start (2).
#[derive(Clone, Copy)]
pub(crate) struct Head {
    pub(crate) command: u8,
    pub(crate) flag: bool,
    pub(crate) kind: u16,
    body_len: u32,
    custom_len: u32,
    fields: Fields,
    pub(crate) number: u16,
}

const HEAD: usize = 28;

fn head_of(s: &[u8]) -> Head {
    Head {
        command: byte_at(s, 0),
        flag: byte_at(s, 1) == 1,
        kind: number_at(s, 2),
        body_len: number_at(s, 4),
        custom_len: number_at(s, 8),
        fields: Fields {
            version: number_at(s, 12),
            timestamp: number_at(s, 16),
            firmware_type: number_at(s, 24),
        },
        number: number_at(s, 26),
    }
}

fn first_bytes<const N: usize>(s: &[u8]) -> [u8; N] {
    let mut bytes = [0; N];
    copy(s, &mut bytes);
    bytes
}

pub(crate) fn first_case(s: &[u8]) -> (Case<'_>, usize) {
    let name_len = byte_at(s, 0) as usize;
    let head = head_of(part(s, 1 + name_len, HEAD));
    let body = 1 + name_len + HEAD;
    let custom = body + head.body_len as usize;
    let keys = custom + head.custom_len as usize;
    let end = match head.command {
        b'D' | b'H' => keys + 96,
        _ => keys,
    };
    let keys = part(s, keys, end - keys);
    let case = Case {
        name: part(s, 1, name_len),
        head,
        body: part(s, body, head.body_len as usize),
        custom: part(s, custom, head.custom_len as usize),
        hint: first_bytes(part(keys, 0, 32)),
        signature: first_bytes(part(keys, 32, 64)),
    };
    (case, end)
}

impl Case<'_> {
    pub(crate) fn contents(&self) -> Contents<'_> {
        Contents {
            fields: self.head.fields,
            firmware: self.body,
            custom: self.custom,
            hint: &self.hint,
        }
    }
}
