// A header that is being written into a lent buffer, piece behind piece.
ghost use Rattle.std.specs.Prelude.{◌≡◌, ◌++◌, ◌+◌, ◌-◌, ◌^◌, ◌<◌, ◌≤◌, length, take, replicate};
ghost use Rattle.writer.specs.Layout.{tag_bytes};
ghost use Rattle.writer.specs.Stored.{Stored};

// The bytes before place at are written.
#[derive(Drop)]
pub(crate) struct Draft<'a> {
    pub(crate) buffer: &'a mut [u8],
    pub(crate) at: usize,
}

impl<'a> Draft<'a> {
    pub(crate) fn put(&mut self, piece: &[u8])
        requires { self.old.at + length piece.now ≤ length self.old.buffer.now }
        ensures same_reference { self.new.buffer.ghost_name ≡ self.old.buffer.ghost_name }
        ensures bytes { Stored self.old.at self.old.buffer.now piece.now self.new.at self.new.buffer.now }
    {
        // Not copy_from_slice: where the length is not known, that is C's memmove, and the C header has it that memset
        // alone is called.
        for (i, byte) in piece.iter().enumerate() {
            self.buffer[self.at + i] = *byte;
        }
        self.at += piece.len();
    }

    pub(crate) fn put_tag(&mut self, kind: u16, content: &[u8])
        requires room { self.old.at + 4 + length content.now ≤ length self.old.buffer.now }
        requires length { length content.now < 2 ^ 16 }
        ensures same_reference { self.new.buffer.ghost_name ≡ self.old.buffer.ghost_name }
        ensures bytes { Stored self.old.at self.old.buffer.now (tag_bytes kind content.now) self.new.at self.new.buffer.now }
    {
        self.put(&kind.to_le_bytes());
        self.put(&(content.len() as u16).to_le_bytes());
        self.put(content);
    }

    pub(crate) fn written(&self) -> &[u8]
        requires { self.now.at ≤ length self.now.buffer.now }
        ensures { result.now ≡ take self.now.at self.now.buffer.now }
    {
        &self.buffer[..self.at]
    }

    // Padding up to the end.
    pub(crate) fn pad(&mut self)
        requires { self.old.at ≤ length self.old.buffer.now }
        ensures same_reference { self.new.buffer.ghost_name ≡ self.old.buffer.ghost_name }
        ensures bytes { self.new.buffer.now ≡ take self.old.at self.old.buffer.now ++ replicate (length self.old.buffer.now - self.old.at) 0xFF }
    {
        self.buffer[self.at..].fill(0xFF);
    }
}
