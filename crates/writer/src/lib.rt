// The writer of an image's header (document 01, "Header"), in two calls: the digest that is to be
// signed, and the header itself.
#![tactic(auto)]

mod checks;
mod draft;

ghost use Rattle.std.specs.Prelude.{◌≡◌, ◌^◌, ◌<◌, ◌≤◌, length, take};
ghost use Rattle.refusal.specs.Numbers.{numbered, number_or_zero};
ghost use Rattle.writer.specs.Layout.{fixed_part, covered_part, digest_to_sign};
ghost use Rattle.writer.specs.Stored.{Stored};
ghost use Rattle.writer.specs.Writer.{fields_check, to_sign, write_check, buffer_after};

use checks::{check_custom, check_firmware};
use draft::Draft;
use refusal::Refusal;

// The numbers that a header holds beside the firmware's size. C lends them as they are.
#[repr(C)]
#[derive(Clone, Copy, Debug, PartialEq, Eq)]
pub struct Fields {
    pub version: u32,
    pub timestamp: u64,
    pub firmware_type: u16,
}

// What a header is written from: its numbers, the firmware behind it, the run of custom tags and the hint of the key.
#[derive(Clone, Copy)]
pub struct Contents<'a> {
    pub fields: Fields,
    pub firmware: &'a [u8],
    pub custom: &'a [u8],
    pub hint: &'a [u8; 32],
}

impl<'a> Contents<'a> {
    #[tactic(auto, unfolding(crate::specs::Writer::fields_check))]
    // What both calls refuse.
    fn check(&self) -> Result<(), Refusal>
        ensures { number_or_zero result ≡ fields_check self.now.firmware.now self.now.custom.now }
    {
        check_firmware(self.firmware)?;
        check_custom(self.custom)
    }

    // What the second call refuses.
    #[tactic(auto, unfolding(crate::specs::Writer::write_check))]
    fn check_write(&self, buffer: &[u8]) -> Result<(), Refusal>
        ensures { number_or_zero result ≡ write_check buffer.now self.now.firmware.now self.now.custom.now }
    {
        if buffer.len() != header::LENGTH {
            return Err(Refusal::Length);
        }
        self.check()
    }

    // The mark, the firmware's size and the numbers.
    #[tactic(auto, using(crate::proofs::Stores::tag_length))]
    fn put_fixed(&self, draft: &mut Draft)
        requires start { draft.old.at ≡ 0 }
        requires room { 34 ≤ length draft.old.buffer.now }
        requires size { length self.now.firmware.now < 2 ^ 32 }
        ensures same_reference { draft.new.buffer.ghost_name ≡ draft.old.buffer.ghost_name }
        ensures bytes { Stored 0 draft.old.buffer.now (fixed_part self.now.fields self.now.firmware.now) draft.new.at draft.new.buffer.now }
    {
        draft.put(b"WOLF");
        draft.put(&(self.firmware.len() as u32).to_le_bytes());
        draft.put_tag(header::VERSION, &self.fields.version.to_le_bytes());
        draft.put_tag(header::TIMESTAMP, &self.fields.timestamp.to_le_bytes());
        draft.put_tag(
            header::FIRMWARE_TYPE,
            &self.fields.firmware_type.to_le_bytes(),
        );
    }

    // What the digest covers.
    fn put_covered(&self, draft: &mut Draft)
        requires start { draft.old.at ≡ 0 }
        requires room { length draft.old.buffer.now ≡ 256 }
        requires accepted { fields_check self.now.firmware.now self.now.custom.now ≡ 0 }
        ensures same_reference { draft.new.buffer.ghost_name ≡ draft.old.buffer.ghost_name }
        ensures hint { length self.now.hint.now ≡ 32 }
        ensures bytes { Stored 0 draft.old.buffer.now (covered_part self.now.fields self.now.firmware.now self.now.custom.now self.now.hint.now) draft.new.at draft.new.buffer.now }
    {
        self.put_fixed(draft);
        draft.put(self.custom);
        let hint = self.hint;
        draft.put_tag(header::HINT, hint);
    }

    // The digest of what put_covered wrote and the firmware. So short a message always has one: the unwrap is proved,
    // and tests nothing.
    fn digest(&self, covered: &[u8]) -> [u8; 32]
        requires accepted { fields_check self.now.firmware.now self.now.custom.now ≡ 0 }
        requires hint { length self.now.hint.now ≡ 32 }
        requires covered { covered.now ≡ covered_part self.now.fields self.now.firmware.now self.now.custom.now self.now.hint.now }
        ensures { result ≡ digest_to_sign self.now.fields self.now.firmware.now self.now.custom.now self.now.hint.now }
    {
        sha256::digest_of_two(covered, self.firmware).unwrap()
    }

    // The first call: the digest to be signed.
    #[tactic(auto, using(header::proofs::Refusals::refused), unfolding(crate::specs::Writer::to_sign))]
    pub fn digest_to_sign(&self) -> Result<[u8; 32], Refusal>
        ensures { numbered result ≡ to_sign self.now.fields self.now.firmware.now self.now.custom.now self.now.hint.now }
    {
        self.check()?;
        let mut buffer = [0; 256];
        let mut draft = Draft {
            buffer: &mut buffer,
            at: 0,
        };
        self.put_covered(&mut draft);
        Ok(self.digest(draft.written()))
    }

    // The second call: the header; or a refusal, and the buffer as it was.
    pub fn write_header(&self, buffer: &mut [u8], signature: &[u8; 64]) -> Result<(), Refusal>
        ensures number { number_or_zero result ≡ write_check buffer.old self.now.firmware.now self.now.custom.now }
        ensures bytes { buffer.new ≡ buffer_after buffer.old self.now.fields self.now.firmware.now self.now.custom.now self.now.hint.now signature.now }
    {
        self.check_write(buffer)?;
        let mut draft = Draft { buffer, at: 0 };
        self.put_covered(&mut draft);
        let digest = self.digest(draft.written());
        draft.put_tag(header::DIGEST, &digest);
        draft.put_tag(header::SIGNATURE, signature);
        draft.pad();
        Ok(())
    }
}
