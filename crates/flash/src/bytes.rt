// Bytes of flash: each function is lent the part that starts at its target.
ghost use Rattle.std.specs.Prelude.{◌≡◌, ◌+◌, ◌≤◌, length};
ghost use Rattle.flash.specs.Bytes.{blank, overlay, write};

// Sets the first k bytes of a part to FF.
pub(crate) fn erase(part: &mut [u8], k: usize)
    requires { k ≤ length part.old }
    ensures { part.new ≡ overlay part.old 0 (blank k) }
{
    part[..k].fill(0xFF);
}

// Writes data at an offset of a part: bits are cleared only.
#[tactic(auto, using(crate::proofs::Loops::writing))]
pub(crate) fn write(part: &mut [u8], at: usize, data: &[u8])
    requires { at + length «data».now ≤ length part.old }
    ensures { part.new ≡ write part.old at «data».now }
{
    // An index beside the iterator: behind a zip of iter_mut a proof knows the length alone.
    for (i, byte) in data.iter().enumerate() {
        part[at + i] &= *byte;
    }
}
