// Little-endian numbers in lent bytes. Past the end a byte reads as 0.
ghost use Rattle.std.specs.Prelude.{ℕ, ◌≡◌};
ghost use Rattle.header.specs.Numbers.{byte_at, number_at};

// A number that lies in bytes, its low byte first.
pub trait LittleEndian: Copy {
    ghost size: { ℕ };

    ghost value: { Self → ℕ };

    fn read_at(s: &[u8], p: usize) -> Self
        ensures { value result ≡ number_at size s.now p };
}

pub fn byte_at(s: &[u8], p: usize) -> u8
    ensures { result ≡ byte_at s.now p }
{
    if p < s.len() { s[p] } else { 0 }
}

pub fn number_at<T: LittleEndian>(s: &[u8], p: usize) -> T
    ensures { T.value result ≡ number_at T.size s.now p }
{
    T::read_at(s, p)
}

impl LittleEndian for u16 {
    ghost size = { 2 };

    ghost value = { λ x. x };

    #[tactic(auto, using(crate::proofs::Numbers::past), unfolding(crate::specs::Numbers::number_at))]
    fn read_at(s: &[u8], p: usize) -> u16 {
        if p < s.len() {
            byte_at(s, p) as u16 + 256 * (byte_at(s, p + 1) as u16)
        } else {
            0
        }
    }
}

impl LittleEndian for u32 {
    ghost size = { 4 };

    ghost value = { λ x. x };

    #[tactic(auto, using(crate::proofs::Numbers::past))]
    fn read_at(s: &[u8], p: usize) -> u32 {
        if p < s.len() {
            u16::read_at(s, p) as u32 + 65536 * (u16::read_at(s, p + 2) as u32)
        } else {
            0
        }
    }
}

impl LittleEndian for u64 {
    ghost size = { 8 };

    ghost value = { λ x. x };

    #[tactic(auto, using(crate::proofs::Numbers::past))]
    fn read_at(s: &[u8], p: usize) -> u64 {
        if p < s.len() {
            u32::read_at(s, p) as u64 + 4_294_967_296 * (u32::read_at(s, p + 4) as u64)
        } else {
            0
        }
    }
}
