// FIPS 180-4, 4.1.2: the functions on 32-bit words.
ghost use Rattle.std.specs.Prelude.{◌≡◌, ◌<◌, bit_xor};
ghost use Rattle.sha256.specs.Words.{ROTR, SHR, Ch, Maj};

pub(crate) fn ch(x: u32, y: u32, z: u32) -> u32
    ensures { result ≡ Ch x y z }
{
    (x & y) ^ (!x & z)
}

pub(crate) fn maj(x: u32, y: u32, z: u32) -> u32
    ensures { result ≡ Maj x y z }
{
    (x & y) ^ (x & z) ^ (y & z)
}

// Σ₀ and Σ₁, by their three rotations.
pub(crate) fn big_sigma<const A: u32, const B: u32, const C: u32>(x: u32) -> u32
    requires a_bound { (0 < A) × (A < 32) }
    requires b_bound { (0 < B) × (B < 32) }
    requires c_bound { (0 < C) × (C < 32) }
    ensures { result ≡ bit_xor (bit_xor (ROTR A x) (ROTR B x)) (ROTR C x) }
{
    x.rotate_right(A) ^ x.rotate_right(B) ^ x.rotate_right(C)
}

// σ₀ and σ₁, by their two rotations and their shift.
pub(crate) fn small_sigma<const A: u32, const B: u32, const C: u32>(x: u32) -> u32
    requires a_bound { (0 < A) × (A < 32) }
    requires b_bound { (0 < B) × (B < 32) }
    requires c_bound { C < 32 }
    ensures { result ≡ bit_xor (bit_xor (ROTR A x) (ROTR B x)) (SHR C x) }
{
    x.rotate_right(A) ^ x.rotate_right(B) ^ (x >> C)
}
