// FIPS 180-4, 5.3.3 and 6.2.2: the hash value, handed on block by block.
ghost use Rattle.std.specs.Prelude.{◌≡◌, ◌/◌, ◌<◌, length};
ghost use Rattle.sha256.specs.Constants.{K, initial};
ghost use Rattle.sha256.specs.Rounds.{round, plus, compress};
ghost use Rattle.sha256.specs.Message.{words_at};
ghost use Rattle.sha256.specs.Digest.{hashed, to_bytes};
ghost use Rattle.sha256.specs.Ring.{Turned};

use crate::message::words_of;
use crate::schedule::{CONSTANTS, word};
use crate::word::{big_sigma, ch, maj};

// Eight words: the hash value H0 to H7 and, within a block, the working variables a to h.
#[derive(Clone, Copy, Debug, PartialEq, Eq)]
pub struct Hash {
    pub a: u32,
    pub b: u32,
    pub c: u32,
    pub d: u32,
    pub e: u32,
    pub f: u32,
    pub g: u32,
    pub h: u32,
}

impl Hash {
    // The initial hash value.
    pub fn new() -> Self
        ensures { result ≡ initial }
    {
        Self {
            a: 0x6a09e667,
            b: 0xbb67ae85,
            c: 0x3c6ef372,
            d: 0xa54ff53a,
            e: 0x510e527f,
            f: 0x9b05688c,
            g: 0x1f83d9ab,
            h: 0x5be0cd19,
        }
    }

    // A round with its constant and its schedule word.
    fn round(self, k: u32, w: u32) -> Self
        ensures { result ≡ round k w self }
    {
        let t1 = self
            .h
            .wrapping_add(big_sigma::<6, 11, 25>(self.e))
            .wrapping_add(ch(self.e, self.f, self.g))
            .wrapping_add(k)
            .wrapping_add(w);
        let t2 = big_sigma::<2, 13, 22>(self.a).wrapping_add(maj(self.a, self.b, self.c));
        Self {
            a: t1.wrapping_add(t2),
            b: self.a,
            c: self.b,
            d: self.c,
            e: self.d.wrapping_add(t1),
            f: self.e,
            g: self.f,
            h: self.g,
        }
    }

    // Round t, with the ring of the last sixteen schedule words: works word t out, keeps it, uses it.
    fn turn(self, w: &mut [u32; 16], t: usize) -> Self
        requires { t < 64 }
        ensures { Turned (K t) t w.old self w.new result }
    {
        let x = word(w, t);
        w[t % 16] = x;
        self.round(CONSTANTS[t], x)
    }

    #[tactic(auto, unfolding(crate::specs::Rounds::plus))]
    fn plus(self, o: Hash) -> Self
        ensures { result ≡ plus self o }
    {
        Self {
            a: self.a.wrapping_add(o.a),
            b: self.b.wrapping_add(o.b),
            c: self.c.wrapping_add(o.c),
            d: self.d.wrapping_add(o.d),
            e: self.e.wrapping_add(o.e),
            f: self.f.wrapping_add(o.f),
            g: self.g.wrapping_add(o.g),
            h: self.h.wrapping_add(o.h),
        }
    }

    // The hash value after one more block.
    pub(crate) fn block(self, block: &[u8; 64]) -> Self
        ensures { result ≡ compress (words_at block.now 0 16) self }
    {
        let mut w = words_of(block);
        let mut v = self;
        // Four rounds in a row, which the compiler writes out: one loop over the 64 takes 15 % longer.
        for four in 0..16 {
            for i in 0..4 {
                v = v.turn(&mut w, 4 * four + i);
            }
        }
        v.plus(self)
    }

    // The hash value after the whole blocks of s; a rest shorter than a block is left to the caller.
    pub fn blocks(self, s: &[u8]) -> Self
        ensures { result ≡ hashed self s.now (length s.now / 64) }
    {
        let (blocks, _) = s.as_chunks::<64>();
        let mut h = self;
        for block in blocks {
            h = h.block(block);
        }
        h
    }

    // 6.2.2, after step 4: the hash value as bytes.
    pub(crate) fn to_bytes(self) -> [u8; 32]
        ensures { result ≡ to_bytes self }
    {
        // Eight lines: of a map over the eight words the proof did not close.
        let words = [
            self.a.to_be_bytes(),
            self.b.to_be_bytes(),
            self.c.to_be_bytes(),
            self.d.to_be_bytes(),
            self.e.to_be_bytes(),
            self.f.to_be_bytes(),
            self.g.to_be_bytes(),
            self.h.to_be_bytes(),
        ];
        *words.as_flattened().as_array().unwrap()
    }
}
