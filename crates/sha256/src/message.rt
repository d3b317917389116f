// FIPS 180-4, 5.1.1 and 5.2.1: the padded message, read where it lies and parsed into words.
ghost use Rattle.std.specs.Prelude.{◌≡◌, ◌+◌, ◌*◌, ◌^◌, ◌<◌, ◌≤◌, ◌++◌, length, slice_index, take, drop, MatchOption, MatchResult};
ghost use Rattle.refusal.specs.declared.Refusal.TheVariants.{Size};
ghost use Rattle.sha256.specs.Digest.{hashed, longest_of_all};
ghost use Rattle.sha256.specs.Message.{zeros, padding, pad_to, N, M, words_at};
ghost use Rattle.sha256.specs.Reading.{PaddedRest, Same64};
ghost use Rattle.sha256.specs.Rounds.{compress};

use crate::hash::Hash;
use refusal::Refusal;

// The sixteen words of a block.
pub(crate) fn words_of(block: &[u8; 64]) -> [u32; 16]
    ensures { result ≡ words_at block.now 0 16 }
{
    // Not array::from_fn: its contract does not tie what the closure captures.
    let mut words = [0; 16];
    for (t, word) in words.iter_mut().enumerate() {
        let i = 4 * t;
        *word = u32::from_be_bytes([block[i], block[i + 1], block[i + 2], block[i + 3]]);
    }
    words
}

// Byte k of the padding of a message of n bytes.
fn padding_byte(n: usize, k: usize) -> u8
    requires { (n < 2 ^ 61) × (k < zeros n + 9) }
    ensures { result ≡ slice_index (padding n) k }
{
    let z = (119 - n % 64) % 64;
    if k == 0 {
        0x80
    } else if k <= z {
        0
    } else {
        (8 * n).to_be_bytes()[k - z - 1]
    }
}

// The 64 bytes of s from byte at on, where it has them.
fn whole_block(s: &[u8], at: usize) -> Option<&[u8; 64]>
    ensures { MatchOption result (length s.now < at + 64) (λ block. (at + 64 ≤ length s.now) × (block.now ≡ take 64 (drop at s.now))) }
{
    s.get(at..)?.first_chunk()
}

// The end of a message of n bytes that is still to be hashed: first and then second, where they lie. Whole blocks came
// before it.
#[derive(Clone, Copy)]
pub(crate) struct Rest<'a> {
    first: &'a [u8],
    second: &'a [u8],
    n: usize,
    ghost padded: { PaddedRest (length first.now + length second.now) n },
}

impl<'a> Rest<'a> {
    // The rest behind the first k blocks, where the message has at most most bytes.
    pub(crate) fn new(
        k: usize,
        first: &'a [u8],
        second: &'a [u8],
        most: usize,
    ) -> Result<Rest<'a>, Refusal>
        requires { most ≤ longest_of_all }
        ensures { MatchResult result
            (λ rest. (rest.first.now ≡ first.now) × (rest.second.now ≡ second.now)
            × (rest.n ≡ 64 * k + (length first.now + length second.now)) × (rest.n ≤ most))
            (λ refusal. (refusal ≡ Size) × (most < 64 * k + (length first.now + length second.now))) }
    {
        // A sum past the greatest usize stays there, and is more than most.
        let n = k
            .saturating_mul(64)
            .saturating_add(first.len())
            .saturating_add(second.len());
        if n > most {
            return Err(Refusal::Size);
        }
        Ok(Rest { first, second, n })
    }

    // Byte i of the rest and the padding.
    fn byte(&self, i: usize) -> u8
        requires { i < 64 * N (length self.now.first.now + length self.now.second.now) }
        ensures { result ≡ slice_index (pad_to self.now.n (self.now.first.now ++ self.now.second.now)) i }
    {
        let at = self.first.len();
        let end = at + self.second.len();
        if i < at {
            self.first[i]
        } else if i < end {
            self.second[i - at]
        } else {
            padding_byte(self.n, i - end)
        }
    }

    // Fills block with block i of them, byte by byte.
    fn copy(&self, i: usize, block: &mut [u8; 64])
        requires { i < N (length self.now.first.now + length self.now.second.now) }
        ensures { Same64 block.new 0 (pad_to self.now.n (self.now.first.now ++ self.now.second.now)) (64 * i) }
    {
        for (k, byte) in block.iter_mut().enumerate() {
            *byte = self.byte(64 * i + k);
        }
    }

    // The hash value after block i of them. A block that lies whole in first or second is read in place.
    fn block(&self, hash: Hash, i: usize) -> Hash
        requires { i < N (length self.now.first.now + length self.now.second.now) }
        ensures { result ≡ compress (M (pad_to self.now.n (self.now.first.now ++ self.now.second.now)) i) hash }
    {
        let at = 64 * i;
        if let Some(block) = whole_block(self.first, at) {
            return hash.block(block);
        }
        let len = self.first.len();
        if len <= at {
            if let Some(block) = whole_block(self.second, at - len) {
                return hash.block(block);
            }
        }
        let mut block = [0; 64];
        self.copy(i, &mut block);
        hash.block(&block)
    }

    // The hash value after all blocks of them.
    pub(crate) fn hashed(&self, hash: Hash) -> Hash
        ensures { result ≡ hashed hash (pad_to self.now.n (self.now.first.now ++ self.now.second.now)) (N (length self.now.first.now + length self.now.second.now)) }
    {
        let count = (self.first.len() + self.second.len() + 8) / 64 + 1;
        let mut h = hash;
        for i in 0..count {
            h = self.block(h, i);
        }
        h
    }
}
