// The binary records that programs over stored cases read. Nothing here refuses: what is not there
// reads as zeros, or as the empty part.
#![tactic(auto)]

ghost use Rattle.std.specs.Prelude.{◌≡◌, ℕ, max, [], length, drop, MatchOption};
ghost use Rattle.std.specs.Iterator.{at_most};
ghost use Rattle.records.specs.Records.{part_of, first_bytes};

// n bytes from a place on, or the empty part where there are not so many.
#[tactic(auto, unfolding(crate::specs::Records::part_of))]
pub fn part(s: &[u8], from: usize, n: usize) -> &[u8]
    ensures { result.now ≡ part_of s.now from n }
{
    let Some(rest) = s.get(from..) else {
        return &[];
    };
    rest.get(..n).unwrap_or(&[])
}

// Fills a buffer with the first bytes.
pub fn copy(s: &[u8], to: &mut [u8])
    ensures { to.new ≡ first_bytes (length to.old) s.now }
{
    let n = s.len().min(to.len());
    let (front, back) = to.split_at_mut(n);
    front.copy_from_slice(&s[..n]);
    back.fill(0);
}

// The records of an input, one after the other. What `first` answers for the bytes that are left is the record at their
// start and how many bytes that takes: one at least. The last record may be cut.
#[derive(Drop)]
pub struct Records<'a, F> {
    pub left: &'a [u8],
    pub first: F,
}

impl<'a, T, F: Fn(&'a [u8]) -> (T, usize)> Iterator for Records<'a, F> {
    type Item = T;

    ghost can_next = { λ s. F.IsAlwaysCallable s.first };

    // A record that `first` answers of what is left, and then what is behind it; none where nothing is left.
    ghost next_gives = { λ s r t. MatchOption r (s.left.now ≡ []) (λ x. (size : ℕ) ×
        ((F.post s.first s.left (x, size)) × ((t.left.now ≡ drop (max size 1) s.left.now) × (t.first ≡ s.first)))) };

    ghost remaining = { λ s. at_most (length s.left.now) };

    fn next(&mut self) -> Option<T> {
        let left = self.left;
        if left.is_empty() {
            return None;
        }
        let (record, size) = (self.first)(left);
        self.left = left.get(size.max(1)..).unwrap_or(&[]);
        Some(record)
    }
}
