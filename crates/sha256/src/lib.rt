// SHA-256 (FIPS 180-4). The definitions in specs/ follow FIPS section by section.
#![tactic(auto)]

mod hash;
mod message;
mod schedule;
mod word;

ghost use Rattle.std.specs.Prelude.{◌≡◌, ◌≤◌, ◌++◌};
ghost use Rattle.sha256.specs.Digest.{longest_of_all, answer_up_to, answer, after_up_to, answer_after};
ghost use Rattle.refusal.specs.Numbers.{numbered};

pub use hash::Hash;
use message::Rest;
use refusal::Refusal;

// Document 01, number 12: a longer slice is refused.
const LONGEST: usize = 4_294_967_295;

// FIPS 180-4 has no digest of 2^64 bits or more.
const LONGEST_OF_ALL: usize = 2_305_843_009_213_693_951;

// The digest of a message of at most most bytes whose first k blocks led to this hash value and whose
// rest is first and then second.
fn finish(
    hash: Hash,
    k: usize,
    first: &[u8],
    second: &[u8],
    most: usize,
) -> Result<[u8; 32], Refusal>
    requires { most ≤ longest_of_all }
    ensures { numbered result ≡ after_up_to most hash k (first.now ++ second.now) }
{
    let rest = Rest::new(k, first, second, most)?;
    Ok(rest.hashed(hash).to_bytes())
}

// The same with the rest in one piece: the end of a message that comes in pieces (Hash::blocks).
pub fn digest_after(hash: Hash, k: usize, rest: &[u8]) -> Result<[u8; 32], Refusal>
    ensures { numbered result ≡ answer_after hash k rest.now }
{
    finish(hash, k, rest, b"", LONGEST)
}

// The digest of first and then second, where they lie.
pub fn digest_of_two(first: &[u8], second: &[u8]) -> Result<[u8; 32], Refusal>
    ensures { numbered result ≡ answer (first.now ++ second.now) }
{
    finish(Hash::new(), 0, first, second, LONGEST)
}

// The same where only FIPS bounds the length. An image's digest needs it: with the header, a firmware
// of 2^32 - 1 bytes is a message longer than a lent slice may be.
pub fn long_digest_of_two(first: &[u8], second: &[u8]) -> Result<[u8; 32], Refusal>
    ensures { numbered result ≡ answer_up_to longest_of_all (first.now ++ second.now) }
{
    finish(Hash::new(), 0, first, second, LONGEST_OF_ALL)
}

pub fn digest(message: &[u8]) -> Result<[u8; 32], Refusal>
    ensures { numbered result ≡ answer message.now }
{
    digest_of_two(message, b"")
}
