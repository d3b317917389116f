// FIPS 180-4's published examples, and every length from 0 to 200 of a pattern in one piece and in two:
// a line each, held to the file stdout, which tests/vectors/sha256.py makes with another implementation.
#![tactic(auto)]

use sha256::Hash;
use std::{array, io};

const PUBLISHED: [(&str, &[u8]); 4] = [
    ("empty", b""),
    ("abc", b"abc"),
    (
        "448-bit",
        b"abcdbcdecdefdefgefghfghighijhijkijkljklmklmnlmnomnopnopq",
    ),
    (
        "896-bit",
        b"abcdefghbcdefghicdefghijdefghijkefghijklfghijklmghijklmnhijklmnoijklmnopjklmnopqklmnopqrlmnopqrsmnopqrstnopqrstu",
    ),
];

// One million "a", 125 blocks at a time.
fn million(rt: &impl Print) -> io::Result<()> {
    let a = [b'a'; 8000];
    let mut hash = Hash::new();
    for _ in 0..125 {
        hash = hash.blocks(&a);
    }
    print!(rt; "million ")?;
    show::digest(rt, sha256::digest_after(hash, 15625, b""))
}

// A message whole and cut at a third.
fn length_lines(rt: &impl Print, message: &[u8]) -> io::Result<()> {
    print!(rt; "{} ", message.len())?;
    show::digest(rt, sha256::digest(message))?;
    let (front, back) = message.split_at(message.len() / 3);
    print!(rt; "{}+{} ", front.len(), back.len())?;
    show::digest(rt, sha256::digest_of_two(front, back))
}

fn main(rt: HostRuntime) -> io::Result<()> {
    for (name, message) in PUBLISHED {
        print!(rt; "{name} ")?;
        show::digest(&rt, sha256::digest(message))?;
    }
    million(&rt)?;
    let pattern: [u8; 200] = array::from_fn(|i| ((7 * i + 3) % 256) as u8);
    for n in 0..=pattern.len() {
        length_lines(&rt, &pattern[..n])?;
    }
    Ok(())
}
