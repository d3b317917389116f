// Prints the SHA-256 digest of the file that its first argument names, or of standard input, as
// 64 hexadecimal digits; or REFUSE and document 01's number. What goes wrong with the file is said on
// standard error, and nothing is printed.
#![tactic(auto)]

use files::{Opened, open_argument, read_full};
use refusal::Refusal;
use sha256::Hash;
use std::io;
use std::io::Read;

// The digest of what is left of the input. After 4 GiB it refuses.
fn digest_of(reader: &mut impl Read) -> io::Result<Result<[u8; 32], Refusal>> {
    let mut buf = [0u8; 65_536];
    let mut hash = Hash::new();
    for i in 0..65_536 {
        let n = read_full(reader, &mut buf)?;
        if n < buf.len() {
            return Ok(sha256::digest_after(hash, 1024 * i, &buf[..n]));
        }
        hash = hash.blocks(&buf);
    }
    Ok(sha256::digest_after(hash, 1024 * 65_536, &buf))
}

fn print_digest(rt: &(impl Print + Eprint), reader: &mut impl Read, name: &[u8]) -> io::Result<()> {
    match digest_of(reader) {
        Ok(digest) => show::digest(rt, digest),
        Err(e) => {
            files::fail(rt, name, e);
            Ok(())
        }
    }
}

fn main(rt: HostRuntime) -> io::Result<()> {
    if !files::is_given(&rt, 1) {
        return print_digest(&rt, &mut rt.stdin(), b"standard input");
    }
    let mut space = [0u8; 4096];
    match open_argument(&rt, 1, &mut space) {
        Some(Opened { mut file, name }) => print_digest(&rt, &mut file, name),
        None => Ok(()),
    }
}
