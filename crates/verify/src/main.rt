// Gives the verdict on an image. Its arguments are
//     IMAGE yes|no
// IMAGE names a file, and the word is the signature checker's answer. It prints PASS, or REFUSE and document 01's
// number; then, where the header passes its checks (10 to 16, 30), what the header says, a line for each field.
// Whatever is wrong with the arguments or the file is said on standard error, and nothing is printed.
#![tactic(auto)]

mod summary;

use files::{argument, is_given, read_most, say};
use header::view;
use show::Hex;
use std::env::Env;
use std::io;
use std::rt::Files;
use summary::{Numbers, summary_of};

// The largest slot of document 01: 64 sectors of 4096 bytes.
const MOST_IMAGE: usize = 262_144;

// Of the hint the header's checks say nothing: it may be missing, or of another length.
fn print_summary(rt: &impl Print, image: &[u8], signed: bool) -> io::Result<()> {
    let summary = match summary_of(image, signed) {
        Ok(summary) => summary,
        Err(refusal) => return println!(rt; "{refusal}"),
    };
    show::answer(rt, summary.verdict.map(|()| "PASS"))?;
    let Numbers {
        version,
        timestamp,
        firmware_type,
        size,
    } = summary.numbers;
    println!(rt; "version {version}")?;
    println!(rt; "timestamp {timestamp}")?;
    println!(rt; "type {firmware_type}")?;
    println!(rt; "size {size}")?;
    let hint = view(image, header::HINT);
    if hint.len() == 32 {
        println!(rt; "hint {}", Hex(hint))?;
    }
    println!(rt; "digest {}", Hex(view(image, header::DIGEST)))?;
    println!(rt; "signature {}", Hex(view(image, header::SIGNATURE)))
}

// One byte more than the most that an image may have is enough to see that it is too long.
fn verify<R: Env + Files + Print + Eprint>(rt: &R, signed: bool) -> io::Result<()> {
    let mut space = [0u8; MOST_IMAGE + 1];
    let too_long = "the image is longer than 262144 bytes";
    match read_most(rt, 1, &mut space, too_long) {
        Some(image) => print_summary(rt, image, signed),
        None => Ok(()),
    }
}

fn main(rt: HostRuntime) -> io::Result<()> {
    if !is_given(&rt, 2) || is_given(&rt, 3) {
        say(&rt, "usage: verify IMAGE yes|no");
        return Ok(());
    }
    match argument(&rt, 2, &mut [0u8; 4]) {
        b"yes" => verify(&rt, true)?,
        b"no" => verify(&rt, false)?,
        _ => say(&rt, "the signature checker's answer is neither yes nor no"),
    }
    Ok(())
}
