// The cases of document 01's bounded run: takes the stored cases of standard input one after the other and prints
// two lines for each, held to the file stdout: the answer, then the counters and the digest of the flash.
// tests/vectors/runner.py makes both files, the answers with another implementation.
#![tactic(auto)]

use board_records::{geometry, print_cases, signed};
use header::number_at;
use runner::StepCounts;
use std::io;

// A case's head is the board's record (24 bytes), the number of steps (4 bytes) and the counters before the run
// (16 bytes).
const HEAD: u8 = 44;

// Runs on the flash and prints the answer, the counters and the digest.
fn run(rt: &impl Print, flash: &mut [u8], head: &[u8]) -> io::Result<()> {
    let number = number_at::<u32>(head, 24);
    let mut counts = StepCounts {
        erases: number_at(head, 28),
        copies: number_at(head, 32),
        bytes: number_at(head, 36),
        marks: number_at(head, 40),
    };
    let answer = runner::run(flash, geometry(head), signed(head), number, &mut counts);
    show_steps::answer(rt, answer)?;
    let StepCounts {
        erases,
        copies,
        bytes,
        marks,
    } = counts;
    print!(rt; "{erases} {copies} {bytes} {marks} ")?;
    show::digest(rt, sha256::digest(flash))
}

fn main(rt: HostRuntime) -> io::Result<()> {
    print_cases(&rt, &mut rt.stdin(), HEAD, |flash, head| {
        run(&rt, flash, head)
    })
}
