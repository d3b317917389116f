// The cases of document 01's decisions: takes the stored cases of standard input one after the other and prints
// a line for each, held to the file stdout. tests/vectors/loader.py makes both files, the answers with
// another implementation.
#![tactic(auto)]

use board_records::{geometry, print_cases, signed};
use flash::Step;
use header::byte_at;
use loader::Answer;
use records::part;
use std::io;

// A case's head is a letter (1 byte) and the board's record (24 bytes). The letters: n next step, t trigger, c
// confirm; with N, T and C the step that is answered is carried out.
const HEAD: u8 = 25;

fn step_in(answer: Answer) -> Option<Step> {
    match answer {
        Answer::Step(step) | Answer::LastStep(step) => Some(step),
        Answer::Boot(_) => None,
    }
}

// Prints the rest of a line. A letter that is none of these prints nothing.
fn answer(rt: &impl Print, flash: &mut [u8], head: &[u8]) -> io::Result<()> {
    let letter = byte_at(head, 0);
    let record = part(head, 1, 24);
    let g = geometry(record);
    let answered = match letter.to_ascii_lowercase() {
        b'n' => {
            let answer = loader::next_step(flash, g, signed(record));
            show_steps::answer(rt, answer)?;
            answer.map(step_in)
        }
        b't' => {
            let work = loader::trigger(flash, g);
            show_steps::work(rt, work)?;
            work
        }
        b'c' => {
            let work = loader::confirm(flash, g);
            show_steps::work(rt, work)?;
            work
        }
        _ => return Ok(()),
    };
    if let Ok(Some(step)) = answered
        && letter.is_ascii_uppercase()
    {
        // A step that the loader answers is accepted.
        let _ = flash::apply_step(flash, g, step);
    }
    Ok(())
}

fn main(rt: HostRuntime) -> io::Result<()> {
    print_cases(&rt, &mut rt.stdin(), HEAD, |flash, head| {
        answer(&rt, flash, head)
    })
}
