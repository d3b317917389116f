// The cases of document 01's flash: takes the cases of standard input one after the other and prints
// a line for each, held to the file stdout. tests/vectors/flash.py makes both files, the answers with
// another implementation. record.rt says how a case lies; its patches are laid over a flash of FF.
#![tactic(auto)]

mod record;

use flash::Step;
use record::{Case, Head, first_case, first_patch};
use records::Records;
use refusal::Refusal;
use show_steps::work;
use std::io;

// S: the number and the digest of the flash after a step. An op that is none of these prints nothing.
fn apply_step(rt: &impl Print, flash: &mut [u8], head: &Head) -> io::Result<()> {
    let step = match head.kind {
        0 => Step::Erase(head.at),
        1 => Step::Copy(head.at, head.to),
        2 => Step::Byte(head.at, head.value),
        3 => Step::Mark(head.at),
        _ => return Ok(()),
    };
    let refusal = flash::apply_step(flash, head.geometry, step).err();
    print!(rt; "{} ", refusal.map_or(0, Refusal::number))?;
    show::digest(rt, sha256::digest(flash))
}

// I: the length and the digest of a slot's image.
fn image(rt: &impl Print, image: &[u8]) -> io::Result<()> {
    print!(rt; "{} ", image.len())?;
    show::digest(rt, sha256::digest(image))
}

// R: a renewal's step; P: how far the exchange has come; F: a flag's step; T: whether a trailer is sound with a state.
// A letter that is none of these prints nothing.
fn answer(rt: &impl Print, flash: &mut [u8], head: &Head) -> io::Result<()> {
    let g = head.geometry;
    let slot = head.slot();
    match head.command {
        b'S' => apply_step(rt, flash, head),
        b'R' => work(rt, slots::renewal(flash, g, slot, head.value)),
        b'P' => show::answer(rt, slots::progress(flash, g)),
        b'F' => work(rt, slots::next_flag(flash, g, head.at)),
        b'T' if slots::is_sound_with(flash, g, slot, head.value) => println!(rt; "YES"),
        b'T' => println!(rt; "NO"),
        b'I' => image(rt, slots::image(flash, g, slot)),
        _ => Ok(()),
    }
}

// The same on the case's flash, which is the start of a space of FF: a longer one is cut.
fn answer_in(rt: &impl Print, space: &mut [u8], case: Case) -> io::Result<()> {
    let head = case.head;
    let n = head.flash_len.min(space.len());
    let flash = &mut space[..n];
    let patches = Records {
        left: case.patches,
        first: first_patch,
    };
    for patch in patches {
        patch.lay(flash);
    }
    answer(rt, flash, &head)
}

// In a function of its own: behind the early return of G the space was filled twice, and for G once.
fn answer_on_flash(rt: &impl Print, case: Case) -> io::Result<()> {
    let mut space = [0xFFu8; 65_536];
    answer_in(rt, &mut space, case)
}

// G: whether the geometry is accepted.
fn print_case(rt: &impl Print, case: Case) -> io::Result<()> {
    let head = case.head;
    show::label(rt, case.name)?;
    if head.command == b'G' {
        let check = flash::check_geometry(head.geometry, head.flash_len);
        return show::answer(rt, check.map(|()| "OK"));
    }
    answer_on_flash(rt, case)
}

fn main(rt: HostRuntime) -> io::Result<()> {
    let mut space = [0u8; 262_144];
    let n = files::read_full(&mut rt.stdin(), &mut space)?;
    let cases = Records {
        left: &space[..n],
        first: first_case,
    };
    for case in cases {
        print_case(&rt, case)?;
    }
    Ok(())
}
