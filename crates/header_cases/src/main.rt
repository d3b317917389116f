// The cases of document 01's header: takes the cases of standard input one after the other and prints
// a line for each, held to the file stdout. tests/vectors/header.py makes both files, the answers with
// another implementation. record.rt says how a case lies.
#![tactic(auto)]

mod record;

use record::{Case, first_case};
use records::Records;
use refusal::Refusal;
use show::Hex;
use std::io;

// F: the place and the length of a tag's content.
fn find_tag(rt: &impl Print, header: &[u8], kind: u16) -> io::Result<()> {
    match header::find_tag(header, kind) {
        Ok(tag) => println!(rt; "{} {}", tag.at, tag.len),
        Err(refusal) => println!(rt; "{refusal}"),
    }
}

// L: the same from a place on, of any type or of one, with the type and with where the walk goes on.
fn next_tag(rt: &impl Print, case: &Case) -> io::Result<()> {
    let head = case.head;
    let wanted = (!head.flag).then_some(head.kind);
    match header::next_tag(case.body, head.number as usize, wanted) {
        Ok(tag) => println!(rt; "{} {} {} {}", tag.kind, tag.at, tag.len, tag.next),
        Err(refusal) => println!(rt; "{refusal}"),
    }
}

// H: the number and the buffer afterwards, which has as many bytes as the case says, at most 300.
fn write_header(rt: &impl Print, case: &Case) -> io::Result<()> {
    let mut space = [0xA5u8; 300];
    let n = (case.head.number as usize).min(300);
    let buffer = &mut space[..n];
    let refusal = case.contents().write_header(buffer, &case.signature).err();
    println!(rt; "{} {}", refusal.map_or(0, Refusal::number), Hex(buffer))
}

// W: a tag's content; V: the verdict; N: the version; D: the digest to be signed. A letter that is none of these prints
// nothing.
fn print_case(rt: &impl Print, case: &Case) -> io::Result<()> {
    let head = case.head;
    show::label(rt, case.name)?;
    match head.command {
        b'F' => find_tag(rt, case.body, head.kind),
        b'L' => next_tag(rt, case),
        b'W' => println!(rt; "{}", Hex(header::view(case.body, head.kind))),
        b'V' => show::answer(rt, image::verify(case.body, head.flag).map(|()| "PASS")),
        b'N' => show::answer(rt, header::version_of(case.body)),
        b'D' => show::digest(rt, case.contents().digest_to_sign()),
        b'H' => write_header(rt, case),
        _ => Ok(()),
    }
}

fn main(rt: HostRuntime) -> io::Result<()> {
    let mut space = [0u8; 131_072];
    let n = files::read_full(&mut rt.stdin(), &mut space)?;
    let cases = Records {
        left: &space[..n],
        first: first_case,
    };
    for case in cases {
        print_case(&rt, &case)?;
    }
    Ok(())
}
