// Lists the tags of the header on standard input, of which it reads 256 bytes: type, content's place and length in
// decimal, a line for each tag, in their order. The last line is END where the list is whole, or the papers' number.
#![tactic(auto)]

ghost use Rattle.std.specs.Prelude.{◌≡◌, IfOk};
ghost use Rattle.refusal.specs.Numbers.{number};
ghost use Rattle.tags.specs.Listed.{end_of};

use refusal::Refusal;
use std::io;

// Prints each tag, and answers the refusal with which the list ends.
fn print_tags(rt: &impl Print, header: &[u8]) -> io::Result<Refusal>
    ensures { IfOk result (λ refusal. number refusal ≡ end_of header.now) }
{
    // By lookups, as a member lists them; the last one's refusal is the answer, so it is no iterator.
    let mut p = header::FIRST;
    loop {
        match header::next_tag(header, p, None) {
            Ok(t) => {
                println!(rt; "{} {} {}", t.kind, t.at, t.len)?;
                p = t.next;
            }
            Err(refusal) => return Ok(refusal),
        }
    }
}

fn print_end(rt: &impl Print, refusal: Refusal) -> io::Result<()> {
    match refusal {
        Refusal::TagAbsent => println!(rt; "END"),
        _ => println!(rt; "{}", refusal.number()),
    }
}

fn main(rt: HostRuntime) -> io::Result<()> {
    let mut header = [0u8; header::LENGTH];
    let n = files::read_full(&mut rt.stdin(), &mut header)?;
    let refusal = print_tags(&rt, &header[..n])?;
    print_end(&rt, refusal)
}
