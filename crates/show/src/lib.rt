// What programs print of an answer, each but `label` with a line end. That a line reaches standard output no contract
// can say: stored output and tests/command hold that.
#![tactic(auto)]

ghost use Rattle.std.specs.Prelude.{Some};
ghost use Rattle.show.specs.Hex.{hex};

use refusal::Refusal;
use std::convert::AsSlice;
use std::{fmt, io};

// Two hexadecimal digits for each byte.
#[derive(Drop)]
pub struct Hex<T>(pub T);

impl<T: AsSlice<u8>> fmt::Display for Hex<T> {
    ghost output = { λ bytes. Some (hex (T.items bytes.0)) };

    fn fmt<W: fmt::Write>(&self, f: &mut fmt::Formatter<W>) -> fmt::Result {
        for x in self.0.as_slice() {
            let byte = *x;
            write!(f, "{byte:02x}")?;
        }
        Ok(())
    }
}

// An answer, or REFUSE and document 01's number.
pub fn answer<T: fmt::Display + Drop>(
    rt: &impl Print,
    answer: Result<T, Refusal>,
) -> io::Result<()> {
    match answer {
        Ok(value) => println!(rt; "{value}"),
        Err(refusal) => println!(rt; "{refusal}"),
    }
}

// A digest as 64 hexadecimal digits, or its refusal.
pub fn digest(rt: &impl Print, digest: Result<[u8; 32], Refusal>) -> io::Result<()> {
    answer(rt, digest.map(Hex))
}

// The name of a case, which its line begins with.
pub fn label(rt: &impl Print, name: &[u8]) -> io::Result<()> {
    rt.write_all(name)?;
    print!(rt; ": ")
}
