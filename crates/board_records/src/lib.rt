// A board in binary: document 01's record of 24 bytes, as the simulator takes it. Stored cases are boards one after
// the other, each with a name, a head (the record is in it) and a flash; specs/Cases.antt says how they lie.
#![tactic(auto)]

ghost use Rattle.std.specs.Prelude.{◌^◌, ◌≤◌, ◌<◌, ◌≡◌, length, drop};
ghost use Rattle.header.specs.Numbers.{number_at};
ghost use Rattle.board_records.specs.Boards.{geometry_in, boot_signed, update_signed};
ghost use Rattle.board_records.specs.Cases.{name_in, head_in, flash_in, flash_length, loaded, cases_after};

use flash::Geometry;
use header::{byte_at, number_at};
use loader::Signed;
use records::{Records, copy, part};
use std::io;
use std::io::Read;

fn number(board: &[u8], i: usize) -> usize
    ensures value { result ≡ number_at 4 board.now i }
    ensures small { result < 2 ^ 32 }
{
    number_at::<u32>(board, i) as usize
}

pub fn geometry(board: &[u8]) -> Geometry
    ensures { result ≡ geometry_in board.now }
{
    Geometry {
        size: number(board, 0),
        count: number(board, 4),
        boot: number(board, 8),
        update: number(board, 12),
        swap: number(board, 16),
    }
}

// The signature checker's answers.
pub fn signed(board: &[u8]) -> Signed
    ensures { result ≡ record { boot = boot_signed board.now; update = update_signed board.now } }
{
    let bits = number(board, 20);
    Signed {
        boot: bits % 2 == 1,
        update: bits / 2 % 2 == 1,
    }
}

// A stored case.
#[derive(Clone, Copy)]
pub struct Case<'a> {
    pub name: &'a [u8],
    pub head: &'a [u8],
    pub flash: &'a [u8],
}

// The first of the stored cases s, whose heads have size bytes, and how many bytes it takes.
pub fn first(s: &[u8], size: u8) -> (Case<'_>, usize)
    ensures name { result.0.name.now ≡ name_in s.now }
    ensures head { result.0.head.now ≡ head_in size s.now }
    ensures flash { result.0.flash.now ≡ flash_in size s.now }
    ensures rest { drop result.1 s.now ≡ cases_after size s.now }
{
    let name_len = byte_at(s, 0) as usize;
    let head = 1 + name_len;
    let end = head + size as usize;
    let flash_len = number(s, end);
    let case = Case {
        name: part(s, 1, name_len),
        head: part(s, head, size as usize),
        flash: part(s, end + 4, flash_len),
    };
    (case, end + 4 + flash_len)
}

// Lays a case's flash at the start of a space, and answers how long it is there. A case without one goes on with the
// flash that the case before left.
#[tactic(auto, unfolding(crate::specs::Cases::loaded))]
pub fn load(flash: &[u8], space: &mut [u8], before: usize) -> usize
    ensures len { result ≡ flash_length flash.now before space.old }
    ensures fits { result ≤ length space.old }
    ensures space { space.new ≡ loaded flash.now space.old }
{
    let n = flash.len().min(space.len());
    copy(flash, &mut space[..n]);
    if flash.is_empty() {
        before.min(space.len())
    } else {
        n
    }
}

// What a proof knows of so long an array is its length alone.
fn space_for_input() -> [u8; 524_288]
    ensures { length result ≡ 524288 }
{
    [0; 524_288]
}

// Takes the stored cases of an input one after the other, and begins a line for each. `answer` is lent the case's flash
// and its head, and prints the rest.
pub fn print_cases<F: FnMut(&mut [u8], &[u8]) -> io::Result<()>>(
    rt: &impl Print,
    input: &mut impl Read,
    head_size: u8,
    mut answer: F,
) -> io::Result<()>
    requires { F.IsAlwaysCallable answer }
{
    let mut stored = space_for_input();
    let mut space = [0u8; 65_536];
    let len = files::read_full(input, &mut stored)?;
    let cases = Records {
        left: &stored[..len],
        first: |s| first(s, head_size),
    };
    let mut n = 0;
    for case in cases {
        n = load(case.flash, &mut space, n);
        show::label(rt, case.name)?;
        answer(&mut space[..n], case.head)?;
    }
    Ok(())
}
