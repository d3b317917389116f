// The files that the arguments name. What goes wrong with one is said on standard error.
ghost use Rattle.std.specs.Prelude.{◌≤◌, length, IfOk, IfSome};

use files::{Opened, argument, fail, open_argument, read_full, say};
use std::env::Env;
use std::io;
use std::io::Read;
use std::rt::Files;

// How many bytes came up to the first end, as far as the space goes, and whether there are more: behind the space, or
// behind that end, where a terminal goes on.
fn read_open(reader: &mut impl Read, space: &mut [u8]) -> io::Result<(usize, bool)>
    ensures { IfOk result (λ got. got.0 ≤ length space.new) }
{
    let count = read_full(reader, space)?;
    let after = read_full(reader, &mut [0u8; 1])?;
    Ok((count, after != 0))
}

// What the file that argument i names has, and whether it has more. None where something went wrong, which was said then.
fn read<'a, R: Env + Files + Eprint>(
    rt: &R,
    i: usize,
    space: &'a mut [u8],
) -> Option<(&'a [u8], bool)>
    ensures { IfSome result (λ got. length got.0.now ≤ length space.old) }
{
    let mut name = [0u8; 4096];
    let Opened { mut file, name } = open_argument(rt, i, &mut name)?;
    match read_open(&mut file, space) {
        Ok((count, more)) => Some((&space[..count], more)),
        Err(e) => {
            fail(rt, name, e);
            None
        }
    }
}

// A file of at most as many bytes as the space has. Of another, `otherwise` is said.
pub(crate) fn read_most<'a, R: Env + Files + Eprint>(
    rt: &R,
    i: usize,
    space: &'a mut [u8],
    otherwise: &str,
) -> Option<&'a [u8]>
    ensures { IfSome result (λ bytes. length bytes.now ≤ length space.old) }
{
    let (bytes, more) = read(rt, i, space)?;
    if more {
        say(rt, otherwise);
        return None;
    }
    Some(bytes)
}

// A file of just N bytes.
pub(crate) fn read_exact<'a, const N: usize, R: Env + Files + Eprint>(
    rt: &R,
    i: usize,
    space: &'a mut [u8; N],
    otherwise: &str,
) -> Option<&'a [u8; N]> {
    let bytes = read_most(rt, i, space, otherwise)?;
    let exact = <&[u8; N]>::try_from(bytes).ok();
    if exact.is_none() {
        say(rt, otherwise);
    }
    exact
}

// A file's first bytes, or none of them where a dash stands for its name.
pub(crate) fn read_start<'a, R: Env + Files + Eprint>(
    rt: &R,
    i: usize,
    space: &'a mut [u8],
) -> Option<&'a [u8]>
    ensures { IfSome result (λ bytes. length bytes.now ≤ length space.old) }
{
    match argument(rt, i, &mut [0u8; 2]) {
        b"-" => Some(&[]),
        _ => {
            let (bytes, _) = read(rt, i, space)?;
            Some(bytes)
        }
    }
}
