// A program's arguments and the files that they name. A read that fails is told from the end of a file, and what
// goes wrong with a name is said on standard error.
#![tactic(auto)]

ghost use Rattle.std.specs.Prelude.{◌<◌, ◌≤◌, length, IfSome};
ghost use Rattle.std.specs.Io.{ReadsAtMost};

use std::env::{Env, FillError};
use std::io::{Cursor, Read, Write};
use std::rt::Files;
use std::{fmt, fs, io, str};

// An open file and its name.
#[derive(Drop)]
pub struct Opened<'a, F> {
    pub file: F,
    pub name: &'a [u8],
}

// Reads until buf is full or the input ends, and answers how many bytes came: std's read_exact doesn't say that.
pub fn read_full<R: Read>(reader: &mut R, buf: &mut [u8]) -> io::Result<usize>
    ensures { ReadsAtMost result buf.new }
{
    let mut done = 0;
    while done < buf.len() {
        let n = reader.read(&mut buf[done..])?;
        if n == 0 {
            break;
        }
        done += n;
    }
    Ok(done)
}

// Whether the program was given argument i. Argument 0 is its own name.
pub fn is_given(rt: &impl Env, i: usize) -> bool {
    !matches!(rt.arg(i, &mut []), Err(FillError::NotPresent))
}

// Argument i, which is put into the buffer: empty where it is missing or does not fit.
pub fn argument<'a>(rt: &impl Env, i: usize, buf: &'a mut [u8]) -> &'a [u8]
    ensures { length result.now ≤ length buf.old }
{
    let len = rt.arg(i, buf).unwrap_or(0);
    &buf[..len]
}

// Opens the file that argument i names, for reading. Its name is put into the buffer.
pub fn open_argument<'a, R: Env + Files + Eprint>(
    rt: &R,
    i: usize,
    buf: &'a mut [u8],
) -> Option<Opened<'a, R::File>>
    ensures { IfSome result (λ opened. length opened.name.now ≤ length buf.old) }
{
    match rt.arg(i, buf) {
        Ok(len) => open(rt, &buf[..len]),
        Err(e) => {
            say(rt, format_args!("{UNNAMED}: {}", in_words(e)));
            None
        }
    }
}

// What the file that argument i names has at its start, as far as the buffer goes. None where something went wrong,
// which was said then.
pub fn read_argument<'a, R: Env + Files + Eprint>(
    rt: &R,
    i: usize,
    buf: &'a mut [u8],
) -> Option<&'a [u8]>
    ensures { IfSome result (λ bytes. length bytes.now ≤ length buf.old) }
{
    let mut space = [0u8; 4096];
    let Opened { mut file, name } = open_argument(rt, i, &mut space)?;
    match read_full(&mut file, buf) {
        Ok(n) => Some(&buf[..n]),
        Err(e) => {
            fail(rt, name, e);
            None
        }
    }
}

// The same of a file that is shorter than the buffer. Of another, `otherwise` is said.
pub fn read_most<'a, R: Env + Files + Eprint>(
    rt: &R,
    i: usize,
    buf: &'a mut [u8],
    otherwise: &str,
) -> Option<&'a [u8]>
    ensures { IfSome result (λ bytes. length bytes.now < length buf.old) }
{
    let room = buf.len();
    let bytes = read_argument(rt, i, buf)?;
    if bytes.len() == room {
        say(rt, otherwise);
        return None;
    }
    Some(bytes)
}

// What is named where a file's name cannot be.
const UNNAMED: &str = "the name of the file";

fn in_words(e: FillError) -> &'static str {
    match e {
        FillError::NotPresent => "Invalid argument",
        FillError::TooLong => "File name too long",
    }
}

// A name that is not UTF-8 names no file that std can open.
fn open<'a, R: Files + Eprint>(rt: &R, name: &'a [u8]) -> Option<Opened<'a, R::File>>
    ensures { IfSome result (λ opened. length opened.name.now ≤ length name.now) }
{
    let Ok(path) = str::from_utf8(name) else {
        say(rt, format_args!("{UNNAMED}: not UTF-8"));
        return None;
    };
    match fs::open(rt, path) {
        Ok(file) => Some(Opened { file, name }),
        Err(e) => {
            fail(rt, name, e);
            None
        }
    }
}

// Says on standard error what failed and why, in the system's words. They are written into a buffer, since nothing here
// takes memory.
pub fn fail(rt: &impl Eprint, what: &[u8], error: io::Error) {
    let mut space = Cursor::new([0u8; 300]);
    let _ = write!(space, "{error}");
    let space = space.into_inner();
    let text = str::from_utf8(&space).unwrap_or("");
    // Behind the words std gives the error's number.
    let words = match text.split_once(" (os error ") {
        Some((words, _)) => words,
        None => text.trim_end_matches('\0'),
    };
    let what = str::from_utf8(what).unwrap_or(UNNAMED);
    say(rt, format_args!("{what}: {words}"));
}

// A line on standard error. Nobody can be told where that fails too.
pub fn say<D: fmt::Display + Drop>(rt: &impl Eprint, line: D) {
    let _ = rt.eprintln(line);
}
