// Packs a firmware for the packing desk. Its arguments are
//     FIRMWARE VERSION TIMESTAMP TYPE HINT CUSTOM [SIGNATURE]
// FIRMWARE, HINT (32 bytes), CUSTOM (a run of custom tags, or - for none) and SIGNATURE (64 bytes) name files;
// the others are decimal numbers. Without a signature it prints the digest to sign, as 64 hexadecimal digits;
// with one it writes the image, the header and then the firmware. Whatever is wrong is said on standard error,
// and nothing is printed; where standard output itself fails, what was printed is no image.
#![tactic(auto)]

mod decimal;
mod input;
mod texts;

ghost use Rattle.std.specs.Prelude.{◌≡◌, replicate, IfOk};
ghost use Rattle.refusal.specs.Numbers.{number_or_zero};
ghost use Rattle.writer.specs.Writer.{write_check, buffer_after};

use files::{argument, is_given, say};
use input::{read_exact, read_most, read_start};
use refusal::Refusal;
use show::Hex;
use std::env::Env;
use std::io;
use std::rt::Files;
use texts::{NoNumber, fields_in};
use writer::{Contents, Fields};

// What the largest slot of document 01 holds: 64 sectors of 4096 bytes, less the header.
const MOST_FIRMWARE: usize = 261_888;

fn header_for(contents: &Contents<'_>, signature: &[u8; 64]) -> Result<[u8; 256], Refusal>
    ensures number { number_or_zero result ≡ write_check (replicate 256 0) contents.now.firmware.now contents.now.custom.now }
    ensures bytes { IfOk result (λ bytes. bytes ≡ buffer_after (replicate 256 0) contents.now.fields contents.now.firmware.now
        contents.now.custom.now contents.now.hint.now signature.now) }
{
    let mut bytes = [0u8; 256];
    contents.write_header(&mut bytes, signature)?;
    Ok(bytes)
}

fn print_digest(rt: &(impl Print + Eprint), contents: &Contents<'_>) -> io::Result<()> {
    match contents.digest_to_sign() {
        Ok(digest) => println!(rt; "{}", Hex(digest))?,
        Err(refusal) => say(rt, refusal),
    }
    Ok(())
}

fn print_image<R: Env + Files + Print + Eprint>(rt: &R, contents: &Contents<'_>) -> io::Result<()> {
    let mut space = [0u8; 64];
    let wrong = "the signature is not of 64 bytes";
    let Some(signature) = read_exact(rt, 7, &mut space, wrong) else {
        return Ok(());
    };
    match header_for(contents, signature) {
        Ok(header) => {
            rt.write_all(&header)?;
            rt.write_all(contents.firmware)?;
        }
        Err(refusal) => say(rt, refusal),
    }
    Ok(())
}

// One byte more than a custom run may have is enough for the writer to refuse it.
fn pack<R: Env + Files + Print + Eprint>(rt: &R, fields: Fields, signed: bool) -> io::Result<()> {
    let mut firmware = [0u8; MOST_FIRMWARE];
    let mut hint = [0u8; 32];
    let mut custom = [0u8; 83];
    let too_long = "the firmware is longer than 261888 bytes";
    let Some(firmware) = read_most(rt, 1, &mut firmware, too_long) else {
        return Ok(());
    };
    let Some(hint) = read_exact(rt, 5, &mut hint, "the hint is not of 32 bytes") else {
        return Ok(());
    };
    let Some(custom) = read_start(rt, 6, &mut custom) else {
        return Ok(());
    };
    let contents = Contents {
        fields,
        firmware,
        custom,
        hint,
    };
    if signed {
        print_image(rt, &contents)
    } else {
        print_digest(rt, &contents)
    }
}

fn fields_given(rt: &impl Env) -> Result<Fields, NoNumber> {
    fields_in(
        argument(rt, 2, &mut [0u8; 4096]),
        argument(rt, 3, &mut [0u8; 4096]),
        argument(rt, 4, &mut [0u8; 4096]),
    )
}

fn main(rt: HostRuntime) {
    if !is_given(&rt, 6) || is_given(&rt, 8) {
        say(
            &rt,
            "usage: pack FIRMWARE VERSION TIMESTAMP TYPE HINT CUSTOM [SIGNATURE]",
        );
        return;
    }
    match fields_given(&rt) {
        Ok(fields) => {
            if let Err(e) = pack(&rt, fields, is_given(&rt, 7)) {
                files::fail(&rt, b"standard output", e);
            }
        }
        Err(wrong) => say(&rt, wrong),
    }
}
