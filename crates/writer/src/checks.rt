// What the writer refuses of its contents.
ghost use Rattle.std.specs.Prelude.{◌≡◌};
ghost use Rattle.refusal.specs.Numbers.{number_or_zero};
ghost use Rattle.writer.specs.Custom.{named, custom_check};
ghost use Rattle.writer.specs.Writer.{firmware_check};

use header::WalkStep;
use refusal::Refusal;

// The longest run of custom tags.
const LONGEST_RUN: usize = 82;

// The longest firmware: with its header it has at most 2^32 - 1 bytes.
const LONGEST_FIRMWARE: usize = 4_294_967_039;

pub(crate) fn check_firmware(firmware: &[u8]) -> Result<(), Refusal>
    ensures { number_or_zero result ≡ firmware_check firmware.now }
{
    if firmware.is_empty() || firmware.len() > LONGEST_FIRMWARE {
        return Err(Refusal::Size);
    }
    Ok(())
}

fn is_named(kind: u16) -> bool
    ensures { result ≡ named kind }
{
    matches!(
        kind,
        header::VERSION
            | header::TIMESTAMP
            | header::DIGEST
            | header::HINT
            | header::SIGNATURE
            | header::FIRMWARE_TYPE
    )
}

// Tags one right behind the other up to the run's end, of types that document 01 doesn't name.
pub(crate) fn check_custom(run: &[u8]) -> Result<(), Refusal>
    ensures { number_or_zero result ≡ custom_check run.now }
{
    let end = run.len();
    if end > LONGEST_RUN {
        return Err(Refusal::CustomLength);
    }
    // Not the header's iterator over tags: that passes over padding, which a run may not have.
    let mut p = 0;
    while p < end {
        match header::walk_step(run, end, p) {
            Ok(WalkStep::Met(t)) if !is_named(t.kind) => p = t.next,
            _ => return Err(Refusal::CustomForm),
        }
    }
    Ok(())
}
