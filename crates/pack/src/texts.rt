// The header's fields given as three texts.
ghost use Rattle.std.specs.Prelude.{◌≡◌};
ghost use Rattle.pack.specs.Texts.{fields_in};

use crate::decimal::decimal_in;
use std::fmt;
use writer::Fields;

// The first text that is no such number.
#[derive(Clone, Copy, Debug, PartialEq, Eq)]
pub(crate) enum NoNumber {
    Version,
    Timestamp,
    FirmwareType,
}

impl fmt::Display for NoNumber {
    fn fmt<W: fmt::Write>(&self, f: &mut fmt::Formatter<W>) -> fmt::Result {
        match self {
            NoNumber::Version => write!(f, "the version is no decimal number below 2^32"),
            NoNumber::Timestamp => write!(f, "the timestamp is no decimal number below 2^64"),
            NoNumber::FirmwareType => write!(f, "the type is no decimal number below 2^16"),
        }
    }
}

#[tactic(auto, unfolding(crate::specs::Texts::fields_in, crate::specs::Texts::fields_of))]
pub(crate) fn fields_in(version: &[u8], timestamp: &[u8], kind: &[u8]) -> Result<Fields, NoNumber>
    ensures { result ≡ fields_in version.now timestamp.now kind.now }
{
    let version = decimal_in(version, u32::MAX as u64).ok_or(NoNumber::Version)?;
    let timestamp = decimal_in(timestamp, u64::MAX).ok_or(NoNumber::Timestamp)?;
    let firmware_type = decimal_in(kind, u16::MAX as u64).ok_or(NoNumber::FirmwareType)?;
    Ok(Fields {
        version: version as u32,
        timestamp,
        firmware_type: firmware_type as u16,
    })
}
