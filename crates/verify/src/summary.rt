// What is told of an image.
ghost use Rattle.std.specs.Prelude.{◌≡◌};
ghost use Rattle.verify.specs.Summary.{told, summary_of};

use header::{number_at, view};
use refusal::Refusal;

// The numbers that a header holds.
#[derive(Clone, Copy)]
pub(crate) struct Numbers {
    pub(crate) version: u32,
    pub(crate) timestamp: u64,
    pub(crate) firmware_type: u16,
    pub(crate) size: u32,
}

#[derive(Clone, Copy)]
pub(crate) struct Summary {
    pub(crate) verdict: Result<(), Refusal>,
    pub(crate) numbers: Numbers,
}

// The verdict, and what the header holds; or which of the checks 10 to 16 and 30 the header fails.
#[tactic(auto, unfolding(crate::specs::Summary::summary_of, crate::specs::Summary::numbers_of))]
pub(crate) fn summary_of(image: &[u8], signed: bool) -> Result<Summary, Refusal>
    ensures { told result ≡ summary_of image.now signed }
{
    header::check(image)?;
    let verdict = image::verify(image, signed);
    let numbers = Numbers {
        version: number_at(view(image, header::VERSION), 0),
        timestamp: number_at(view(image, header::TIMESTAMP), 0),
        firmware_type: number_at(view(image, header::FIRMWARE_TYPE), 0),
        size: number_at(image, 4),
    };
    Ok(Summary { verdict, numbers })
}
