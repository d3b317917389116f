// Decimal numbers given as text.
ghost use Rattle.std.specs.Prelude.{◌≡◌, ◌≤◌, IfSome};
ghost use Rattle.pack.specs.Decimal.{decimal_in};

use std::str;

// The number that a text of digits is, where it is at most `most`. Zeros in front count for nothing. `parse` takes a plus
// in front, which is no digit.
pub(crate) fn decimal_in(text: &[u8], most: u64) -> Option<u64>
    ensures value { result ≡ decimal_in most text.now }
    ensures small { IfSome result (λ number. number ≤ most) }
{
    let Ok(text) = str::from_utf8(text) else {
        return None;
    };
    if text.starts_with('+') {
        return None;
    }
    match text.parse::<u64>() {
        Ok(number) => (number <= most).then_some(number),
        Err(_) => None,
    }
}
