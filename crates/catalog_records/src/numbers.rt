//! Numbers in decimal.
ghost use Rattle.std.specs.Prelude.{◌≡◌, ◌<◌, ◌^◌, ℕ, Some, decimal, IfSome};

use itoa::Buffer;
use std::str;

/// The number that digits stand for, with or without a sign or zeros in front.
fn parsed(digits: &[u8]) -> Option<usize>
    ensures { (number : ℕ) → number < 2 ^ 64 → digits.now ≡ decimal number → result ≡ Some number }
{
    match str::from_utf8(digits) {
        Ok(text) => match text.parse::<usize>() {
            Ok(number) => Some(number),
            Err(_) => None,
        },
        Err(_) => None,
    }
}

/// The number whose decimal digits these are; `None` just where they are those of none.
pub(crate) fn number_of(digits: &[u8]) -> Option<usize>
    ensures sound { IfSome result (λ number. decimal number ≡ digits.now) }
    ensures again { (number : ℕ) → number < 2 ^ 64 → digits.now ≡ decimal number → result ≡ Some number }
{
    let number = parsed(digits)?;
    let mut buffer = Buffer::new();
    if buffer.format(number).as_bytes() == digits {
        Some(number)
    } else {
        None
    }
}
