//! Printed integers.
ghost use Rattle.std.specs.Prelude.{◌≡◌, ◌∷◌, ◌<◌, ◌^◌, ℕ, ℤ, FitsSigned, IfSome, Some};
ghost use Rattle.std.specs.Fmt.{decimal, signed_decimal};
ghost use Rattle.std.specs.Int.{w64};

use itoa::Buffer;
use std::str;

/// The integer that is printed so; `None` where none is.
pub(crate) fn integer_of(field: &[u8]) -> Option<i64>
    ensures sound { IfSome result (λ number. signed_decimal number ≡ field.now) }
    ensures again { (number : ℤ) → FitsSigned w64 number → signed_decimal number ≡ field.now → result ≡ Some number }
{
    let text = str::from_utf8(field).ok()?;
    match text.strip_prefix('-') {
        None => i64::try_from(natural_of(text)?).ok(),
        Some(digits) => negated(natural_of(digits)?),
    }
}

/// The natural number that is printed so; `None` where none of 64 bits is.
fn natural_of(text: &str) -> Option<u64>
    ensures sound { IfSome result (λ number. decimal number ≡ text.now) }
    ensures again { (number : ℕ) → number < 2 ^ 64 → decimal number ≡ text.now → result ≡ Some number }
{
    let number = text.parse::<u64>().ok()?;
    if Buffer::new().format(number) == text {
        Some(number)
    } else {
        None
    }
}

/// The integer below zero that is printed as a minus and this number; `None` where none is.
fn negated(number: u64) -> Option<i64>
    ensures sound { IfSome result (λ below. signed_decimal below ≡ 45 ∷ decimal number) }
    ensures again { (below : ℤ) → FitsSigned w64 below → signed_decimal below ≡ 45 ∷ decimal number
        → result ≡ Some below }
{
    let before = i64::try_from(number.checked_sub(1)?).ok()?;
    Some(-1 - before)
}
