//! Numbers.

ghost use Rattle.std.specs.Prelude.{◌≡◌, ◌∷◌, ◌≤◌, pos, length, min, take_while, IfOk};
ghost use Rattle.std.specs.Char.{is_ascii_digit};
ghost use Rattle.lexer.specs.Number.{as_number};
ghost use Rattle.lexer.specs.Reading as reading;
ghost use Rattle.lexer.specs.Token as token;
ghost use Rattle.lexer.specs.Reading.{Gives};

use crate::kinds::Kind;
use refusals::{Reason, Refusal};
use std::marker::Model;

const GREATEST: u64 = 9_223_372_036_854_775_807;

/// A number without a sign, from 0 to 2^63 - 1. Contracts see it as that number.
#[derive(Clone, Copy, PartialEq, Eq)]
pub struct Number {
    value: u64,
}

impl Model for Number {
    ghost use Rattle.std.specs.Prelude.{ℕ, ◌≤◌};
    ghost use Rattle.std.specs.Coded.{coded_ℕ};
    ghost use Rattle.lexer.specs.Number.{greatest_number};

    ghost Value = { ℕ };

    ghost coded = { coded_ℕ };

    ghost view = { λ number. number.value };

    ghost inverse = { λ value. record { value = value } };

    ghost invariant = { λ number. number.value ≤ greatest_number };
}

impl Number {
    /// The number of this value; `None` exactly where that is greater than 2^63 - 1.
    pub fn from_value(value: u64) -> Option<Number>
        ensures { result ≡ as_number value }
    {
        if value > GREATEST {
            None
        } else {
            Some(Number { value })
        }
    }

    /// Its value, which is never below 0.
    pub fn value(self) -> i64
        ensures { result ≡ pos self }
    {
        self.value as i64
    }
}

/// The number that begins with the digit `first` before `after`, and what follows it.
#[tactic(auto, unfolding(crate::specs::Reading::number))]
pub fn read_number(first: u8, after: &[u8]) -> Result<(Kind, &[u8]), Refusal>
    ensures step { Gives result (reading.number first after.now) }
    ensures shorter { IfOk result (λ read. length read.1.now ≤ length after.now) }
{
    let (digits, rest) = after.split_at(digits_len(after));
    let value = value_of(first, digits);
    if value > GREATEST || goes_on_as_word(rest) {
        return Err(Refusal::Invalid(Reason::Number));
    }
    Ok((Kind::Number(Number { value }), rest))
}

/// The value of the digits, or one more than `GREATEST` where it is greater than that.
fn value_of(first: u8, digits: &[u8]) -> u64
    ensures { result ≡ min (token.number_of (first ∷ digits.now)) 9223372036854775808 }
{
    let mut value = u64::from(first.saturating_sub(b'0'));
    for digit in digits {
        let wide = 10 * u128::from(value) + u128::from(digit.saturating_sub(b'0'));
        value = if wide > u128::from(GREATEST) {
            GREATEST + 1
        } else {
            wide as u64
        };
    }
    value
}

fn digits_len(bytes: &[u8]) -> usize
    ensures value { result ≡ length (take_while is_ascii_digit bytes.now) }
    ensures within { result ≤ length bytes.now }
{
    bytes
        .iter()
        .take_while(|byte| byte.is_ascii_digit())
        .count()
}

fn goes_on_as_word(bytes: &[u8]) -> bool
    ensures { result ≡ reading.goes_on_as_word bytes.now }
{
    match bytes {
        [first, ..] => first.is_ascii_alphabetic() || *first == b'_',
        [] => false,
    }
}
