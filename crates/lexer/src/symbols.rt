//! Symbols.

ghost use Rattle.std.specs.Prelude.{◌≡◌, ◌≤◌, length, IfOk};
ghost use Rattle.lexer.specs.Reading as reading;
ghost use Rattle.lexer.specs.Reading.{Gives};

use crate::kinds::{Kind, Symbol};
use refusals::{Reason, Refusal};

/// The symbol that begins with `first` before `after`, the longest one, and what follows it.
pub fn read_symbol(first: u8, after: &[u8]) -> Result<(Kind, &[u8]), Refusal>
    ensures step { Gives result (reading.symbol_step first after.now) }
    ensures shorter { IfOk result (λ read. length read.1.now ≤ length after.now) }
{
    if let [second, rest @ ..] = after {
        if let Some(symbol) = symbol_of_two(first, *second) {
            return Ok((Kind::Symbol(symbol), rest));
        }
    }
    match symbol_alone(first) {
        Some(symbol) => Ok((Kind::Symbol(symbol), after)),
        None => Err(Refusal::Invalid(Reason::Character)),
    }
}

fn symbol_of_two(first: u8, second: u8) -> Option<Symbol>
    ensures { result ≡ reading.symbol_of_two first second }
{
    match (first, second) {
        (b'<', b'=') => Some(Symbol::LessOrEqual),
        (b'<', b'>') => Some(Symbol::NotEqual),
        (b'>', b'=') => Some(Symbol::GreaterOrEqual),
        (b'|', b'|') => Some(Symbol::Concatenation),
        _ => None,
    }
}

fn symbol_alone(byte: u8) -> Option<Symbol>
    ensures { result ≡ reading.symbol_alone byte }
{
    match byte {
        b'(' => Some(Symbol::LeftParenthesis),
        b')' => Some(Symbol::RightParenthesis),
        b'*' => Some(Symbol::Asterisk),
        b'+' => Some(Symbol::Plus),
        b',' => Some(Symbol::Comma),
        b'-' => Some(Symbol::Minus),
        b'.' => Some(Symbol::Period),
        b'/' => Some(Symbol::Solidus),
        b';' => Some(Symbol::Semicolon),
        b'<' => Some(Symbol::Less),
        b'=' => Some(Symbol::Equal),
        b'>' => Some(Symbol::Greater),
        _ => None,
    }
}
