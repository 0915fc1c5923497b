//! Strings.

ghost use Rattle.std.specs.Prelude.{◌≡◌, [], ◌≤◌, false, length, IfOk};
ghost use Rattle.lexer.specs.Reading as reading;
ghost use Rattle.lexer.specs.Reading.{Gives};

use crate::kinds::Kind;
use items::{Items, Text};
use refusals::{Limit, Reason, Refusal};
use std::alloc::Global;

/// The string whose first quote stands before `bytes`, and what follows it.
pub fn read_string(alloc: Global, bytes: &[u8]) -> Result<(Kind, &[u8]), Refusal>
    ensures step { Gives result (reading.string_from false [] bytes.now) }
    ensures shorter { IfOk result (λ read. length read.1.now ≤ length bytes.now) }
{
    let mut done = Items::new(alloc);
    let mut pending = false;
    let mut rest = bytes;
    while let [first, after @ ..] = rest {
        if pending && *first != b'\'' {
            return closed(done, rest);
        }
        if !pending && *first == b'\'' {
            pending = true;
        } else {
            if *first < 0x20 || *first > 0x7E {
                return Err(Refusal::Invalid(Reason::Character));
            }
            if done.len() >= Text::MAXIMUM_LENGTH {
                return Err(Refusal::Exceeded(Limit::Text));
            }
            done.push(*first)?;
            pending = false;
        }
        rest = after;
    }
    if pending {
        closed(done, rest)
    } else {
        Err(Refusal::Invalid(Reason::Text))
    }
}

fn closed(characters: Items<u8>, rest: &[u8]) -> Result<(Kind, &[u8]), Refusal>
    ensures step { Gives result (reading.closed characters rest.now) }
    ensures left { IfOk result (λ read. read.1.now ≡ rest.now) }
{
    match Text::from_items(characters) {
        Some(text) => Ok((Kind::Text(text), rest)),
        None => Err(Refusal::Exceeded(Limit::Text)),
    }
}
