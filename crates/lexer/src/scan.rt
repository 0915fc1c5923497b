//! Whole texts.

ghost use Rattle.std.specs.Prelude.{◌≡◌, ◌≢◌, ◌∷◌, ◌<◌, ◌≤◌, ◌⊎◌, List, length, IfOk, IfErr, IfSome, MatchResult};
ghost use Rattle.lexer.specs.declared.kinds.Token.{Token};
ghost use Rattle.refusals.specs.declared.refusal.Refusal.{Refusal};
ghost use Rattle.lexer.specs.Reading as reading;
ghost use Rattle.lexer.specs.Reading.{Gives, GivesStep};
ghost use Rattle.lexer.specs.Tokens.{AreTokens, IsFirstFault};

use crate::gaps::skip_gap;
use crate::identifiers::read_word;
use crate::kinds::{Kind, Token};
use crate::numbers::read_number;
use crate::strings::read_string;
use crate::symbols::read_symbol;
use refusals::Refusal;
use std::alloc::Global;

/// The tokens of the text in order, whatever its length; or its first fault from left to right,
/// byte by byte. Refuses for want of memory too.
pub fn tokens(alloc: Global, text: &[u8]) -> Result<Vec<Token>, Refusal>
    ensures found { IfOk result (λ found. AreTokens text.now found.items) }
    ensures fault { IfErr result (λ refusal. refusal ≢ Refusal.Memory → IsFirstFault text.now refusal) }

    // A text that has tokens has these alone, and one that has a first fault that one alone.
    ensures only { (all : List Token) → AreTokens text.now all →
        MatchResult result (λ found. found.items ≡ all) (λ refusal. refusal ≡ Refusal.Memory) }
    ensures only_fault { (first : Refusal) → IsFirstFault text.now first →
        MatchResult result (λ _. ⊥) (λ refusal. (refusal ≡ Refusal.Memory) ⊎ (refusal ≡ first)) }
{
    read_tokens(alloc, text)
}

fn read_tokens(alloc: Global, text: &[u8]) -> Result<Vec<Token>, Refusal>
    ensures found { IfOk result (λ found. AreTokens text.now found.items) }
    ensures fault { IfErr result (λ refusal. refusal ≢ Refusal.Memory → IsFirstFault text.now refusal) }
{
    let mut found = Vec::new(alloc);
    let mut last = 0;
    loop {
        let here = skip_gap(&text[last..]);
        let Some((kind, rest)) = read_token(alloc, here)? else {
            return Ok(found);
        };
        let start = text.len() - here.len();
        let end = text.len() - rest.len();
        found.push(Token { kind, start, end })?;
        last = end;
    }
}

/// The token that the bytes begin with, and what follows it; `None` where there are no bytes.
fn read_token(alloc: Global, here: &[u8]) -> Result<Option<(Kind, &[u8])>, Refusal>
    ensures step { GivesStep result (reading.next here.now) }
    ensures shorter { IfOk result (λ read. IfSome read (λ found. length found.1.now < length here.now)) }
{
    let [first, after @ ..] = here else {
        return Ok(None);
    };
    let found = read_from(alloc, *first, after)?;
    Ok(Some(found))
}

/// The token that begins with `first` before `after`, and what follows it.
fn read_from(alloc: Global, first: u8, after: &[u8]) -> Result<(Kind, &[u8]), Refusal>
    ensures step { Gives result (reading.next (first ∷ after.now)) }
    ensures shorter { IfOk result (λ read. length read.1.now ≤ length after.now) }
{
    if first.is_ascii_alphabetic() {
        read_word(alloc, first, after)
    } else if first.is_ascii_digit() {
        read_number(first, after)
    } else if first == b'\'' {
        read_string(alloc, after)
    } else {
        read_symbol(first, after)
    }
}
