//! The next tokens.

ghost use Rattle.std.specs.Prelude.{◌≡◌, ℕ, length};
ghost use Rattle.parse_terminals.specs.Readers.{kinds, Finds, FindsRest, Gives, GivesRest};
ghost use Rattle.parse_terminals.specs.Readers as read;

use crate::error::ParseError;
use lexer::{Kind, Name, Number, Symbol, Token, Word};
use std::alloc::Global;

/// Whether the token is `word`.
pub fn is_word(token: &Token, word: Word) -> bool
    ensures { result ≡ read.is_word word token.now.kind }
{
    match &token.kind {
        Kind::Word(other) => *other == word,
        _ => false,
    }
}

/// Whether the token is `symbol`.
pub fn is_symbol(token: &Token, symbol: Symbol) -> bool
    ensures { result ≡ read.is_symbol symbol token.now.kind }
{
    match &token.kind {
        Kind::Symbol(other) => *other == symbol,
        _ => false,
    }
}

/// Whether `word` comes next.
pub fn next_is_word(word: Word, tokens: &[Token]) -> bool
    ensures { result ≡ read.next_is (read.is_word word) (kinds tokens.now) }
{
    match tokens {
        [first, ..] => is_word(first, word),
        [] => false,
    }
}

/// Whether `symbol` comes next.
pub fn next_is_symbol(symbol: Symbol, tokens: &[Token]) -> bool
    ensures { result ≡ read.next_is (read.is_symbol symbol) (kinds tokens.now) }
{
    match tokens {
        [first, ..] => is_symbol(first, symbol),
        [] => false,
    }
}

/// What follows `word`, if it comes next.
#[tactic(auto, unfolding(crate::specs::Readers::word))]
pub fn after_word(word: Word, tokens: &[Token]) -> Option<&[Token]>
    ensures { FindsRest result (read.word word (kinds tokens.now)) }
{
    match tokens {
        [first, rest @ ..] if is_word(first, word) => Some(rest),
        _ => None,
    }
}

/// What follows `symbol`, if it comes next.
#[tactic(auto, unfolding(crate::specs::Readers::symbol))]
pub fn after_symbol(symbol: Symbol, tokens: &[Token]) -> Option<&[Token]>
    ensures { FindsRest result (read.symbol symbol (kinds tokens.now)) }
{
    match tokens {
        [first, rest @ ..] if is_symbol(first, symbol) => Some(rest),
        _ => None,
    }
}

/// What follows `word`, which has to come next: refuses any other token, and the end.
#[tactic(auto, unfolding(crate::specs::Readers::word))]
pub fn word(word: Word, tokens: &[Token]) -> Result<&[Token], ParseError>
    ensures { GivesRest result (read.word word (kinds tokens.now)) }
{
    match tokens {
        [first, rest @ ..] if is_word(first, word) => Ok(rest),
        _ => Err(ParseError::Syntax),
    }
}

/// What follows `symbol`, which has to come next: refuses any other token, and the end.
#[tactic(auto, unfolding(crate::specs::Readers::symbol))]
pub fn symbol(symbol: Symbol, tokens: &[Token]) -> Result<&[Token], ParseError>
    ensures { GivesRest result (read.symbol symbol (kinds tokens.now)) }
{
    match tokens {
        [first, rest @ ..] if is_symbol(first, symbol) => Ok(rest),
        _ => Err(ParseError::Syntax),
    }
}

/// Whether `word` comes next, and what follows it then.
#[tactic(auto, unfolding(crate::specs::Readers::eat_word))]
pub fn eat_word(word: Word, tokens: &[Token]) -> (bool, &[Token])
    ensures { (result.0, kinds result.1.now) ≡ read.eat_word word (kinds tokens.now) }
{
    match tokens {
        [first, rest @ ..] if is_word(first, word) => (true, rest),
        _ => (false, tokens),
    }
}

/// A copy of the name that has to come next. Refuses any other token, the end, and for want of
/// memory.
pub fn name(alloc: Global, tokens: &[Token]) -> Result<(Name, &[Token]), ParseError>
    ensures { Gives result (read.name (kinds tokens.now)) }
{
    match tokens {
        [
            Token {
                kind: Kind::Name(name),
                ..
            },
            rest @ ..,
        ] => Ok((name.copy(alloc)?, rest)),
        _ => Err(ParseError::Syntax),
    }
}

/// The number that has to come next. Refuses any other token, and the end.
// Callers take the answer apart by `match`: the prover does not cover `?` yet where a type that is
// `Copy` and has a model, as `Number`, stands beside a reference.
pub fn number(tokens: &[Token]) -> Result<(Number, &[Token]), ParseError>
    ensures { Gives result (read.number (kinds tokens.now)) }
{
    match tokens {
        [
            Token {
                kind: Kind::Number(number),
                ..
            },
            rest @ ..,
        ] => Ok((*number, rest)),
        _ => Err(ParseError::Syntax),
    }
}

/// What follows the end of the parentheses that are open, one more than those that `tokens` begin
/// with.
pub fn skip(tokens: &[Token]) -> &[Token]
    ensures { kinds result.now ≡ read.skip (kinds tokens.now) 0 }
{
    let mut rest = tokens;
    let mut open: usize = 0;
    while let [first, after @ ..] = rest {
        rest = after;
        if is_symbol(first, Symbol::LeftParenthesis) {
            open += 1;
        } else if is_symbol(first, Symbol::RightParenthesis) {
            if open == 0 {
                return rest;
            }
            open -= 1;
        }
    }
    rest
}
