//! Texts that are recognised without taking memory.

ghost use Rattle.std.specs.Prelude.{◌≡◌, ◌≢◌, ◌↔◌, ◌∷◌, List, ℕ, IsTrue, IfSome, None};
ghost use Rattle.lexer.specs.declared.kinds.Kind.TheVariants as kind_is;
ghost use Rattle.lexer.specs.declared.kinds.Symbol.TheVariants as symbol_is;
ghost use Rattle.lexer.specs.Recognition.{IsMadeOf, Follows, IsNothing, IsEnd};
ghost use Rattle.lexer.specs.Reading.{Reads, next, gap};
ghost use Rattle.lexer.specs.Token.{folded};

use crate::gaps::skip_gap;
use crate::identifiers::run_len;
use crate::words::Word;

/// Whether the tokens of a text are just these reserved words, and perhaps a `;` after them. Takes
/// no memory.
pub fn is_made_of(text: &[u8], words: &[Word]) -> bool
    ensures { IsTrue result ↔ IsMadeOf text.now words.now }
{
    match after_words(text, words) {
        Some(rest) => is_end(rest),
        None => false,
    }
}

/// What follows the words.
fn after_words<'a>(text: &'a [u8], words: &[Word]) -> Option<&'a [u8]>
    ensures some { IfSome result (λ rest. Follows words.now text.now rest.now) }
    ensures none { result ≡ None → (rest : List ℕ) → Follows words.now text.now rest → ⊥ }
{
    let mut rest = text;
    let mut left = words;
    while let [word, others @ ..] = left {
        rest = after_word(rest, *word)?;
        left = others;
    }
    Some(rest)
}

/// Whether at most a `;` is left.
fn is_end(text: &[u8]) -> bool
    ensures { IsTrue result ↔ IsEnd text.now }
{
    if is_nothing(text) {
        return true;
    }
    match after_semicolon(text) {
        Some(rest) => is_nothing(rest),
        None => false,
    }
}

/// Whether nothing but white space and comments is left.
fn is_nothing(text: &[u8]) -> bool
    ensures { IsTrue result ↔ IsNothing text.now }
{
    skip_gap(text).is_empty()
}

/// What follows a `;`.
fn after_semicolon(text: &[u8]) -> Option<&[u8]>
    ensures some { IfSome result (λ rest. next (gap text.now) ≡ Reads (kind_is.Symbol symbol_is.Semicolon) rest.now) }
    ensures none { result ≡ None → (rest : List ℕ)
        → next (gap text.now) ≢ Reads (kind_is.Symbol symbol_is.Semicolon) rest }
{
    let [first, rest @ ..] = skip_gap(text) else {
        return None;
    };
    if *first == b';' { Some(rest) } else { None }
}

/// What follows this word.
fn after_word(text: &[u8], word: Word) -> Option<&[u8]>
    ensures some { IfSome result (λ rest. next (gap text.now) ≡ Reads (kind_is.Word word) rest.now) }
    ensures none { result ≡ None → (rest : List ℕ) → next (gap text.now) ≢ Reads (kind_is.Word word) rest }
{
    match skip_gap(text) {
        [first, after @ ..] => after_letters(*first, after, word),
        [] => None,
    }
}

/// What follows this word, which begins with `first`.
fn after_letters(first: u8, after: &[u8], word: Word) -> Option<&[u8]>
    ensures some { IfSome result (λ rest. next (first ∷ after.now) ≡ Reads (kind_is.Word word) rest.now) }
    ensures none { result ≡ None → (text rest : List ℕ) → gap text ≡ first ∷ after.now
        → next (gap text) ≢ Reads (kind_is.Word word) rest }
{
    let (run, rest) = after.split_at(run_len(after));
    if is_folded_to(first, run, word.text()) {
        Some(rest)
    } else {
        None
    }
}

/// Whether these bytes are the text in upper case.
fn is_folded_to(first: u8, run: &[u8], text: &[u8]) -> bool
    ensures { IsTrue result ↔ (folded (first ∷ run.now) ≡ text.now) }
{
    match text {
        [letter, letters @ ..] => {
            first.to_ascii_uppercase() == *letter && are_folded_to(run, letters)
        }
        [] => false,
    }
}

fn are_folded_to(run: &[u8], text: &[u8]) -> bool
    ensures { IsTrue result ↔ (folded run.now ≡ text.now) }
{
    let mut left = text;
    for byte in run {
        let [letter, letters @ ..] = left else {
            return false;
        };
        if byte.to_ascii_uppercase() != *letter {
            return false;
        }
        left = letters;
    }
    left.is_empty()
}
