//! Reserved words and names.

ghost use Rattle.std.specs.Prelude.{◌≡◌, ◌∷◌, ◌≤◌, length, take_while, IfOk};
ghost use Rattle.lexer.specs.Reading as reading;
ghost use Rattle.lexer.specs.Token as token;
ghost use Rattle.lexer.specs.Reading.{Gives};
ghost use Rattle.lexer.specs.Words.{reserved};

use crate::kinds::Kind;
use crate::names::Name;
use crate::words::reserved_word;
use items::{Items, Text};
use refusals::{Limit, Refusal};
use std::alloc::{AllocError, Global};

/// The word or name that begins with the letter `first` before `after`, and what follows it.
#[tactic(auto, unfolding(crate::specs::Reading::word))]
pub fn read_word(alloc: Global, first: u8, after: &[u8]) -> Result<(Kind, &[u8]), Refusal>
    ensures step { Gives result (reading.word first after.now) }
    ensures shorter { IfOk result (λ read. length read.1.now ≤ length after.now) }
{
    let (run, rest) = after.split_at(run_len(after));
    let text = folded(alloc, first, run)?;
    named(text, rest)
}

fn named(text: Vec<u8>, rest: &[u8]) -> Result<(Kind, &[u8]), Refusal>
    ensures step { Gives result (reading.word_or_name (reserved text.items) text.items rest.now) }
    ensures left { IfOk result (λ read. read.1.now ≡ rest.now) }
{
    match reserved_word(&text) {
        Some(word) => Ok((Kind::Word(word), rest)),
        None => match name_of(text) {
            Some(name) => Ok((Kind::Name(name), rest)),
            None => Err(Refusal::Exceeded(Limit::Name)),
        },
    }
}

fn name_of(text: Vec<u8>) -> Option<Name>
    ensures { result ≡ reading.name_of text.items }
{
    Name::from_text(Text::from_items(Items::from_vec(text))?)
}

fn folded(alloc: Global, first: u8, run: &[u8]) -> Result<Vec<u8>, AllocError>
    ensures { IfOk result (λ text. text.items ≡ token.folded (first ∷ run.now)) }
{
    let mut text = run.to_ascii_uppercase(alloc)?;
    text.insert(0, first.to_ascii_uppercase())?;
    Ok(text)
}

pub fn run_len(bytes: &[u8]) -> usize
    ensures value { result ≡ length (take_while token.is_word_byte bytes.now) }
    ensures within { result ≤ length bytes.now }
{
    bytes.iter().take_while(|byte| is_word_byte(**byte)).count()
}

fn is_word_byte(byte: u8) -> bool
    ensures { result ≡ token.is_word_byte byte }
{
    byte.is_ascii_alphabetic() || byte.is_ascii_digit() || byte == b'_'
}
