//! The text of tokens.

ghost use Rattle.std.specs.Prelude.{◌≡◌, ◌∷◌, ◌++◌, [], IfOk, OnOk};
ghost use Rattle.lexer.specs.Printing.{kind_text, text_of, AreKinds, HasKinds, IsKind, spaced_text};
ghost use Rattle.std.specs.Fmt.{decimal};
ghost use Rattle.lexer.specs.declared.kinds.Kind.TheVariants as kind_is;
ghost use Rattle.lexer.specs.Token.{quoted, quoted_character, symbol_text};

use crate::kinds::{Kind, Symbol};
use crate::numbers::Number;
use std::alloc::{AllocError, Global};

impl Symbol {
    /// The symbol as it is written.
    pub fn text(self) -> &'static [u8]
        ensures { result.now ≡ symbol_text self }
    {
        match self {
            Symbol::LeftParenthesis => b"(",
            Symbol::RightParenthesis => b")",
            Symbol::Comma => b",",
            Symbol::Period => b".",
            Symbol::Semicolon => b";",
            Symbol::Asterisk => b"*",
            Symbol::Plus => b"+",
            Symbol::Minus => b"-",
            Symbol::Solidus => b"/",
            Symbol::Equal => b"=",
            Symbol::NotEqual => b"<>",
            Symbol::Less => b"<",
            Symbol::Greater => b">",
            Symbol::LessOrEqual => b"<=",
            Symbol::GreaterOrEqual => b">=",
            Symbol::Concatenation => b"||",
        }
    }
}

/// The text of the tokens, with one space between two. Read again, it has just these tokens.
/// Refuses for want of memory alone.
#[tactic(auto, using(crate::proofs::Printed::read_again))]
pub fn print_kinds(alloc: Global, kinds: &[Kind]) -> Result<Vec<u8>, AllocError>
    ensures text { IfOk result (λ text. text.items ≡ text_of kinds.now) }
    ensures again { IfOk result (λ text. HasKinds text.items kinds.now) }
{
    let text = joined(alloc, kinds)?;
    Ok(text)
}

/// The text of one token: a word or a name in upper case, a number in decimal, a string in quotes
/// with its quotes doubled. Refuses for want of memory alone.
pub fn print_kind(alloc: Global, kind: &Kind) -> Result<Vec<u8>, AllocError>
    ensures text { IfOk result (λ text. text.items ≡ kind_text kind.now) }
    ensures kind { IsKind kind.now }
{
    match kind {
        Kind::Word(word) => Vec::from_slice(alloc, word.text()),
        Kind::Name(name) => Vec::from_slice(alloc, name.as_text().as_slice()),
        Kind::Number(number) => print_number(alloc, *number),
        Kind::Text(characters) => print_string(alloc, characters.as_slice()),
        Kind::Symbol(symbol) => Vec::from_slice(alloc, symbol.text()),
    }
}

fn joined(alloc: Global, kinds: &[Kind]) -> Result<Vec<u8>, AllocError>
    ensures text { IfOk result (λ text. text.items ≡ text_of kinds.now) }
    ensures kinds { OnOk result (AreKinds kinds.now) }
{
    let [first, others @ ..] = kinds else {
        return Ok(Vec::new(alloc));
    };
    let text = print_kind(alloc, first)?;
    push_others(alloc, text, others)
}

fn push_others(alloc: Global, text: Vec<u8>, kinds: &[Kind]) -> Result<Vec<u8>, AllocError>
    ensures text { IfOk result (λ new. new.items ≡ text.items ++ spaced_text kinds.now) }
    ensures kinds { OnOk result (AreKinds kinds.now) }
{
    let mut text = text;
    let mut rest = kinds;
    while let [kind, others @ ..] = rest {
        let printed = print_kind(alloc, kind)?;
        push_after_space(&mut text, &printed)?;
        rest = others;
    }
    Ok(text)
}

fn print_number(alloc: Global, number: Number) -> Result<Vec<u8>, AllocError>
    ensures text { IfOk result (λ text. text.items ≡ decimal number) }
    ensures kind { IsKind (kind_is.Number number) }
{
    let digits = number.value().to_string(alloc)?;
    Vec::from_slice(alloc, digits.as_bytes())
}

fn push_after_space(text: &mut Vec<u8>, more: &[u8]) -> Result<(), AllocError>
    ensures { OnOk result (text.new.items ≡ text.old.items ++ 32 ∷ more.now) }
{
    text.push(b' ')?;
    text.extend_from_slice(more)
}

fn print_string(alloc: Global, characters: &[u8]) -> Result<Vec<u8>, AllocError>
    ensures { IfOk result (λ text. text.items ≡ 39 ∷ quoted characters.now ++ 39 ∷ []) }
{
    let mut text = Vec::new(alloc);
    text.push(b'\'')?;
    let mut rest = characters;
    while let [first, others @ ..] = rest {
        push_quoted(&mut text, *first)?;
        rest = others;
    }
    text.push(b'\'')?;
    Ok(text)
}

fn push_quoted(text: &mut Vec<u8>, character: u8) -> Result<(), AllocError>
    ensures { OnOk result (text.new.items ≡ text.old.items ++ quoted_character character) }
{
    if character == b'\'' {
        text.push(b'\'')?;
    }
    text.push(character)?;
    Ok(())
}
