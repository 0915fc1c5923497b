use crate::names::Name;
use crate::numbers::Number;
use crate::words::Word;
use items::Text;

/// A symbol.
#[derive(Clone, Copy, PartialEq, Eq)]
pub enum Symbol {
    /// `(`
    LeftParenthesis,
    /// `)`
    RightParenthesis,
    /// `,`
    Comma,
    /// `.`
    Period,
    /// `;`
    Semicolon,
    /// `*`
    Asterisk,
    /// `+`
    Plus,
    /// `-`
    Minus,
    /// `/`
    Solidus,
    /// `=`
    Equal,
    /// `<>`
    NotEqual,
    /// `<`
    Less,
    /// `>`
    Greater,
    /// `<=`
    LessOrEqual,
    /// `>=`
    GreaterOrEqual,
    /// `||`
    Concatenation,
}

/// What a token is, whatever its spelling.
#[derive(Drop)]
pub enum Kind {
    Word(Word),
    Name(Name),
    /// A sign is a symbol, and no part of a number.
    Number(Number),
    /// The characters of a string, without its quotes.
    Text(Text),
    Symbol(Symbol),
}

/// A token, and where it stands in its text: from byte `start` up to byte `end`, which is not its
/// own.
#[derive(Drop)]
pub struct Token {
    pub kind: Kind,
    pub start: usize,
    pub end: usize,
}
