//! Reserved words of which the language has no form.

ghost use Rattle.std.specs.Prelude.{◌≡◌};
ghost use Rattle.syntax_tests.specs.Foreign as spec;

use lexer::{Kind, Token, Word};

/// The words, in the order of `Word`.
const FOREIGN: [Word; 37] = [
    Word::Alter,
    Word::Any,
    Word::Assertion,
    Word::Cascade,
    Word::Case,
    Word::Cast,
    Word::Char,
    Word::Coalesce,
    Word::Collate,
    Word::Corresponding,
    Word::Current,
    Word::Date,
    Word::Decimal,
    Word::Default,
    Word::Domain,
    Word::Escape,
    Word::Float,
    Word::Full,
    Word::Grant,
    Word::Interval,
    Word::Isolation,
    Word::Natural,
    Word::Nullif,
    Word::Numeric,
    Word::Real,
    Word::Restrict,
    Word::Revoke,
    Word::Right,
    Word::Savepoint,
    Word::Schema,
    Word::Scroll,
    Word::Smallint,
    Word::Some,
    Word::Time,
    Word::Timestamp,
    Word::Using,
    Word::View,
];

/// Whether a token is such a word: a text that has one is refused before its grammar is looked at.
pub fn is_foreign(token: &Token) -> bool
    ensures { result ≡ spec.is_foreign token.now.kind }
{
    match &token.kind {
        Kind::Word(word) => is_foreign_word(*word),
        _ => false,
    }
}

fn is_foreign_word(word: Word) -> bool
    ensures { result ≡ spec.is_foreign_word word }
{
    FOREIGN.iter().any(|foreign| *foreign == word)
}
