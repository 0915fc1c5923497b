ghost use Rattle.std.specs.Prelude.{◌≡◌};
ghost use Rattle.lexer.specs.Support as spec;

use crate::kinds::{Kind, Token};
use crate::words::Word;

/// The first word of the tokens whose forms are not built yet; `None` where there is none.
pub fn first_unsupported(tokens: &[Token]) -> Option<Word>
    ensures { result ≡ spec.first_unsupported tokens.now }
{
    let mut rest = tokens;
    while let [token, others @ ..] = rest {
        if let Some(word) = unsupported_word(&token.kind) {
            return Some(word);
        }
        rest = others;
    }
    None
}

fn unsupported_word(kind: &Kind) -> Option<Word>
    ensures { result ≡ spec.unsupported_word kind.now }
{
    match kind {
        Kind::Word(word) if !word.is_supported() => Some(*word),
        _ => None,
    }
}
