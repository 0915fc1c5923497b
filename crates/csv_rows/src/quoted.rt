//! Texts in quotes.
ghost use Rattle.std.specs.Prelude.{◌≡◌, [], ◌∷◌, ◌++◌, ℕ, List, true, false, IfOk, IfSome, Some, option_map};
ghost use Rattle.items.specs.Text.{is_text};
ghost use Rattle.replies.specs.Printed.{printed_text};
ghost use Rattle.csv_rows.specs.Undoubled.{undoubled};

use items::{Items, Text};
use std::alloc::{AllocError, Global};

/// The text that is printed so; `None` where none is.
pub(crate) fn text_of(alloc: Global, field: &[u8]) -> Result<Option<Text>, AllocError>
    ensures sound { IfOk result (λ found. (codes : List ℕ) → found ≡ Some codes → printed_text codes ≡ field.now) }
    ensures again { (codes : List ℕ) → is_text codes ≡ true → printed_text codes ≡ field.now
        → IfOk result (λ text. text ≡ Some codes) }
{
    let Some(inner) = between_quotes(field) else {
        return Ok(None);
    };
    match codes_of(alloc, inner)? {
        Some(codes) => Ok(Text::from_items(codes)),
        None => Ok(None),
    }
}

/// What stands between the first byte and the last, where both are quotes.
fn between_quotes(field: &[u8]) -> Option<&[u8]>
    ensures sound { IfSome result (λ inner. (39 ∷ inner.now) ++ 39 ∷ [] ≡ field.now) }
    ensures again { (inner : List ℕ) → (39 ∷ inner) ++ 39 ∷ [] ≡ field.now
        → option_map (λ found. found.now) result ≡ Some inner }
{
    let (first, rest) = field.split_first()?;
    let (last, inner) = rest.split_last()?;
    if *first == b'\'' && *last == b'\'' {
        Some(inner)
    } else {
        None
    }
}

/// The codes that stand so between quotes; `None` where a quote stands alone.
fn codes_of(alloc: Global, inner: &[u8]) -> Result<Option<Items<u8>>, AllocError>
    ensures { IfOk result (λ codes. codes ≡ undoubled false [] inner.now) }
{
    let mut codes = Items::new(alloc);
    let mut pending = false;
    let mut rest = inner;
    while let [first, after @ ..] = rest {
        if pending && *first != b'\'' {
            return Ok(None);
        }
        if !pending && *first == b'\'' {
            pending = true;
        } else {
            codes.push(*first)?;
            pending = false;
        }
        rest = after;
    }
    if pending { Ok(None) } else { Ok(Some(codes)) }
}
