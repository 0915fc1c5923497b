//! The key of a record.
ghost use Rattle.std.specs.Prelude.{◌≡◌, ℕ, List, true, false, IfOk, IsOk};
ghost use Rattle.catalog_records.specs.Records.{key_of};

use crate::read_error::ReadError;
use crate::values::{nothing_left, number_first, text_first};
use items::Text;
use sqlval::Value;

/// Whose record it is, of what kind, and its number among those of its kind.
#[derive(Drop)]
pub(crate) struct Key<'a> {
    pub(crate) name: &'a Text,
    pub(crate) kind: usize,
    pub(crate) number: usize,
}

/// The parts of a key. Refused where the values are no key.
pub(crate) fn key_in(values: &[Value]) -> Result<Key<'_>, ReadError>
    ensures sound { IfOk result (λ key. key_of key.name.now key.kind key.number ≡ values.now) }
    ensures again { (name : List ℕ) (kind number : ℕ) → key_of name kind number ≡ values.now → IsOk result }
{
    let (name, rest) = text_first(values)?;
    let (kind, rest) = number_first(rest)?;
    let (number, rest) = number_first(rest)?;
    nothing_left(rest)?;
    Ok(Key { name, kind, number })
}

/// Whether values are the key of this record.
pub(crate) fn is_key(values: &[Value], name: &Text, kind: usize, number: usize) -> bool
    ensures yes { result ≡ true → values.now ≡ key_of name.now kind number }
    ensures no { result ≡ false → values.now ≡ key_of name.now kind number → ⊥ }
{
    match key_in(values) {
        Ok(key) => {
            key.name.as_slice() == name.as_slice() && key.kind == kind && key.number == number
        }
        Err(_) => false,
    }
}
