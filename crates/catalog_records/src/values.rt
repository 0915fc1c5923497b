//! Values of a record, one after another.
ghost use Rattle.std.specs.Prelude.{◌≡◌, [], ◌∷◌, ℕ, List, IfOk, OnOk, IsOk};
ghost use Rattle.sqlval.specs.declared.value.Value.{Value as AnyValue};
ghost use Rattle.catalog_records.specs.Records.{counted};

use crate::read_error::ReadError;
use items::Text;
use sqlval::Value;

/// The text that stands first, and the values behind it. Refused where no text does.
pub(crate) fn text_first(values: &[Value]) -> Result<(&Text, &[Value]), ReadError>
    ensures sound { IfOk result (λ given. Value.Text given.0.now ∷ given.1.now ≡ values.now) }
    ensures again { (codes : List ℕ) (rest : List AnyValue) → Value.Text codes ∷ rest ≡ values.now → IsOk result }
{
    match values.split_first() {
        Some((Value::Text(text), rest)) => Ok((text, rest)),
        _ => Err(ReadError::Damaged),
    }
}

/// The number that stands first, which is not negative, and the values behind it. Refused where
/// none does.
pub(crate) fn number_first(values: &[Value]) -> Result<(usize, &[Value]), ReadError>
    ensures sound { IfOk result (λ given. counted given.0 ∷ given.1.now ≡ values.now) }
    ensures again { (number : ℕ) (rest : List AnyValue) → counted number ∷ rest ≡ values.now → IsOk result }
{
    match values.split_first() {
        Some((Value::Int(number), rest)) => match usize::try_from(*number) {
            Ok(number) => Ok((number, rest)),
            Err(_) => Err(ReadError::Damaged),
        },
        _ => Err(ReadError::Damaged),
    }
}

/// Nothing, where no value is left. Refused where one is.
pub(crate) fn nothing_left(values: &[Value]) -> Result<(), ReadError>
    ensures sound { OnOk result (values.now ≡ []) }
    ensures again { values.now ≡ [] → IsOk result }
{
    if values.is_empty() {
        Ok(())
    } else {
        Err(ReadError::Damaged)
    }
}
