//! The value of a field, by how it is written.
ghost use Rattle.std.specs.Prelude.{◌≡◌, IfOk, IfSome, Some};
ghost use Rattle.sqlval.specs.declared.value.Value.{Value as Held};
ghost use Rattle.sqlrecord.specs.Storable.{IsStorable};
ghost use Rattle.csv_rows.specs.declared.source.Writing.TheVariants.{PlainInteger, PlainText};
ghost use Rattle.csv_rows.specs.Written.{IsWritten};

use crate::field::value_of;
use crate::integer::integer_of;
use crate::source::Writing;
use items::{Items, Text};
use sqlval::Value;
use std::alloc::{AllocError, Global};

/// The value whose field this is, written so; `None` where none is. Refuses for want of memory
/// alone.
pub fn written_value(
    alloc: Global,
    writing: Writing,
    field: &[u8],
) -> Result<Option<Value>, AllocError>
    ensures sound { IfOk result (λ found. (value : Held) → found ≡ Some value → IsWritten writing value field.now) }
    ensures again { (value : Held) → IsStorable value → IsWritten writing value field.now
        → IfOk result (λ found. found ≡ Some value) }
{
    match writing {
        Writing::Printed => value_of(alloc, field),
        Writing::PlainInteger => Ok(plain_integer(field)),
        Writing::PlainText => plain_text(alloc, field),
    }
}

/// The integer whose field this is, or null where nothing stands there.
fn plain_integer(field: &[u8]) -> Option<Value>
    ensures sound { IfSome result (λ value. IsWritten PlainInteger value field.now) }
    ensures again { (value : Held) → IsStorable value → IsWritten PlainInteger value field.now → result ≡ Some value }
{
    if field.is_empty() {
        return Some(Value::Null);
    }
    match integer_of(field) {
        Some(number) => Some(Value::Int(number)),
        None => None,
    }
}

/// The text whose field this is, or null where nothing stands there.
fn plain_text(alloc: Global, field: &[u8]) -> Result<Option<Value>, AllocError>
    ensures sound { IfOk result (λ found. (value : Held) → found ≡ Some value → IsWritten PlainText value field.now) }
    ensures again { (value : Held) → IsStorable value → IsWritten PlainText value field.now
        → IfOk result (λ found. found ≡ Some value) }
{
    if field.is_empty() {
        return Ok(Some(Value::Null));
    }
    let codes = Items::from_slice(alloc, field)?;
    match Text::from_items(codes) {
        Some(text) => Ok(Some(Value::Text(text))),
        None => Ok(None),
    }
}
