//! The value of a field.
ghost use Rattle.std.specs.Prelude.{◌≡◌, IfOk, Some};
ghost use Rattle.sqlval.specs.declared.value.Value.{Value as Held};
ghost use Rattle.sqlrecord.specs.Storable.{IsStorable};
ghost use Rattle.replies.specs.Printed.{printed_value};

use crate::integer::integer_of;
use crate::quoted::text_of;
use sqlval::Value;
use std::alloc::{AllocError, Global};

/// The value that is printed so; `None` where none is. Refuses for want of memory alone.
pub fn value_of(alloc: Global, field: &[u8]) -> Result<Option<Value>, AllocError>
    ensures sound { IfOk result (λ found. (value : Held) → found ≡ Some value → printed_value value ≡ field.now) }
    ensures again { (value : Held) → IsStorable value → printed_value value ≡ field.now
        → IfOk result (λ found. found ≡ Some value) }
{
    if field == b"NULL".as_slice() {
        return Ok(Some(Value::Null));
    }
    if let Some(number) = integer_of(field) {
        return Ok(Some(Value::Int(number)));
    }
    match text_of(alloc, field)? {
        Some(text) => Ok(Some(Value::Text(text))),
        None => Ok(None),
    }
}
