//! The row of a record.
ghost use Rattle.std.specs.Prelude.{◌≡◌, List, map, IfOk, Some};
ghost use Rattle.sqlval.specs.declared.value.Value.{Value as Held};
ghost use Rattle.sqlrecord.specs.Storable.{AllStorable};
ghost use Rattle.replies.specs.Printed.{printed_value};
ghost use Rattle.csv.specs.Records.{fields_of};

use crate::field::value_of;
use csv::ByteRecord;
use items::Items;
use sqlval::Value;
use std::alloc::{AllocError, Global};

/// The row whose values are printed so; `None` where some field is no printed value. Refuses for
/// want of memory alone.
pub fn row_of(alloc: Global, fields: &ByteRecord) -> Result<Option<Items<Value>>, AllocError>
    ensures sound { IfOk result (λ found. (row : List Held) → found ≡ Some row
        → map printed_value row ≡ fields_of fields.now) }
    ensures again { (row : List Held) → AllStorable row → map printed_value row ≡ fields_of fields.now
        → IfOk result (λ found. found ≡ Some row) }
{
    let mut row = Items::new(alloc);
    for field in fields {
        match value_of(alloc, field)? {
            Some(value) => row.push(value)?,
            None => return Ok(None),
        }
    }
    Ok(Some(row))
}
