//! Copies of rows and of their values.

ghost use Rattle.std.specs.Prelude.{◌≡◌, map, IfOk};
ghost use Rattle.sqlval.specs.Matching.{key_of};
ghost use Rattle.denote.specs.Expression.{cell};

use denote::{Row, Rows};
use items::Items;
use sqlval::Value;
use std::alloc::{AllocError, Global};

/// The value at a place; null past the end.
pub fn cell_of(alloc: Global, row: &[Value], place: usize) -> Result<Value, AllocError>
    ensures { IfOk result (λ value. value ≡ cell row.now place) }
{
    match row.get(place) {
        Some(value) => value.copy(alloc),
        None => Ok(Value::Null),
    }
}

/// A copy of a row.
pub fn copied_row(alloc: Global, row: &[Value]) -> Result<Row, AllocError>
    ensures { IfOk result (λ copied. copied ≡ row.now) }
{
    let mut copied = Items::with_capacity(alloc, row.len())?;
    for value in row {
        copied.push(value.copy(alloc)?)?;
    }
    Ok(copied)
}

/// The values of a row at these columns, given by their places; null where it has none.
fn key_row(alloc: Global, columns: &[usize], row: &[Value]) -> Result<Row, AllocError>
    ensures { IfOk result (λ key. key ≡ key_of columns.now row.now) }
{
    let mut key = Items::with_capacity(alloc, columns.len())?;
    for column in columns {
        key.push(cell_of(alloc, row, *column)?)?;
    }
    Ok(key)
}

/// The keys of rows. Refuses for want of memory alone.
pub fn key_rows(alloc: Global, columns: &[usize], rows: &[Row]) -> Result<Rows, AllocError>
    ensures { IfOk result (λ keys. keys ≡ map (key_of columns.now) rows.now) }
{
    let mut keys = Items::with_capacity(alloc, rows.len())?;
    for row in rows {
        keys.push(key_row(alloc, columns, row.as_slice())?)?;
    }
    Ok(keys)
}
