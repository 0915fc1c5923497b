//! Keys of rows: copied, tested for nulls, looked for among rows.
ghost use Rattle.std.specs.Prelude.{◌≡◌, IfOk};
ghost use Rattle.std.specs.List.{list_any};
ghost use Rattle.sqlval.specs.Matching.{key_of, matches};
ghost use Rattle.sqlval.specs.Value.{is_null};
ghost use Rattle.denote.specs.Expression.{cell};

use denote::Row;
use items::Items;
use sqlval::{Value, row_matches};
use std::alloc::{AllocError, Global};

/// The values of a row at these columns.
pub(crate) fn copied_key(alloc: Global, columns: &[usize], row: &[Value]) -> Result<Row, AllocError>
    ensures { IfOk result (λ key. key ≡ key_of columns.now row.now) }
{
    let mut key = Items::new(alloc);
    for column in columns {
        match row.get(*column) {
            Some(value) => key.push(value.copy(alloc)?)?,
            None => key.push(Value::Null)?,
        }
    }
    Ok(key)
}

/// Whether a row has null in one of these columns.
pub(crate) fn has_null(columns: &[usize], row: &[Value]) -> bool
    ensures { result ≡ list_any is_null (key_of columns.now row.now) }
{
    for column in columns {
        if is_null_at(*column, row) {
            return true;
        }
    }
    false
}

fn is_null_at(column: usize, row: &[Value]) -> bool
    ensures { result ≡ is_null (cell row.now column) }
{
    match row.get(column) {
        None => true,
        Some(value) => match value {
            Value::Null => true,
            _ => false,
        },
    }
}

/// Whether some of these rows has this key at these columns, none of it null.
pub(crate) fn has_match(columns: &[usize], key: &[Value], rows: &[Row]) -> bool
    ensures { result ≡ list_any (matches columns.now key.now) rows.now }
{
    for row in rows {
        if row_matches(columns, key, row.as_slice()) {
            return true;
        }
    }
    false
}
