//! Which rows and keys are short enough for a table.
ghost use Rattle.std.specs.Prelude.{◌≡◌, [], IfOk, flat_map};
ghost use Rattle.sqlval.specs.Matching.{key_of};
ghost use Rattle.denote.specs.Database.{table_of};
ghost use Rattle.denote.specs.Stop.{Passes};
ghost use Rattle.denote.specs.StoredRow.{row_faults, key_faults};

use denote::{Fault, Row, Stop};
use items::Items;
use sqlval::{Index, Table, Value, coded_index_key_length, coded_row_length};
use std::alloc::{AllocError, Global};

/// The most bytes that a row takes, coded.
const LONGEST_RECORD: usize = 1_000;

/// The most bytes that a key takes, coded with its row number.
const LONGEST_KEY: usize = 600;

/// Whether a table without CHECKs may hold a row, but for its constraints: the row and its keys are
/// short enough, or one of the faults `record` and `key` is raised. Takes memory.
pub fn admit(alloc: Global, table: &Table, row: &[Value]) -> Result<(), Stop>
    ensures passes { Passes result (row_faults [] (table_of table.now []) row.now) }
{
    if coded_row_length(row) > LONGEST_RECORD {
        return Err(Stop::Fault(Fault::Record));
    }
    keys_fit(alloc, table.indexes.as_slice(), row)
}

/// Whether the keys of a row are short enough for these indexes.
fn keys_fit(alloc: Global, indexes: &[Index], row: &[Value]) -> Result<(), Stop>
    ensures passes { Passes result (flat_map (λ index. key_faults row.now index.columns) indexes.now) }
{
    for index in indexes {
        fits_key(alloc, index.columns.as_slice(), row)?;
    }
    Ok(())
}

/// Whether the keys of these rows are short enough for an index of these columns. Takes memory.
pub fn rows_fit_key(alloc: Global, columns: &[usize], rows: &[Row]) -> Result<(), Stop>
    ensures passes { Passes result (flat_map (λ row. key_faults row columns.now) rows.now) }
{
    for row in rows {
        fits_key(alloc, columns, row.as_slice())?;
    }
    Ok(())
}

/// Whether the key of a row is short enough for an index of these columns: 600 bytes with its row
/// number. Takes memory.
pub fn fits_key(alloc: Global, columns: &[usize], row: &[Value]) -> Result<(), Stop>
    ensures passes { Passes result (key_faults row.now columns.now) }
{
    let key = copied_key(alloc, columns, row)?;
    if coded_index_key_length(key.as_slice()) > LONGEST_KEY {
        return Err(Stop::Fault(Fault::Key));
    }
    Ok(())
}

pub(crate) fn copied_key(alloc: Global, columns: &[usize], row: &[Value]) -> Result<Row, AllocError>
    ensures { IfOk result (λ key. key ≡ key_of columns.now row.now) }
{
    let mut key = Items::new(alloc);
    for column in columns {
        match row.get(*column) {
            Some(value) => key.push(value.copy(alloc)?)?,
            None => key.push(Value::Null)?,
        }
    }
    Ok(key)
}
