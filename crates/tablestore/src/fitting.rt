//! Whether a row has the types of its table's columns.
ghost use Rattle.std.specs.Prelude.{◌≡◌, IsTrue};
ghost use Rattle.std.specs.List.{AllByRecursion};
ghost use Rattle.denote.specs.Database.{fits_columns};
ghost use Rattle.sqlval.specs.Storing.{fits_column};
ghost use Rattle.tablestore.specs.Held.{RowFits};

use denote::Row;
use sqlval::{Column, ColumnType, Value};

/// Whether a column of this type may hold a value.
fn fits(value: &Value, column: ColumnType) -> bool
    ensures { result ≡ fits_column value.now column }
{
    match value {
        Value::Null => true,
        Value::Int(_) => match column {
            ColumnType::Integer => true,
            ColumnType::Varchar(_) => false,
        },
        Value::Text(text) => match column {
            ColumnType::Integer => false,
            ColumnType::Varchar(most) => text.as_slice().len() <= most as usize,
        },
    }
}

/// Whether a row has as many values as there are columns, each one that its column may hold.
pub(crate) fn fits_columns(columns: &[Column], row: &[Value]) -> bool
    ensures { result ≡ fits_columns columns.now row.now }
{
    let mut values = row;
    let mut rest = columns;
    'each: while let Some((value, others)) = values.split_first() {
        let Some((column, more)) = rest.split_first() else {
            return false;
        };
        if !fits(value, column.column_type) {
            return false;
        }
        values = others;
        rest = more;
    }
    rest.is_empty()
}

/// Whether a row fits these columns.
pub fn is_fitting(columns: &[Column], row: &Row) -> bool
    ensures { result ≡ fits_columns columns.now row.now }
{
    fits_columns(columns, row.as_slice())
}

/// Whether each of these rows fits these columns.
pub fn are_fitting(columns: &[Column], rows: &[Row]) -> bool
    ensures fits { IsTrue result → AllByRecursion (RowFits columns.now) rows.now }
    ensures others { AllByRecursion (RowFits columns.now) rows.now → IsTrue result }
{
    for row in rows {
        if !is_fitting(columns, row) {
            return false;
        }
    }
    true
}
