//! Whether rows that are given fit a table's columns.
ghost use Rattle.std.specs.Prelude.{◌≡◌};
ghost use Rattle.change.specs.Fits.{first_fault, fits, row_fault, values_fit};

use denote::Row;
use refusals::Reason;
use sqlval::{Column, ColumnType, Value};

/// What is wrong with the first of these rows with which anything is: it has another number of
/// values than there are columns, or a value of another type than its column.
pub(crate) fn first_fault(columns: &[Column], rows: &[Row]) -> Option<Reason>
    ensures { result ≡ first_fault columns.now rows.now }
{
    let mut left = rows;
    while let Some((row, others)) = left.split_first() {
        if let Some(reason) = row_fault(columns, row.as_slice()) {
            return Some(reason);
        }
        left = others;
    }
    None
}

/// What is wrong with a row.
fn row_fault(columns: &[Column], row: &[Value]) -> Option<Reason>
    ensures { result ≡ row_fault columns.now row.now }
{
    if columns.len() != row.len() {
        return Some(Reason::Columns);
    }
    if values_fit(columns, row) {
        None
    } else {
        Some(Reason::DataType)
    }
}

/// Whether each column has a value, which fits it.
fn values_fit(columns: &[Column], row: &[Value]) -> bool
    ensures { result ≡ values_fit columns.now row.now }
{
    let mut ours = columns;
    let mut theirs = row;
    while let Some((column, rest)) = ours.split_first() {
        let Some((value, others)) = theirs.split_first() else {
            return false;
        };
        if !fits(value, column.column_type) {
            return false;
        }
        ours = rest;
        theirs = others;
    }
    true
}

/// Whether a column of this type may hold a value: one of its type, or null.
fn fits(value: &Value, column: ColumnType) -> bool
    ensures { result ≡ fits value.now column }
{
    match value {
        Value::Null => true,
        Value::Int(_) => match column {
            ColumnType::Integer => true,
            ColumnType::Varchar(_) => false,
        },
        Value::Text(_) => match column {
            ColumnType::Integer => false,
            ColumnType::Varchar(_) => true,
        },
    }
}
