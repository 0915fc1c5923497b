//! Whether an exchange leaves an index as it is.
ghost use Rattle.std.specs.Prelude.{◌≡◌, slice_index_or, IsTrue};
ghost use Rattle.sqlval.specs.declared.value.Value.TheVariants.{Null};
ghost use Rattle.sqlval.specs.Matching.{key_of};
ghost use Rattle.database_trees.specs.Kept.{IsPutBack, IsPutFor};

use crate::exchange::{Exchange, number_at};
use denote::Row;
use store::{Numbered, NumberedRow};

/// Whether two rows have the same value at a column.
fn is_alike_at(row: &Row, other: &Row, column: usize) -> bool
    ensures { IsTrue result → slice_index_or row.now column Null ≡ slice_index_or other.now column Null }
{
    match row.get(column) {
        Some(value) => match other.get(column) {
            Some(found) => value.is_alike(found),
            None => false,
        },
        None => false,
    }
}

/// Whether two rows have the same values at these columns.
fn have_one_key(row: &Row, other: &Row, columns: &[usize]) -> bool
    ensures { IsTrue result → key_of columns.now row.now ≡ key_of columns.now other.now }
{
    for (at, column) in columns.iter().enumerate() {
        if !is_alike_at(row, other, *column) {
            return false;
        }
    }
    true
}

/// Whether just one row is put, of this number and with the values of this row at these columns.
fn is_put_for(columns: &[usize], put: &Numbered, one: &NumberedRow) -> bool
    ensures { IsTrue result → IsPutFor columns.now put.now one.now }
{
    match put.rows.as_slice() {
        [row] => {
            number_at(put.numbers.as_slice(), 0) == one.number
                && have_one_key(row, &one.row, columns)
        }
        _ => false,
    }
}

/// Whether an exchange puts one row in place of one of its number that has the same values at these
/// columns.
pub(crate) fn is_put_back(columns: &[usize], exchange: &Exchange) -> bool
    ensures { IsTrue result → IsPutBack columns.now exchange.now }
{
    match &exchange.taken {
        Some(one) => is_put_for(columns, &exchange.put, one),
        None => false,
    }
}
