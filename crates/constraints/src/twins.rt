//! Twins: rows with equal and wholly non-null keys.

ghost use Rattle.std.specs.Prelude.{◌≡◌, IfOk};
ghost use Rattle.sqlval.specs.Matching.{is_equal, key_of, matches};
ghost use Rattle.denote.specs.Database.{has_twins};
ghost use Rattle.denote.specs.Expression.{cell};
ghost use Rattle.constraints.specs.Keys.{by_key, has_neighbours, is_next_twin, rows_lent};

use crate::order::compare_keys;
use denote::Row;
use sqlval::{CompOp, Value, compare};
use std::alloc::{AllocError, Global};
use std::cmp::Ordering;

/// Whether two rows have equal and wholly non-null columns. Takes memory for a reference to each
/// row, which it sorts.
pub fn any_twins(alloc: Global, columns: &[usize], rows: &[Row]) -> Result<bool, AllocError>
    ensures { IfOk result (λ found. found ≡ has_twins columns.now rows.now) }
{
    let mut sorted = lent_rows(alloc, rows)?;
    sorted.sort_by(
        |one: &&Row, other: &&Row| -> Ordering
            ensures { result ≡ by_key columns.entry.now one.now.now other.now.now }
        { compare_keys(columns, one.as_slice(), other.as_slice()) },
    )?;
    Ok(any_neighbours(columns, sorted.as_slice()))
}

fn lent_rows<'a>(alloc: Global, rows: &'a [Row]) -> Result<Vec<&'a Row>, AllocError>
    ensures { IfOk result (λ lent. rows_lent lent.items ≡ rows.now) }
{
    let mut lent = Vec::with_capacity(alloc, rows.len())?;
    for row in rows {
        lent.push(row)?;
    }
    Ok(lent)
}

/// Whether a row has the key of the one before it.
fn any_neighbours(columns: &[usize], rows: &[&Row]) -> bool
    ensures { result ≡ has_neighbours columns.now (rows_lent rows.now) }
{
    for at in 0..rows.len() {
        if begins_with_twin(columns, rows[at].as_slice(), &rows[at + 1..]) {
            return true;
        }
    }
    false
}

/// Whether the first of these rows has the key of a row.
fn begins_with_twin(columns: &[usize], row: &[Value], others: &[&Row]) -> bool
    ensures { result ≡ is_next_twin columns.now row.now (rows_lent others.now) }
{
    match others.first() {
        None => false,
        Some(next) => are_twins(columns, row, next.as_slice()),
    }
}

fn are_twins(columns: &[usize], row: &[Value], other: &[Value]) -> bool
    ensures { result ≡ matches columns.now (key_of columns.now row.now) other.now }
{
    for column in columns {
        if !is_equal_at(*column, row, other) {
            return false;
        }
    }
    true
}

fn is_equal_at(column: usize, row: &[Value], other: &[Value]) -> bool
    ensures { result ≡ is_equal (cell other.now column) (cell row.now column) }
{
    match other.get(column) {
        Some(value) => match row.get(column) {
            Some(wanted) => compare(CompOp::Equal, value, wanted).is_true(),
            None => false,
        },
        None => false,
    }
}
