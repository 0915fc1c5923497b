//! The values of a row by which an index has it.
ghost use Rattle.std.specs.Prelude.{◌≡◌, slice_index_or};
ghost use Rattle.std.specs.Cmp.Lexicographic.{slice_cmp};
ghost use Rattle.sqlval.specs.Comparison.{value_order};
ghost use Rattle.sqlval.specs.Matching.{key_of};
ghost use Rattle.store.specs.Indexes.{first_of, is_above, is_below, is_within};
ghost use Rattle.index_lookups.specs.Sought.{is_over};

use sqlval::{CompOp, Value, compare, sort_order};
use std::cmp::Ordering;
use std::ops::Bound;

/// The order of a row's value at a column, null where it has none, and another value.
fn compare_value(column: usize, row: &[Value], value: &Value) -> Ordering
    ensures { result ≡ value_order (slice_index_or row.now column Value.Null) value.now }
{
    match row.get(column) {
        Some(own) => sort_order(own, value),
        None => sort_order(&Value::Null, value),
    }
}

/// The order of a row's values at these columns and a key.
pub(crate) fn compare_key(columns: &[usize], row: &[Value], key: &[Value]) -> Ordering
    ensures { result ≡ slice_cmp value_order (key_of columns.now row.now) key.now }
{
    let mut left = key;
    for column in columns {
        let Some((value, others)) = left.split_first() else {
            return Ordering::Greater;
        };
        match compare_value(*column, row, value) {
            Ordering::Less => return Ordering::Less,
            Ordering::Greater => return Ordering::Greater,
            Ordering::Equal => left = others,
        }
    }
    if left.is_empty() {
        Ordering::Equal
    } else {
        Ordering::Less
    }
}

/// Whether a value meets a lower bound; null meets none.
fn is_above(low: &Bound<Value>, x: &Value) -> bool
    ensures { result ≡ is_above low.now x.now }
{
    match low {
        Bound::Unbounded => true,
        Bound::Included(low) => compare(CompOp::GreaterOrEqual, x, low).is_true(),
        Bound::Excluded(low) => compare(CompOp::Greater, x, low).is_true(),
    }
}

/// Whether a value meets an upper bound; null meets none.
fn is_below(high: &Bound<Value>, x: &Value) -> bool
    ensures { result ≡ is_below high.now x.now }
{
    match high {
        Bound::Unbounded => true,
        Bound::Included(high) => compare(CompOp::LessOrEqual, x, high).is_true(),
        Bound::Excluded(high) => compare(CompOp::Less, x, high).is_true(),
    }
}

/// Whether a value is above an upper bound in the order of the index.
fn is_over(high: &Bound<Value>, x: &Value) -> bool
    ensures { result ≡ is_over high.now x.now }
{
    match high {
        Bound::Unbounded => false,
        Bound::Included(high) => sort_order(x, high).is_gt(),
        Bound::Excluded(high) => sort_order(x, high).is_gt(),
    }
}

fn is_within(low: &Bound<Value>, high: &Bound<Value>, x: &Value) -> bool
    ensures { result ≡ is_within low.now high.now x.now }
{
    is_above(low, x) && is_below(high, x)
}

fn is_cell_within(low: &Bound<Value>, high: &Bound<Value>, column: usize, row: &[Value]) -> bool
    ensures { result ≡ is_within low.now high.now (slice_index_or row.now column Value.Null) }
{
    match row.get(column) {
        Some(own) => is_within(low, high, own),
        None => is_within(low, high, &Value::Null),
    }
}

/// Whether a row's value at the first of these columns is within bounds.
pub(crate) fn is_first_within(
    low: &Bound<Value>,
    high: &Bound<Value>,
    columns: &[usize],
    row: &[Value],
) -> bool
    ensures { result ≡ is_within low.now high.now (first_of (key_of columns.now row.now)) }
{
    match columns.first() {
        Some(column) => is_cell_within(low, high, *column, row),
        None => is_within(low, high, &Value::Null),
    }
}

fn is_cell_over(high: &Bound<Value>, column: usize, row: &[Value]) -> bool
    ensures { result ≡ is_over high.now (slice_index_or row.now column Value.Null) }
{
    match row.get(column) {
        Some(own) => is_over(high, own),
        None => is_over(high, &Value::Null),
    }
}

/// Whether a row's value at the first of these columns is above an upper bound.
pub(crate) fn is_first_over(high: &Bound<Value>, columns: &[usize], row: &[Value]) -> bool
    ensures { result ≡ is_over high.now (first_of (key_of columns.now row.now)) }
{
    match columns.first() {
        Some(column) => is_cell_over(high, *column, row),
        None => is_over(high, &Value::Null),
    }
}
