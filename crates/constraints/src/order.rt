//! The order of rows by a key.

ghost use Rattle.std.specs.Prelude.{◌≡◌};
ghost use Rattle.sqlval.specs.Comparison.{value_order};
ghost use Rattle.denote.specs.Expression.{cell};
ghost use Rattle.constraints.specs.Keys.{by_key};

use sqlval::{Value, sort_order};
use std::cmp::Ordering;

/// The order of two rows by the values of some columns: by the first, and where that ties by the
/// others. Null is lowest.
pub fn compare_keys(columns: &[usize], one: &[Value], other: &[Value]) -> Ordering
    ensures { result ≡ by_key columns.now one.now other.now }
{
    for column in columns {
        match compare_at(*column, one, other) {
            Ordering::Less => return Ordering::Less,
            Ordering::Greater => return Ordering::Greater,
            Ordering::Equal => {}
        }
    }
    Ordering::Equal
}

fn compare_at(column: usize, one: &[Value], other: &[Value]) -> Ordering
    ensures { result ≡ value_order (cell one.now column) (cell other.now column) }
{
    let null = Value::Null;
    let first = one.get(column).unwrap_or(&null);
    let second = other.get(column).unwrap_or(&null);
    sort_order(first, second)
}
