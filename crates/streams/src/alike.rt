//! Rows that are like others.
ghost use Rattle.std.specs.Prelude.{◌≡◌, not, filter, IfOk};
ghost use Rattle.std.specs.List.{list_any};
ghost use Rattle.denote.specs.Bag.{are_alike, is_alike};

use denote::{Row, Rows};
use items::Items;
use sqlval::Value;
use std::alloc::{AllocError, Global};

/// Whether two values are equal, or both null.
fn is_alike(x: &Value, y: &Value) -> bool
    ensures { result ≡ is_alike x.now y.now }
{
    match x {
        Value::Null => match y {
            Value::Null => true,
            Value::Int(_) => false,
            Value::Text(_) => false,
        },
        Value::Int(one) => match y {
            Value::Null => false,
            Value::Int(other) => *one == *other,
            Value::Text(_) => false,
        },
        Value::Text(one) => match y {
            Value::Null => false,
            Value::Int(_) => false,
            Value::Text(other) => one.as_slice() == other.as_slice(),
        },
    }
}

/// Whether two rows are alike, value by value.
fn are_alike(row: &[Value], other: &[Value]) -> bool
    ensures { result ≡ are_alike row.now other.now }
{
    let (mut left, mut right) = (row, other);
    while let Some((x, rest)) = left.split_first() {
        match right.split_first() {
            None => return false,
            Some((y, others)) => {
                if !is_alike(x, y) {
                    return false;
                }
                left = rest;
                right = others;
            }
        }
    }
    right.is_empty()
}

/// Whether one of these rows is like another.
fn is_among(rows: &[Row], wanted: &[Value]) -> bool
    ensures { result ≡ list_any (λ row. are_alike row wanted.now) rows.now }
{
    for row in rows {
        if are_alike(row.as_slice(), wanted) {
            return true;
        }
    }
    false
}

/// The rows that are like none of these. Refuses for want of memory alone.
pub(crate) fn unseen_rows(alloc: Global, seen: &[Row], rows: Rows) -> Result<Rows, AllocError>
    ensures { IfOk result (λ found. found ≡ filter (λ row. not (list_any (λ other. are_alike other row) seen.now)) rows) }
{
    let mut found = Items::new(alloc);
    for row in rows.into_vec() {
        if !is_among(seen, row.as_slice()) {
            found.push(row)?;
        }
    }
    Ok(found)
}
