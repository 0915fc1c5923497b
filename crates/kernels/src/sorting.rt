//! Rows in the order of keys.

ghost use Rattle.std.specs.Prelude.{◌≡◌, IfOk};
ghost use Rattle.algebra.specs.Sorted.{sorted};
ghost use Rattle.denote.specs.Answer.{directed, by_keys};

use denote::{Row, Rows};
use items::Items;
use sqlval::{Value, sort_order};
use std::alloc::AllocError;
use std::cmp::Ordering;
use typing::OrderKey;

/// The order of two rows by one key.
fn compare_by(key: OrderKey, a: &[Value], b: &[Value]) -> Ordering
    ensures { result ≡ directed key.descending a.now b.now key }
{
    let null = Value::Null;
    let x = a.get(key.place).unwrap_or(&null);
    let y = b.get(key.place).unwrap_or(&null);
    if key.descending {
        sort_order(y, x)
    } else {
        sort_order(x, y)
    }
}

/// The order of two rows: by the first key, and where that ties by the others. Null is lowest.
pub fn compare_rows(keys: &[OrderKey], a: &[Value], b: &[Value]) -> Ordering
    ensures { result ≡ by_keys keys.now a.now b.now }
{
    for key in keys {
        match compare_by(*key, a, b) {
            Ordering::Less => return Ordering::Less,
            Ordering::Greater => return Ordering::Greater,
            Ordering::Equal => {}
        }
    }
    Ordering::Equal
}

/// The rows in the order of the keys, ties in the order in which they were. Rows are moved and not
/// copied. Refuses for want of memory alone.
pub fn sorted_rows(keys: &[OrderKey], rows: Rows) -> Result<Rows, AllocError>
    ensures { IfOk result (λ found. found ≡ sorted keys.now rows) }
{
    let mut list = rows.into_vec();
    list.sort_by(
        |a: &Row, b: &Row| -> Ordering
            ensures { result ≡ by_keys keys.entry.now a.now b.now }
        { compare_rows(keys, a.as_slice(), b.as_slice()) },
    )?;
    Ok(Items::from_vec(list))
}
