//! Rows in the order of their numbers.

ghost use Rattle.std.specs.Prelude.{◌≡◌, Bool, List, filter, IfOk};
ghost use Rattle.std.specs.List.{zip};
ghost use Rattle.std.specs.Ordering.{nat_cmp};
ghost use Rattle.std.specs.declared.cmp.Ordering.{Ordering as Order};
ghost use Rattle.store.specs.Contents.{Entry, Rises};
ghost use Rattle.store.specs.Sorted.{sorted_by};
ghost use Rattle.store.specs.View.{AreEntries};

use denote::{Row, Rows};
use items::Items;
use std::alloc::{AllocError, Global};
use std::cmp::Ordering;
use store::Numbered;

/// Rows that were found in whatever order among those of a table, in the order of the table: that
/// of their numbers. Rows are moved and not copied. Refuses for want of memory alone.
pub fn by_number(alloc: Global, found: Numbered) -> Result<Numbered, AllocError>
    ensures { (order : Entry → Entry → Order) (test : Entry → Bool) (entries : List Entry) → Rises entries
        → AreEntries found (filter test (sorted_by order entries))
        → IfOk result (λ ordered. AreEntries ordered (filter test entries)) }
{
    let Numbered { numbers, rows } = found;
    let entries = paired(alloc, numbers.as_slice(), rows)?;
    apart(alloc, sorted(entries)?)
}

/// Each row behind its number.
fn paired(alloc: Global, numbers: &[u64], rows: Rows) -> Result<Items<(u64, Row)>, AllocError>
    ensures { IfOk result (λ entries. entries ≡ zip numbers.now rows) }
{
    let mut entries = Items::new(alloc);
    let mut rest = numbers;
    for row in rows.into_vec() {
        let Some((number, others)) = rest.split_first() else {
            return Ok(entries);
        };
        entries.push((*number, row))?;
        rest = others;
    }
    Ok(entries)
}

/// The entries of a table that were sorted, as they stood there.
fn sorted(entries: Items<(u64, Row)>) -> Result<Items<(u64, Row)>, AllocError>
    ensures { (order : Entry → Entry → Order) (test : Entry → Bool) (all : List Entry) → Rises all
        → entries ≡ filter test (sorted_by order all) → IfOk result (λ found. found ≡ filter test all) }
{
    let mut list = entries.into_vec();
    list.sort_by(
        |a: &(u64, Row), b: &(u64, Row)| -> Ordering
            ensures { result ≡ nat_cmp a.now.0 b.now.0 }
        { a.0.cmp(&b.0) },
    )?;
    Ok(Items::from_vec(list))
}

/// Numbers and rows, apart.
fn apart(alloc: Global, entries: Items<(u64, Row)>) -> Result<Numbered, AllocError>
    ensures { IfOk result (λ found. AreEntries found entries) }
{
    let mut numbers = Items::new(alloc);
    let mut rows = Items::new(alloc);
    for entry in entries.into_vec() {
        let (number, row) = entry;
        numbers.push(number)?;
        rows.push(row)?;
    }
    Ok(Numbered { numbers, rows })
}
