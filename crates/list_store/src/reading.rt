//! What is read of a table: all rows, by number, or by an index, whose rows are sought and sorted
//! when they are read.
ghost use Rattle.std.specs.Prelude.{◌≡◌, slice_get, take, filter, IfOk};
ghost use Rattle.std.specs.Option.{option_map};
ghost use Rattle.std.specs.FinMap.{get};
ghost use Rattle.sqlval.specs.Matching.{key_of, matches};
ghost use Rattle.store.specs.Indexes.{entries_of, is_after, entry_after, matching, sought, by_columns, in_order, first_of, is_within, first_within, ranged, is_beyond, beyond, next_entry, some_after, some_sought, some_ranged};
ghost use Rattle.store.specs.Sorted.{sorted_by};
ghost use Rattle.store.specs.View.{AreEntries, IsEntry, position_of};
ghost use Rattle.list_store.specs.Versions.{replayed};

use crate::change::Change;
use crate::declared_tables::index_columns;
use crate::keys::{compare_rows, is_beyond, is_first_within};
use crate::one_table::{Entries, entries_left};
use denote::Row;
use items::{Items, Text};
use sqlval::{Value, row_matches};
use std::alloc::{AllocError, Global};
use std::cmp::Ordering;
use std::ops::Bound;
use store::{Numbered, NumberedRow, Position};

/// All rows of the table of this name. Refuses for want of memory alone, as all of this.
pub(crate) fn all_rows(
    alloc: Global,
    changes: &[Change],
    name: &Text,
) -> Result<Numbered, AllocError>
    ensures { IfOk result (λ found. AreEntries found (entries_of (get (replayed changes.now) name.now))) }
{
    numbered(alloc, entries_left(alloc, changes, name)?)
}

/// The first row above a number, or the first of all.
pub(crate) fn row_after(
    alloc: Global,
    changes: &[Change],
    name: &Text,
    after: Option<u64>,
) -> Result<Option<NumberedRow>, AllocError>
    ensures { IfOk result (λ found. IsEntry found (entry_after after (entries_of (get (replayed changes.now) name.now)))) }
{
    let entries = entries_left(alloc, changes, name)?;
    Ok(first_after(entries, after))
}

/// The rows whose columns of the index at this place equal a key.
pub(crate) fn rows_sought(
    alloc: Global,
    changes: &[Change],
    name: &Text,
    index: usize,
    key: &[Value],
) -> Result<Numbered, AllocError>
    ensures { IfOk result (λ found. AreEntries found (sought (get (replayed changes.now) name.now) index key.now)) }
{
    let columns = index_columns(alloc, changes, name, index)?;
    let entries = entries_left(alloc, changes, name)?;
    numbered(alloc, matching(alloc, &columns, key, entries)?)
}

/// The rows whose first column of the index at this place is within bounds, in the order of the
/// index.
pub(crate) fn rows_within(
    alloc: Global,
    changes: &[Change],
    name: &Text,
    index: usize,
    low: &Bound<Value>,
    high: &Bound<Value>,
) -> Result<Numbered, AllocError>
    ensures { IfOk result (λ found. AreEntries found (ranged (get (replayed changes.now) name.now) index low.now high.now)) }
{
    let columns = index_columns(alloc, changes, name, index)?;
    let entries = entries_left(alloc, changes, name)?;
    let walked = in_order(alloc, &columns, entries)?;
    numbered(alloc, first_within(alloc, low, high, &columns, walked)?)
}

/// The first row above a place in the index at this place of the table, or the first of all.
pub(crate) fn row_beyond(
    alloc: Global,
    changes: &[Change],
    name: &Text,
    index: usize,
    after: Option<&Position>,
) -> Result<Option<NumberedRow>, AllocError>
    ensures { IfOk result (λ found. IsEntry found (next_entry (get (replayed changes.now) name.now) index (option_map (λ p. position_of p.now) after.entry))) }
{
    let columns = index_columns(alloc, changes, name, index)?;
    let entries = entries_left(alloc, changes, name)?;
    let walked = in_order(alloc, &columns, entries)?;
    Ok(first_beyond(after, &columns, walked))
}

/// At most so many rows above a number.
pub(crate) fn some_rows(
    alloc: Global,
    changes: &[Change],
    name: &Text,
    after: Option<u64>,
    most: usize,
) -> Result<Numbered, AllocError>
    ensures { IfOk result (λ found. AreEntries found (some_after after most (entries_of (get (replayed changes.now) name.now)))) }
{
    let entries = entries_left(alloc, changes, name)?;
    numbered(alloc, first_after_place(alloc, after, most, entries)?)
}

/// At most so many of the rows whose columns equal a key, above a number.
pub(crate) fn some_sought(
    alloc: Global,
    changes: &[Change],
    name: &Text,
    index: usize,
    key: &[Value],
    after: Option<u64>,
    most: usize,
) -> Result<Numbered, AllocError>
    ensures { IfOk result (λ found. AreEntries found (some_sought (get (replayed changes.now) name.now) index key.now after most)) }
{
    let columns = index_columns(alloc, changes, name, index)?;
    let entries = entries_left(alloc, changes, name)?;
    let found = matching(alloc, &columns, key, entries)?;
    numbered(alloc, first_after_place(alloc, after, most, found)?)
}

/// At most so many of the rows within bounds, behind a place in the index.
pub(crate) fn some_within(
    alloc: Global,
    changes: &[Change],
    name: &Text,
    index: usize,
    low: &Bound<Value>,
    high: &Bound<Value>,
    after: Option<&Position>,
    most: usize,
) -> Result<Numbered, AllocError>
    ensures { IfOk result (λ found. AreEntries found (some_ranged (get (replayed changes.now) name.now) index low.now high.now (option_map (λ p. position_of p.now) after.entry) most)) }
{
    let columns = index_columns(alloc, changes, name, index)?;
    let entries = entries_left(alloc, changes, name)?;
    let walked = in_order(alloc, &columns, entries)?;
    let within = first_within(alloc, low, high, &columns, walked)?;
    let mut found = all_beyond(alloc, after, &columns, within)?;
    found.truncate(most);
    numbered(alloc, found)
}

/// At most so many above a number.
fn first_after_place(
    alloc: Global,
    after: Option<u64>,
    most: usize,
    entries: Entries,
) -> Result<Entries, AllocError>
    ensures { IfOk result (λ found. found ≡ some_after after most entries) }
{
    let mut found = all_after(alloc, after, entries)?;
    found.truncate(most);
    Ok(found)
}

fn all_after(alloc: Global, after: Option<u64>, entries: Entries) -> Result<Entries, AllocError>
    ensures { IfOk result (λ found. found ≡ filter (λ entry. is_after after entry.0) entries) }
{
    let mut found = Items::new(alloc);
    for entry in entries.into_vec() {
        if is_after(after, entry.0) {
            found.push(entry)?;
        }
    }
    Ok(found)
}

fn all_beyond(
    alloc: Global,
    after: Option<&Position>,
    columns: &Option<Items<usize>>,
    entries: Entries,
) -> Result<Entries, AllocError>
    ensures { IfOk result (λ found. found ≡ beyond (option_map (λ p. position_of p.now) after.entry) columns.now entries) }
{
    match columns {
        Some(columns) => all_beyond_at(alloc, after, columns.as_slice(), entries),
        None => Ok(Items::new(alloc)),
    }
}

fn all_beyond_at(
    alloc: Global,
    after: Option<&Position>,
    columns: &[usize],
    entries: Entries,
) -> Result<Entries, AllocError>
    ensures { IfOk result (λ found. found ≡ filter (λ entry. is_beyond (option_map (λ p. position_of p.now) after.entry) (key_of columns.now entry.1) entry.0) entries) }
{
    let mut found = Items::new(alloc);
    for entry in entries.into_vec() {
        if is_beyond(after, columns, entry.1.as_slice(), entry.0) {
            found.push(entry)?;
        }
    }
    Ok(found)
}

/// Numbers and rows, apart.
fn numbered(alloc: Global, entries: Entries) -> Result<Numbered, AllocError>
    ensures { IfOk result (λ found. AreEntries found entries) }
{
    let mut numbers = Items::new(alloc);
    let mut rows = Items::new(alloc);
    for entry in entries.into_vec() {
        let (number, row) = entry;
        numbers.push(number)?;
        rows.push(row)?;
    }
    Ok(Numbered { numbers, rows })
}

fn first_after(entries: Entries, after: Option<u64>) -> Option<NumberedRow>
    ensures { IsEntry result (entry_after after entries) }
{
    for entry in entries.into_vec() {
        let (number, row) = entry;
        if is_after(after, number) {
            return Some(NumberedRow { number, row });
        }
    }
    None
}

fn is_after(after: Option<u64>, number: u64) -> bool
    ensures { result ≡ is_after after number }
{
    match after {
        Some(after) => after < number,
        None => true,
    }
}

fn matching(
    alloc: Global,
    columns: &Option<Items<usize>>,
    key: &[Value],
    entries: Entries,
) -> Result<Entries, AllocError>
    ensures { IfOk result (λ found. found ≡ matching columns.now key.now entries) }
{
    match columns {
        Some(columns) => matching_at(alloc, columns.as_slice(), key, entries),
        None => Ok(Items::new(alloc)),
    }
}

fn matching_at(
    alloc: Global,
    columns: &[usize],
    key: &[Value],
    entries: Entries,
) -> Result<Entries, AllocError>
    ensures { IfOk result (λ found. found ≡ filter (λ entry. matches columns.now key.now entry.1) entries) }
{
    let mut found = Items::new(alloc);
    for entry in entries.into_vec() {
        if row_matches(columns, key, entry.1.as_slice()) {
            found.push(entry)?;
        }
    }
    Ok(found)
}

/// In the order of the values of these columns, those that tie as they stood.
fn in_order(
    alloc: Global,
    columns: &Option<Items<usize>>,
    entries: Entries,
) -> Result<Entries, AllocError>
    ensures { IfOk result (λ found. found ≡ in_order columns.now entries) }
{
    match columns {
        Some(columns) => sorted(columns.as_slice(), entries),
        None => Ok(Items::new(alloc)),
    }
}

fn sorted(columns: &[usize], entries: Entries) -> Result<Entries, AllocError>
    ensures { IfOk result (λ found. found ≡ sorted_by (by_columns columns.now) entries) }
{
    let mut list = entries.into_vec();
    list.sort_by(
        |a: &(u64, Row), b: &(u64, Row)| -> Ordering
            ensures { result ≡ by_columns columns.entry.now a.now b.now }
        { compare_rows(columns, a.1.as_slice(), b.1.as_slice()) },
    )?;
    Ok(Items::from_vec(list))
}

fn first_within(
    alloc: Global,
    low: &Bound<Value>,
    high: &Bound<Value>,
    columns: &Option<Items<usize>>,
    entries: Entries,
) -> Result<Entries, AllocError>
    ensures { IfOk result (λ found. found ≡ first_within low.now high.now columns.now entries) }
{
    match columns {
        Some(columns) => first_within_at(alloc, low, high, columns.as_slice(), entries),
        None => Ok(Items::new(alloc)),
    }
}

fn first_within_at(
    alloc: Global,
    low: &Bound<Value>,
    high: &Bound<Value>,
    columns: &[usize],
    entries: Entries,
) -> Result<Entries, AllocError>
    ensures { IfOk result (λ found. found ≡ filter (λ entry. is_within low.now high.now (first_of (key_of columns.now entry.1))) entries) }
{
    let mut found = Items::new(alloc);
    for entry in entries.into_vec() {
        if is_first_within(low, high, columns, entry.1.as_slice()) {
            found.push(entry)?;
        }
    }
    Ok(found)
}

fn first_beyond(
    after: Option<&Position>,
    columns: &Option<Items<usize>>,
    entries: Entries,
) -> Option<NumberedRow>
    ensures { IsEntry result (slice_get (beyond (option_map (λ p. position_of p.now) after.entry) columns.now entries) 0) }
{
    match columns {
        Some(columns) => first_beyond_at(after, columns.as_slice(), entries),
        None => None,
    }
}

fn first_beyond_at(
    after: Option<&Position>,
    columns: &[usize],
    entries: Entries,
) -> Option<NumberedRow>
    ensures { IsEntry result (slice_get (filter (λ entry. is_beyond (option_map (λ p. position_of p.now) after.entry) (key_of columns.now entry.1) entry.0) entries) 0) }
{
    for entry in entries.into_vec() {
        let (number, row) = entry;
        if is_beyond(after, columns, row.as_slice(), number) {
            return Some(NumberedRow { number, row });
        }
    }
    None
}
