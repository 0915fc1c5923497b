//! Rows found by an index of a table.
ghost use Rattle.std.specs.Prelude.{◌≡◌, ◌≤◌, ℕ, List, Some, None, [], slice_get, filter, IfOk, IfErr, IfSome};
ghost use Rattle.std.specs.FinMap.{get};
ghost use Rattle.std.specs.List.{AllByRecursion};
ghost use Rattle.std.specs.Option.{option_map};
ghost use Rattle.sqlval.specs.declared.schema.Table.{Table as AnyTable};
ghost use Rattle.sqlval.specs.Matching.{matches};
ghost use Rattle.store.specs.Contents as stored;
ghost use Rattle.store.specs.Indexes.{sought, ranged, next_entry};
ghost use Rattle.store.specs.View.{AreEntries, IsEntry, entry_of, position_of};
ghost use Rattle.page_space.specs.Space.{ReadRefused};
ghost use Rattle.page_space.specs.declared.error.SpaceError.TheVariants.{Memory as OfMemory};
ghost use Rattle.catalog.specs.Held.{HoldsSchema};
ghost use Rattle.tablestore.specs.Held.{Fits, RowFits};
ghost use Rattle.stored_tables.specs.Named.{table_named, AreTyped, IsTyped};
ghost use Rattle.database_trees.specs.Held.{TableAt, HoldsDatabase, HoldsNoDatabase, contents_of};
ghost use Rattle.index_lookups.specs.Sought.{is_wanted};
ghost use Rattle.index_lookups.specs.Walked.{walk_of, HoldsIndexed, HoldsNoIndexed};
ghost use Rattle.index_lookups.specs.Begun.{MaySkip, IsStart, StartsBelow, rows_within, IsNextRow, IsRowBehind};

use crate::places::{Place, index_at};
use crate::sought::Sought;
use crate::walking::{FIRST, row_found, rows_from};
use btree_read::{Start, entries_from, next};
use catalog::KnownSchema;
use items::{Items, Text};
use page_space::{PageReader, SpaceError};
use sqlrecord::{EncodeError, encode_index_key, encode_key};
use sqlval::Value;
use std::alloc::Global;
use std::ops::Bound;
use store::{Numbered, NumberedRow, Position};

/// No rows.
pub(crate) fn no_rows(alloc: Global) -> Numbered
    ensures { AreEntries result [] }
{
    Numbered {
        numbers: Items::new(alloc),
        rows: Items::new(alloc),
    }
}

/// The rows that are sought, in the order of the index, where no row before a code is.
fn rows_behind<R: PageReader>(
    space: &mut R,
    alloc: Global,
    place: &Place,
    sought: Sought<'_>,
    code: &[u8],
) -> Result<Numbered, SpaceError>
    ensures rows { (rows : List stored.Entry)
        → HoldsIndexed (R.pages space.old) place.now.root place.now.rows_root place.now.types place.now.columns rows
        → MaySkip sought.entry place.now.columns code.now
        → IfOk result (λ found. AreEntries found (filter (is_wanted sought.entry place.now.columns) (walk_of place.now.columns rows))) }
    ensures typed { IfOk result (λ found. AllByRecursion (RowFits place.now.types) found.rows) }
    ensures same { R.pages space.new ≡ R.pages space.old }
    ensures whole { R.is_whole space.old → R.is_whole space.new }
    ensures refusal { IfErr result (ReadRefused (HoldsNoIndexed (R.pages space.old) place.now.root place.now.rows_root place.now.types place.now.columns) (R.refused space.old) (R.refused space.new)) }
    ensures rising { R.refused space.old ≤ R.refused space.new }
    ensures follows { R.follows space.old space.new }
{
    match entries_from(space, alloc, place.root, Start::At, code, FIRST) {
        Ok(first) => rows_from(space, alloc, place, sought, first),
        Err(fault) => Err(fault),
    }
}

/// Where a walk from a key on begins: at its code, and at the beginning where it is too long to
/// have one.
pub(crate) fn start_of(alloc: Global, key: &[Value]) -> Result<Items<u8>, SpaceError>
    ensures start { IfOk result (IsStart key.now) }
    ensures memory { IfErr result (λ fault. fault ≡ OfMemory) }
{
    match encode_key(alloc, key) {
        Ok(code) => Ok(code),
        Err(EncodeError::Key) => Ok(Items::new(alloc)),
        Err(EncodeError::OutOfMemory) => Err(SpaceError::Memory),
        Err(EncodeError::Record) => unreachable!(),
    }
}

/// The rows of an index whose columns equal a key.
fn matching<R: PageReader>(
    space: &mut R,
    alloc: Global,
    place: &Place,
    key: &[Value],
) -> Result<Numbered, SpaceError>
    ensures rows { (rows : List stored.Entry)
        → HoldsIndexed (R.pages space.old) place.now.root place.now.rows_root place.now.types place.now.columns rows
        → IfOk result (λ found. AreEntries found (filter (λ (e : stored.Entry). matches place.now.columns key.now e.1) rows)) }
    ensures typed { IfOk result (λ found. AllByRecursion (RowFits place.now.types) found.rows) }
    ensures same { R.pages space.new ≡ R.pages space.old }
    ensures whole { R.is_whole space.old → R.is_whole space.new }
    ensures refusal { IfErr result (ReadRefused (HoldsNoIndexed (R.pages space.old) place.now.root place.now.rows_root place.now.types place.now.columns) (R.refused space.old) (R.refused space.new)) }
    ensures rising { R.refused space.old ≤ R.refused space.new }
    ensures follows { R.follows space.old space.new }
{
    match start_of(alloc, key) {
        Ok(code) => rows_behind(space, alloc, place, Sought::Key(key), code.as_slice()),
        Err(fault) => Err(fault),
    }
}

/// The rows whose columns equal a key, in the order of their numbers: those of the index at a place
/// of the table of a name, as many as the key has values. A null equals nothing; where no index
/// stands there, nothing is found. Wherever a schema lies they have the types of the table's
/// columns. It reads the pages on the way to the key, and on the way to each row that it gives.
///
/// Refused for want of memory, where the device refuses a call, and as damaged only where no
/// database is held there.
pub fn seek<R: PageReader>(
    space: &mut R,
    alloc: Global,
    known: &mut KnownSchema,
    root: u32,
    name: &Text,
    index: usize,
    key: &[Value],
) -> Result<Numbered, SpaceError>
    ensures rows { (tables : List TableAt) → HoldsDatabase (R.pages space.old) root tables
        → IfOk result (λ found. AreEntries found (sought (get (contents_of tables) name.now) index key.now)) }
    ensures typed { (owned : List ℕ) (tables : List AnyTable) → HoldsSchema (R.pages space.old) root owned tables
        → IfOk result (λ found. AreTyped (table_named name.now tables) found.rows) }
    ensures same { R.pages space.new ≡ R.pages space.old }
    ensures whole { R.is_whole space.old → R.is_whole space.new }
    ensures refusal { IfErr result (ReadRefused (HoldsNoDatabase (R.pages space.old) root) (R.refused space.old) (R.refused space.new)) }
    ensures rising { R.refused space.old ≤ R.refused space.new }
    ensures follows { R.follows space.old space.new }
{
    match index_at(space, alloc, known, root, name, index) {
        Ok(Some(place)) => matching(space, alloc, &place, key),
        Ok(None) => Ok(no_rows(alloc)),
        Err(fault) => Err(fault),
    }
}

/// Where a walk within bounds begins: at the code of the lower one.
pub(crate) fn start_above(alloc: Global, low: &Bound<Value>) -> Result<Items<u8>, SpaceError>
    ensures start { IfOk result (StartsBelow low.now) }
    ensures memory { IfErr result (λ fault. fault ≡ OfMemory) }
{
    match low {
        Bound::Unbounded => Ok(Items::new(alloc)),
        Bound::Included(value) => start_of(alloc, std::slice::from_ref(value)),
        Bound::Excluded(value) => start_of(alloc, std::slice::from_ref(value)),
    }
}

/// The rows of an index whose value at the first column is within bounds.
fn within<R: PageReader>(
    space: &mut R,
    alloc: Global,
    place: &Place,
    low: &Bound<Value>,
    high: &Bound<Value>,
) -> Result<Numbered, SpaceError>
    ensures rows { (rows : List stored.Entry)
        → HoldsIndexed (R.pages space.old) place.now.root place.now.rows_root place.now.types place.now.columns rows
        → IfOk result (λ found. AreEntries found (rows_within low.now high.now place.now.columns rows)) }
    ensures typed { IfOk result (λ found. AllByRecursion (RowFits place.now.types) found.rows) }
    ensures same { R.pages space.new ≡ R.pages space.old }
    ensures whole { R.is_whole space.old → R.is_whole space.new }
    ensures refusal { IfErr result (ReadRefused (HoldsNoIndexed (R.pages space.old) place.now.root place.now.rows_root place.now.types place.now.columns) (R.refused space.old) (R.refused space.new)) }
    ensures rising { R.refused space.old ≤ R.refused space.new }
    ensures follows { R.follows space.old space.new }
{
    match start_above(alloc, low) {
        Ok(code) => rows_behind(
            space,
            alloc,
            place,
            Sought::Within(low, high),
            code.as_slice(),
        ),
        Err(fault) => Err(fault),
    }
}

/// The rows whose first column of the index at a place of the table of a name is within bounds, in
/// the order of the index: by the values of its columns, null lowest, and then by row number. A
/// null is within no bound. It reads the pages on the way to the lower bound, and on the way to
/// each row that it gives.
///
/// Typed and refused as `seek` is.
pub fn range<R: PageReader>(
    space: &mut R,
    alloc: Global,
    known: &mut KnownSchema,
    root: u32,
    name: &Text,
    index: usize,
    low: &Bound<Value>,
    high: &Bound<Value>,
) -> Result<Numbered, SpaceError>
    ensures rows { (tables : List TableAt) → HoldsDatabase (R.pages space.old) root tables
        → IfOk result (λ found. AreEntries found (ranged (get (contents_of tables) name.now) index low.now high.now)) }
    ensures typed { (owned : List ℕ) (tables : List AnyTable) → HoldsSchema (R.pages space.old) root owned tables
        → IfOk result (λ found. AreTyped (table_named name.now tables) found.rows) }
    ensures same { R.pages space.new ≡ R.pages space.old }
    ensures whole { R.is_whole space.old → R.is_whole space.new }
    ensures refusal { IfErr result (ReadRefused (HoldsNoDatabase (R.pages space.old) root) (R.refused space.old) (R.refused space.new)) }
    ensures rising { R.refused space.old ≤ R.refused space.new }
    ensures follows { R.follows space.old space.new }
{
    match index_at(space, alloc, known, root, name, index) {
        Ok(Some(place)) => within(space, alloc, &place, low, high),
        Ok(None) => Ok(no_rows(alloc)),
        Err(fault) => Err(fault),
    }
}

/// The first of these rows.
fn first_of(found: Numbered) -> Option<NumberedRow>
    ensures first { (rows : List stored.Entry) → AreEntries found rows → option_map entry_of result ≡ slice_get rows 0 }
    ensures row { IfSome result (λ first. slice_get found.rows 0 ≡ Some first.row) }
{
    let Numbered { numbers, rows } = found;
    let mut numbers = numbers;
    let mut rows = rows;
    if numbers.is_empty() || rows.is_empty() {
        return None;
    }
    Some(NumberedRow {
        number: numbers.remove(0),
        row: rows.remove(0),
    })
}

/// The first row above a place that has no code in this index: all rows are looked at.
fn first_beyond<R: PageReader>(
    space: &mut R,
    alloc: Global,
    place: &Place,
    after: &Position,
) -> Result<Option<NumberedRow>, SpaceError>
    ensures row { (rows : List stored.Entry)
        → HoldsIndexed (R.pages space.old) place.now.root place.now.rows_root place.now.types place.now.columns rows
        → IfOk result (IsNextRow place.now.columns rows (Some (position_of after.now))) }
    ensures typed { IfOk result (λ found. IfSome found (λ row. Fits place.now.types (entry_of row))) }
    ensures same { R.pages space.new ≡ R.pages space.old }
    ensures whole { R.is_whole space.old → R.is_whole space.new }
    ensures refusal { IfErr result (ReadRefused (HoldsNoIndexed (R.pages space.old) place.now.root place.now.rows_root place.now.types place.now.columns) (R.refused space.old) (R.refused space.new)) }
    ensures rising { R.refused space.old ≤ R.refused space.new }
    ensures follows { R.follows space.old space.new }
{
    match rows_behind(space, alloc, place, Sought::Beyond(after), &[]) {
        Ok(found) => Ok(first_of(found)),
        Err(fault) => Err(fault),
    }
}

/// The first row whose entry stands behind a code.
fn row_behind<R: PageReader>(
    space: &mut R,
    alloc: Global,
    place: &Place,
    code: &[u8],
) -> Result<Option<NumberedRow>, SpaceError>
    ensures row { (rows : List stored.Entry)
        → HoldsIndexed (R.pages space.old) place.now.root place.now.rows_root place.now.types place.now.columns rows
        → IfOk result (IsRowBehind place.now.columns rows code.now) }
    ensures typed { IfOk result (λ found. IfSome found (λ row. Fits place.now.types (entry_of row))) }
    ensures same { R.pages space.new ≡ R.pages space.old }
    ensures whole { R.is_whole space.old → R.is_whole space.new }
    ensures refusal { IfErr result (ReadRefused (HoldsNoIndexed (R.pages space.old) place.now.root place.now.rows_root place.now.types place.now.columns) (R.refused space.old) (R.refused space.new)) }
    ensures rising { R.refused space.old ≤ R.refused space.new }
    ensures follows { R.follows space.old space.new }
{
    match next(space, alloc, place.root, code) {
        Ok(entry) => row_found(space, alloc, place, &entry),
        Err(fault) => Err(fault),
    }
}

/// The first row of an index.
fn first_row<R: PageReader>(
    space: &mut R,
    alloc: Global,
    place: &Place,
) -> Result<Option<NumberedRow>, SpaceError>
    ensures row { (rows : List stored.Entry)
        → HoldsIndexed (R.pages space.old) place.now.root place.now.rows_root place.now.types place.now.columns rows
        → IfOk result (IsNextRow place.now.columns rows None) }
    ensures typed { IfOk result (λ found. IfSome found (λ row. Fits place.now.types (entry_of row))) }
    ensures same { R.pages space.new ≡ R.pages space.old }
    ensures whole { R.is_whole space.old → R.is_whole space.new }
    ensures refusal { IfErr result (ReadRefused (HoldsNoIndexed (R.pages space.old) place.now.root place.now.rows_root place.now.types place.now.columns) (R.refused space.old) (R.refused space.new)) }
    ensures rising { R.refused space.old ≤ R.refused space.new }
    ensures follows { R.follows space.old space.new }
{
    match btree_read::seek(space, alloc, place.root, &[]) {
        Ok(entry) => row_found(space, alloc, place, &entry),
        Err(fault) => Err(fault),
    }
}

/// The first row of an index above a place.
fn row_beyond<R: PageReader>(
    space: &mut R,
    alloc: Global,
    place: &Place,
    after: &Position,
) -> Result<Option<NumberedRow>, SpaceError>
    ensures row { (rows : List stored.Entry)
        → HoldsIndexed (R.pages space.old) place.now.root place.now.rows_root place.now.types place.now.columns rows
        → IfOk result (IsNextRow place.now.columns rows (Some (position_of after.now))) }
    ensures typed { IfOk result (λ found. IfSome found (λ row. Fits place.now.types (entry_of row))) }
    ensures same { R.pages space.new ≡ R.pages space.old }
    ensures whole { R.is_whole space.old → R.is_whole space.new }
    ensures refusal { IfErr result (ReadRefused (HoldsNoIndexed (R.pages space.old) place.now.root place.now.rows_root place.now.types place.now.columns) (R.refused space.old) (R.refused space.new)) }
    ensures rising { R.refused space.old ≤ R.refused space.new }
    ensures follows { R.follows space.old space.new }
{
    let number = after.number;
    if after.key.len() != place.columns.len() {
        return first_beyond(space, alloc, place, after);
    }
    match encode_index_key(alloc, after.key.as_slice(), number) {
        Ok(code) => row_behind(space, alloc, place, code.as_slice()),
        Err(EncodeError::Key) => first_beyond(space, alloc, place, after),
        Err(EncodeError::OutOfMemory) => Err(SpaceError::Memory),
        Err(EncodeError::Record) => unreachable!(),
    }
}

/// The first row above a place in the index at a place of the table of a name; without a place the
/// first of all. It reads the pages on the way to the place and to the row; where a place has no
/// key of the index's columns, those of all rows.
///
/// Typed and refused as `seek` is.
pub fn next_in<R: PageReader>(
    space: &mut R,
    alloc: Global,
    known: &mut KnownSchema,
    root: u32,
    name: &Text,
    index: usize,
    after: Option<&Position>,
) -> Result<Option<NumberedRow>, SpaceError>
    ensures row { (tables : List TableAt) → HoldsDatabase (R.pages space.old) root tables
        → IfOk result (λ found. IsEntry found (next_entry (get (contents_of tables) name.now) index (option_map (λ p. position_of p.now) after.entry))) }
    ensures typed { (owned : List ℕ) (tables : List AnyTable) → HoldsSchema (R.pages space.old) root owned tables
        → IfOk result (λ found. IfSome found (λ row. IsTyped (table_named name.now tables) row.row)) }
    ensures same { R.pages space.new ≡ R.pages space.old }
    ensures whole { R.is_whole space.old → R.is_whole space.new }
    ensures refusal { IfErr result (ReadRefused (HoldsNoDatabase (R.pages space.old) root) (R.refused space.old) (R.refused space.new)) }
    ensures rising { R.refused space.old ≤ R.refused space.new }
    ensures follows { R.follows space.old space.new }
{
    match index_at(space, alloc, known, root, name, index) {
        Ok(Some(place)) => match after {
            Some(after) => row_beyond(space, alloc, &place, after),
            None => first_row(space, alloc, &place),
        },
        Ok(None) => Ok(None),
        Err(fault) => Err(fault),
    }
}
