//! Blocks of rows: at most so many behind a place.
ghost use Rattle.std.specs.Prelude.{◌≡◌, ◌≤◌, ℕ, List, Some, None, filter, take, IfOk, IfErr};
ghost use Rattle.std.specs.FinMap.{get};
ghost use Rattle.std.specs.List.{AllByRecursion};
ghost use Rattle.std.specs.Option.{option_map};
ghost use Rattle.sqlval.specs.declared.schema.Table.{Table as AnyTable};
ghost use Rattle.sqlval.specs.Matching.{matches};
ghost use Rattle.store.specs.Contents as stored;
ghost use Rattle.store.specs.Indexes.{entries_of, some_after, some_sought, some_ranged};
ghost use Rattle.store.specs.View.{AreEntries, position_of};
ghost use Rattle.page_space.specs.Space.{ReadRefused};
ghost use Rattle.catalog.specs.Held.{HoldsSchema};
ghost use Rattle.tablestore.specs.Held.{RowFits};
ghost use Rattle.stored_tables.specs.Named.{table_named, AreTyped};
ghost use Rattle.database_trees.specs.Held.{TableAt, HoldsDatabase, HoldsNoDatabase, contents_of};
ghost use Rattle.index_lookups.specs.Sought.{is_wanted};
ghost use Rattle.index_lookups.specs.Walked.{walk_of, HoldsIndexed, HoldsNoIndexed};
ghost use Rattle.index_lookups.specs.Begun.{MaySkip, MayPass, rows_within, block_within};

use crate::lookups::{no_rows, start_above, start_of};
use crate::places::{Place, index_at};
use crate::sought::Sought;
use crate::walking::{FIRST, some_from};
use btree_read::{Start, entries_from};
use catalog::KnownSchema;
use items::Text;
use page_space::{PageReader, SpaceError};
use sqlrecord::{EncodeError, encode_index_key};
use sqlval::Value;
use std::alloc::Global;
use std::ops::Bound;
use store::{Numbered, Position};
use stored_tables::find_table;
use tablestore::some_rows;

/// The first rows above a number of the table of a name, at most so many; none where no table has
/// the name. Wherever a schema lies they have the types of the table's columns. It reads the pages
/// on one way down, and those of the leaves behind it, until there are so many rows.
///
/// Refused as `seek` is.
pub fn scan_block<R: PageReader>(
    space: &mut R,
    alloc: Global,
    known: &mut KnownSchema,
    root: u32,
    name: &Text,
    after: Option<u64>,
    most: usize,
) -> Result<Numbered, SpaceError>
    ensures rows { (tables : List TableAt) → HoldsDatabase (R.pages space.old) root tables
        → IfOk result (λ found. AreEntries found (some_after after most (entries_of (get (contents_of tables) name.now)))) }
    ensures typed { (owned : List ℕ) (tables : List AnyTable) → HoldsSchema (R.pages space.old) root owned tables
        → IfOk result (λ found. AreTyped (table_named name.now tables) found.rows) }
    ensures same { R.pages space.new ≡ R.pages space.old }
    ensures whole { R.is_whole space.old → R.is_whole space.new }
    ensures refusal { IfErr result (ReadRefused (HoldsNoDatabase (R.pages space.old) root) (R.refused space.old) (R.refused space.new)) }
    ensures rising { R.refused space.old ≤ R.refused space.new }
    ensures follows { R.follows space.old space.new }
{
    match find_table(space, alloc, known, root, name) {
        Ok(Some(table)) => {
            let columns = table.columns.as_slice();
            some_rows(space, alloc, table.root, columns, after, most)
        }
        Ok(None) => Ok(no_rows(alloc)),
        Err(fault) => Err(fault),
    }
}

/// At most so many of the rows that are sought, in the order of the index, where no row before a
/// code is.
fn some_at<R: PageReader>(
    space: &mut R,
    alloc: Global,
    place: &Place,
    sought: Sought<'_>,
    code: &[u8],
    most: usize,
) -> Result<Numbered, SpaceError>
    ensures rows { (rows : List stored.Entry)
        → HoldsIndexed (R.pages space.old) place.now.root place.now.rows_root place.now.types place.now.columns rows
        → MaySkip sought.entry place.now.columns code.now
        → IfOk result (λ found. AreEntries found (take most (filter (is_wanted sought.entry place.now.columns) (walk_of place.now.columns rows)))) }
    ensures typed { IfOk result (λ found. AllByRecursion (RowFits place.now.types) found.rows) }
    ensures same { R.pages space.new ≡ R.pages space.old }
    ensures whole { R.is_whole space.old → R.is_whole space.new }
    ensures refusal { IfErr result (ReadRefused (HoldsNoIndexed (R.pages space.old) place.now.root place.now.rows_root place.now.types place.now.columns) (R.refused space.old) (R.refused space.new)) }
    ensures rising { R.refused space.old ≤ R.refused space.new }
    ensures follows { R.follows space.old space.new }
{
    match entries_from(space, alloc, place.root, Start::At, code, FIRST) {
        Ok(first) => some_from(space, alloc, place, sought, first, most),
        Err(fault) => Err(fault),
    }
}

/// The same, where no row before a code is, nor one at it.
fn some_behind<R: PageReader>(
    space: &mut R,
    alloc: Global,
    place: &Place,
    sought: Sought<'_>,
    code: &[u8],
    most: usize,
) -> Result<Numbered, SpaceError>
    ensures rows { (rows : List stored.Entry)
        → HoldsIndexed (R.pages space.old) place.now.root place.now.rows_root place.now.types place.now.columns rows
        → MayPass sought.entry place.now.columns code.now
        → IfOk result (λ found. AreEntries found (take most (filter (is_wanted sought.entry place.now.columns) (walk_of place.now.columns rows)))) }
    ensures typed { IfOk result (λ found. AllByRecursion (RowFits place.now.types) found.rows) }
    ensures same { R.pages space.new ≡ R.pages space.old }
    ensures whole { R.is_whole space.old → R.is_whole space.new }
    ensures refusal { IfErr result (ReadRefused (HoldsNoIndexed (R.pages space.old) place.now.root place.now.rows_root place.now.types place.now.columns) (R.refused space.old) (R.refused space.new)) }
    ensures rising { R.refused space.old ≤ R.refused space.new }
    ensures follows { R.follows space.old space.new }
{
    match entries_from(space, alloc, place.root, Start::Behind, code, FIRST) {
        Ok(first) => some_from(space, alloc, place, sought, first, most),
        Err(fault) => Err(fault),
    }
}

/// The first rows whose columns equal a key, at most so many.
fn first_sought<R: PageReader>(
    space: &mut R,
    alloc: Global,
    place: &Place,
    key: &[Value],
    most: usize,
) -> Result<Numbered, SpaceError>
    ensures rows { (rows : List stored.Entry)
        → HoldsIndexed (R.pages space.old) place.now.root place.now.rows_root place.now.types place.now.columns rows
        → IfOk result (λ found. AreEntries found (some_after None most (filter (λ (e : stored.Entry). matches place.now.columns key.now e.1) rows))) }
    ensures typed { IfOk result (λ found. AllByRecursion (RowFits place.now.types) found.rows) }
    ensures same { R.pages space.new ≡ R.pages space.old }
    ensures whole { R.is_whole space.old → R.is_whole space.new }
    ensures refusal { IfErr result (ReadRefused (HoldsNoIndexed (R.pages space.old) place.now.root place.now.rows_root place.now.types place.now.columns) (R.refused space.old) (R.refused space.new)) }
    ensures rising { R.refused space.old ≤ R.refused space.new }
    ensures follows { R.follows space.old space.new }
{
    match start_of(alloc, key) {
        Ok(code) => some_at(space, alloc, place, Sought::Key(key), code.as_slice(), most),
        Err(fault) => Err(fault),
    }
}

/// The first rows whose columns equal a key above a number, at most so many, by a walk that begins
/// at the key and passes over its rows up to the number.
fn sought_past<R: PageReader>(
    space: &mut R,
    alloc: Global,
    place: &Place,
    key: &[Value],
    number: u64,
    most: usize,
) -> Result<Numbered, SpaceError>
    ensures rows { (rows : List stored.Entry)
        → HoldsIndexed (R.pages space.old) place.now.root place.now.rows_root place.now.types place.now.columns rows
        → IfOk result (λ found. AreEntries found (some_after (Some number) most (filter (λ (e : stored.Entry). matches place.now.columns key.now e.1) rows))) }
    ensures typed { IfOk result (λ found. AllByRecursion (RowFits place.now.types) found.rows) }
    ensures same { R.pages space.new ≡ R.pages space.old }
    ensures whole { R.is_whole space.old → R.is_whole space.new }
    ensures refusal { IfErr result (ReadRefused (HoldsNoIndexed (R.pages space.old) place.now.root place.now.rows_root place.now.types place.now.columns) (R.refused space.old) (R.refused space.new)) }
    ensures rising { R.refused space.old ≤ R.refused space.new }
    ensures follows { R.follows space.old space.new }
{
    match start_of(alloc, key) {
        Ok(code) => some_at(
            space,
            alloc,
            place,
            Sought::KeyAbove(key, number),
            code.as_slice(),
            most,
        ),
        Err(fault) => Err(fault),
    }
}

/// The first rows whose columns equal a key above a number, at most so many.
fn sought_above<R: PageReader>(
    space: &mut R,
    alloc: Global,
    place: &Place,
    key: &[Value],
    number: u64,
    most: usize,
) -> Result<Numbered, SpaceError>
    ensures rows { (rows : List stored.Entry)
        → HoldsIndexed (R.pages space.old) place.now.root place.now.rows_root place.now.types place.now.columns rows
        → IfOk result (λ found. AreEntries found (some_after (Some number) most (filter (λ (e : stored.Entry). matches place.now.columns key.now e.1) rows))) }
    ensures typed { IfOk result (λ found. AllByRecursion (RowFits place.now.types) found.rows) }
    ensures same { R.pages space.new ≡ R.pages space.old }
    ensures whole { R.is_whole space.old → R.is_whole space.new }
    ensures refusal { IfErr result (ReadRefused (HoldsNoIndexed (R.pages space.old) place.now.root place.now.rows_root place.now.types place.now.columns) (R.refused space.old) (R.refused space.new)) }
    ensures rising { R.refused space.old ≤ R.refused space.new }
    ensures follows { R.follows space.old space.new }
{
    if key.len() != place.columns.len() {
        return sought_past(space, alloc, place, key, number, most);
    }
    match encode_index_key(alloc, key, number) {
        Ok(code) => some_behind(
            space,
            alloc,
            place,
            Sought::KeyAbove(key, number),
            code.as_slice(),
            most,
        ),
        Err(EncodeError::Key) => sought_past(space, alloc, place, key, number, most),
        Err(EncodeError::OutOfMemory) => Err(SpaceError::Memory),
        Err(EncodeError::Record) => unreachable!(),
    }
}

/// The first rows whose columns equal a key, above a number where there is one, at most so many.
fn sought_at<R: PageReader>(
    space: &mut R,
    alloc: Global,
    place: &Place,
    key: &[Value],
    after: Option<u64>,
    most: usize,
) -> Result<Numbered, SpaceError>
    ensures rows { (rows : List stored.Entry)
        → HoldsIndexed (R.pages space.old) place.now.root place.now.rows_root place.now.types place.now.columns rows
        → IfOk result (λ found. AreEntries found (some_after after most (filter (λ (e : stored.Entry). matches place.now.columns key.now e.1) rows))) }
    ensures typed { IfOk result (λ found. AllByRecursion (RowFits place.now.types) found.rows) }
    ensures same { R.pages space.new ≡ R.pages space.old }
    ensures whole { R.is_whole space.old → R.is_whole space.new }
    ensures refusal { IfErr result (ReadRefused (HoldsNoIndexed (R.pages space.old) place.now.root place.now.rows_root place.now.types place.now.columns) (R.refused space.old) (R.refused space.new)) }
    ensures rising { R.refused space.old ≤ R.refused space.new }
    ensures follows { R.follows space.old space.new }
{
    match after {
        Some(number) => sought_above(space, alloc, place, key, number, most),
        None => first_sought(space, alloc, place, key, most),
    }
}

/// The first rows whose columns equal a key above a number, at most so many, in the order of their
/// numbers. It reads the pages on the way to the key with the number, and those behind with its
/// entries, and the pages on the way to each row that it gives.
///
/// Typed and refused as `seek` is.
pub fn seek_block<R: PageReader>(
    space: &mut R,
    alloc: Global,
    known: &mut KnownSchema,
    root: u32,
    name: &Text,
    index: usize,
    key: &[Value],
    after: Option<u64>,
    most: usize,
) -> Result<Numbered, SpaceError>
    ensures rows { (tables : List TableAt) → HoldsDatabase (R.pages space.old) root tables
        → IfOk result (λ found. AreEntries found (some_sought (get (contents_of tables) name.now) index key.now after most)) }
    ensures typed { (owned : List ℕ) (tables : List AnyTable) → HoldsSchema (R.pages space.old) root owned tables
        → IfOk result (λ found. AreTyped (table_named name.now tables) found.rows) }
    ensures same { R.pages space.new ≡ R.pages space.old }
    ensures whole { R.is_whole space.old → R.is_whole space.new }
    ensures refusal { IfErr result (ReadRefused (HoldsNoDatabase (R.pages space.old) root) (R.refused space.old) (R.refused space.new)) }
    ensures rising { R.refused space.old ≤ R.refused space.new }
    ensures follows { R.follows space.old space.new }
{
    match index_at(space, alloc, known, root, name, index) {
        Ok(Some(place)) => sought_at(space, alloc, &place, key, after, most),
        Ok(None) => Ok(no_rows(alloc)),
        Err(fault) => Err(fault),
    }
}

/// The first rows within bounds, at most so many.
fn first_block<R: PageReader>(
    space: &mut R,
    alloc: Global,
    place: &Place,
    low: &Bound<Value>,
    high: &Bound<Value>,
    most: usize,
) -> Result<Numbered, SpaceError>
    ensures rows { (rows : List stored.Entry)
        → HoldsIndexed (R.pages space.old) place.now.root place.now.rows_root place.now.types place.now.columns rows
        → IfOk result (λ found. AreEntries found (take most (rows_within low.now high.now place.now.columns rows))) }
    ensures typed { IfOk result (λ found. AllByRecursion (RowFits place.now.types) found.rows) }
    ensures same { R.pages space.new ≡ R.pages space.old }
    ensures whole { R.is_whole space.old → R.is_whole space.new }
    ensures refusal { IfErr result (ReadRefused (HoldsNoIndexed (R.pages space.old) place.now.root place.now.rows_root place.now.types place.now.columns) (R.refused space.old) (R.refused space.new)) }
    ensures rising { R.refused space.old ≤ R.refused space.new }
    ensures follows { R.follows space.old space.new }
{
    match start_above(alloc, low) {
        Ok(code) => some_at(
            space,
            alloc,
            place,
            Sought::Within(low, high),
            code.as_slice(),
            most,
        ),
        Err(fault) => Err(fault),
    }
}

/// The first rows within bounds behind a place that has no code in this index, at most so many: all
/// rows within the bounds are looked at.
fn block_sought<R: PageReader>(
    space: &mut R,
    alloc: Global,
    place: &Place,
    low: &Bound<Value>,
    high: &Bound<Value>,
    after: &Position,
    most: usize,
) -> Result<Numbered, SpaceError>
    ensures rows { (rows : List stored.Entry)
        → HoldsIndexed (R.pages space.old) place.now.root place.now.rows_root place.now.types place.now.columns rows
        → IfOk result (λ found. AreEntries found (block_within low.now high.now place.now.columns rows (Some (position_of after.now)) most)) }
    ensures typed { IfOk result (λ found. AllByRecursion (RowFits place.now.types) found.rows) }
    ensures same { R.pages space.new ≡ R.pages space.old }
    ensures whole { R.is_whole space.old → R.is_whole space.new }
    ensures refusal { IfErr result (ReadRefused (HoldsNoIndexed (R.pages space.old) place.now.root place.now.rows_root place.now.types place.now.columns) (R.refused space.old) (R.refused space.new)) }
    ensures rising { R.refused space.old ≤ R.refused space.new }
    ensures follows { R.follows space.old space.new }
{
    match start_above(alloc, low) {
        Ok(code) => some_at(
            space,
            alloc,
            place,
            Sought::Above(low, high, after),
            code.as_slice(),
            most,
        ),
        Err(fault) => Err(fault),
    }
}

/// The first rows within bounds behind a place, at most so many.
fn block_behind<R: PageReader>(
    space: &mut R,
    alloc: Global,
    place: &Place,
    low: &Bound<Value>,
    high: &Bound<Value>,
    after: &Position,
    most: usize,
) -> Result<Numbered, SpaceError>
    ensures rows { (rows : List stored.Entry)
        → HoldsIndexed (R.pages space.old) place.now.root place.now.rows_root place.now.types place.now.columns rows
        → IfOk result (λ found. AreEntries found (block_within low.now high.now place.now.columns rows (Some (position_of after.now)) most)) }
    ensures typed { IfOk result (λ found. AllByRecursion (RowFits place.now.types) found.rows) }
    ensures same { R.pages space.new ≡ R.pages space.old }
    ensures whole { R.is_whole space.old → R.is_whole space.new }
    ensures refusal { IfErr result (ReadRefused (HoldsNoIndexed (R.pages space.old) place.now.root place.now.rows_root place.now.types place.now.columns) (R.refused space.old) (R.refused space.new)) }
    ensures rising { R.refused space.old ≤ R.refused space.new }
    ensures follows { R.follows space.old space.new }
{
    let number = after.number;
    if after.key.len() != place.columns.len() {
        return block_sought(space, alloc, place, low, high, after, most);
    }
    match encode_index_key(alloc, after.key.as_slice(), number) {
        Ok(code) => some_behind(
            space,
            alloc,
            place,
            Sought::Above(low, high, after),
            code.as_slice(),
            most,
        ),
        Err(EncodeError::Key) => block_sought(space, alloc, place, low, high, after, most),
        Err(EncodeError::OutOfMemory) => Err(SpaceError::Memory),
        Err(EncodeError::Record) => unreachable!(),
    }
}

/// The first rows within bounds, behind a place where there is one, at most so many.
fn block_at<R: PageReader>(
    space: &mut R,
    alloc: Global,
    place: &Place,
    low: &Bound<Value>,
    high: &Bound<Value>,
    after: Option<&Position>,
    most: usize,
) -> Result<Numbered, SpaceError>
    ensures rows { (rows : List stored.Entry)
        → HoldsIndexed (R.pages space.old) place.now.root place.now.rows_root place.now.types place.now.columns rows
        → IfOk result (λ found. AreEntries found (block_within low.now high.now place.now.columns rows (option_map (λ p. position_of p.now) after.entry) most)) }
    ensures typed { IfOk result (λ found. AllByRecursion (RowFits place.now.types) found.rows) }
    ensures same { R.pages space.new ≡ R.pages space.old }
    ensures whole { R.is_whole space.old → R.is_whole space.new }
    ensures refusal { IfErr result (ReadRefused (HoldsNoIndexed (R.pages space.old) place.now.root place.now.rows_root place.now.types place.now.columns) (R.refused space.old) (R.refused space.new)) }
    ensures rising { R.refused space.old ≤ R.refused space.new }
    ensures follows { R.follows space.old space.new }
{
    match after {
        Some(after) => block_behind(space, alloc, place, low, high, after, most),
        None => first_block(space, alloc, place, low, high, most),
    }
}

/// The first rows whose first column of the index at a place of the table of a name is within
/// bounds, behind a place in the index where there is one, at most so many; in the order of the
/// index. Without bounds it is a block of a walk along the index. It reads the pages on the way to
/// the place, or to the lower bound, and on the way to each row that it gives; where a place has no
/// key of the index's columns, those of all rows from the lower bound on.
///
/// Typed and refused as `seek` is.
pub fn range_block<R: PageReader>(
    space: &mut R,
    alloc: Global,
    known: &mut KnownSchema,
    root: u32,
    name: &Text,
    index: usize,
    low: &Bound<Value>,
    high: &Bound<Value>,
    after: Option<&Position>,
    most: usize,
) -> Result<Numbered, SpaceError>
    ensures rows { (tables : List TableAt) → HoldsDatabase (R.pages space.old) root tables
        → IfOk result (λ found. AreEntries found (some_ranged (get (contents_of tables) name.now) index low.now high.now (option_map (λ p. position_of p.now) after.entry) most)) }
    ensures typed { (owned : List ℕ) (tables : List AnyTable) → HoldsSchema (R.pages space.old) root owned tables
        → IfOk result (λ found. AreTyped (table_named name.now tables) found.rows) }
    ensures same { R.pages space.new ≡ R.pages space.old }
    ensures whole { R.is_whole space.old → R.is_whole space.new }
    ensures refusal { IfErr result (ReadRefused (HoldsNoDatabase (R.pages space.old) root) (R.refused space.old) (R.refused space.new)) }
    ensures rising { R.refused space.old ≤ R.refused space.new }
    ensures follows { R.follows space.old space.new }
{
    match index_at(space, alloc, known, root, name, index) {
        Ok(Some(place)) => block_at(space, alloc, &place, low, high, after, most),
        Ok(None) => Ok(no_rows(alloc)),
        Err(fault) => Err(fault),
    }
}
