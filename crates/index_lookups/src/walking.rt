//! Rows read in the order of an index.
ghost use Rattle.std.specs.Prelude.{◌≡◌, ◌≢◌, ◌≤◌, ◌<◌, ◌+◌, ℕ, ◌++◌, ◌∷◌, [], List, Some, slice_get, filter, take, if◌then◌else◌, IfOk, IfErr, IfSome, OnOk};
ghost use Rattle.std.specs.List.{AllByRecursion};
ghost use Rattle.std.specs.Option.{option_map};
ghost use Rattle.sqlval.specs.declared.schema.Column.{Column as AnyColumn};
ghost use Rattle.sqlval.specs.CodedLength.{key_length};
ghost use Rattle.sqlval.specs.Matching.{key_of};
ghost use Rattle.store.specs.Contents as stored;
ghost use Rattle.store.specs.View.{AreEntries, entry_of};
ghost use Rattle.page_space.specs.Space.{ReadRefused};
ghost use Rattle.btree_read.specs.Near.{LiesIn};
ghost use Rattle.tablestore.specs.Held.{HoldsFitting, HoldsNoFitting, Fits, RowFits};
ghost use Rattle.index_trees.specs.Indexed.{index_entry};
ghost use Rattle.database_trees.specs.Named.{row_numbered};
ghost use Rattle.index_lookups.specs.Sought.{is_wanted};
ghost use Rattle.index_lookups.specs.Walked.{HoldsIndexed, HoldsNoIndexed, StandsAt, StandsNowhere, StandsBefore, NoneStandsBefore, HasStepped};

use crate::places::Place;
use crate::sought::{Sought, is_past, is_wanted};
use btree_read::{Entry, LastLeaf, Start, entries_from};
use database_trees::row_near;
use index_trees::is_entry_of;
use items::Items;
use page_space::{PageReader, SpaceError};
use sqlrecord::row_number_of;
use sqlval::Column;
use std::alloc::{AllocError, Global};
use store::{Numbered, NumberedRow};

/// How many entries are read at the beginning of a walk: those of a key that one row has, and the
/// one behind it.
pub(crate) const FIRST: usize = 2;

/// How many are read ahead later.
const AHEAD: usize = 16;

/// A walk along an index: the rows that were found, and the entries that come next, as far as they
/// were read; none where it has ended.
#[derive(Drop)]
pub(crate) struct Walk {
    pub(crate) found: Numbered,
    pub(crate) ahead: Items<Entry>,
}

/// The row of a number, which the table has, of these types, by the leaf in which a row was found
/// last.
fn row_there<R: PageReader>(
    space: &mut R,
    alloc: Global,
    rows_root: u32,
    types: &[Column],
    number: u64,
    last: &mut LastLeaf,
) -> Result<NumberedRow, SpaceError>
    requires { LiesIn (R.pages space.old) rows_root last.old }
    ensures row { (owned : List ℕ) (rows : List stored.Entry)
        → HoldsFitting (R.pages space.old) rows_root owned types.now rows
        → IfOk result (λ found. row_numbered number rows ≡ Some (entry_of found)) }
    ensures typed { IfOk result (λ found. Fits types.now (entry_of found)) }
    ensures lies { LiesIn (R.pages space.new) rows_root last.new }
    ensures same { R.pages space.new ≡ R.pages space.old }
    ensures whole { R.is_whole space.old → R.is_whole space.new }
    ensures refusal { IfErr result (ReadRefused ((owned : List ℕ) (rows : List stored.Entry) (e : stored.Entry)
        → HoldsFitting (R.pages space.old) rows_root owned types.now rows → row_numbered number rows ≡ Some e
        → ⊥) (R.refused space.old) (R.refused space.new)) }
    ensures rising { R.refused space.old ≤ R.refused space.new }
    ensures follows { R.follows space.old space.new }
{
    match row_near(space, alloc, rows_root, types, number, last) {
        Ok(Some(found)) => Ok(found),
        Ok(None) => Err(SpaceError::Damaged),
        Err(fault) => Err(fault),
    }
}

/// The row of the number that an entry of an index ends with.
fn row_named<R: PageReader>(
    space: &mut R,
    alloc: Global,
    place: &Place,
    entry: &Entry,
    last: &mut LastLeaf,
) -> Result<NumberedRow, SpaceError>
    requires { LiesIn (R.pages space.old) place.now.rows_root last.old }
    ensures row { (rows left : List stored.Entry)
        → HoldsIndexed (R.pages space.old) place.now.root place.now.rows_root place.now.types place.now.columns rows
        → StandsAt place.now.columns rows (Some entry.now) left
        → IfOk result (λ found. slice_get left 0 ≡ Some (entry_of found)) }
    ensures typed { IfOk result (λ found. Fits place.now.types (entry_of found)) }
    ensures lies { LiesIn (R.pages space.new) place.now.rows_root last.new }
    ensures same { R.pages space.new ≡ R.pages space.old }
    ensures whole { R.is_whole space.old → R.is_whole space.new }
    ensures refusal { IfErr result (ReadRefused (StandsNowhere (R.pages space.old) place.now.root place.now.rows_root place.now.types place.now.columns (Some entry.now)) (R.refused space.old) (R.refused space.new)) }
    ensures rising { R.refused space.old ≤ R.refused space.new }
    ensures follows { R.follows space.old space.new }
{
    match row_number_of(entry.key.as_slice()) {
        Some(number) => row_there(
            space,
            alloc,
            place.rows_root,
            place.types.as_slice(),
            number,
            last,
        ),
        None => Err(SpaceError::Damaged),
    }
}

/// The row that was found, where the entry is the one that it has in the index.
fn if_entry(
    alloc: Global,
    columns: &[usize],
    entry: &Entry,
    found: NumberedRow,
) -> Result<NumberedRow, SpaceError>
    ensures row { IfOk result (λ row. row ≡ found) }
    ensures entry { IfOk result (λ row. entry.now ≡ index_entry columns.now (entry_of row)) }
    ensures refusal { (a b : ℕ) → IfErr result (ReadRefused (entry.now ≡ index_entry columns.now (entry_of found)
        → 600 < key_length (key_of columns.now found.row) + 8) a b) }
{
    match is_entry_of(alloc, columns, &found, entry) {
        Ok(is_one) => {
            if is_one {
                return Ok(found);
            }
            Err(SpaceError::Damaged)
        }
        Err(fault) => Err(fault),
    }
}

/// The row of an entry of an index: of the table's types, and one of which this is the entry,
/// whatever lies there.
fn row_of_entry<R: PageReader>(
    space: &mut R,
    alloc: Global,
    place: &Place,
    entry: &Entry,
    last: &mut LastLeaf,
) -> Result<NumberedRow, SpaceError>
    requires { LiesIn (R.pages space.old) place.now.rows_root last.old }
    ensures row { (rows left : List stored.Entry)
        → HoldsIndexed (R.pages space.old) place.now.root place.now.rows_root place.now.types place.now.columns rows
        → StandsAt place.now.columns rows (Some entry.now) left
        → IfOk result (λ found. slice_get left 0 ≡ Some (entry_of found)) }
    ensures typed { IfOk result (λ found. Fits place.now.types (entry_of found)) }
    ensures entry { IfOk result (λ found. entry.now ≡ index_entry place.now.columns (entry_of found)) }
    ensures lies { LiesIn (R.pages space.new) place.now.rows_root last.new }
    ensures same { R.pages space.new ≡ R.pages space.old }
    ensures whole { R.is_whole space.old → R.is_whole space.new }
    ensures refusal { IfErr result (ReadRefused (StandsNowhere (R.pages space.old) place.now.root place.now.rows_root place.now.types place.now.columns (Some entry.now)) (R.refused space.old) (R.refused space.new)) }
    ensures rising { R.refused space.old ≤ R.refused space.new }
    ensures follows { R.follows space.old space.new }
{
    match row_named(space, alloc, place, entry, last) {
        Ok(found) => if_entry(alloc, place.columns.as_slice(), entry, found),
        Err(fault) => Err(fault),
    }
}

/// The row of an entry, with no leaf kept from a row before.
fn row_alone<R: PageReader>(
    space: &mut R,
    alloc: Global,
    place: &Place,
    entry: &Entry,
) -> Result<NumberedRow, SpaceError>
    ensures row { (rows left : List stored.Entry)
        → HoldsIndexed (R.pages space.old) place.now.root place.now.rows_root place.now.types place.now.columns rows
        → StandsAt place.now.columns rows (Some entry.now) left
        → IfOk result (λ found. slice_get left 0 ≡ Some (entry_of found)) }
    ensures typed { IfOk result (λ found. Fits place.now.types (entry_of found)) }
    ensures same { R.pages space.new ≡ R.pages space.old }
    ensures whole { R.is_whole space.old → R.is_whole space.new }
    ensures refusal { IfErr result (ReadRefused (StandsNowhere (R.pages space.old) place.now.root place.now.rows_root place.now.types place.now.columns (Some entry.now)) (R.refused space.old) (R.refused space.new)) }
    ensures rising { R.refused space.old ≤ R.refused space.new }
    ensures follows { R.follows space.old space.new }
{
    row_of_entry(space, alloc, place, entry, &mut LastLeaf::new())
}

/// The row of an entry at which a walk may stand, if it has not ended.
pub(crate) fn row_found<R: PageReader>(
    space: &mut R,
    alloc: Global,
    place: &Place,
    entry: &Option<Entry>,
) -> Result<Option<NumberedRow>, SpaceError>
    ensures row { (rows left : List stored.Entry)
        → HoldsIndexed (R.pages space.old) place.now.root place.now.rows_root place.now.types place.now.columns rows
        → StandsAt place.now.columns rows entry.now left
        → IfOk result (λ found. option_map entry_of found ≡ slice_get left 0) }
    ensures typed { IfOk result (λ found. IfSome found (λ row. Fits place.now.types (entry_of row))) }
    ensures same { R.pages space.new ≡ R.pages space.old }
    ensures whole { R.is_whole space.old → R.is_whole space.new }
    ensures refusal { IfErr result (ReadRefused (StandsNowhere (R.pages space.old) place.now.root place.now.rows_root place.now.types place.now.columns entry.now) (R.refused space.old) (R.refused space.new)) }
    ensures rising { R.refused space.old ≤ R.refused space.new }
    ensures follows { R.follows space.old space.new }
{
    match entry {
        None => Ok(None),
        Some(entry) => match row_alone(space, alloc, place, entry) {
            Ok(found) => Ok(Some(found)),
            Err(fault) => Err(fault),
        },
    }
}

/// Puts a row behind others, where it is wanted.
fn put_if(found: &mut Numbered, is_one: bool, row: NumberedRow) -> Result<(), AllocError>
    ensures puts { (rows : List stored.Entry) → AreEntries found.old rows
        → OnOk result (AreEntries found.new (rows ++ (if is_one then entry_of row ∷ [] else []))) }
    ensures typed { (types : List AnyColumn) → AllByRecursion (RowFits types) found.old.rows → RowFits types row.row
        → OnOk result (AllByRecursion (RowFits types) found.new.rows) }
{
    if !is_one {
        return Ok(());
    }
    let NumberedRow { number, row } = row;
    found.numbers.push(number)?;
    found.rows.push(row)?;
    Ok(())
}

/// Goes on to the next entry: of those that were read ahead, or of some more that are read then.
fn pass<R: PageReader>(
    space: &mut R,
    alloc: Global,
    place: &Place,
    ahead: &mut Items<Entry>,
) -> Result<(), SpaceError>
    requires { ahead.old ≢ [] }
    ensures stands { (rows rest : List stored.Entry) (e : stored.Entry)
        → HoldsIndexed (R.pages space.old) place.now.root place.now.rows_root place.now.types place.now.columns rows
        → StandsBefore place.now.columns rows ahead.old (e ∷ rest)
        → OnOk result (StandsBefore place.now.columns rows ahead.new rest) }
    ensures same { R.pages space.new ≡ R.pages space.old }
    ensures whole { R.is_whole space.old → R.is_whole space.new }
    ensures refusal { IfErr result (ReadRefused (HoldsNoIndexed (R.pages space.old) place.now.root place.now.rows_root place.now.types place.now.columns) (R.refused space.old) (R.refused space.new)) }
    ensures rising { R.refused space.old ≤ R.refused space.new }
    ensures follows { R.follows space.old space.new }
{
    let entry = ahead.remove(0);
    if !ahead.is_empty() {
        return Ok(());
    }
    let key = entry.key.as_slice();
    match entries_from(space, alloc, place.root, Start::Behind, key, AHEAD) {
        Ok(more) => {
            *ahead = more;
            Ok(())
        }
        Err(fault) => Err(fault),
    }
}

/// Goes on from an entry, whose row this is, to the next one.
fn go_on<R: PageReader>(
    space: &mut R,
    alloc: Global,
    place: &Place,
    sought: Sought<'_>,
    walk: &mut Walk,
    row: NumberedRow,
) -> Result<bool, SpaceError>
    requires { walk.old.ahead ≢ [] }
    ensures stepped { (rows left list : List stored.Entry)
        → HoldsIndexed (R.pages space.old) place.now.root place.now.rows_root place.now.types place.now.columns rows
        → StandsBefore place.now.columns rows walk.old.ahead left
        → slice_get left 0 ≡ Some (entry_of row) → AreEntries walk.old.found list
        → IfOk result (HasStepped place.now.columns rows (is_wanted sought.entry place.now.columns) left list walk.new) }
    ensures typed { AllByRecursion (RowFits place.now.types) walk.old.found.rows → Fits place.now.types (entry_of row)
        → OnOk result (AllByRecursion (RowFits place.now.types) walk.new.found.rows) }
    ensures same { R.pages space.new ≡ R.pages space.old }
    ensures whole { R.is_whole space.old → R.is_whole space.new }
    ensures refusal { IfErr result (ReadRefused (NoneStandsBefore (R.pages space.old) place.now.root place.now.rows_root place.now.types place.now.columns walk.old.ahead) (R.refused space.old) (R.refused space.new)) }
    ensures rising { R.refused space.old ≤ R.refused space.new }
    ensures follows { R.follows space.old space.new }
{
    if is_past(sought, place.columns.as_slice(), &row) {
        return Ok(true);
    }
    match pass(space, alloc, place, &mut walk.ahead) {
        Ok(()) => {
            let is_one = is_wanted(sought, place.columns.as_slice(), &row);
            put_if(&mut walk.found, is_one, row)?;
            Ok(false)
        }
        Err(fault) => Err(fault),
    }
}

/// One step of a walk, with the leaf in which a row was found last: whether it has ended.
fn step<R: PageReader>(
    space: &mut R,
    alloc: Global,
    place: &Place,
    sought: Sought<'_>,
    walk: &mut Walk,
    last: &mut LastLeaf,
) -> Result<bool, SpaceError>
    requires { LiesIn (R.pages space.old) place.now.rows_root last.old }
    ensures stepped { (rows left list : List stored.Entry)
        → HoldsIndexed (R.pages space.old) place.now.root place.now.rows_root place.now.types place.now.columns rows
        → StandsBefore place.now.columns rows walk.old.ahead left
        → AreEntries walk.old.found list
        → IfOk result (HasStepped place.now.columns rows (is_wanted sought.entry place.now.columns) left list walk.new) }
    ensures typed { AllByRecursion (RowFits place.now.types) walk.old.found.rows
        → OnOk result (AllByRecursion (RowFits place.now.types) walk.new.found.rows) }
    ensures lies { LiesIn (R.pages space.new) place.now.rows_root last.new }
    ensures same { R.pages space.new ≡ R.pages space.old }
    ensures whole { R.is_whole space.old → R.is_whole space.new }
    ensures refusal { IfErr result (ReadRefused (NoneStandsBefore (R.pages space.old) place.now.root place.now.rows_root place.now.types place.now.columns walk.old.ahead) (R.refused space.old) (R.refused space.new)) }
    ensures rising { R.refused space.old ≤ R.refused space.new }
    ensures follows { R.follows space.old space.new }
{
    match walk.ahead.get(0) {
        None => Ok(true),
        Some(entry) => match row_of_entry(space, alloc, place, entry, last) {
            Ok(row) => go_on(space, alloc, place, sought, walk, row),
            Err(fault) => Err(fault),
        },
    }
}

/// The rows of a walk from these entries on that are sought, in the order of the index.
///
/// Refused for want of memory, where the device refuses a call, and as damaged only where no walk
/// along an index stands before these entries.
pub(crate) fn rows_from<R: PageReader>(
    space: &mut R,
    alloc: Global,
    place: &Place,
    sought: Sought<'_>,
    first: Items<Entry>,
) -> Result<Numbered, SpaceError>
    ensures rows { (rows left : List stored.Entry)
        → HoldsIndexed (R.pages space.old) place.now.root place.now.rows_root place.now.types place.now.columns rows
        → StandsBefore place.now.columns rows first left
        → IfOk result (λ found. AreEntries found (filter (is_wanted sought.entry place.now.columns) left)) }
    ensures typed { IfOk result (λ found. AllByRecursion (RowFits place.now.types) found.rows) }
    ensures same { R.pages space.new ≡ R.pages space.old }
    ensures whole { R.is_whole space.old → R.is_whole space.new }
    ensures refusal { IfErr result (ReadRefused (NoneStandsBefore (R.pages space.old) place.now.root place.now.rows_root place.now.types place.now.columns first) (R.refused space.old) (R.refused space.new)) }
    ensures rising { R.refused space.old ≤ R.refused space.new }
    ensures follows { R.follows space.old space.new }
{
    let mut walk = Walk {
        found: Numbered {
            numbers: Items::new(alloc),
            rows: Items::new(alloc),
        },
        ahead: first,
    };
    let mut last = LastLeaf::new();
    'walked: for _ in 0..u64::MAX {
        if step(space, alloc, place, sought, &mut walk, &mut last)? {
            return Ok(walk.found);
        }
    }
    Err(SpaceError::Memory)
}

/// At most so many of these rows, the first.
pub(crate) fn first_rows(found: Numbered, most: usize) -> Numbered
    ensures found { (rows : List stored.Entry) → AreEntries found rows → AreEntries result (take most rows) }
    ensures taken { result.rows ≡ take most found.rows }
    ensures typed { (types : List AnyColumn) → AllByRecursion (RowFits types) found.rows
        → AllByRecursion (RowFits types) result.rows }
{
    let Numbered { numbers, rows } = found;
    let mut numbers = numbers;
    let mut rows = rows;
    numbers.truncate(most);
    rows.truncate(most);
    Numbered { numbers, rows }
}

/// At most so many of the rows of a walk from these entries on that are sought, in the order of the
/// index.
///
/// Refused for want of memory, where the device refuses a call, and as damaged only where no walk
/// along an index stands before these entries.
pub(crate) fn some_from<R: PageReader>(
    space: &mut R,
    alloc: Global,
    place: &Place,
    sought: Sought<'_>,
    first: Items<Entry>,
    most: usize,
) -> Result<Numbered, SpaceError>
    ensures rows { (rows left : List stored.Entry)
        → HoldsIndexed (R.pages space.old) place.now.root place.now.rows_root place.now.types place.now.columns rows
        → StandsBefore place.now.columns rows first left
        → IfOk result (λ found. AreEntries found (take most (filter (is_wanted sought.entry place.now.columns) left))) }
    ensures typed { IfOk result (λ found. AllByRecursion (RowFits place.now.types) found.rows) }
    ensures same { R.pages space.new ≡ R.pages space.old }
    ensures whole { R.is_whole space.old → R.is_whole space.new }
    ensures refusal { IfErr result (ReadRefused (NoneStandsBefore (R.pages space.old) place.now.root place.now.rows_root place.now.types place.now.columns first) (R.refused space.old) (R.refused space.new)) }
    ensures rising { R.refused space.old ≤ R.refused space.new }
    ensures follows { R.follows space.old space.new }
{
    let mut walk = Walk {
        found: Numbered {
            numbers: Items::new(alloc),
            rows: Items::new(alloc),
        },
        ahead: first,
    };
    let mut last = LastLeaf::new();
    'walked: for _ in 0..u64::MAX {
        if walk.found.rows.len() >= most {
            return Ok(first_rows(walk.found, most));
        }
        if step(space, alloc, place, sought, &mut walk, &mut last)? {
            return Ok(first_rows(walk.found, most));
        }
    }
    Err(SpaceError::Memory)
}
