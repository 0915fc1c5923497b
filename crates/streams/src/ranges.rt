//! The rows of a table in a range of an index, by blocks.
ghost use Rattle.std.specs.Prelude.{◌≡◌, ◌<◌, ◌∷◌, ◌+◌, ℕ, false, [], List, None, Some, Option, length, take, drop, option_map, IfOk, IfErr};
ghost use Rattle.store.specs.Contents.{Entry};
ghost use Rattle.store.specs.Errors.{MayFail, Never};
ghost use Rattle.store.specs.Indexes.{Position as InIndex, beyond, columns_at, is_above, is_below};
ghost use Rattle.store.specs.View.{AreEntries, table_named};
ghost use Rattle.algebra.specs.declared.tree.Tree.{Tree};
ghost use Rattle.algebra.specs.declared.tree.Tree.TheVariants as t;
ghost use Rattle.algebra.specs.Bounds.{above, below, meets};
ghost use Rattle.algebra.specs.Listing.{tree_listing};
ghost use Rattle.denote.specs.Outcome.{Outcome};
ghost use Rattle.places.specs.declared.place.Place.{Place as Standing};
ghost use Rattle.places.specs.Indexes.{AreIndexed, index_place};
ghost use Rattle.places.specs.Left.{Entries, entries_in, left, no_more, rows_by};
ghost use Rattle.places.specs.Views.{is_whole, last_position};
ghost use Rattle.sqlval.specs.declared.value.Value.{Value as Held};
ghost use Rattle.streams.specs.Numbers.{GoOnInIndex, IsInIndex, last_of};
ghost use Rattle.streams.specs.Reads.{IsReadInIndex, StepReads, to_read};
ghost use Rattle.streams.specs.Steps.{StepGives};

use crate::step::Step;
use crate::whole::kept;
use algebra::{Bound, StoredTable};
use denote::Row;
use executor::{key_row, ranged_rows};
use places::{Place, index_place, last_position, place_beyond};
use sqlval::Value;
use std::alloc::{AllocError, Global};
use std::ops::Bound as Limit;
use store::{Numbered, Position, Reading, StoreError};

/// Where a range begins or ends, as a store takes it. Refuses for want of memory alone.
fn limit_of(alloc: Global, bound: &Option<Bound>) -> Result<Limit<Value>, AllocError>
    ensures lower { IfOk result (λ limit. (x : Held) → is_above limit x ≡ meets above x bound.now) }
    ensures upper { IfOk result (λ limit. (x : Held) → is_below limit x ≡ meets below x bound.now) }
{
    match bound {
        None => Ok(Limit::Unbounded),
        Some(bound) => {
            let value = bound.value.copy(alloc)?;
            if bound.inclusive {
                Ok(Limit::Included(value))
            } else {
                Ok(Limit::Excluded(value))
            }
        }
    }
}

/// The last of some rows.
fn last_row(rows: &[Row]) -> Option<&Row>
    ensures { option_map (λ row. row.now) result ≡ last_of None rows.now }
{
    let mut last = None;
    for row in rows {
        last = Some(row);
    }
    last
}

/// The last of some numbers.
fn last_number(numbers: &[u64]) -> Option<u64>
    ensures { result ≡ last_of None numbers.now }
{
    let mut last = None;
    for number in numbers {
        last = Some(*number);
    }
    last
}

/// The place behind a block of rows in the order of an index over these columns. Where there are
/// fewer than were asked for no row is left. Refuses for want of memory alone.
fn place_behind(
    alloc: Global,
    columns: &[usize],
    found: &Numbered,
    most: usize,
) -> Result<Place, AllocError>
    requires { 0 < most }
    ensures left { (shown : Entries) (tree : Tree) (entries : List Entry) (made : List Entry → Outcome) (after : Option InIndex)
        → GoOnInIndex columns.now entries → IsInIndex shown tree columns.now entries made → made [] ≡ no_more None
        → AreEntries found.now (take most (beyond after (Some columns.now) entries))
        → IfOk result (λ place. left shown place tree ≡ made (drop most (beyond after (Some columns.now) entries))) }
    ensures reads { (shown : Entries) (tree : Tree) (entries : List Entry) (after : Option InIndex)
        → GoOnInIndex columns.now entries → IsReadInIndex shown tree columns.now entries
        → AreEntries found.now (take most (beyond after (Some columns.now) entries))
        → IfOk result (λ place. to_read shown place tree ≡ length (drop most (beyond after (Some columns.now) entries))) }
{
    if found.rows.len() < most {
        return Ok(Place::Ended(None));
    }
    match last_row(found.rows.as_slice()) {
        None => Ok(Place::Ended(None)),
        Some(row) => match last_number(found.numbers.as_slice()) {
            None => Ok(Place::Ended(None)),
            Some(number) => {
                let key = key_row(alloc, columns, row.as_slice())?;
                Ok(place_beyond(Position { key, number }))
            }
        },
    }
}

/// The next rows in a range by the index at this place of its table. Refuses as the reading does,
/// and for want of memory.
fn ranged_by_index<R: Reading>(
    alloc: Global,
    reading: &mut R,
    table: &StoredTable,
    columns: &[usize],
    index: usize,
    low: &Option<Bound>,
    high: &Option<Bound>,
    place: &Place,
    most: usize,
) -> Result<Step, StoreError>
    ensures rows { R.is_sound reading.old
        → columns_at (table_named (R.shows reading.old) table.now.name) index ≡ Some columns.now
        → is_whole place.now ≡ false
        → StepGives (entries_in (R.shows reading.old)) (t.Range table.now columns.now low.now high.now) (left (entries_in (R.shows reading.old)) place.now (t.Range table.now columns.now low.now high.now)) result }
    ensures reads { R.is_sound reading.old
        → columns_at (table_named (R.shows reading.old) table.now.name) index ≡ Some columns.now
        → index_place table.now columns.now ≡ Some index
        → is_whole place.now ≡ false
        → StepReads (entries_in (R.shows reading.old)) (t.Range table.now columns.now low.now high.now) (R.shows reading.new).read ((R.shows reading.old).read + to_read (entries_in (R.shows reading.old)) place.now (t.Range table.now columns.now low.now high.now)) result }
    ensures refused { IfErr result (MayFail (R.is_sound reading.old) (R.shows reading.old).refused (R.shows reading.new).refused Never) }
    ensures follows { R.follows reading.old reading.new }
{
    let most = most.max(1);
    let low = limit_of(alloc, low)?;
    let high = limit_of(alloc, high)?;
    let after = last_position(place);
    match reading.range_block(alloc, &table.name, index, &low, &high, after, most) {
        Ok(found) => match place_behind(alloc, columns, &found, most) {
            Ok(place) => Ok(Step {
                rows: found.rows,
                place,
            }),
            Err(_) => Err(StoreError::Memory),
        },
        Err(error) => Err(error),
    }
}

/// All rows in a range without an index, from the beginning. Refuses as the reading does, and for
/// want of memory.
fn ranged_whole<R: Reading>(
    alloc: Global,
    reading: &mut R,
    table: &StoredTable,
    columns: &[usize],
    low: &Option<Bound>,
    high: &Option<Bound>,
) -> Result<Step, StoreError>
    ensures rows { R.is_sound reading.old
        → StepGives (entries_in (R.shows reading.old)) (t.Range table.now columns.now low.now high.now) (tree_listing (rows_by (entries_in (R.shows reading.old))) (t.Range table.now columns.now low.now high.now) []) result }
    ensures reads { R.is_sound reading.old → (place : Standing) → index_place table.now columns.now ≡ None
        → is_whole place ≡ false → last_position place ≡ None
        → StepReads (entries_in (R.shows reading.old)) (t.Range table.now columns.now low.now high.now) (R.shows reading.new).read ((R.shows reading.old).read + to_read (entries_in (R.shows reading.old)) place (t.Range table.now columns.now low.now high.now)) result }
    ensures refused { IfErr result (MayFail (R.is_sound reading.old) (R.shows reading.old).refused (R.shows reading.new).refused Never) }
    ensures follows { R.follows reading.old reading.new }
{
    match reading.scan(alloc, &table.name) {
        Ok(found) => kept(
            alloc,
            ranged_rows(alloc, columns, low, high, found.rows.as_slice()),
        ),
        Err(error) => Err(error),
    }
}

/// The next rows in a range. Refuses as the reading does, and for want of memory; that comes also
/// where the table is known to have no such index and the place is one in it, which no step gives.
pub(crate) fn range_given<R: Reading>(
    alloc: Global,
    reading: &mut R,
    table: &StoredTable,
    columns: &[usize],
    low: &Option<Bound>,
    high: &Option<Bound>,
    place: &Place,
    most: usize,
) -> Result<Step, StoreError>
    ensures rows { R.is_sound reading.old
        → AreIndexed (R.shows reading.old).contents (table.now ∷ []) → is_whole place.now ≡ false
        → StepGives (entries_in (R.shows reading.old)) (t.Range table.now columns.now low.now high.now) (left (entries_in (R.shows reading.old)) place.now (t.Range table.now columns.now low.now high.now)) result }
    ensures reads { R.is_sound reading.old
        → AreIndexed (R.shows reading.old).contents (table.now ∷ []) → is_whole place.now ≡ false
        → StepReads (entries_in (R.shows reading.old)) (t.Range table.now columns.now low.now high.now) (R.shows reading.new).read ((R.shows reading.old).read + to_read (entries_in (R.shows reading.old)) place.now (t.Range table.now columns.now low.now high.now)) result }
    ensures refused { IfErr result (MayFail (R.is_sound reading.old) (R.shows reading.old).refused (R.shows reading.new).refused Never) }
    ensures follows { R.follows reading.old reading.new }
{
    match index_place(table, columns) {
        Some(index) => ranged_by_index(
            alloc, reading, table, columns, index, low, high, place, most,
        ),
        None => match last_position(place) {
            None => ranged_whole(alloc, reading, table, columns, low, high),
            Some(_) => Err(StoreError::Memory),
        },
    }
}
