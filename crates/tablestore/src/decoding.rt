//! Rows from the entries of a tree.
ghost use Rattle.std.specs.Prelude.{◌≡◌, ◌++◌, ◌∷◌, [], ◌+◌, ◌-◌, ◌<◌, ◌^◌, true, List, ℕ, Option, Some, map, take, drop, length, get_or, IfOk, IfSome, OnOk};
ghost use Rattle.std.specs.List.{AllByRecursion};
ghost use Rattle.std.specs.Option.{option_map};
ghost use Rattle.sqlval.specs.Value.{Row as AnyRow};
ghost use Rattle.sqlrecord.specs.Key.{number_code};
ghost use Rattle.sqlrecord.specs.Row.{IsCodeOf, row_code};
ghost use Rattle.btree_read.specs.declared.entry.Entry.{Entry as AnyEntry};
ghost use Rattle.btree_read.specs.Nodes.{entry_of as cell_entry};
ghost use Rattle.btree_read.specs.Blocks.{entries_in_block};
ghost use Rattle.store.specs.Contents as stored;
ghost use Rattle.store.specs.View.{AreEntries, IsEntry, entry_of};
ghost use Rattle.tablestore.specs.Held.{row_entry, entries_of, IsKept, AreKept, AreLeft, RowFits, Fits, AreFitting, IsNumbered, Gives};

use crate::fitting::fits_columns;
use crate::number::NUMBERS;
use btree_read::{Block, Entries, Entry};
use denote::Row;
use items::Items;
use sqlrecord::{DecodeError, SlotPage, decode_row, row_number_of};
use sqlval::Column;
use std::alloc::Global;
use store::{Numbered, NumberedRow};

/// How many bytes the key of a row has.
const KEY_BYTES: usize = 8;

/// The row number that a key in a table's tree is the code of; `None` where it is that of no row
/// number: it has another length, or the number is 2^63 or more.
pub(crate) fn number_of(key: &[u8]) -> Option<u64>
    ensures kept { (n : ℕ) → n < 2 ^ 63 → key.now ≡ number_code n → result ≡ Some n }
    ensures below { IfSome result (λ n. n < 2 ^ 63) }
    ensures code { IfSome result (λ n. key.now ≡ number_code n) }
{
    if key.len() != KEY_BYTES {
        return None;
    }
    let number = row_number_of(key)?;
    if number >= NUMBERS {
        return None;
    }
    Some(number)
}

/// The row of these bytes, which fits these columns.
fn row_fitting(alloc: Global, columns: &[Column], bytes: &[u8]) -> Result<Row, DecodeError>
    ensures given { (row : AnyRow) → IsCodeOf bytes.now row → RowFits columns.now row
        → Gives result (λ given. given ≡ row) }
    ensures typed { IfOk result (RowFits columns.now) }
{
    let row = decode_row(alloc, bytes)?;
    if !fits_columns(columns, row.as_slice()) {
        return Err(DecodeError::Damaged);
    }
    Ok(row)
}

/// The row of a key and its value, which fits these columns, with its number.
fn row_of_parts(
    alloc: Global,
    columns: &[Column],
    key: &[u8],
    value: &[u8],
) -> Result<NumberedRow, DecodeError>
    ensures kept { (e : stored.Entry) → IsKept e → Fits columns.now e → key.now ≡ number_code e.0
        → value.now ≡ row_code e.1
        → Gives result (λ found. entry_of found ≡ e) }
    ensures typed { IfOk result (λ found. Fits columns.now (entry_of found)) }
    ensures below { IfOk result (λ found. found.number < 2 ^ 63) }
    ensures code { IfOk result (λ found. key.now ≡ number_code found.number) }
{
    let Some(number) = number_of(key) else {
        return Err(DecodeError::Damaged);
    };
    let row = row_fitting(alloc, columns, value)?;
    Ok(NumberedRow { number, row })
}

/// The row of an entry, which fits these columns, with its number.
pub(crate) fn row_of_entry(
    alloc: Global,
    columns: &[Column],
    entry: &Entry,
) -> Result<NumberedRow, DecodeError>
    ensures kept { (e : stored.Entry) → IsKept e → Fits columns.now e → entry.now ≡ row_entry e
        → Gives result (λ found. entry_of found ≡ e) }
    ensures typed { IfOk result (λ found. Fits columns.now (entry_of found)) }
    ensures numbered { IfOk result (λ found. IsNumbered entry.now found.number) }
{
    match row_of_parts(alloc, columns, entry.key.as_slice(), entry.value.as_slice()) {
        Ok(found) => Ok(found),
        Err(error) => Err(error),
    }
}

/// Puts the row of a cell of a leaf behind others, with its number.
fn put_row(
    alloc: Global,
    columns: &[Column],
    leaf: &SlotPage<'_>,
    place: usize,
    found: &mut Numbered,
) -> Result<(), DecodeError>
    requires { place < length leaf.now.cells }
    ensures kept { (more : List AnyEntry) (all : List stored.Entry)
        → AreLeft columns.now found.old (cell_entry (get_or leaf.now.cells place []) ∷ more) all
        → Gives result (λ read. AreLeft columns.now found.new more all) }
    ensures one { OnOk result (length found.new.rows ≡ length found.old.rows + 1) }
    ensures typed { AllByRecursion (RowFits columns.now) found.old.rows
        → OnOk result (AllByRecursion (RowFits columns.now) found.new.rows) }
{
    let row = row_of_parts(alloc, columns, leaf.key(place), leaf.value(place))?;
    found.numbers.push(row.number)?;
    found.rows.push(row.row)?;
    Ok(())
}

/// Puts the rows of a leaf behind others, with their numbers.
fn put_rows(
    alloc: Global,
    columns: &[Column],
    leaf: &SlotPage<'_>,
    found: &mut Numbered,
) -> Result<(), DecodeError>
    ensures kept { (more : List AnyEntry) (all : List stored.Entry)
        → AreLeft columns.now found.old (map cell_entry leaf.now.cells ++ more) all
        → Gives result (λ read. AreLeft columns.now found.new more all) }
    ensures typed { AllByRecursion (RowFits columns.now) found.old.rows
        → OnOk result (AllByRecursion (RowFits columns.now) found.new.rows) }
{
    for i in 0..leaf.len() {
        put_row(alloc, columns, leaf, i, found)?;
    }
    Ok(())
}

/// Puts the rows of a leaf behind others, with their numbers, but for the first ones, which are
/// passed over, until there are so many.
fn put_some(
    alloc: Global,
    columns: &[Column],
    leaf: &SlotPage<'_>,
    passed: usize,
    most: usize,
    found: &mut Numbered,
) -> Result<(), DecodeError>
    ensures kept { (more : List AnyEntry) (all : List stored.Entry)
        → AreLeft columns.now found.old
        (take (most - length found.old.rows) (drop passed (map cell_entry leaf.now.cells ++ more))) all
        → Gives result (λ read. AreLeft columns.now found.new
        (take (most - length found.new.rows) (drop (passed - length leaf.now.cells) more)) all) }
    ensures typed { AllByRecursion (RowFits columns.now) found.old.rows
        → OnOk result (AllByRecursion (RowFits columns.now) found.new.rows) }
{
    for i in passed..leaf.len() {
        if found.rows.len() >= most {
            return Ok(());
        }
        put_row(alloc, columns, leaf, i, found)?;
    }
    Ok(())
}

/// The rows of the entries of leaves, with their numbers.
pub(crate) fn rows_of_leaves(
    alloc: Global,
    columns: &[Column],
    entries: &Entries,
) -> Result<Numbered, DecodeError>
    ensures kept { (all : List stored.Entry) → AreKept all → AreFitting columns.now all → entries.now ≡ entries_of all
        → Gives result (λ found. AreEntries found all) }
    ensures typed { IfOk result (λ found. AllByRecursion (RowFits columns.now) found.rows) }
{
    let mut found = Numbered {
        numbers: Items::new(alloc),
        rows: Items::new(alloc),
    };
    let leaves = entries.leaves();
    for leaf in leaves {
        let page = leaf.page();
        put_rows(alloc, columns, &page, &mut found)?;
    }
    Ok(found)
}

/// The rows of a block of at most so many, with their numbers.
pub(crate) fn rows_of_block(
    alloc: Global,
    columns: &[Column],
    block: &Block,
    most: usize,
) -> Result<Numbered, DecodeError>
    ensures kept { (all : List stored.Entry) → AreKept all → AreFitting columns.now all
        → entries_in_block most block.now ≡ entries_of all → Gives result (λ found. AreEntries found all) }
    ensures typed { IfOk result (λ found. AllByRecursion (RowFits columns.now) found.rows) }
{
    let mut found = Numbered {
        numbers: Items::new(alloc),
        rows: Items::new(alloc),
    };
    let mut passed = block.first;
    let leaves = block.leaves.leaves();
    for leaf in leaves {
        let page = leaf.page();
        put_some(alloc, columns, &page, passed, most, &mut found)?;
        passed = passed.saturating_sub(page.len());
    }
    Ok(found)
}

/// The row of an entry, where one was found.
pub(crate) fn row_found(
    alloc: Global,
    columns: &[Column],
    found: &Option<Entry>,
) -> Result<Option<NumberedRow>, DecodeError>
    ensures kept { (one : Option stored.Entry) → IfSome one IsKept → IfSome one (Fits columns.now)
        → found.now ≡ option_map row_entry one → Gives result (λ given. IsEntry given one) }
    ensures typed { IfOk result (λ given. IfSome given (λ row. Fits columns.now (entry_of row))) }
{
    match found {
        None => Ok(None),
        Some(entry) => {
            let row = row_of_entry(alloc, columns, entry)?;
            Ok(Some(row))
        }
    }
}
