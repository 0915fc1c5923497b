//! The rows that pages hold.
ghost use Rattle.std.specs.Prelude.{◌≡◌, ◌≤◌, ℕ, List, Option, Some, IfOk, IfErr, IfSome};
ghost use Rattle.std.specs.List.{AllByRecursion};
ghost use Rattle.std.specs.Option.{option_map};
ghost use Rattle.store.specs.Contents as stored;
ghost use Rattle.store.specs.View.{AreEntries, IsEntry, entry_of};
ghost use Rattle.store.specs.Indexes.{entry_after, some_after};
ghost use Rattle.page_space.specs.Space.{ReadRefused};
ghost use Rattle.btree_read.specs.Blocks.{entries_in_block};
ghost use Rattle.btree_read.specs.Near.{LiesIn};
ghost use Rattle.tablestore.specs.Held.{entries_of, row_entry, HoldsRows, HoldsNoRows, HoldsFitting, HoldsNoFitting, RowFits, Fits};

use crate::decoding::{row_found, rows_of_block, rows_of_leaves};
use btree_read::{Block, Entry, LastLeaf, Start, block_from, seek};
use page_space::{PageReader, SpaceError};
use sqlrecord::DecodeError;
use sqlval::Column;
use std::alloc::Global;
use store::{Numbered, NumberedRow};

/// All rows of the tree at a root, in the order of their numbers; root 0 is the table without rows.
/// Each that is given fits these columns, whatever lies there.
///
/// Refused for want of memory, where the device refuses a call, and as damaged only where no rows
/// that fit are held there.
pub fn scan<R: PageReader>(
    space: &mut R,
    alloc: Global,
    root: u32,
    columns: &[Column],
) -> Result<Numbered, SpaceError>
    ensures found { (owned : List ℕ) (rows : List stored.Entry)
        → HoldsFitting (R.pages space.old) root owned columns.now rows → IfOk result (λ found. AreEntries found rows) }
    ensures typed { IfOk result (λ found. AllByRecursion (RowFits columns.now) found.rows) }
    ensures same { R.pages space.new ≡ R.pages space.old }
    ensures whole { R.is_whole space.old → R.is_whole space.new }
    ensures refusal { IfErr result (ReadRefused (HoldsNoFitting (R.pages space.old) root columns.now) (R.refused space.old) (R.refused space.new)) }
    ensures rising { R.refused space.old ≤ R.refused space.new }
    ensures follows { R.follows space.old space.new }
{
    let entries = btree_read::scan(space, alloc, root)?;
    match rows_of_leaves(alloc, columns, &entries) {
        Ok(found) => Ok(found),
        Err(DecodeError::OutOfMemory) => Err(SpaceError::Memory),
        Err(DecodeError::Damaged) => Err(SpaceError::Damaged),
    }
}

/// The first entry behind a row number.
fn entry_above<R: PageReader>(
    space: &mut R,
    alloc: Global,
    root: u32,
    number: u64,
) -> Result<Option<Entry>, SpaceError>
    ensures found { (owned : List ℕ) (rows : List stored.Entry) → HoldsRows (R.pages space.old) root owned rows
        → IfOk result (λ found. found ≡ option_map row_entry (entry_after (Some number) rows)) }
    ensures same { R.pages space.new ≡ R.pages space.old }
    ensures whole { R.is_whole space.old → R.is_whole space.new }
    ensures refusal { IfErr result (ReadRefused (HoldsNoRows (R.pages space.old) root) (R.refused space.old) (R.refused space.new)) }
    ensures rising { R.refused space.old ≤ R.refused space.new }
    ensures follows { R.follows space.old space.new }
{
    btree_read::next(space, alloc, root, &number.to_be_bytes())
}

/// The first entry behind a row number, or the first of all.
fn entry_behind<R: PageReader>(
    space: &mut R,
    alloc: Global,
    root: u32,
    after: Option<u64>,
) -> Result<Option<Entry>, SpaceError>
    ensures found { (owned : List ℕ) (rows : List stored.Entry) → HoldsRows (R.pages space.old) root owned rows
        → IfOk result (λ found. found ≡ option_map row_entry (entry_after after rows)) }
    ensures same { R.pages space.new ≡ R.pages space.old }
    ensures whole { R.is_whole space.old → R.is_whole space.new }
    ensures refusal { IfErr result (ReadRefused (HoldsNoRows (R.pages space.old) root) (R.refused space.old) (R.refused space.new)) }
    ensures rising { R.refused space.old ≤ R.refused space.new }
    ensures follows { R.follows space.old space.new }
{
    match after {
        None => seek(space, alloc, root, &[]),
        Some(number) => entry_above(space, alloc, root, number),
    }
}

/// The first row above a number, or the first of all, of the tree at a root.
///
/// Refused as `scan` is.
pub fn next<R: PageReader>(
    space: &mut R,
    alloc: Global,
    root: u32,
    columns: &[Column],
    after: Option<u64>,
) -> Result<Option<NumberedRow>, SpaceError>
    ensures found { (owned : List ℕ) (rows : List stored.Entry)
        → HoldsFitting (R.pages space.old) root owned columns.now rows
        → IfOk result (λ found. IsEntry found (entry_after after rows)) }
    ensures typed { IfOk result (λ found. IfSome found (λ row. Fits columns.now (entry_of row))) }
    ensures same { R.pages space.new ≡ R.pages space.old }
    ensures whole { R.is_whole space.old → R.is_whole space.new }
    ensures refusal { IfErr result (ReadRefused (HoldsNoFitting (R.pages space.old) root columns.now) (R.refused space.old) (R.refused space.new)) }
    ensures rising { R.refused space.old ≤ R.refused space.new }
    ensures follows { R.follows space.old space.new }
{
    let found = entry_behind(space, alloc, root, after)?;
    match row_found(alloc, columns, &found) {
        Ok(row) => Ok(row),
        Err(DecodeError::OutOfMemory) => Err(SpaceError::Memory),
        Err(DecodeError::Damaged) => Err(SpaceError::Damaged),
    }
}

/// The first entry behind a row number, by the leaf in which an entry was found last.
fn entry_near_above<R: PageReader>(
    space: &mut R,
    alloc: Global,
    root: u32,
    number: u64,
    last: &mut LastLeaf,
) -> Result<Option<Entry>, SpaceError>
    requires { LiesIn (R.pages space.old) root last.old }
    ensures found { (owned : List ℕ) (rows : List stored.Entry) → HoldsRows (R.pages space.old) root owned rows
        → IfOk result (λ found. found ≡ option_map row_entry (entry_after (Some number) rows)) }
    ensures lies { LiesIn (R.pages space.new) root last.new }
    ensures same { R.pages space.new ≡ R.pages space.old }
    ensures whole { R.is_whole space.old → R.is_whole space.new }
    ensures refusal { IfErr result (ReadRefused (HoldsNoRows (R.pages space.old) root) (R.refused space.old) (R.refused space.new)) }
    ensures rising { R.refused space.old ≤ R.refused space.new }
    ensures follows { R.follows space.old space.new }
{
    btree_read::next_near(space, alloc, root, &number.to_be_bytes(), last)
}

/// The first entry behind a row number, or the first of all, by the leaf in which an entry was
/// found last.
fn entry_near<R: PageReader>(
    space: &mut R,
    alloc: Global,
    root: u32,
    after: Option<u64>,
    last: &mut LastLeaf,
) -> Result<Option<Entry>, SpaceError>
    requires { LiesIn (R.pages space.old) root last.old }
    ensures found { (owned : List ℕ) (rows : List stored.Entry) → HoldsRows (R.pages space.old) root owned rows
        → IfOk result (λ found. found ≡ option_map row_entry (entry_after after rows)) }
    ensures lies { LiesIn (R.pages space.new) root last.new }
    ensures same { R.pages space.new ≡ R.pages space.old }
    ensures whole { R.is_whole space.old → R.is_whole space.new }
    ensures refusal { IfErr result (ReadRefused (HoldsNoRows (R.pages space.old) root) (R.refused space.old) (R.refused space.new)) }
    ensures rising { R.refused space.old ≤ R.refused space.new }
    ensures follows { R.follows space.old space.new }
{
    match after {
        None => seek(space, alloc, root, &[]),
        Some(number) => entry_near_above(space, alloc, root, number, last),
    }
}

/// The first row above a number, or the first of all, of the tree at a root, as `next` gives it, by
/// the leaf in which a row was found last: where the row lies in it behind another one, no page is
/// read.
///
/// Refused as `scan` is.
pub fn next_near<R: PageReader>(
    space: &mut R,
    alloc: Global,
    root: u32,
    columns: &[Column],
    after: Option<u64>,
    last: &mut LastLeaf,
) -> Result<Option<NumberedRow>, SpaceError>
    requires { LiesIn (R.pages space.old) root last.old }
    ensures found { (owned : List ℕ) (rows : List stored.Entry)
        → HoldsFitting (R.pages space.old) root owned columns.now rows
        → IfOk result (λ found. IsEntry found (entry_after after rows)) }
    ensures typed { IfOk result (λ found. IfSome found (λ row. Fits columns.now (entry_of row))) }
    ensures lies { LiesIn (R.pages space.new) root last.new }
    ensures same { R.pages space.new ≡ R.pages space.old }
    ensures whole { R.is_whole space.old → R.is_whole space.new }
    ensures refusal { IfErr result (ReadRefused (HoldsNoFitting (R.pages space.old) root columns.now) (R.refused space.old) (R.refused space.new)) }
    ensures rising { R.refused space.old ≤ R.refused space.new }
    ensures follows { R.follows space.old space.new }
{
    let found = entry_near(space, alloc, root, after, last)?;
    match row_found(alloc, columns, &found) {
        Ok(row) => Ok(row),
        Err(DecodeError::OutOfMemory) => Err(SpaceError::Memory),
        Err(DecodeError::Damaged) => Err(SpaceError::Damaged),
    }
}

/// The block of the first entries above a row number, at most so many.
fn block_above<R: PageReader>(
    space: &mut R,
    alloc: Global,
    root: u32,
    number: u64,
    most: usize,
) -> Result<Block, SpaceError>
    ensures found { (owned : List ℕ) (rows : List stored.Entry) → HoldsRows (R.pages space.old) root owned rows
        → IfOk result (λ found. entries_in_block most found ≡ entries_of (some_after (Some number) most rows)) }
    ensures same { R.pages space.new ≡ R.pages space.old }
    ensures whole { R.is_whole space.old → R.is_whole space.new }
    ensures refusal { IfErr result (ReadRefused (HoldsNoRows (R.pages space.old) root) (R.refused space.old) (R.refused space.new)) }
    ensures rising { R.refused space.old ≤ R.refused space.new }
    ensures follows { R.follows space.old space.new }
{
    block_from(
        space,
        alloc,
        root,
        Start::Behind,
        &number.to_be_bytes(),
        most,
    )
}

/// The block of the first entries above a row number, or of the first of all, at most so many.
fn block_behind<R: PageReader>(
    space: &mut R,
    alloc: Global,
    root: u32,
    after: Option<u64>,
    most: usize,
) -> Result<Block, SpaceError>
    ensures found { (owned : List ℕ) (rows : List stored.Entry) → HoldsRows (R.pages space.old) root owned rows
        → IfOk result (λ found. entries_in_block most found ≡ entries_of (some_after after most rows)) }
    ensures same { R.pages space.new ≡ R.pages space.old }
    ensures whole { R.is_whole space.old → R.is_whole space.new }
    ensures refusal { IfErr result (ReadRefused (HoldsNoRows (R.pages space.old) root) (R.refused space.old) (R.refused space.new)) }
    ensures rising { R.refused space.old ≤ R.refused space.new }
    ensures follows { R.follows space.old space.new }
{
    match after {
        None => block_from(space, alloc, root, Start::At, &[], most),
        Some(number) => block_above(space, alloc, root, number, most),
    }
}

/// The first rows above a number, or the first of all, of the tree at a root, at most so many. It
/// reads the pages on one way down, and those behind it that have such rows. Each that is given
/// fits these columns, whatever lies there.
///
/// Refused as `scan` is.
pub fn some_rows<R: PageReader>(
    space: &mut R,
    alloc: Global,
    root: u32,
    columns: &[Column],
    after: Option<u64>,
    most: usize,
) -> Result<Numbered, SpaceError>
    ensures found { (owned : List ℕ) (rows : List stored.Entry)
        → HoldsFitting (R.pages space.old) root owned columns.now rows
        → IfOk result (λ found. AreEntries found (some_after after most rows)) }
    ensures typed { IfOk result (λ found. AllByRecursion (RowFits columns.now) found.rows) }
    ensures same { R.pages space.new ≡ R.pages space.old }
    ensures whole { R.is_whole space.old → R.is_whole space.new }
    ensures refusal { IfErr result (ReadRefused (HoldsNoFitting (R.pages space.old) root columns.now) (R.refused space.old) (R.refused space.new)) }
    ensures rising { R.refused space.old ≤ R.refused space.new }
    ensures follows { R.follows space.old space.new }
{
    let block = block_behind(space, alloc, root, after, most)?;
    match rows_of_block(alloc, columns, &block, most) {
        Ok(found) => Ok(found),
        Err(DecodeError::OutOfMemory) => Err(SpaceError::Memory),
        Err(DecodeError::Damaged) => Err(SpaceError::Damaged),
    }
}
