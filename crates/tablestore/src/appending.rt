//! Rows put behind those that pages hold.
ghost use Rattle.std.specs.Prelude.{◌≡◌, ◌++◌, ◌≤◌, ◌<◌, ℕ, List, length, IfOk, IfErr, OnOk};
ghost use Rattle.std.specs.List.{enumerate_from};
ghost use Rattle.sqlval.specs.CodedLength.{row_length};
ghost use Rattle.store.specs.Contents as stored;
ghost use Rattle.sqlrecord.specs.Row.{row_code, IsCodeOf};
ghost use Rattle.btree.specs.Kept.{LosesNoPage};
ghost use Rattle.tablestore.specs.Held.{row_entry, entries_of, AreKept, HoldsRows};
ghost use Rattle.tablestore.specs.Appended.{RowsWritten, HoldsNoRowsIn, MayRefuse, NumbersEnd, IsOfRow, IsOfRows};

use crate::AppendError;
use crate::number::{NUMBERS, next_number};
use btree::insert_all;
use btree_read::Entry;
use denote::Row;
use items::Items;
use page_space::{PageSpace, SpaceError};
use sqlrecord::{EncodeError, encode_row};
use std::alloc::Global;

/// The code of a row.
fn code_of(alloc: Global, row: &Row) -> Result<Items<u8>, AppendError>
    ensures code { IfOk result (λ code. IsCodeOf code row.now) }
    ensures refusal { IfErr result (IsOfRow row.now) }
{
    match encode_row(alloc, row.as_slice()) {
        Ok(code) => Ok(code),
        Err(EncodeError::OutOfMemory) => Err(AppendError::Space(SpaceError::Memory)),
        Err(EncodeError::Record) => Err(AppendError::Record),
        Err(EncodeError::Key) => unreachable!(),
    }
}

/// The entry of a row with this number.
fn numbered_entry(alloc: Global, number: u64, row: &Row) -> Result<Entry, AppendError>
    ensures entry { IfOk result (λ entry. entry ≡ row_entry (number, row.now)) }
    ensures coded { OnOk result (IsCodeOf (row_code row.now) row.now) }
    ensures refusal { IfErr result (IsOfRow row.now) }
{
    let value = code_of(alloc, row)?;
    let key = Items::from_slice(alloc, &number.to_be_bytes())?;
    Ok(Entry { key, value })
}

/// The entries of rows that are numbered from this number on. Refused for want of memory, where a
/// row's code takes more than 1,000 bytes, and where the row numbers end, at 2^63.
fn numbered_entries(alloc: Global, first: u64, rows: &[Row]) -> Result<Items<Entry>, AppendError>
    ensures entries { IfOk result (λ entries. entries ≡ entries_of (enumerate_from first rows.now)) }
    ensures kept { OnOk result (AreKept (enumerate_from first rows.now)) }
    ensures refusal { IfErr result (IsOfRows first rows.now) }
{
    let mut entries = Items::new(alloc);
    let mut number = first;
    for row in rows {
        if number >= NUMBERS {
            return Err(AppendError::Number);
        }
        let entry = numbered_entry(alloc, number, row)?;
        entries.push(entry)?;
        number += 1;
    }
    Ok(entries)
}

/// Puts rows behind those of the tree at a root, numbered on, and answers the root; root 0 is the
/// table without rows.
///
/// Refused for want of memory, where the device refuses a call, at the limits of pages, as damaged
/// only where no rows are held there or the list of free pages is none, where a row's code takes
/// more than 1,000 bytes, and where the row numbers end, at 2^63. After a refusal nothing is said
/// of the pages but what every call of the space keeps.
pub fn append<S: PageSpace>(
    space: &mut S,
    alloc: Global,
    root: u32,
    rows: &[Row],
) -> Result<u32, AppendError>
    ensures appended { (owned : List ℕ) (held : List stored.Entry) → HoldsRows (S.pages space.old) root owned held
        → IfOk result (RowsWritten (S.pages space.old) (S.pages space.new) owned (held ++ enumerate_from (stored.next_number held) rows.now)) }
    ensures numbers { (owned : List ℕ) (held : List stored.Entry) → HoldsRows (S.pages space.old) root owned held
        → IfErr result (NumbersEnd held (length rows.now)) }
    ensures keeps { IfOk result (LosesNoPage (S.pages space.old) (S.pages space.new) root) }
    ensures whole { OnOk result (S.is_whole space.old → S.is_whole space.new) }
    ensures refusal { IfErr result (MayRefuse (S.at_limit space.new) (HoldsNoRowsIn (S.pages space.old) root (S.is_whole space.old)) (S.refused space.old) (S.refused space.new) rows.now) }
    ensures rising { S.refused space.old ≤ S.refused space.new }
    ensures follows { S.follows space.old space.new }
{
    let first = next_number(space, alloc, root)?;
    let entries = numbered_entries(alloc, first, rows)?;
    match insert_all(space, alloc, root, entries.as_slice()) {
        Ok(top) => Ok(top),
        Err(fault) => Err(AppendError::Space(fault)),
    }
}
