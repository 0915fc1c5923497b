//! One row of those that pages hold, deleted or replaced.
ghost use Rattle.std.specs.Prelude.{◌≡◌, ◌≤◌, ℕ, List, IfOk, IfErr, OnOk};
ghost use Rattle.store.specs.Contents as stored;
ghost use Rattle.sqlrecord.specs.Key.{number_code};
ghost use Rattle.sqlrecord.specs.Row.{row_code, IsCodeOf};
ghost use Rattle.page_space.specs.Space.{ChangeRefused};
ghost use Rattle.btree_read.specs.declared.entry.Entry.{Entry as AnyEntry};
ghost use Rattle.btree_read.specs.Sorted.{put};
ghost use Rattle.btree_read.specs.Tree.{IsTree};
ghost use Rattle.btree.specs.Overfull.{IsNoTreeIn};
ghost use Rattle.btree.specs.Written.{IsWritten};
ghost use Rattle.btree.specs.Kept.{LosesNoPage};
ghost use Rattle.tablestore.specs.Held.{HoldsRows};
ghost use Rattle.tablestore.specs.Appended.{RowsWritten, HoldsNoRowsIn, MayRefuseRow, IsOfRow};
ghost use Rattle.tablestore.specs.Rows.{RowsLeft, without_number, with_number};

use crate::error::AppendError;
use btree::insert;
use btree_read::get;
use btree_remove::remove;
use denote::Row;
use items::Items;
use page_space::{PageSpace, SpaceError};
use sqlrecord::{EncodeError, encode_row};
use std::alloc::Global;

/// Takes the row of a number out of the tree at a root, and answers the root; where no row has the
/// number, all stays. Root 0 is the table without rows.
///
/// Refused for want of memory, where the device refuses a call, at the limit of private pages, and
/// as damaged only where no rows are held there or the list of free pages is none. After a refusal
/// nothing is said of the pages but what every call of the space keeps.
pub fn delete<S: PageSpace>(
    space: &mut S,
    alloc: Global,
    root: u32,
    number: u64,
) -> Result<u32, SpaceError>
    ensures deleted { (owned : List ℕ) (held : List stored.Entry) → HoldsRows (S.pages space.old) root owned held
        → IfOk result (RowsLeft (S.pages space.old) (S.pages space.new) owned (without_number number held)) }
    ensures keeps { IfOk result (LosesNoPage (S.pages space.old) (S.pages space.new) root) }
    ensures whole { OnOk result (S.is_whole space.old → S.is_whole space.new) }
    ensures refusal { IfErr result (ChangeRefused (S.at_limit space.new) (HoldsNoRowsIn (S.pages space.old) root (S.is_whole space.old)) (S.refused space.old) (S.refused space.new)) }
    ensures rising { S.refused space.old ≤ S.refused space.new }
    ensures follows { S.follows space.old space.new }
{
    match remove(space, alloc, root, &number.to_be_bytes()) {
        Ok(Some(top)) => Ok(top),
        Ok(None) => Ok(root),
        Err(fault) => Err(fault),
    }
}

/// The code of a row.
fn code_of(alloc: Global, row: &Row) -> Result<Items<u8>, AppendError>
    ensures code { IfOk result (λ code. IsCodeOf code row.now) }
    ensures refusal { IfErr result (IsOfRow row.now) }
{
    match encode_row(alloc, row.as_slice()) {
        Ok(code) => Ok(code),
        Err(EncodeError::OutOfMemory) => Err(AppendError::Space(SpaceError::Memory)),
        Err(EncodeError::Record) => Err(AppendError::Record),
        Err(EncodeError::Key) => unreachable!(),
    }
}

/// Puts a row of a number into the tree at a root, and answers the root.
fn put_row<S: PageSpace>(
    space: &mut S,
    alloc: Global,
    root: u32,
    number: u64,
    row: &Row,
) -> Result<u32, AppendError>
    ensures put { (owned : List ℕ) (entries : List AnyEntry) → IsTree (S.pages space.old) root owned entries
        → IfOk result (IsWritten (S.pages space.old) (S.pages space.new) owned (put (number_code number) (row_code row.now) entries)) }
    ensures coded { OnOk result (IsCodeOf (row_code row.now) row.now) }
    ensures keeps { IfOk result (LosesNoPage (S.pages space.old) (S.pages space.new) root) }
    ensures whole { OnOk result (S.is_whole space.old → S.is_whole space.new) }
    ensures refusal { IfErr result (MayRefuseRow (S.at_limit space.new) (IsNoTreeIn (S.pages space.old) root (S.is_whole space.old)) (S.refused space.old) (S.refused space.new) row.now) }
    ensures rising { S.refused space.old ≤ S.refused space.new }
    ensures follows { S.follows space.old space.new }
{
    let code = code_of(alloc, row)?;
    match insert(space, alloc, root, &number.to_be_bytes(), code.as_slice()) {
        Ok(root) => Ok(root),
        Err(fault) => Err(AppendError::Space(fault)),
    }
}

/// Puts a row in place of the one of a number in the tree at a root, and answers the root; where no
/// row has the number, all stays.
///
/// Refused for want of memory, where the device refuses a call, at the limits of pages, as damaged
/// only where no rows are held there or the list of free pages is none, and where the row's code
/// takes more than 1,000 bytes. After a refusal nothing is said of the pages but what every call of
/// the space keeps.
pub fn replace<S: PageSpace>(
    space: &mut S,
    alloc: Global,
    root: u32,
    number: u64,
    row: &Row,
) -> Result<u32, AppendError>
    ensures replaced { (owned : List ℕ) (held : List stored.Entry) → HoldsRows (S.pages space.old) root owned held
        → IfOk result (RowsWritten (S.pages space.old) (S.pages space.new) owned (with_number number row.now held)) }
    ensures keeps { IfOk result (LosesNoPage (S.pages space.old) (S.pages space.new) root) }
    ensures whole { OnOk result (S.is_whole space.old → S.is_whole space.new) }
    ensures refusal { IfErr result (MayRefuseRow (S.at_limit space.new) (HoldsNoRowsIn (S.pages space.old) root (S.is_whole space.old)) (S.refused space.old) (S.refused space.new) row.now) }
    ensures rising { S.refused space.old ≤ S.refused space.new }
    ensures follows { S.follows space.old space.new }
{
    match get(space, alloc, root, &number.to_be_bytes()) {
        Ok(Some(_)) => put_row(space, alloc, root, number, row),
        Ok(None) => Ok(root),
        Err(fault) => Err(AppendError::Space(fault)),
    }
}
