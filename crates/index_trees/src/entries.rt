//! The entry of a row put into an index, and taken out of it.
ghost use Rattle.std.specs.Prelude.{◌≡◌, ◌≤◌, ◌<◌, ◌+◌, ℕ, List, length, slice_index_or, IfOk, IfErr, OnOk};
ghost use Rattle.sqlval.specs.declared.value.Value.TheVariants.{Null};
ghost use Rattle.sqlval.specs.CodedLength.{key_length};
ghost use Rattle.sqlval.specs.Matching.{key_of as key_of_row};
ghost use Rattle.store.specs.Contents as stored;
ghost use Rattle.sqlrecord.specs.Key.{index_key_code};
ghost use Rattle.btree.specs.Kept.{LosesNoPage};
ghost use Rattle.index_trees.specs.Indexed.{HoldsIndex, AreWith, IndexWritten, HoldsNoIndexIn, HoldsNoRowIn, HasEntry, MayRefuse};
ghost use Rattle.index_trees.specs.Refused.{IsOfKey};

use crate::IndexError;
use btree::insert;
use btree_remove::remove;
use denote::Row;
use items::Items;
use page_space::{PageSpace, SpaceError};
use sqlrecord::{EncodeError, encode_index_key};
use sqlval::Value;
use std::alloc::{AllocError, Global};

/// A row's value at a column, null where it has none.
fn value_at(alloc: Global, row: &Row, column: usize) -> Result<Value, AllocError>
    ensures { IfOk result (λ value. value ≡ slice_index_or row.now column Null) }
{
    match row.get(column) {
        Some(value) => value.copy(alloc),
        None => Ok(Value::Null),
    }
}

/// A row's values at these columns, null where it has none.
fn key_of(alloc: Global, row: &Row, columns: &[usize]) -> Result<Items<Value>, AllocError>
    ensures { IfOk result (λ key. key ≡ key_of_row columns.now row.now) }
{
    let mut key = Items::new(alloc);
    for column in columns {
        let value = value_at(alloc, row, *column)?;
        key.push(value)?;
    }
    Ok(key)
}

/// The code of a row's key in an index, with the row's number.
pub(crate) fn code_of(
    alloc: Global,
    row: &Row,
    columns: &[usize],
    number: u64,
) -> Result<Items<u8>, IndexError>
    ensures code { IfOk result (λ code. code ≡ index_key_code (key_of_row columns.now row.now) number) }
    ensures short { IfOk result (λ code. length code ≤ 600) }
    ensures refusal { IfErr result (IsOfKey columns.now row.now) }
{
    let key = key_of(alloc, row, columns)?;
    match encode_index_key(alloc, key.as_slice(), number) {
        Ok(code) => Ok(code),
        Err(EncodeError::OutOfMemory) => Err(IndexError::Space(SpaceError::Memory)),
        Err(EncodeError::Key) => Err(IndexError::Key),
        Err(EncodeError::Record) => unreachable!(),
    }
}

/// Puts the entry of a row, whose number no row of the index has, into the index at a root over
/// these columns, and answers the root; root 0 is the index of no rows.
///
/// Refused for want of memory, where the device refuses a call, at the limits of pages, as damaged
/// only where no index lies there or the list of free pages is none, and by the limit `key` only
/// where the row's key takes more than 600 bytes with its number. After a refusal nothing is said
/// of the pages but what every call of the space keeps.
pub fn add_row<S: PageSpace>(
    space: &mut S,
    alloc: Global,
    root: u32,
    columns: &[usize],
    number: u64,
    row: &Row,
) -> Result<u32, IndexError>
    ensures added { (owned : List ℕ) (others rows : List stored.Entry)
        → HoldsIndex (S.pages space.old) root owned columns.now others → AreWith (number, row.now) others rows
        → IfOk result (IndexWritten (S.pages space.old) (S.pages space.new) owned columns.now rows) }
    ensures keeps { IfOk result (LosesNoPage (S.pages space.old) (S.pages space.new) root) }
    ensures whole { OnOk result (S.is_whole space.old → S.is_whole space.new) }
    ensures refusal { IfErr result (MayRefuse (S.at_limit space.new) (HoldsNoIndexIn (S.pages space.old) root columns.now (S.is_whole space.old)) (S.refused space.old) (S.refused space.new) columns.now row.now) }
    ensures rising { S.refused space.old ≤ S.refused space.new }
    ensures follows { S.follows space.old space.new }
{
    let code = code_of(alloc, row, columns, number)?;
    match insert(space, alloc, root, code.as_slice(), &[]) {
        Ok(top) => Ok(top),
        Err(fault) => Err(IndexError::Space(fault)),
    }
}

/// Takes the entry of a row out of the index at a root over these columns, and answers the root; 0
/// where it was the only one.
///
/// Refused as `add_row` is, and as damaged where the tree has no such entry: so only where no index
/// of rows with this one lies there, or the list of free pages is none.
pub fn remove_row<S: PageSpace>(
    space: &mut S,
    alloc: Global,
    root: u32,
    columns: &[usize],
    number: u64,
    row: &Row,
) -> Result<u32, IndexError>
    ensures removed { (owned : List ℕ) (others rows : List stored.Entry)
        → HoldsIndex (S.pages space.old) root owned columns.now rows → AreWith (number, row.now) others rows
        → IfOk result (IndexWritten (S.pages space.old) (S.pages space.new) owned columns.now others) }
    ensures there { OnOk result (HasEntry (S.pages space.old) root columns.now (number, row.now)) }
    ensures keeps { IfOk result (LosesNoPage (S.pages space.old) (S.pages space.new) root) }
    ensures whole { OnOk result (S.is_whole space.old → S.is_whole space.new) }
    ensures refusal { IfErr result (MayRefuse (S.at_limit space.new) (HoldsNoRowIn (S.pages space.old) root columns.now (number, row.now) (S.is_whole space.old)) (S.refused space.old) (S.refused space.new) columns.now row.now) }
    ensures rising { S.refused space.old ≤ S.refused space.new }
    ensures follows { S.follows space.old space.new }
{
    let code = code_of(alloc, row, columns, number)?;
    match remove(space, alloc, root, code.as_slice()) {
        Ok(Some(top)) => Ok(top),
        Ok(None) => Err(IndexError::Space(SpaceError::Damaged)),
        Err(fault) => Err(IndexError::Space(fault)),
    }
}
