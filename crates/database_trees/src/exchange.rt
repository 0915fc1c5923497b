//! Rows exchanged in one index: one is taken, or none, and others are put in.
ghost use Rattle.std.specs.Prelude.{◌≡◌, ◌≤◌, ◌<◌, ◌+◌, ◌++◌, ℕ, List, slice_index_or, IfOk, IfErr, OnOk};
ghost use Rattle.sqlval.specs.CodedLength.{key_length};
ghost use Rattle.sqlval.specs.Matching.{key_of};
ghost use Rattle.store.specs.Contents as stored;
ghost use Rattle.index_trees.specs.Indexed.{HoldsIndex, AreWith, IndexWritten, HoldsNoIndexIn};
ghost use Rattle.btree.specs.Kept.{LosesNoPage};
ghost use Rattle.database_trees.specs.Changed.{SpaceRefused, Reaches, ReachesNone};
ghost use Rattle.database_trees.specs.Exchanged.{HasLongKeyIn, IsOpen, HasTaken, IsExchangeable};

use crate::DatabaseError;
use crate::error::{of_index, of_removal};
use crate::kept::is_put_back;
use denote::Row;
use index_trees::{add_row, remove_row};
use page_space::PageSpace;
use std::alloc::Global;
use store::{Numbered, NumberedRow};

/// Rows that indexes are to lose and to get.
#[derive(Drop)]
pub(crate) struct Exchange {
    pub taken: Option<NumberedRow>,
    pub put: Numbered,
}

/// Takes a row out of the index at a root over these columns, where one is to be taken, and answers
/// the root.
fn take_row<S: PageSpace>(
    space: &mut S,
    alloc: Global,
    root: u32,
    columns: &[usize],
    taken: &Option<NumberedRow>,
) -> Result<u32, DatabaseError>
    ensures taken { (h : HasTaken (S.pages space.old) root columns.now taken.now)
        → IfOk result (IndexWritten (S.pages space.old) (S.pages space.new) h.owned columns.now h.left) }
    ensures keeps { IfOk result (LosesNoPage (S.pages space.old) (S.pages space.new) root) }
    ensures limits { IfErr result ReachesNone }
    ensures whole { OnOk result (S.is_whole space.old → S.is_whole space.new) }
    ensures refusal { IfErr result (SpaceRefused (S.at_limit space.new) (HasTaken (S.pages space.old) root columns.now taken.now
        → S.is_whole space.old → ⊥) (S.refused space.old) (S.refused space.new)) }
    ensures rising { S.refused space.old ≤ S.refused space.new }
    ensures follows { S.follows space.old space.new }
{
    match taken {
        None => Ok(root),
        Some(found) => match remove_row(space, alloc, root, columns, found.number, &found.row) {
            Ok(top) => Ok(top),
            Err(error) => Err(of_removal(error)),
        },
    }
}

/// Puts a row into the index at a root over these columns, and answers the root.
fn add_one<S: PageSpace>(
    space: &mut S,
    alloc: Global,
    root: u32,
    columns: &[usize],
    number: u64,
    row: &Row,
) -> Result<u32, DatabaseError>
    ensures added { (owned : List ℕ) (others rows : List stored.Entry)
        → HoldsIndex (S.pages space.old) root owned columns.now others → AreWith (number, row.now) others rows
        → IfOk result (IndexWritten (S.pages space.old) (S.pages space.new) owned columns.now rows) }
    ensures keeps { IfOk result (LosesNoPage (S.pages space.old) (S.pages space.new) root) }
    ensures limits { IfErr result (Reaches ⊥ (600 < key_length (key_of columns.now row.now) + 8) ⊥) }
    ensures whole { OnOk result (S.is_whole space.old → S.is_whole space.new) }
    ensures refusal { IfErr result (SpaceRefused (S.at_limit space.new) (HoldsNoIndexIn (S.pages space.old) root columns.now (S.is_whole space.old)) (S.refused space.old) (S.refused space.new)) }
    ensures rising { S.refused space.old ≤ S.refused space.new }
    ensures follows { S.follows space.old space.new }
{
    match add_row(space, alloc, root, columns, number, row) {
        Ok(top) => Ok(top),
        Err(error) => Err(of_index(error)),
    }
}

/// The number at a place, 0 behind the last.
pub(crate) fn number_at(numbers: &[u64], at: usize) -> u64
    ensures { result ≡ slice_index_or numbers.now at 0 }
{
    match numbers.get(at) {
        Some(number) => *number,
        None => 0,
    }
}

/// Puts rows into the index at a root over these columns, one after another, and answers the root.
fn add_rows<S: PageSpace>(
    space: &mut S,
    alloc: Global,
    root: u32,
    columns: &[usize],
    put: &Numbered,
) -> Result<u32, DatabaseError>
    ensures added { (h : IsOpen (S.pages space.old) root columns.now put.now)
        → IfOk result (IndexWritten (S.pages space.old) (S.pages space.new) h.owned columns.now (h.held ++ h.more)) }
    ensures keeps { IfOk result (LosesNoPage (S.pages space.old) (S.pages space.new) root) }
    ensures limits { IfErr result (Reaches ⊥ (HasLongKeyIn columns.now put.now.rows) ⊥) }
    ensures whole { OnOk result (S.is_whole space.old → S.is_whole space.new) }
    ensures refusal { IfErr result (SpaceRefused (S.at_limit space.new) (IsOpen (S.pages space.old) root columns.now put.now
        → S.is_whole space.old → ⊥) (S.refused space.old) (S.refused space.new)) }
    ensures rising { S.refused space.old ≤ S.refused space.new }
    ensures follows { S.follows space.old space.new }
{
    let mut top = root;
    for (at, row) in put.rows.as_slice().iter().enumerate() {
        let number = number_at(put.numbers.as_slice(), at);
        top = add_one(space, alloc, top, columns, number, row)?;
    }
    Ok(top)
}

/// Takes a row out of the index at a root over these columns, puts others into it, and answers the
/// root.
fn take_and_put<S: PageSpace>(
    space: &mut S,
    alloc: Global,
    root: u32,
    columns: &[usize],
    exchange: &Exchange,
) -> Result<u32, DatabaseError>
    ensures exchanged { (h : IsExchangeable (S.pages space.old) root columns.now exchange.now)
        → IfOk result (IndexWritten (S.pages space.old) (S.pages space.new) h.owned columns.now (h.left ++ h.more)) }
    ensures keeps { IfOk result (LosesNoPage (S.pages space.old) (S.pages space.new) root) }
    ensures limits { IfErr result (Reaches ⊥ (HasLongKeyIn columns.now exchange.now.put.rows) ⊥) }
    ensures whole { OnOk result (S.is_whole space.old → S.is_whole space.new) }
    ensures refusal { IfErr result (SpaceRefused (S.at_limit space.new) (IsExchangeable (S.pages space.old) root columns.now exchange.now
        → S.is_whole space.old → ⊥) (S.refused space.old) (S.refused space.new)) }
    ensures rising { S.refused space.old ≤ S.refused space.new }
    ensures follows { S.follows space.old space.new }
{
    match take_row(space, alloc, root, columns, &exchange.taken) {
        Ok(top) => add_rows(space, alloc, top, columns, &exchange.put),
        Err(error) => Err(error),
    }
}

/// Exchanges rows in the index at a root over these columns, and answers the root. Where one row is
/// put in place of one of its number that has the same values there, the index has its entry
/// already.
pub(crate) fn exchange_rows<S: PageSpace>(
    space: &mut S,
    alloc: Global,
    root: u32,
    columns: &[usize],
    exchange: &Exchange,
) -> Result<u32, DatabaseError>
    ensures exchanged { (h : IsExchangeable (S.pages space.old) root columns.now exchange.now)
        → IfOk result (IndexWritten (S.pages space.old) (S.pages space.new) h.owned columns.now (h.left ++ h.more)) }
    ensures keeps { IfOk result (LosesNoPage (S.pages space.old) (S.pages space.new) root) }
    ensures limits { IfErr result (Reaches ⊥ (HasLongKeyIn columns.now exchange.now.put.rows) ⊥) }
    ensures whole { OnOk result (S.is_whole space.old → S.is_whole space.new) }
    ensures refusal { IfErr result (SpaceRefused (S.at_limit space.new) (IsExchangeable (S.pages space.old) root columns.now exchange.now
        → S.is_whole space.old → ⊥) (S.refused space.old) (S.refused space.new)) }
    ensures rising { S.refused space.old ≤ S.refused space.new }
    ensures follows { S.follows space.old space.new }
{
    if is_put_back(columns, exchange) {
        return Ok(root);
    }
    take_and_put(space, alloc, root, columns, exchange)
}
