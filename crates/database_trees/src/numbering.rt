//! The numbers of rows.
ghost use Rattle.std.specs.Prelude.{◌≡◌, ◌≤◌, ◌<◌, ◌+◌, ◌^◌, ℕ, List, Some, length, map, IfOk, IfErr, IfSome};
ghost use Rattle.std.specs.List.{enumerate_from};
ghost use Rattle.std.specs.Option.{option_map};
ghost use Rattle.store.specs.Contents as stored;
ghost use Rattle.store.specs.View.{entry_of, IsEntry};
ghost use Rattle.page_space.specs.Space.{ReadRefused};
ghost use Rattle.btree_read.specs.Near.{LiesIn};
ghost use Rattle.tablestore.specs.Held.{HoldsFitting, HoldsNoFitting, Fits};
ghost use Rattle.database_trees.specs.Changed.{Reaches, IsOfMemory};
ghost use Rattle.database_trees.specs.Named.{row_numbered, one_before, if_numbered};

use crate::DatabaseError;
use btree_read::LastLeaf;
use denote::Row;
use items::Items;
use page_space::{PageReader, SpaceError};
use sqlval::Column;
use std::alloc::Global;
use store::NumberedRow;
use tablestore::{next, next_near};

/// The least number that no row may have.
const NUMBERS: u64 = 1 << 63;

/// As many numbers as there are rows, one after another.
pub(crate) fn numbers_on(
    alloc: Global,
    first: u64,
    rows: &[Row],
) -> Result<Items<u64>, DatabaseError>
    ensures numbers { IfOk result (λ numbers. numbers ≡ map (λ (e : stored.Entry). e.0) (enumerate_from first rows.now)) }
    ensures limits { IfErr result (Reaches ⊥ ⊥ (2 ^ 63 < first + length rows.now)) }
    ensures memory { IfErr result IsOfMemory }
{
    let mut numbers = Items::new(alloc);
    let mut number = first;
    for _row in rows {
        if number >= NUMBERS {
            return Err(DatabaseError::Number);
        }
        numbers.push(number)?;
        number += 1;
    }
    Ok(numbers)
}

/// The number before this one.
fn one_before(number: u64) -> Option<u64>
    ensures { result ≡ one_before number }
{
    if number == 0 { None } else { Some(number - 1) }
}

/// What was found, where it has this number.
fn if_numbered(number: u64, found: Option<NumberedRow>) -> Option<NumberedRow>
    ensures is { option_map entry_of result ≡ if_numbered number (option_map entry_of found) }
    ensures same { IfSome result (λ row. found ≡ Some row) }
{
    match found {
        Some(row) => {
            if row.number == number {
                Some(row)
            } else {
                None
            }
        }
        None => None,
    }
}

/// The row of a number in the tree at a root, which fits these columns.
pub fn row_of<R: PageReader>(
    space: &mut R,
    alloc: Global,
    root: u32,
    columns: &[Column],
    number: u64,
) -> Result<Option<NumberedRow>, SpaceError>
    ensures found { (owned : List ℕ) (rows : List stored.Entry)
        → HoldsFitting (R.pages space.old) root owned columns.now rows
        → IfOk result (λ found. IsEntry found (row_numbered number rows)) }
    ensures typed { IfOk result (λ found. IfSome found (λ row. Fits columns.now (entry_of row))) }
    ensures same { R.pages space.new ≡ R.pages space.old }
    ensures whole { R.is_whole space.old → R.is_whole space.new }
    ensures refusal { IfErr result (ReadRefused (HoldsNoFitting (R.pages space.old) root columns.now) (R.refused space.old) (R.refused space.new)) }
    ensures rising { R.refused space.old ≤ R.refused space.new }
    ensures follows { R.follows space.old space.new }
{
    match next(space, alloc, root, columns, one_before(number)) {
        Ok(found) => Ok(if_numbered(number, found)),
        Err(fault) => Err(fault),
    }
}

/// The row of a number in the tree at a root, which fits these columns, as `row_of` gives it, by the
/// leaf in which a row was found last: where the row lies in it behind another one, no page is read.
pub fn row_near<R: PageReader>(
    space: &mut R,
    alloc: Global,
    root: u32,
    columns: &[Column],
    number: u64,
    last: &mut LastLeaf,
) -> Result<Option<NumberedRow>, SpaceError>
    requires { LiesIn (R.pages space.old) root last.old }
    ensures found { (owned : List ℕ) (rows : List stored.Entry)
        → HoldsFitting (R.pages space.old) root owned columns.now rows
        → IfOk result (λ found. IsEntry found (row_numbered number rows)) }
    ensures typed { IfOk result (λ found. IfSome found (λ row. Fits columns.now (entry_of row))) }
    ensures lies { LiesIn (R.pages space.new) root last.new }
    ensures same { R.pages space.new ≡ R.pages space.old }
    ensures whole { R.is_whole space.old → R.is_whole space.new }
    ensures refusal { IfErr result (ReadRefused (HoldsNoFitting (R.pages space.old) root columns.now) (R.refused space.old) (R.refused space.new)) }
    ensures rising { R.refused space.old ≤ R.refused space.new }
    ensures follows { R.follows space.old space.new }
{
    match next_near(space, alloc, root, columns, one_before(number), last) {
        Ok(found) => Ok(if_numbered(number, found)),
        Err(fault) => Err(fault),
    }
}
