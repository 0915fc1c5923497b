//! A row of a table replaced.
ghost use Rattle.std.specs.Prelude.{◌≡◌, ◌≤◌, ◌∷◌, [], List, map, IfOk, IfErr, OnOk, Bool, false};
ghost use Rattle.std.specs.FinMap.{get};
ghost use Rattle.denote.specs.SchemaOf.{index_of};
ghost use Rattle.store.specs.Contents as stored;
ghost use Rattle.store.specs.View.{AreEntries};
ghost use Rattle.store.specs.Errors.{HasLongRow, HasLongKey};
ghost use Rattle.tablestore.specs.Held.{RowFits};
ghost use Rattle.tablestore.specs.Rows.{with_number};
ghost use Rattle.database_trees.specs.Held.{TableAt, HoldsDatabase, contents_of, IsAllOwned};
ghost use Rattle.database_trees.specs.Changed.{DatabaseWritten, HoldsNoDatabaseIn, SpaceRefused, Reaches, ReachesNone, StoringReaches, IsOfMemory, IsMemoryAlone, DatabaseOwned};
ghost use Rattle.database_trees.specs.Exchanged.{IsTableOf, HasRow, RowsExchanged};

use crate::DatabaseError;
use crate::error::of_append;
use crate::exchange::Exchange;
use crate::numbering::row_of;
use crate::settling::settle;
use catalog::KnownSchema;
use denote::Row;
use items::{Items, Text};
use page_space::{PageSpace, SpaceError};
use sqlval::Table;
use std::alloc::Global;
use store::{Numbered, NumberedRow};
use stored_tables::find_table;
use tablestore::is_fitting;

/// One row with its number.
fn one_row(alloc: Global, number: u64, row: Row) -> Result<Numbered, DatabaseError>
    ensures entries { IfOk result (λ put. AreEntries put ((number, row) ∷ [])) }
    ensures limits { IfErr result ReachesNone }
    ensures memory { IfErr result IsOfMemory }
    ensures alone { IfErr result IsMemoryAlone }
{
    let mut numbers = Items::new(alloc);
    numbers.push(number)?;
    let mut rows = Items::new(alloc);
    rows.push(row)?;
    Ok(Numbered { numbers, rows })
}

/// Puts a row in place of one that was found, and answers the schema's root.
fn replace_row<S: PageSpace>(
    space: &mut S,
    alloc: Global,
    root: u32,
    table: &Table,
    found: NumberedRow,
    row: Row,
) -> Result<u32, DatabaseError>
    requires { RowFits table.now.columns row }
    ensures replaced { (alone : Bool) (h : HasRow alone (S.pages space.old) root table.now found)
        → IfOk result (RowsExchanged alone (S.pages space.new) h.its.before h.its.at h.its.behind (with_number found.number row h.its.at.rows)) }
    ensures limits { IfErr result (Reaches (HasLongRow (row ∷ [])) (HasLongKey (map index_of table.now.indexes) (row ∷ [])) ⊥) }
    ensures whole { OnOk result (S.is_whole space.old → S.is_whole space.new) }
    ensures refusal { IfErr result (SpaceRefused (S.at_limit space.new) (HasRow false (S.pages space.old) root table.now found
        → S.is_whole space.old → ⊥) (S.refused space.old) (S.refused space.new)) }
    ensures rising { S.refused space.old ≤ S.refused space.new }
    ensures follows { S.follows space.old space.new }
{
    match tablestore::replace(space, alloc, table.root, found.number, &row) {
        Ok(top) => match one_row(alloc, found.number, row) {
            Ok(put) => {
                let exchange = Exchange {
                    taken: Some(found),
                    put,
                };
                settle(space, alloc, root, table, top, &exchange)
            }
            Err(error) => Err(error),
        },
        Err(error) => Err(of_append(error)),
    }
}

/// Puts a row in place of the one of a number, if there is one, and answers the schema's root.
fn replace_in<S: PageSpace>(
    space: &mut S,
    alloc: Global,
    root: u32,
    table: &Table,
    number: u64,
    row: Row,
) -> Result<u32, DatabaseError>
    requires { RowFits table.now.columns row }
    ensures replaced { (alone : Bool) (h : IsTableOf alone (S.pages space.old) root table.now)
        → IfOk result (RowsExchanged alone (S.pages space.new) h.before h.at h.behind (with_number number row h.at.rows)) }
    ensures limits { IfErr result (Reaches (HasLongRow (row ∷ [])) (HasLongKey (map index_of table.now.indexes) (row ∷ [])) ⊥) }
    ensures whole { OnOk result (S.is_whole space.old → S.is_whole space.new) }
    ensures refusal { IfErr result (SpaceRefused (S.at_limit space.new) (IsTableOf false (S.pages space.old) root table.now
        → S.is_whole space.old → ⊥) (S.refused space.old) (S.refused space.new)) }
    ensures rising { S.refused space.old ≤ S.refused space.new }
    ensures follows { S.follows space.old space.new }
{
    match row_of(space, alloc, table.root, table.columns.as_slice(), number) {
        Ok(Some(found)) => replace_row(space, alloc, root, table, found, row),
        Ok(None) => Ok(root),
        Err(fault) => Err(DatabaseError::Space(fault)),
    }
}

/// Puts a row in place of the one of a number, as `replace_in`. A row that does not fit the table's
/// columns, which no statement stores, counts as want of memory.
fn replace_fitting<S: PageSpace>(
    space: &mut S,
    alloc: Global,
    root: u32,
    table: &Table,
    number: u64,
    row: Row,
) -> Result<u32, DatabaseError>
    ensures replaced { (alone : Bool) (h : IsTableOf alone (S.pages space.old) root table.now)
        → IfOk result (RowsExchanged alone (S.pages space.new) h.before h.at h.behind (with_number number row h.at.rows)) }
    ensures limits { IfErr result (Reaches (HasLongRow (row ∷ [])) (HasLongKey (map index_of table.now.indexes) (row ∷ [])) ⊥) }
    ensures whole { OnOk result (S.is_whole space.old → S.is_whole space.new) }
    ensures refusal { IfErr result (SpaceRefused (S.at_limit space.new) (IsTableOf false (S.pages space.old) root table.now
        → S.is_whole space.old → ⊥) (S.refused space.old) (S.refused space.new)) }
    ensures rising { S.refused space.old ≤ S.refused space.new }
    ensures follows { S.follows space.old space.new }
{
    if !is_fitting(table.columns.as_slice(), &row) {
        return Err(DatabaseError::Space(SpaceError::Memory));
    }
    replace_in(space, alloc, root, table, number, row)
}

/// Puts a row in place of the one of a number in the table of a name, and in each of its indexes,
/// and answers the root. Where there is none, all stays.
///
/// Refused as `append` is, but for the end of the row numbers.
pub fn replace<S: PageSpace>(
    space: &mut S,
    alloc: Global,
    known: &mut KnownSchema,
    root: u32,
    name: &Text,
    number: u64,
    row: Row,
) -> Result<u32, DatabaseError>
    ensures replaced { (tables : List TableAt) → HoldsDatabase (S.pages space.old) root tables
        → IfOk result (DatabaseWritten (S.pages space.new) (stored.replaced (contents_of tables) name.now number row)) }
    ensures owned { (tables : List TableAt) → IsAllOwned (S.pages space.old) root tables
        → IfOk result (DatabaseOwned (S.pages space.new) (stored.replaced (contents_of tables) name.now number row)) }
    ensures limits { IfErr result (StoringReaches (S.pages space.old) root name.now (row ∷ [])) }
    ensures whole { OnOk result (S.is_whole space.old → S.is_whole space.new) }
    ensures refusal { IfErr result (SpaceRefused (S.at_limit space.new) (HoldsNoDatabaseIn (S.pages space.old) root (S.is_whole space.old)) (S.refused space.old) (S.refused space.new)) }
    ensures rising { S.refused space.old ≤ S.refused space.new }
    ensures follows { S.follows space.old space.new }
{
    match find_table(space, alloc, known, root, name) {
        Ok(Some(table)) => replace_fitting(space, alloc, root, &table, number, row),
        Ok(None) => Ok(root),
        Err(fault) => Err(DatabaseError::Space(fault)),
    }
}
