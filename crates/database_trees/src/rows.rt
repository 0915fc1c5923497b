//! Rows of a table put behind the others, replaced, and deleted.
ghost use Rattle.std.specs.Prelude.{◌≡◌, ◌≤◌, ◌<◌, ◌+◌, ◌++◌, ◌^◌, ◌∷◌, [], Some, List, length, map, IfOk, IfErr, OnOk, Bool, false};
ghost use Rattle.std.specs.List.{AllByRecursion, enumerate_from};
ghost use Rattle.std.specs.FinMap.{get};
ghost use Rattle.denote.specs.SchemaOf.{index_of};
ghost use Rattle.store.specs.Contents as stored;
ghost use Rattle.store.specs.Errors.{HasLongRow, HasLongKey};
ghost use Rattle.store.specs.View.{AreEntries};
ghost use Rattle.tablestore.specs.Held.{RowFits};
ghost use Rattle.tablestore.specs.Rows.{without_number, with_number};
ghost use Rattle.database_trees.specs.Held.{TableAt, HoldsDatabase, contents_of, IsAllOwned};
ghost use Rattle.database_trees.specs.Changed.{DatabaseWritten, HoldsNoDatabaseIn, SpaceRefused, Reaches, ReachesNone, NumberingReaches, DatabaseOwned};
ghost use Rattle.database_trees.specs.Exchanged.{IsTableOf, IsAppendable, IsExchangeableAt, RowsExchanged};

use crate::DatabaseError;
use crate::error::of_append;
use crate::exchange::Exchange;
use crate::numbering::{numbers_on, row_of};
use crate::settling::settle;
use catalog::KnownSchema;
use denote::{Row, Rows};
use items::{Items, Text};
use page_space::{PageSpace, SpaceError};
use sqlval::Table;
use std::alloc::Global;
use store::{Numbered, NumberedRow};
use stored_tables::find_table;
use tablestore::{are_fitting, next_number};

/// Puts the rows of an exchange behind those of a table, and answers the schema's root.
fn put_rows<S: PageSpace>(
    space: &mut S,
    alloc: Global,
    root: u32,
    table: &Table,
    exchange: &Exchange,
) -> Result<u32, DatabaseError>
    requires { AllByRecursion (RowFits table.now.columns) exchange.now.put.rows }
    ensures appended { (alone : Bool) (h : IsAppendable alone (S.pages space.old) root table.now exchange.now)
        → IfOk result (RowsExchanged alone (S.pages space.new) h.its.before h.its.at h.its.behind (h.its.at.rows ++ enumerate_from (stored.next_number h.its.at.rows) exchange.now.put.rows)) }
    ensures limits { IfErr result (Reaches (HasLongRow exchange.now.put.rows) (HasLongKey (map index_of table.now.indexes) exchange.now.put.rows)
        ((h : IsAppendable false (S.pages space.old) root table.now exchange.now)
        → 2 ^ 63 < stored.next_number h.its.at.rows + length exchange.now.put.rows)) }
    ensures whole { OnOk result (S.is_whole space.old → S.is_whole space.new) }
    ensures refusal { IfErr result (SpaceRefused (S.at_limit space.new) (IsAppendable false (S.pages space.old) root table.now exchange.now
        → S.is_whole space.old → ⊥) (S.refused space.old) (S.refused space.new)) }
    ensures rising { S.refused space.old ≤ S.refused space.new }
    ensures follows { S.follows space.old space.new }
{
    match tablestore::append(space, alloc, table.root, exchange.put.rows.as_slice()) {
        Ok(top) => settle(space, alloc, root, table, top, exchange),
        Err(error) => Err(of_append(error)),
    }
}

/// Puts rows behind those of a table, numbered on, and answers the schema's root.
fn append_to<S: PageSpace>(
    space: &mut S,
    alloc: Global,
    root: u32,
    table: &Table,
    rows: Rows,
) -> Result<u32, DatabaseError>
    requires { AllByRecursion (RowFits table.now.columns) rows }
    ensures appended { (alone : Bool) (h : IsTableOf alone (S.pages space.old) root table.now)
        → IfOk result (RowsExchanged alone (S.pages space.new) h.before h.at h.behind (h.at.rows ++ enumerate_from (stored.next_number h.at.rows) rows)) }
    ensures limits { IfErr result (Reaches (HasLongRow rows) (HasLongKey (map index_of table.now.indexes) rows)
        ((h : IsTableOf false (S.pages space.old) root table.now)
        → 2 ^ 63 < stored.next_number h.at.rows + length rows)) }
    ensures whole { OnOk result (S.is_whole space.old → S.is_whole space.new) }
    ensures refusal { IfErr result (SpaceRefused (S.at_limit space.new) (IsTableOf false (S.pages space.old) root table.now
        → S.is_whole space.old → ⊥) (S.refused space.old) (S.refused space.new)) }
    ensures rising { S.refused space.old ≤ S.refused space.new }
    ensures follows { S.follows space.old space.new }
{
    match next_number(space, alloc, table.root) {
        Ok(first) => match numbers_on(alloc, first, rows.as_slice()) {
            Ok(numbers) => {
                let exchange = Exchange {
                    taken: None,
                    put: Numbered { numbers, rows },
                };
                put_rows(space, alloc, root, table, &exchange)
            }
            Err(error) => Err(error),
        },
        Err(fault) => Err(DatabaseError::Space(fault)),
    }
}

/// Puts rows behind those of a table, as `append_to`. Rows that do not fit its columns, which no
/// statement stores, count as want of memory.
fn append_fitting<S: PageSpace>(
    space: &mut S,
    alloc: Global,
    root: u32,
    table: &Table,
    rows: Rows,
) -> Result<u32, DatabaseError>
    ensures appended { (alone : Bool) (h : IsTableOf alone (S.pages space.old) root table.now)
        → IfOk result (RowsExchanged alone (S.pages space.new) h.before h.at h.behind (h.at.rows ++ enumerate_from (stored.next_number h.at.rows) rows)) }
    ensures limits { IfErr result (Reaches (HasLongRow rows) (HasLongKey (map index_of table.now.indexes) rows)
        ((h : IsTableOf false (S.pages space.old) root table.now)
        → 2 ^ 63 < stored.next_number h.at.rows + length rows)) }
    ensures whole { OnOk result (S.is_whole space.old → S.is_whole space.new) }
    ensures refusal { IfErr result (SpaceRefused (S.at_limit space.new) (IsTableOf false (S.pages space.old) root table.now
        → S.is_whole space.old → ⊥) (S.refused space.old) (S.refused space.new)) }
    ensures rising { S.refused space.old ≤ S.refused space.new }
    ensures follows { S.follows space.old space.new }
{
    if !are_fitting(table.columns.as_slice(), rows.as_slice()) {
        return Err(DatabaseError::Space(SpaceError::Memory));
    }
    append_to(space, alloc, root, table, rows)
}

/// Puts rows behind those of the table of a name, numbered on, and into each of its indexes, and
/// answers the root. Where no table has the name, all stays.
///
/// Refused for want of memory, where the device refuses a call, at the limits of pages, as damaged
/// only where no database is held there or the list of free pages is none, where a row's code takes
/// more than 1,000 bytes or its key in an index more than 600 with its number, where the row
/// numbers end, at 2^63, and where the schema's record of a root is too long. After a refusal
/// nothing is said of the pages but what every call of the space keeps.
pub fn append<S: PageSpace>(
    space: &mut S,
    alloc: Global,
    known: &mut KnownSchema,
    root: u32,
    name: &Text,
    rows: Rows,
) -> Result<u32, DatabaseError>
    ensures appended { (tables : List TableAt) → HoldsDatabase (S.pages space.old) root tables
        → IfOk result (DatabaseWritten (S.pages space.new) (stored.appended (contents_of tables) name.now rows)) }
    ensures owned { (tables : List TableAt) → IsAllOwned (S.pages space.old) root tables
        → IfOk result (DatabaseOwned (S.pages space.new) (stored.appended (contents_of tables) name.now rows)) }
    ensures limits { IfErr result (NumberingReaches (S.pages space.old) root name.now rows) }
    ensures whole { OnOk result (S.is_whole space.old → S.is_whole space.new) }
    ensures refusal { IfErr result (SpaceRefused (S.at_limit space.new) (HoldsNoDatabaseIn (S.pages space.old) root (S.is_whole space.old)) (S.refused space.old) (S.refused space.new)) }
    ensures rising { S.refused space.old ≤ S.refused space.new }
    ensures follows { S.follows space.old space.new }
{
    match find_table(space, alloc, known, root, name) {
        Ok(Some(table)) => append_fitting(space, alloc, root, &table, rows),
        Ok(None) => Ok(root),
        Err(fault) => Err(DatabaseError::Space(fault)),
    }
}

/// Takes the row of a number, which the exchange takes from the indexes, out of a table, and
/// answers the schema's root.
fn delete_row<S: PageSpace>(
    space: &mut S,
    alloc: Global,
    root: u32,
    table: &Table,
    number: u64,
    exchange: &Exchange,
) -> Result<u32, DatabaseError>
    ensures deleted { (alone : Bool) (h : IsExchangeableAt alone (S.pages space.old) root table.now number exchange.now [])
        → IfOk result (RowsExchanged alone (S.pages space.new) h.its.before h.its.at h.its.behind (without_number number h.its.at.rows)) }
    ensures limits { AreEntries exchange.now.put [] → IfErr result ReachesNone }
    ensures whole { OnOk result (S.is_whole space.old → S.is_whole space.new) }
    ensures refusal { IfErr result (SpaceRefused (S.at_limit space.new) (IsExchangeableAt false (S.pages space.old) root table.now number exchange.now []
        → S.is_whole space.old → ⊥) (S.refused space.old) (S.refused space.new)) }
    ensures rising { S.refused space.old ≤ S.refused space.new }
    ensures follows { S.follows space.old space.new }
{
    match tablestore::delete(space, alloc, table.root, number) {
        Ok(top) => settle(space, alloc, root, table, top, exchange),
        Err(fault) => Err(DatabaseError::Space(fault)),
    }
}

/// One row is to be taken, and none to be put in its place.
fn nothing_put(alloc: Global, found: NumberedRow) -> Exchange
    ensures taken { result.taken ≡ Some found }
    ensures put { AreEntries result.put [] }
{
    Exchange {
        taken: Some(found),
        put: Numbered {
            numbers: Items::new(alloc),
            rows: Items::new(alloc),
        },
    }
}

/// Takes the row of a number out of a table, if there is one, and answers the schema's root.
fn delete_from<S: PageSpace>(
    space: &mut S,
    alloc: Global,
    root: u32,
    table: &Table,
    number: u64,
) -> Result<u32, DatabaseError>
    ensures deleted { (alone : Bool) (h : IsTableOf alone (S.pages space.old) root table.now)
        → IfOk result (RowsExchanged alone (S.pages space.new) h.before h.at h.behind (without_number number h.at.rows)) }
    ensures limits { IfErr result ReachesNone }
    ensures whole { OnOk result (S.is_whole space.old → S.is_whole space.new) }
    ensures refusal { IfErr result (SpaceRefused (S.at_limit space.new) (IsTableOf false (S.pages space.old) root table.now
        → S.is_whole space.old → ⊥) (S.refused space.old) (S.refused space.new)) }
    ensures rising { S.refused space.old ≤ S.refused space.new }
    ensures follows { S.follows space.old space.new }
{
    match row_of(space, alloc, table.root, table.columns.as_slice(), number) {
        Ok(Some(found)) => {
            let exchange = nothing_put(alloc, found);
            delete_row(space, alloc, root, table, number, &exchange)
        }
        Ok(None) => Ok(root),
        Err(fault) => Err(DatabaseError::Space(fault)),
    }
}

/// Takes the row of a number out of the table of a name, and out of each of its indexes, and
/// answers the root. Where there is none, all stays.
///
/// Refused for want of memory, where the device refuses a call, at the limits of pages, as damaged
/// only where no database is held there or the list of free pages is none, and where the schema's
/// record of a root is too long. After a refusal nothing is said of the pages but what every call
/// of the space keeps.
pub fn delete<S: PageSpace>(
    space: &mut S,
    alloc: Global,
    known: &mut KnownSchema,
    root: u32,
    name: &Text,
    number: u64,
) -> Result<u32, DatabaseError>
    ensures deleted { (tables : List TableAt) → HoldsDatabase (S.pages space.old) root tables
        → IfOk result (DatabaseWritten (S.pages space.new) (stored.deleted (contents_of tables) name.now number)) }
    ensures owned { (tables : List TableAt) → IsAllOwned (S.pages space.old) root tables
        → IfOk result (DatabaseOwned (S.pages space.new) (stored.deleted (contents_of tables) name.now number)) }
    ensures limits { IfErr result ReachesNone }
    ensures whole { OnOk result (S.is_whole space.old → S.is_whole space.new) }
    ensures refusal { IfErr result (SpaceRefused (S.at_limit space.new) (HoldsNoDatabaseIn (S.pages space.old) root (S.is_whole space.old)) (S.refused space.old) (S.refused space.new)) }
    ensures rising { S.refused space.old ≤ S.refused space.new }
    ensures follows { S.follows space.old space.new }
{
    match find_table(space, alloc, known, root, name) {
        Ok(Some(table)) => delete_from(space, alloc, root, &table, number),
        Ok(None) => Ok(root),
        Err(fault) => Err(DatabaseError::Space(fault)),
    }
}
