//! An index of a table made, over the rows that are there.
ghost use Rattle.std.specs.Prelude.{◌≡◌, ◌≤◌, ◌∷◌, [], ℕ, List, length, Err, IfOk, IfErr, OnOk, Bool, false};
ghost use Rattle.std.specs.FinMap.{get};
ghost use Rattle.denote.specs.SchemaOf.{index_of};
ghost use Rattle.store.specs.Contents as stored;
ghost use Rattle.store.specs.Errors.{HasLongKey};
ghost use Rattle.store.specs.Indexes.{entries_of};
ghost use Rattle.tablestore.specs.Held.{HoldsFitting};
ghost use Rattle.catalog_records.specs.Keepable.{ArePlaces, AreAmong, IsTable};
ghost use Rattle.index_trees.specs.Indexed.{IndexWritten};
ghost use Rattle.btree.specs.Kept.{LosesNoPage};
ghost use Rattle.database_trees.specs.Held.{TableAt, HoldsDatabase, contents_of, IsAllOwned};
ghost use Rattle.database_trees.specs.Changed.{DatabaseWritten, HoldsNoDatabaseIn, SpaceRefused, Reaches, ReachesNone, IsOfMemory, DatabaseOwned};
ghost use Rattle.database_trees.specs.Exchanged.{IsTableOf, HasLongKeyIn, HasTable, TablePut};
ghost use Rattle.database_trees.specs.Indexed.{table_indexed, IndexMade};

use crate::DatabaseError;
use crate::exchange::{Exchange, exchange_rows};
use crate::settling::put_table;
use catalog_records::are_among;
use items::Text;
use page_space::{PageSpace, SpaceError};
use sqlval::{Column, Index, Table};
use std::alloc::Global;
use stored_tables::read_table;
use tablestore::scan;

/// Makes the tree of an index over the rows of the tree at a root, which are of these types, and
/// answers its root.
fn filled<S: PageSpace>(
    space: &mut S,
    alloc: Global,
    rows: u32,
    types: &[Column],
    columns: &[usize],
) -> Result<u32, DatabaseError>
    ensures filled { (owned : List ℕ) (held : List stored.Entry)
        → HoldsFitting (S.pages space.old) rows owned types.now held
        → IfOk result (IndexWritten (S.pages space.old) (S.pages space.new) [] columns.now held) }
    ensures keeps { IfOk result (LosesNoPage (S.pages space.old) (S.pages space.new) 0) }
    ensures limits { (owned : List ℕ) (held : List stored.Entry)
        → HoldsFitting (S.pages space.old) rows owned types.now held
        → IfErr result (Reaches ⊥ (HasLongKeyIn columns.now (stored.rows_of held)) ⊥) }
    ensures whole { OnOk result (S.is_whole space.old → S.is_whole space.new) }
    ensures refusal { IfErr result (SpaceRefused (S.at_limit space.new) ((owned : List ℕ) (held : List stored.Entry)
        → HoldsFitting (S.pages space.old) rows owned types.now held → S.is_whole space.old
        → ⊥) (S.refused space.old) (S.refused space.new)) }
    ensures rising { S.refused space.old ≤ S.refused space.new }
    ensures follows { S.follows space.old space.new }
{
    match scan(space, alloc, rows, types) {
        Ok(put) => {
            let exchange = Exchange { taken: None, put };
            exchange_rows(space, alloc, 0, columns, &exchange)
        }
        Err(fault) => Err(DatabaseError::Space(fault)),
    }
}

/// A table with one more index, whose tree begins at a root.
fn with_index(table: Table, index: Index, root: u32) -> Result<Table, DatabaseError>
    ensures indexed { IfOk result (λ changed. changed ≡ table_indexed table index root) }
    ensures limits { IfErr result ReachesNone }
    ensures memory { IfErr result IsOfMemory }
{
    let Table {
        name,
        columns,
        constraints,
        indexes,
        root: rows,
    } = table;
    let Index {
        name: own,
        columns: places,
        owner,
        root: _,
    } = index;
    let mut indexes = indexes;
    indexes.push(Index {
        name: own,
        columns: places,
        owner,
        root,
    })?;
    Ok(Table {
        name,
        columns,
        constraints,
        indexes,
        root: rows,
    })
}

/// Lets the schema name one more index of a table, whose tree begins at `top`, and answers its own
/// root.
fn put_index<S: PageSpace>(
    space: &mut S,
    alloc: Global,
    root: u32,
    table: &Table,
    index: Index,
    top: u32,
) -> Result<u32, DatabaseError>
    ensures put { (alone : Bool) (h : HasTable alone (S.pages space.old) root table.now)
        → IsTable (table_indexed table.now index top)
        → IfOk result (TablePut alone (S.pages space.new) h.front (table_indexed table.now index top) h.back h.others) }
    ensures limits { IfErr result ReachesNone }
    ensures whole { OnOk result (S.is_whole space.old → S.is_whole space.new) }
    ensures refusal { IfErr result (SpaceRefused (S.at_limit space.new) (HasTable false (S.pages space.old) root table.now
        → S.is_whole space.old → ⊥) (S.refused space.old) (S.refused space.new)) }
    ensures rising { S.refused space.old ≤ S.refused space.new }
    ensures follows { S.follows space.old space.new }
{
    match read_table(space, alloc, root, &table.name) {
        Ok(Some(found)) => match with_index(found, index, top) {
            Ok(changed) => put_table(space, alloc, root, table, &changed),
            Err(error) => Err(error),
        },
        Ok(None) => Err(DatabaseError::Space(SpaceError::Damaged)),
        Err(fault) => Err(DatabaseError::Space(fault)),
    }
}

/// Makes an index of a table over columns of it, and answers the schema's root.
fn index_on<S: PageSpace>(
    space: &mut S,
    alloc: Global,
    root: u32,
    table: &Table,
    index: Index,
) -> Result<u32, DatabaseError>
    ensures indexed { (alone : Bool) (h : IsTableOf alone (S.pages space.old) root table.now) → ArePlaces index.columns
        → AreAmong (length table.now.columns) index.columns
        → IfOk result (IndexMade alone (S.pages space.new) h.before h.at h.behind index) }
    ensures limits { (h : IsTableOf false (S.pages space.old) root table.now)
        → IfErr result (Reaches ⊥ (HasLongKey (index_of index ∷ []) (stored.rows_of h.at.rows)) ⊥) }
    ensures whole { OnOk result (S.is_whole space.old → S.is_whole space.new) }
    ensures refusal { IfErr result (SpaceRefused (S.at_limit space.new) (IsTableOf false (S.pages space.old) root table.now
        → S.is_whole space.old → ⊥) (S.refused space.old) (S.refused space.new)) }
    ensures rising { S.refused space.old ≤ S.refused space.new }
    ensures follows { S.follows space.old space.new }
{
    match filled(
        space,
        alloc,
        table.root,
        table.columns.as_slice(),
        index.columns.as_slice(),
    ) {
        Ok(top) => put_index(space, alloc, root, table, index, top),
        Err(error) => Err(error),
    }
}

/// Makes an index of a table, and answers the schema's root. Refused as want of memory where it
/// names a place that is none of the table's columns: no typed statement does.
fn create_on<S: PageSpace>(
    space: &mut S,
    alloc: Global,
    root: u32,
    table: &Table,
    index: Index,
) -> Result<u32, DatabaseError>
    ensures indexed { (alone : Bool) (h : IsTableOf alone (S.pages space.old) root table.now) → ArePlaces index.columns
        → IfOk result (IndexMade alone (S.pages space.new) h.before h.at h.behind index) }
    ensures limits { (h : IsTableOf false (S.pages space.old) root table.now)
        → IfErr result (Reaches ⊥ (HasLongKey (index_of index ∷ []) (stored.rows_of h.at.rows)) ⊥) }
    ensures places { (AreAmong (length table.now.columns) index.columns → ⊥)
        → result ≡ Err (DatabaseError.Space SpaceError.Memory) }
    ensures whole { OnOk result (S.is_whole space.old → S.is_whole space.new) }
    ensures refusal { IfErr result (SpaceRefused (S.at_limit space.new) (IsTableOf false (S.pages space.old) root table.now
        → S.is_whole space.old → ⊥) (S.refused space.old) (S.refused space.new)) }
    ensures rising { S.refused space.old ≤ S.refused space.new }
    ensures follows { S.follows space.old space.new }
{
    if !are_among(table.columns.len(), index.columns.as_slice()) {
        return Err(DatabaseError::Space(SpaceError::Memory));
    }
    index_on(space, alloc, root, table, index)
}

/// Makes an index of the table of a name, over the rows that are there, and answers the root. Where
/// no table has the name, all stays. Where the index says that its tree begins does not matter.
///
/// Refused for want of memory, where the device refuses a call, at the limits of pages, as damaged
/// only where no database is held there or the list of free pages is none, where a row's key takes
/// more than 600 bytes with its number, and where a record of the schema is too long; as want of
/// memory also where the index names a place that is none of the table's columns, which no typed
/// statement does. After a refusal nothing is said of the pages but what every call of the space
/// keeps.
pub fn create_index<S: PageSpace>(
    space: &mut S,
    alloc: Global,
    root: u32,
    name: &Text,
    index: Index,
) -> Result<u32, DatabaseError>
    ensures indexed { (tables : List TableAt) → HoldsDatabase (S.pages space.old) root tables → ArePlaces index.columns
        → IfOk result (DatabaseWritten (S.pages space.new) (stored.indexed (contents_of tables) name.now index)) }
    ensures owned { (tables : List TableAt) → IsAllOwned (S.pages space.old) root tables → ArePlaces index.columns
        → IfOk result (DatabaseOwned (S.pages space.new) (stored.indexed (contents_of tables) name.now index)) }
    ensures limits { (tables : List TableAt) → HoldsDatabase (S.pages space.old) root tables
        → IfErr result (Reaches ⊥ (HasLongKey (index_of index ∷ []) (stored.rows_of (entries_of (get (contents_of tables) name.now)))) ⊥) }
    ensures whole { OnOk result (S.is_whole space.old → S.is_whole space.new) }
    ensures refusal { IfErr result (SpaceRefused (S.at_limit space.new) (HoldsNoDatabaseIn (S.pages space.old) root (S.is_whole space.old)) (S.refused space.old) (S.refused space.new)) }
    ensures rising { S.refused space.old ≤ S.refused space.new }
    ensures follows { S.follows space.old space.new }
{
    match read_table(space, alloc, root, name) {
        Ok(Some(table)) => create_on(space, alloc, root, &table, index),
        Ok(None) => Ok(root),
        Err(fault) => Err(DatabaseError::Space(fault)),
    }
}
