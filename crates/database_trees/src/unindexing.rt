//! The indexes of a name taken away.
ghost use Rattle.std.specs.Prelude.{◌≡◌, ◌≤◌, true, false, List, IfOk, IfErr, OnOk, Bool};
ghost use Rattle.sqlval.specs.Schema.{is_named};
ghost use Rattle.btree.specs.Overfull.{IsNoTreeIn};
ghost use Rattle.btree_remove.specs.Dropped.{Drops};
ghost use Rattle.store.specs.Contents as stored;
ghost use Rattle.page_space.specs.Space.{ChangeRefused};
ghost use Rattle.database_trees.specs.Held.{TableAt, HoldsDatabase, declared_of, contents_of, HoldsFor, IsAllOwned};
ghost use Rattle.database_trees.specs.Changed.{DatabaseWritten, HoldsNoDatabaseIn, SpaceRefused, ReachesNone, IsOfMemory, DatabaseOwned};
ghost use Rattle.database_trees.specs.Dropped.{AreIndexes};
ghost use Rattle.database_trees.specs.Exchanged.{IsTableOf, HasTable, TablePut};
ghost use Rattle.database_trees.specs.Unindexed.{without_named, table_without, IndexesLeft, IndexesGone, TablesUnindexed};

use crate::DatabaseError;
use crate::settling::put_table;
use btree_remove::drop_tree;
use catalog::read_schema;
use items::{Items, Text};
use page_space::{PageSpace, SpaceError};
use sqlval::{Index, Table};
use std::alloc::Global;
use stored_tables::read_table;

/// Indexes without those of a name.
fn without_named(
    alloc: Global,
    indexes: Items<Index>,
    name: &Text,
) -> Result<Items<Index>, DatabaseError>
    ensures left { IfOk result (λ left. left ≡ without_named name.now indexes) }
    ensures limits { IfErr result ReachesNone }
    ensures memory { IfErr result IsOfMemory }
{
    let mut left = Items::new(alloc);
    for index in indexes.into_vec() {
        if !index.is_named(name.as_slice()) {
            left.push(index)?;
        }
    }
    Ok(left)
}

/// A table without its indexes of a name.
fn table_without(alloc: Global, table: Table, name: &Text) -> Result<Table, DatabaseError>
    ensures left { IfOk result (λ left. left ≡ table_without name.now table) }
    ensures limits { IfErr result ReachesNone }
    ensures memory { IfErr result IsOfMemory }
{
    let Table {
        name: own,
        columns,
        constraints,
        indexes,
        root,
    } = table;
    match without_named(alloc, indexes, name) {
        Ok(indexes) => Ok(Table {
            name: own,
            columns,
            constraints,
            indexes,
            root,
        }),
        Err(error) => Err(error),
    }
}

/// Gives back the tree of an index, where it has a name.
fn drop_if_named<S: PageSpace>(
    space: &mut S,
    alloc: Global,
    index: &Index,
    name: &Text,
) -> Result<(), SpaceError>
    ensures dropped { is_named name.now index.now.name ≡ true
        → Drops (S.pages space.old) (S.pages space.new) index.now.root result }
    ensures same { is_named name.now index.now.name ≡ false → S.pages space.new ≡ S.pages space.old }
    ensures whole { OnOk result (S.is_whole space.old → S.is_whole space.new) }
    ensures refusal { IfErr result (ChangeRefused (S.at_limit space.new) (IsNoTreeIn (S.pages space.old) index.now.root (S.is_whole space.old)) (S.refused space.old) (S.refused space.new)) }
    ensures rising { S.refused space.old ≤ S.refused space.new }
    ensures follows { S.follows space.old space.new }
{
    if index.is_named(name.as_slice()) {
        drop_tree(space, alloc, index.root)
    } else {
        Ok(())
    }
}

/// Gives back the trees of those of these indexes that have a name.
fn drop_named<S: PageSpace>(
    space: &mut S,
    alloc: Global,
    indexes: &Items<Index>,
    name: &Text,
) -> Result<(), SpaceError>
    ensures left { (alone : Bool) (h : AreIndexes alone (S.pages space.old) indexes.now)
        → OnOk result (IndexesLeft alone (S.pages space.new) name.now h.before h.its h.behind h.rows) }
    ensures whole { OnOk result (S.is_whole space.old → S.is_whole space.new) }
    ensures refusal { IfErr result (ChangeRefused (S.at_limit space.new) (AreIndexes false (S.pages space.old) indexes.now
        → S.is_whole space.old → ⊥) (S.refused space.old) (S.refused space.new)) }
    ensures rising { S.refused space.old ≤ S.refused space.new }
    ensures follows { S.follows space.old space.new }
{
    for index in indexes.as_slice() {
        drop_if_named(space, alloc, index, name)?;
    }
    Ok(())
}

/// Takes the indexes of a name out of a table in the schema, and answers the schema's root.
fn put_without<S: PageSpace>(
    space: &mut S,
    alloc: Global,
    root: u32,
    table: &Table,
    name: &Text,
) -> Result<u32, DatabaseError>
    ensures put { (alone : Bool) (h : HasTable alone (S.pages space.old) root table.now)
        → IfOk result (TablePut alone (S.pages space.new) h.front (table_without name.now table.now) h.back h.others) }
    ensures limits { IfErr result ReachesNone }
    ensures whole { OnOk result (S.is_whole space.old → S.is_whole space.new) }
    ensures refusal { IfErr result (SpaceRefused (S.at_limit space.new) (HasTable false (S.pages space.old) root table.now
        → S.is_whole space.old → ⊥) (S.refused space.old) (S.refused space.new)) }
    ensures rising { S.refused space.old ≤ S.refused space.new }
    ensures follows { S.follows space.old space.new }
{
    match read_table(space, alloc, root, &table.name) {
        Ok(Some(found)) => match table_without(alloc, found, name) {
            Ok(changed) => put_table(space, alloc, root, table, &changed),
            Err(error) => Err(error),
        },
        Ok(None) => Err(DatabaseError::Space(SpaceError::Damaged)),
        Err(fault) => Err(DatabaseError::Space(fault)),
    }
}

/// Takes the indexes of a name away from a table that has one, gives their trees back, and answers
/// the schema's root.
fn unindex_named<S: PageSpace>(
    space: &mut S,
    alloc: Global,
    root: u32,
    table: &Table,
    name: &Text,
) -> Result<u32, DatabaseError>
    ensures unindexed { (alone : Bool) (h : IsTableOf alone (S.pages space.old) root table.now)
        → IfOk result (IndexesGone alone (S.pages space.new) name.now h.before h.at h.behind) }
    ensures limits { IfErr result ReachesNone }
    ensures whole { OnOk result (S.is_whole space.old → S.is_whole space.new) }
    ensures refusal { IfErr result (SpaceRefused (S.at_limit space.new) (IsTableOf false (S.pages space.old) root table.now
        → S.is_whole space.old → ⊥) (S.refused space.old) (S.refused space.new)) }
    ensures rising { S.refused space.old ≤ S.refused space.new }
    ensures follows { S.follows space.old space.new }
{
    match put_without(space, alloc, root, table, name) {
        Ok(top) => match drop_named(space, alloc, &table.indexes, name) {
            Ok(()) => Ok(top),
            Err(fault) => Err(DatabaseError::Space(fault)),
        },
        Err(error) => Err(error),
    }
}

/// The same of any table.
fn unindex_table<S: PageSpace>(
    space: &mut S,
    alloc: Global,
    root: u32,
    table: &Table,
    name: &Text,
) -> Result<u32, DatabaseError>
    ensures unindexed { (alone : Bool) (h : IsTableOf alone (S.pages space.old) root table.now)
        → IfOk result (IndexesGone alone (S.pages space.new) name.now h.before h.at h.behind) }
    ensures limits { IfErr result ReachesNone }
    ensures whole { OnOk result (S.is_whole space.old → S.is_whole space.new) }
    ensures refusal { IfErr result (SpaceRefused (S.at_limit space.new) (IsTableOf false (S.pages space.old) root table.now
        → S.is_whole space.old → ⊥) (S.refused space.old) (S.refused space.new)) }
    ensures rising { S.refused space.old ≤ S.refused space.new }
    ensures follows { S.follows space.old space.new }
{
    match table.find_index(name.as_slice()) {
        Some(_) => unindex_named(space, alloc, root, table, name),
        None => Ok(root),
    }
}

/// Takes the indexes of a name away from each of these tables, and answers the schema's root.
fn unindex_each<S: PageSpace>(
    space: &mut S,
    alloc: Global,
    root: u32,
    tables: &Items<Table>,
    name: &Text,
) -> Result<u32, DatabaseError>
    ensures unindexed { (alone : Bool) (its : List TableAt) → HoldsFor alone (S.pages space.old) root its
        → declared_of its ≡ tables.now → IfOk result (TablesUnindexed alone (S.pages space.new) name.now its) }
    ensures limits { IfErr result ReachesNone }
    ensures whole { OnOk result (S.is_whole space.old → S.is_whole space.new) }
    ensures refusal { IfErr result (SpaceRefused (S.at_limit space.new) ((its : List TableAt)
        → HoldsDatabase (S.pages space.old) root its → declared_of its ≡ tables.now → S.is_whole space.old
        → ⊥) (S.refused space.old) (S.refused space.new)) }
    ensures rising { S.refused space.old ≤ S.refused space.new }
    ensures follows { S.follows space.old space.new }
{
    let mut top = root;
    for table in tables.as_slice() {
        top = unindex_table(space, alloc, top, table, name)?;
    }
    Ok(top)
}

/// Takes the indexes of a name away, whichever table has them, and answers the root. All pages of
/// their trees are given back. Where no index has the name, all stays.
///
/// Refused for want of memory, where the device refuses a call, at the limits of pages, as damaged
/// only where no database is held there or the list of free pages is none, and where a record of
/// the schema is too long. After a refusal nothing is said of the pages but what every call of the
/// space keeps.
pub fn drop_index<S: PageSpace>(
    space: &mut S,
    alloc: Global,
    root: u32,
    name: &Text,
) -> Result<u32, DatabaseError>
    ensures unindexed { (tables : List TableAt) → HoldsDatabase (S.pages space.old) root tables
        → IfOk result (DatabaseWritten (S.pages space.new) (stored.unindexed (contents_of tables) name.now)) }
    ensures owned { (tables : List TableAt) → IsAllOwned (S.pages space.old) root tables
        → IfOk result (DatabaseOwned (S.pages space.new) (stored.unindexed (contents_of tables) name.now)) }
    ensures limits { IfErr result ReachesNone }
    ensures whole { OnOk result (S.is_whole space.old → S.is_whole space.new) }
    ensures refusal { IfErr result (SpaceRefused (S.at_limit space.new) (HoldsNoDatabaseIn (S.pages space.old) root (S.is_whole space.old)) (S.refused space.old) (S.refused space.new)) }
    ensures rising { S.refused space.old ≤ S.refused space.new }
    ensures follows { S.follows space.old space.new }
{
    match read_schema(space, alloc, root) {
        Ok(schema) => unindex_each(space, alloc, root, &schema.tables, name),
        Err(fault) => Err(DatabaseError::Space(fault)),
    }
}
