//! A table taken away, with all of its trees.
ghost use Rattle.std.specs.Prelude.{◌≡◌, ◌≤◌, ◌∷◌, ◌++◌, List, IfOk, IfErr, OnOk, Bool, false};
ghost use Rattle.store.specs.Contents as stored;
ghost use Rattle.page_space.specs.Space.{ChangeRefused};
ghost use Rattle.btree_remove.specs.Dropped.{AreDropped};
ghost use Rattle.catalog_records.specs.References.{is_referenced};
ghost use Rattle.database_trees.specs.Trees.{pages_of};
ghost use Rattle.database_trees.specs.Held.{TableAt, HoldsDatabase, declared_of, contents_of, trees_of_indexes, table_trees, IsAllOwned};
ghost use Rattle.database_trees.specs.Changed.{DatabaseWritten, HoldsNoDatabaseIn, SpaceRefused, ReachesNone, DatabaseOwned};
ghost use Rattle.database_trees.specs.Exchanged.{IsTableOf};
ghost use Rattle.database_trees.specs.Dropped.{AreIndexes, AreTreesOf, TableGone, AreFreed};

use crate::DatabaseError;
use crate::error::of_change;
use btree_remove::drop_tree;
use catalog::is_referenced_in;
use items::{Items, Text};
use page_space::{PageSpace, SpaceError};
use sqlval::{Index, Table};
use std::alloc::Global;
use stored_tables::read_table;

/// Gives back the trees of these indexes.
fn drop_indexes<S: PageSpace>(
    space: &mut S,
    alloc: Global,
    indexes: &Items<Index>,
) -> Result<(), SpaceError>
    ensures dropped { (alone : Bool) (h : AreIndexes alone (S.pages space.old) indexes.now)
        → OnOk result (AreDropped (S.pages space.old) (S.pages space.new) (pages_of (trees_of_indexes h.rows h.its))) }
    ensures whole { OnOk result (S.is_whole space.old → S.is_whole space.new) }
    ensures refusal { IfErr result (ChangeRefused (S.at_limit space.new) (AreIndexes false (S.pages space.old) indexes.now
        → S.is_whole space.old → ⊥) (S.refused space.old) (S.refused space.new)) }
    ensures rising { S.refused space.old ≤ S.refused space.new }
    ensures follows { S.follows space.old space.new }
{
    for index in indexes.as_slice() {
        drop_tree(space, alloc, index.root)?;
    }
    Ok(())
}

/// Gives back the trees of a table.
fn drop_trees<S: PageSpace>(space: &mut S, alloc: Global, table: &Table) -> Result<(), SpaceError>
    ensures dropped { (alone : Bool) (h : AreTreesOf alone (S.pages space.old) table.now)
        → OnOk result (AreDropped (S.pages space.old) (S.pages space.new) (pages_of (table_trees h.at))) }
    ensures whole { OnOk result (S.is_whole space.old → S.is_whole space.new) }
    ensures refusal { IfErr result (ChangeRefused (S.at_limit space.new) (AreTreesOf false (S.pages space.old) table.now
        → S.is_whole space.old → ⊥) (S.refused space.old) (S.refused space.new)) }
    ensures rising { S.refused space.old ≤ S.refused space.new }
    ensures follows { S.follows space.old space.new }
{
    match drop_tree(space, alloc, table.root) {
        Ok(()) => drop_indexes(space, alloc, &table.indexes),
        Err(fault) => Err(fault),
    }
}

/// Takes a table that no other one references out of the schema, gives its trees back, and answers
/// the schema's root.
fn drop_free<S: PageSpace>(
    space: &mut S,
    alloc: Global,
    root: u32,
    table: &Table,
) -> Result<u32, DatabaseError>
    ensures dropped { (alone : Bool) (h : IsTableOf alone (S.pages space.old) root table.now)
        → is_referenced table.now.name (declared_of h.before ++ table.now ∷ declared_of h.behind) ≡ false
        → IfOk result (TableGone alone (S.pages space.new) h.before h.at h.behind) }
    ensures limits { IfErr result ReachesNone }
    ensures whole { OnOk result (S.is_whole space.old → S.is_whole space.new) }
    ensures refusal { IfErr result (SpaceRefused (S.at_limit space.new) ((h : IsTableOf false (S.pages space.old) root table.now)
        → is_referenced table.now.name (declared_of h.before ++ table.now ∷ declared_of h.behind) ≡ false
        → S.is_whole space.old → ⊥) (S.refused space.old) (S.refused space.new)) }
    ensures rising { S.refused space.old ≤ S.refused space.new }
    ensures follows { S.follows space.old space.new }
{
    match catalog::drop_table(space, alloc, root, table) {
        Ok(top) => match drop_trees(space, alloc, table) {
            Ok(()) => Ok(top),
            Err(fault) => Err(DatabaseError::Space(fault)),
        },
        Err(error) => Err(of_change(error)),
    }
}

/// Takes a table out of the schema, gives its trees back, and answers the schema's root.
/// Where another one references it, that counts as want of memory.
fn drop_found<S: PageSpace>(
    space: &mut S,
    alloc: Global,
    root: u32,
    table: &Table,
) -> Result<u32, DatabaseError>
    ensures dropped { (alone : Bool) (h : IsTableOf alone (S.pages space.old) root table.now)
        → IfOk result (TableGone alone (S.pages space.new) h.before h.at h.behind) }
    ensures limits { IfErr result ReachesNone }
    ensures whole { OnOk result (S.is_whole space.old → S.is_whole space.new) }
    ensures refusal { IfErr result (SpaceRefused (S.at_limit space.new) (IsTableOf false (S.pages space.old) root table.now
        → S.is_whole space.old → ⊥) (S.refused space.old) (S.refused space.new)) }
    ensures rising { S.refused space.old ≤ S.refused space.new }
    ensures follows { S.follows space.old space.new }
{
    match is_referenced_in(space, alloc, root, &table.name) {
        Ok(referenced) => {
            if referenced {
                Err(DatabaseError::Space(SpaceError::Memory))
            } else {
                drop_free(space, alloc, root, table)
            }
        }
        Err(fault) => Err(DatabaseError::Space(fault)),
    }
}

/// Takes the table of a name away, with its indexes, and answers the root. All pages of its trees
/// are then free. Where no table has the name, all stays.
///
/// Refused for want of memory, where the device refuses a call, at the limits of pages, as damaged
/// only where no database is held there or the list of free pages is none, and where a record of
/// the schema is too long. That a foreign key of another table references this one counts as
/// want of memory. After a refusal nothing is said of the pages but what every call of the space
/// keeps.
pub fn drop_table<S: PageSpace>(
    space: &mut S,
    alloc: Global,
    root: u32,
    name: &Text,
) -> Result<u32, DatabaseError>
    ensures dropped { (tables : List TableAt) → HoldsDatabase (S.pages space.old) root tables
        → IfOk result (DatabaseWritten (S.pages space.new) (stored.without_table (contents_of tables) name.now)) }
    ensures owned { (tables : List TableAt) → IsAllOwned (S.pages space.old) root tables
        → IfOk result (DatabaseOwned (S.pages space.new) (stored.without_table (contents_of tables) name.now)) }
    ensures freed { (tables : List TableAt) → HoldsDatabase (S.pages space.old) root tables
        → OnOk result (AreFreed (S.pages space.new) name.now tables) }
    ensures limits { IfErr result ReachesNone }
    ensures whole { OnOk result (S.is_whole space.old → S.is_whole space.new) }
    ensures refusal { IfErr result (SpaceRefused (S.at_limit space.new) (HoldsNoDatabaseIn (S.pages space.old) root (S.is_whole space.old)) (S.refused space.old) (S.refused space.new)) }
    ensures rising { S.refused space.old ≤ S.refused space.new }
    ensures follows { S.follows space.old space.new }
{
    match read_table(space, alloc, root, name) {
        Ok(Some(table)) => drop_found(space, alloc, root, &table),
        Ok(None) => Ok(root),
        Err(fault) => Err(DatabaseError::Space(fault)),
    }
}
