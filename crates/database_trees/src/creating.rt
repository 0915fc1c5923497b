//! A table made.
ghost use Rattle.std.specs.Prelude.{◌≡◌, ◌≤◌, ℕ, List, IfOk, IfErr, OnOk};
ghost use Rattle.sqlval.specs.declared.schema.Table.{Table as AnyTable};
ghost use Rattle.catalog.specs.Held.{HoldsSchema};
ghost use Rattle.catalog.specs.Changed.{with_table, IsFree, SchemaWritten, HoldsNoSchemaIn};
ghost use Rattle.std.specs.List.{AllByRecursion};
ghost use Rattle.store.specs.Contents as stored;
ghost use Rattle.catalog_records.specs.Keepable.{IsTable};
ghost use Rattle.catalog_records.specs.References.{AreReferencesWith};
ghost use Rattle.btree.specs.Kept.{LosesNoPage};
ghost use Rattle.database_trees.specs.Held.{TableAt, HoldsDatabase, contents_of, IsAllOwned};
ghost use Rattle.database_trees.specs.Changed.{DatabaseWritten, HoldsNoDatabaseIn, SpaceRefused, ReachesNone, DatabaseOwned};

use crate::DatabaseError;
use crate::error::of_change;
use catalog::{add_table, are_references_in};
use page_space::{PageSpace, SpaceError};
use sqlval::Table;
use std::alloc::Global;
use stored_tables::read_table;

/// Puts a table whose name is free, and what it references there, into the schema, and answers its
/// root.
fn add_fitting<S: PageSpace>(
    space: &mut S,
    alloc: Global,
    root: u32,
    table: &Table,
) -> Result<u32, DatabaseError>
    ensures added { (owned : List ℕ) (tables : List AnyTable) → HoldsSchema (S.pages space.old) root owned tables
        → IsTable table.now → IsFree table.now.name tables → AreReferencesWith table.now tables
        → IfOk result (SchemaWritten (S.pages space.old) (S.pages space.new) owned (with_table table.now tables)) }
    ensures keeps { IfOk result (LosesNoPage (S.pages space.old) (S.pages space.new) root) }
    ensures limits { IfErr result ReachesNone }
    ensures whole { OnOk result (S.is_whole space.old → S.is_whole space.new) }
    ensures refusal { IfErr result (SpaceRefused (S.at_limit space.new) (HoldsNoSchemaIn (S.pages space.old) root (S.is_whole space.old)) (S.refused space.old) (S.refused space.new)) }
    ensures rising { S.refused space.old ≤ S.refused space.new }
    ensures follows { S.follows space.old space.new }
{
    match add_table(space, alloc, root, table) {
        Ok(top) => Ok(top),
        Err(error) => Err(of_change(error)),
    }
}

/// Puts a table whose name is free into the schema, and answers its root. Where what it
/// references is not there, that counts as want of memory.
fn add_new<S: PageSpace>(
    space: &mut S,
    alloc: Global,
    root: u32,
    table: &Table,
) -> Result<u32, DatabaseError>
    ensures added { (owned : List ℕ) (tables : List AnyTable) → HoldsSchema (S.pages space.old) root owned tables
        → IsTable table.now → IsFree table.now.name tables
        → IfOk result (SchemaWritten (S.pages space.old) (S.pages space.new) owned (with_table table.now tables)) }
    ensures keeps { IfOk result (LosesNoPage (S.pages space.old) (S.pages space.new) root) }
    ensures limits { IfErr result ReachesNone }
    ensures whole { OnOk result (S.is_whole space.old → S.is_whole space.new) }
    ensures refusal { IfErr result (SpaceRefused (S.at_limit space.new) (HoldsNoSchemaIn (S.pages space.old) root (S.is_whole space.old)) (S.refused space.old) (S.refused space.new)) }
    ensures rising { S.refused space.old ≤ S.refused space.new }
    ensures follows { S.follows space.old space.new }
{
    match are_references_in(space, alloc, root, table) {
        Ok(are) => {
            if are {
                add_fitting(space, alloc, root, table)
            } else {
                Err(DatabaseError::Space(SpaceError::Memory))
            }
        }
        Err(fault) => Err(DatabaseError::Space(fault)),
    }
}

/// Puts a new table without rows, whose indexes have no entries, beside the others, and answers the
/// root. Where a table has that name, all stays.
///
/// Refused for want of memory, where the device refuses a call, at the limits of pages, as damaged
/// only where no database is held there or the list of free pages is none, and where a record of
/// the schema is too long. That a foreign key references a table or columns that are not there
/// counts as want of memory. After a refusal nothing is said of the pages but what every call of the
/// space keeps.
pub fn create_table<S: PageSpace>(
    space: &mut S,
    alloc: Global,
    root: u32,
    table: &Table,
) -> Result<u32, DatabaseError>
    requires rows { table.now.root ≡ 0 }
    requires indexes { AllByRecursion (λ index. index.root ≡ 0) table.now.indexes }
    ensures created { (tables : List TableAt) → HoldsDatabase (S.pages space.old) root tables → IsTable table.now
        → IfOk result (DatabaseWritten (S.pages space.new) (stored.with_table (contents_of tables) table.now)) }
    ensures owned { (tables : List TableAt) → IsAllOwned (S.pages space.old) root tables → IsTable table.now
        → IfOk result (DatabaseOwned (S.pages space.new) (stored.with_table (contents_of tables) table.now)) }
    ensures limits { IfErr result ReachesNone }
    ensures whole { OnOk result (S.is_whole space.old → S.is_whole space.new) }
    ensures refusal { IfErr result (SpaceRefused (S.at_limit space.new) (HoldsNoDatabaseIn (S.pages space.old) root (S.is_whole space.old)) (S.refused space.old) (S.refused space.new)) }
    ensures rising { S.refused space.old ≤ S.refused space.new }
    ensures follows { S.follows space.old space.new }
{
    match read_table(space, alloc, root, &table.name) {
        Ok(Some(_)) => Ok(root),
        Ok(None) => add_new(space, alloc, root, table),
        Err(fault) => Err(DatabaseError::Space(fault)),
    }
}
