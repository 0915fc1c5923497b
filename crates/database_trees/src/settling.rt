//! The schema brought to where the trees of a table begin.
ghost use Rattle.std.specs.Prelude.{◌≡◌, ◌≤◌, map, option_map, slice_get, Some, IsTrue, IfOk, IfErr, OnOk, Bool, false};
ghost use Rattle.denote.specs.SchemaOf.{index_of};
ghost use Rattle.store.specs.Errors.{HasLongKey};
ghost use Rattle.catalog_records.specs.Keepable.{IsTable};
ghost use Rattle.database_trees.specs.Changed.{SpaceRefused, Reaches, ReachesNone};
ghost use Rattle.database_trees.specs.Exchanged.{root_put, with_roots, table_with, HasTable, TablePut, IsUnsettled, IsSettled};

use crate::DatabaseError;
use crate::error::of_change;
use crate::exchange::Exchange;
use crate::indexes::exchange_each;
use catalog::alter_table;
use items::Items;
use page_space::{PageSpace, SpaceError};
use sqlval::{Index, Table};
use std::alloc::Global;
use stored_tables::read_table;

/// Whether there is an index at a place, and begins at a root.
fn begins_at(indexes: &Items<Index>, at: usize, root: u32) -> bool
    ensures { IsTrue result → option_map (λ index. index.root) (slice_get indexes.now at) ≡ Some root }
{
    match indexes.get(at) {
        Some(index) => index.root == root,
        None => false,
    }
}

/// Whether each of these indexes begins at its root.
fn begin_at(indexes: &Items<Index>, roots: &Items<u32>) -> bool
    ensures { IsTrue result → with_roots roots.now indexes.now ≡ indexes.now }
{
    for (at, root) in roots.as_slice().iter().enumerate() {
        if !begins_at(indexes, at, *root) {
            return false;
        }
    }
    true
}

/// Lets the index at a place begin at another root.
fn put_root(indexes: &mut Items<Index>, at: usize, root: u32)
    ensures { indexes.new ≡ root_put at root indexes.old }
{
    match indexes.get_mut(at) {
        Some(index) => index.root = root,
        None => (),
    }
}

/// Indexes that begin at these roots.
fn indexes_with(indexes: Items<Index>, roots: &Items<u32>) -> Items<Index>
    ensures { result ≡ with_roots roots.now indexes }
{
    let mut changed = indexes;
    for (at, root) in roots.as_slice().iter().enumerate() {
        put_root(&mut changed, at, *root);
    }
    changed
}

/// A table whose trees begin at these roots.
fn table_with(table: Table, rows: u32, roots: &Items<u32>) -> Table
    ensures { result ≡ table_with rows roots.now table }
{
    let Table {
        name,
        columns,
        constraints,
        indexes,
        root: _,
    } = table;
    Table {
        name,
        columns,
        constraints,
        indexes: indexes_with(indexes, roots),
        root: rows,
    }
}

/// Puts a table in place of one of its name, columns and constraints in the schema, and answers the
/// root.
pub(crate) fn put_table<S: PageSpace>(
    space: &mut S,
    alloc: Global,
    root: u32,
    table: &Table,
    changed: &Table,
) -> Result<u32, DatabaseError>
    ensures put { (alone : Bool) (h : HasTable alone (S.pages space.old) root table.now) → IsTable changed.now
        → changed.now.name ≡ table.now.name → changed.now.columns ≡ table.now.columns
        → changed.now.constraints ≡ table.now.constraints
        → IfOk result (TablePut alone (S.pages space.new) h.front changed.now h.back h.others) }
    ensures limits { IfErr result ReachesNone }
    ensures whole { OnOk result (S.is_whole space.old → S.is_whole space.new) }
    ensures refusal { IfErr result (SpaceRefused (S.at_limit space.new) (HasTable false (S.pages space.old) root table.now
        → S.is_whole space.old → ⊥) (S.refused space.old) (S.refused space.new)) }
    ensures rising { S.refused space.old ≤ S.refused space.new }
    ensures follows { S.follows space.old space.new }
{
    match alter_table(space, alloc, root, table, changed) {
        Ok(top) => Ok(top),
        Err(error) => Err(of_change(error)),
    }
}

/// Lets the schema name other roots of a table's trees, and answers its own.
fn put_roots<S: PageSpace>(
    space: &mut S,
    alloc: Global,
    root: u32,
    table: &Table,
    rows: u32,
    roots: &Items<u32>,
) -> Result<u32, DatabaseError>
    ensures put { (alone : Bool) (h : HasTable alone (S.pages space.old) root table.now)
        → IsTable (table_with rows roots.now table.now)
        → IfOk result (TablePut alone (S.pages space.new) h.front (table_with rows roots.now table.now) h.back h.others) }
    ensures limits { IfErr result ReachesNone }
    ensures whole { OnOk result (S.is_whole space.old → S.is_whole space.new) }
    ensures refusal { IfErr result (SpaceRefused (S.at_limit space.new) (HasTable false (S.pages space.old) root table.now
        → S.is_whole space.old → ⊥) (S.refused space.old) (S.refused space.new)) }
    ensures rising { S.refused space.old ≤ S.refused space.new }
    ensures follows { S.follows space.old space.new }
{
    if table.root == rows && begin_at(&table.indexes, roots) {
        return Ok(root);
    }
    match read_table(space, alloc, root, &table.name) {
        Ok(Some(found)) => {
            let changed = table_with(found, rows, roots);
            put_table(space, alloc, root, table, &changed)
        }
        Ok(None) => Err(DatabaseError::Space(SpaceError::Damaged)),
        Err(fault) => Err(DatabaseError::Space(fault)),
    }
}

/// Exchanges rows in each index of a table whose tree of rows has been changed and begins at
/// `rows`, lets the schema name the roots, and answers its own.
pub(crate) fn settle<S: PageSpace>(
    space: &mut S,
    alloc: Global,
    root: u32,
    table: &Table,
    rows: u32,
    exchange: &Exchange,
) -> Result<u32, DatabaseError>
    ensures settled { (alone : Bool) (h : IsUnsettled alone (S.pages space.old) root table.now rows exchange.now)
        → IfOk result (IsSettled alone (S.pages space.new) h.front h.back h.before h.behind h.at h.rows) }
    ensures limits { IfErr result (Reaches ⊥ (HasLongKey (map index_of table.now.indexes) exchange.now.put.rows) ⊥) }
    ensures whole { OnOk result (S.is_whole space.old → S.is_whole space.new) }
    ensures refusal { IfErr result (SpaceRefused (S.at_limit space.new) (IsUnsettled false (S.pages space.old) root table.now rows exchange.now
        → S.is_whole space.old → ⊥) (S.refused space.old) (S.refused space.new)) }
    ensures rising { S.refused space.old ≤ S.refused space.new }
    ensures follows { S.follows space.old space.new }
{
    match exchange_each(space, alloc, &table.indexes, exchange) {
        Ok(roots) => put_roots(space, alloc, root, table, rows, &roots),
        Err(error) => Err(error),
    }
}
