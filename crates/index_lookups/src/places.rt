//! The index at a place of a table.
ghost use Rattle.std.specs.Prelude.{◌≡◌, ◌≤◌, ℕ, List, slice_get, IfOk, IfErr, IfSome};
ghost use Rattle.std.specs.FinMap.{get};
ghost use Rattle.std.specs.Option.{option_map};
ghost use Rattle.sqlval.specs.declared.schema.Table.{Table as AnyTable};
ghost use Rattle.page_space.specs.Space.{ReadRefused};
ghost use Rattle.catalog.specs.Held.{HoldsSchema};
ghost use Rattle.stored_tables.specs.Named.{table_named};
ghost use Rattle.database_trees.specs.Held.{TableAt, HoldsDatabase, HoldsNoDatabase, contents_of};
ghost use Rattle.index_lookups.specs.Walked.{place_of, IsPlaceOf, HasTypesOf};

use catalog::KnownSchema;
use items::{Items, Text};
use page_space::{PageReader, SpaceError};
use sqlval::{Column, Index, Table};
use std::alloc::Global;
use stored_tables::find_table;

/// An index of a table: its columns, the root of its tree, the table's columns, and the root of its
/// rows.
#[derive(Drop)]
pub(crate) struct Place {
    pub(crate) columns: Items<usize>,
    pub(crate) root: u32,
    pub(crate) types: Items<Column>,
    pub(crate) rows_root: u32,
}

fn of_index(index: Index, types: Items<Column>, rows_root: u32) -> Place
    ensures { result ≡ place_of types rows_root index }
{
    Place {
        columns: index.columns,
        root: index.root,
        types,
        rows_root,
    }
}

/// The index at a place of a table; `None` behind the last.
fn place_in(table: Table, at: usize) -> Option<Place>
    ensures { result ≡ option_map (place_of table.columns table.root) (slice_get table.indexes at) }
{
    let rows_root = table.root;
    let types = table.columns;
    let mut indexes = table.indexes;
    if at < indexes.len() {
        Some(of_index(indexes.remove(at), types, rows_root))
    } else {
        None
    }
}

/// The index at a place of the table of a name; `None` where no table has the name, or no index
/// stands there.
pub(crate) fn index_at<R: PageReader>(
    space: &mut R,
    alloc: Global,
    known: &mut KnownSchema,
    root: u32,
    name: &Text,
    at: usize,
) -> Result<Option<Place>, SpaceError>
    ensures found { (tables : List TableAt) → HoldsDatabase (R.pages space.old) root tables
        → IfOk result (IsPlaceOf (R.pages space.old) (get (contents_of tables) name.now) at) }
    ensures types { (owned : List ℕ) (tables : List AnyTable) → HoldsSchema (R.pages space.old) root owned tables
        → IfOk result (λ found. IfSome found (HasTypesOf (table_named name.now tables))) }
    ensures same { R.pages space.new ≡ R.pages space.old }
    ensures whole { R.is_whole space.old → R.is_whole space.new }
    ensures refusal { IfErr result (ReadRefused (HoldsNoDatabase (R.pages space.old) root) (R.refused space.old) (R.refused space.new)) }
    ensures rising { R.refused space.old ≤ R.refused space.new }
    ensures follows { R.follows space.old space.new }
{
    match find_table(space, alloc, known, root, name) {
        Ok(Some(table)) => Ok(place_in(table, at)),
        Ok(None) => Ok(None),
        Err(fault) => Err(fault),
    }
}
