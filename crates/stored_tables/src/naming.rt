//! Tables of the schema by their names.
ghost use Rattle.std.specs.Prelude.{◌≡◌, ◌≤◌, ℕ, List, Some, slice_get, IfOk, IfErr};
ghost use Rattle.sqlval.specs.declared.schema.Table.{Table as AnyTable};
ghost use Rattle.page_space.specs.Space.{ReadRefused};
ghost use Rattle.catalog.specs.Held.{HoldsSchema, HoldsNoSchema};
ghost use Rattle.stored_tables.specs.Named.{table_named};

use catalog::{KnownSchema, read_known, read_schema};
use items::Text;
use page_space::{PageReader, SpaceError};
use schema_copies::copied_table;
use sqlval::{Schema, Table};
use std::alloc::Global;

/// The table at a place, out of a schema; `None` behind the last.
fn taken_at(schema: Schema, at: usize) -> Option<Table>
    ensures { result ≡ slice_get schema.tables at }
{
    let Schema { mut tables } = schema;
    if at < tables.len() {
        Some(tables.remove(at))
    } else {
        None
    }
}

/// The table of a name, out of a schema.
fn taken_out(schema: Schema, name: &Text) -> Option<Table>
    ensures { result ≡ table_named name.now schema.tables }
{
    match schema.find_table(name.as_slice()) {
        Some(at) => taken_at(schema, at),
        None => None,
    }
}

/// The table of a name in the schema that the tree at a root holds, which is decoded; `None` where
/// none has it.
pub fn read_table<R: PageReader>(
    space: &mut R,
    alloc: Global,
    root: u32,
    name: &Text,
) -> Result<Option<Table>, SpaceError>
    ensures found { (owned : List ℕ) (tables : List AnyTable) → HoldsSchema (R.pages space.old) root owned tables
        → IfOk result (λ found. found ≡ table_named name.now tables) }
    ensures same { R.pages space.new ≡ R.pages space.old }
    ensures whole { R.is_whole space.old → R.is_whole space.new }
    ensures refusal { IfErr result (ReadRefused (HoldsNoSchema (R.pages space.old) root) (R.refused space.old) (R.refused space.new)) }
    ensures rising { R.refused space.old ≤ R.refused space.new }
    ensures follows { R.follows space.old space.new }
{
    match read_schema(space, alloc, root) {
        Ok(schema) => Ok(taken_out(schema, name)),
        Err(fault) => Err(fault),
    }
}

/// A copy of a table.
fn copied(alloc: Global, table: &Table) -> Result<Option<Table>, SpaceError>
    ensures found { IfOk result (λ found. found ≡ Some table.now) }
    ensures memory { IfErr result (λ fault. fault ≡ SpaceError.Memory) }
{
    match copied_table(alloc, table) {
        Ok(table) => Ok(Some(table)),
        Err(_) => Err(SpaceError::Memory),
    }
}

/// A copy of the table at a place of a schema; `None` behind the last.
fn copied_at(alloc: Global, schema: &Schema, at: usize) -> Result<Option<Table>, SpaceError>
    ensures found { IfOk result (λ found. found ≡ slice_get schema.now.tables at) }
    ensures memory { IfErr result (λ fault. fault ≡ SpaceError.Memory) }
{
    match schema.tables.get(at) {
        Some(table) => copied(alloc, table),
        None => Ok(None),
    }
}

/// A copy of the table of a name in a schema.
fn table_copied(alloc: Global, schema: &Schema, name: &Text) -> Result<Option<Table>, SpaceError>
    ensures found { IfOk result (λ found. found ≡ table_named name.now schema.now.tables) }
    ensures memory { IfErr result (λ fault. fault ≡ SpaceError.Memory) }
{
    match schema.find_table(name.as_slice()) {
        Some(at) => copied_at(alloc, schema, at),
        None => Ok(None),
    }
}

/// As `read_table`, where the schema is decoded only if it is not the one that is known.
pub fn find_table<R: PageReader>(
    space: &mut R,
    alloc: Global,
    known: &mut KnownSchema,
    root: u32,
    name: &Text,
) -> Result<Option<Table>, SpaceError>
    ensures found { (owned : List ℕ) (tables : List AnyTable) → HoldsSchema (R.pages space.old) root owned tables
        → IfOk result (λ found. found ≡ table_named name.now tables) }
    ensures same { R.pages space.new ≡ R.pages space.old }
    ensures whole { R.is_whole space.old → R.is_whole space.new }
    ensures refusal { IfErr result (ReadRefused (HoldsNoSchema (R.pages space.old) root) (R.refused space.old) (R.refused space.new)) }
    ensures rising { R.refused space.old ≤ R.refused space.new }
    ensures follows { R.follows space.old space.new }
{
    match read_known(space, alloc, known, root) {
        Ok(()) => table_copied(alloc, known.schema(), name),
        Err(fault) => Err(fault),
    }
}
