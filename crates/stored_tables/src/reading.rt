//! The tables that pages hold.
ghost use Rattle.std.specs.Prelude.{◌≡◌, ◌≤◌, ℕ, List, [], IfOk, IfErr, IfSome};
ghost use Rattle.sqlval.specs.declared.schema.Table.{Table as AnyTable};
ghost use Rattle.catalog.specs.Held.{HoldsSchema};
ghost use Rattle.std.specs.FinMap.{get};
ghost use Rattle.denote.specs.SchemaOf.{IsSchemaOf};
ghost use Rattle.store.specs.Contents.{database_of};
ghost use Rattle.store.specs.Indexes.{entries_of, entry_after};
ghost use Rattle.store.specs.View.{AreEntries, IsEntry};
ghost use Rattle.page_space.specs.Space.{ReadRefused};
ghost use Rattle.stored_tables.specs.Held.{TableAt, HoldsTables, HoldsNoTables, contents_of};
ghost use Rattle.stored_tables.specs.Named.{table_named, AreTyped, IsTyped};

use crate::naming::find_table;
use catalog::{KnownSchema, read_known};
use items::{Items, Text};
use page_space::{PageReader, SpaceError};
use schema_copies::copied_schema;
use sqlval::Schema;
use std::alloc::Global;
use store::{Numbered, NumberedRow};

/// A copy of a schema.
fn schema_copied(alloc: Global, schema: &Schema) -> Result<Schema, SpaceError>
    ensures found { IfOk result (λ copied. copied ≡ schema.now) }
    ensures memory { IfErr result (λ fault. fault ≡ SpaceError.Memory) }
{
    match copied_schema(alloc, schema) {
        Ok(copied) => Ok(copied),
        Err(_) => Err(SpaceError::Memory),
    }
}

/// The schema of the tables that lie at a root; root 0 is the schema without tables. It is decoded
/// only where it is not the one that is known.
///
/// Refused for want of memory, where the device refuses a call, and as damaged only where no tables
/// are held there.
pub fn read_schema<R: PageReader>(
    space: &mut R,
    alloc: Global,
    known: &mut KnownSchema,
    root: u32,
) -> Result<Schema, SpaceError>
    ensures found { (tables : List TableAt) → HoldsTables (R.pages space.old) root tables
        → IfOk result (λ schema. IsSchemaOf schema (database_of (contents_of tables))) }
    ensures same { R.pages space.new ≡ R.pages space.old }
    ensures whole { R.is_whole space.old → R.is_whole space.new }
    ensures refusal { IfErr result (ReadRefused (HoldsNoTables (R.pages space.old) root) (R.refused space.old) (R.refused space.new)) }
    ensures rising { R.refused space.old ≤ R.refused space.new }
    ensures follows { R.follows space.old space.new }
{
    match read_known(space, alloc, known, root) {
        Ok(()) => schema_copied(alloc, known.schema()),
        Err(fault) => Err(fault),
    }
}

/// No rows.
fn no_rows(alloc: Global) -> Numbered
    ensures entries { AreEntries result [] }
    ensures rows { result.rows ≡ [] }
{
    Numbered {
        numbers: Items::new(alloc),
        rows: Items::new(alloc),
    }
}

/// All rows of the table of a name, in the order of their numbers; none where no table has it.
/// Wherever a schema lies they have the types of the table's columns.
///
/// Refused as `read_schema` is.
pub fn scan<R: PageReader>(
    space: &mut R,
    alloc: Global,
    known: &mut KnownSchema,
    root: u32,
    name: &Text,
) -> Result<Numbered, SpaceError>
    ensures rows { (tables : List TableAt) → HoldsTables (R.pages space.old) root tables
        → IfOk result (λ found. AreEntries found (entries_of (get (contents_of tables) name.now))) }
    ensures typed { (owned : List ℕ) (tables : List AnyTable) → HoldsSchema (R.pages space.old) root owned tables
        → IfOk result (λ found. AreTyped (table_named name.now tables) found.rows) }
    ensures same { R.pages space.new ≡ R.pages space.old }
    ensures whole { R.is_whole space.old → R.is_whole space.new }
    ensures refusal { IfErr result (ReadRefused (HoldsNoTables (R.pages space.old) root) (R.refused space.old) (R.refused space.new)) }
    ensures rising { R.refused space.old ≤ R.refused space.new }
    ensures follows { R.follows space.old space.new }
{
    match find_table(space, alloc, known, root, name) {
        Ok(Some(table)) => tablestore::scan(space, alloc, table.root, table.columns.as_slice()),
        Ok(None) => Ok(no_rows(alloc)),
        Err(fault) => Err(fault),
    }
}

/// The first row above a number of the table of a name, or the first of all; none where no table
/// has the name. Wherever a schema lies it has the types of the table's columns.
///
/// Refused as `read_schema` is.
pub fn next<R: PageReader>(
    space: &mut R,
    alloc: Global,
    known: &mut KnownSchema,
    root: u32,
    name: &Text,
    after: Option<u64>,
) -> Result<Option<NumberedRow>, SpaceError>
    ensures row { (tables : List TableAt) → HoldsTables (R.pages space.old) root tables
        → IfOk result (λ found. IsEntry found (entry_after after (entries_of (get (contents_of tables) name.now)))) }
    ensures typed { (owned : List ℕ) (tables : List AnyTable) → HoldsSchema (R.pages space.old) root owned tables
        → IfOk result (λ found. IfSome found (λ row. IsTyped (table_named name.now tables) row.row)) }
    ensures same { R.pages space.new ≡ R.pages space.old }
    ensures whole { R.is_whole space.old → R.is_whole space.new }
    ensures refusal { IfErr result (ReadRefused (HoldsNoTables (R.pages space.old) root) (R.refused space.old) (R.refused space.new)) }
    ensures rising { R.refused space.old ≤ R.refused space.new }
    ensures follows { R.follows space.old space.new }
{
    match find_table(space, alloc, known, root, name) {
        Ok(Some(table)) => {
            tablestore::next(space, alloc, table.root, table.columns.as_slice(), after)
        }
        Ok(None) => Ok(None),
        Err(fault) => Err(fault),
    }
}
