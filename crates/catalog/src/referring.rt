//! What foreign keys reference, in the schema that pages hold.
ghost use Rattle.std.specs.Prelude.{◌≡◌, ◌≤◌, ◌∷◌, ℕ, List, IfOk, IfErr};
ghost use Rattle.sqlval.specs.declared.schema.Table.{Table as AnyTable};
ghost use Rattle.page_space.specs.Space.{ReadRefused};
ghost use Rattle.catalog_records.specs.References as kept;
ghost use Rattle.catalog.specs.Held.{HoldsSchema, HoldsNoSchema};

use crate::schema::read_schema;
use catalog_records::{are_references_with, is_referenced};
use items::Text;
use page_space::{PageReader, SpaceError};
use sqlval::Table;
use std::alloc::Global;

/// Whether the foreign keys of a table reference columns of it or of a table in the schema that the
/// tree at a root holds, as many as they have themselves.
///
/// Refused as `read_schema` is.
pub fn are_references_in<R: PageReader>(
    space: &mut R,
    alloc: Global,
    root: u32,
    table: &Table,
) -> Result<bool, SpaceError>
    ensures found { (owned : List ℕ) (tables : List AnyTable) → HoldsSchema (R.pages space.old) root owned tables
        → IfOk result (λ found. found ≡ kept.are_rules_among (table.now ∷ tables) table.now.constraints) }
    ensures same { R.pages space.new ≡ R.pages space.old }
    ensures whole { R.is_whole space.old → R.is_whole space.new }
    ensures refusal { IfErr result (ReadRefused (HoldsNoSchema (R.pages space.old) root) (R.refused space.old) (R.refused space.new)) }
    ensures rising { R.refused space.old ≤ R.refused space.new }
    ensures follows { R.follows space.old space.new }
{
    match read_schema(space, alloc, root) {
        Ok(schema) => Ok(are_references_with(table, schema.tables.as_slice())),
        Err(fault) => Err(fault),
    }
}

/// Whether a foreign key of a table of another name references the table of this name, in the
/// schema that the tree at a root holds.
///
/// Refused as `read_schema` is.
pub fn is_referenced_in<R: PageReader>(
    space: &mut R,
    alloc: Global,
    root: u32,
    name: &Text,
) -> Result<bool, SpaceError>
    ensures found { (owned : List ℕ) (tables : List AnyTable) → HoldsSchema (R.pages space.old) root owned tables
        → IfOk result (λ found. found ≡ kept.is_referenced name.now tables) }
    ensures same { R.pages space.new ≡ R.pages space.old }
    ensures whole { R.is_whole space.old → R.is_whole space.new }
    ensures refusal { IfErr result (ReadRefused (HoldsNoSchema (R.pages space.old) root) (R.refused space.old) (R.refused space.new)) }
    ensures rising { R.refused space.old ≤ R.refused space.new }
    ensures follows { R.follows space.old space.new }
{
    match read_schema(space, alloc, root) {
        Ok(schema) => Ok(is_referenced(name, schema.tables.as_slice())),
        Err(fault) => Err(fault),
    }
}
