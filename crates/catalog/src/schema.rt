//! The schema that pages hold.
ghost use Rattle.std.specs.Prelude.{◌≡◌, ◌≤◌, ℕ, List, IfOk, IfErr};
ghost use Rattle.sqlval.specs.declared.schema.Table.{Table as AnyTable};
ghost use Rattle.page_space.specs.Space.{ReadRefused};
ghost use Rattle.catalog_records.specs.References.{AreReferencesOver};
ghost use Rattle.catalog.specs.Held.{HoldsSchema, HoldsNoSchema};

use crate::decoding::schema_of_entries;
use btree_read::scan;
use catalog_records::ReadError;
use page_space::{PageReader, SpaceError};
use sqlval::Schema;
use std::alloc::Global;

/// The schema that the tree at a root holds; root 0 is the schema without tables.
///
/// Refused for want of memory, where the device refuses a call, and as damaged only where no schema
/// is held there.
pub fn read_schema<R: PageReader>(
    space: &mut R,
    alloc: Global,
    root: u32,
) -> Result<Schema, SpaceError>
    ensures found { (owned : List ℕ) (tables : List AnyTable) → HoldsSchema (R.pages space.old) root owned tables
        → IfOk result (λ schema. schema.tables ≡ tables) }
    ensures references { IfOk result (λ schema. AreReferencesOver schema.tables) }
    ensures same { R.pages space.new ≡ R.pages space.old }
    ensures whole { R.is_whole space.old → R.is_whole space.new }
    ensures refusal { IfErr result (ReadRefused (HoldsNoSchema (R.pages space.old) root) (R.refused space.old) (R.refused space.new)) }
    ensures rising { R.refused space.old ≤ R.refused space.new }
    ensures follows { R.follows space.old space.new }
{
    let entries = scan(space, alloc, root)?;
    match schema_of_entries(alloc, &entries) {
        Ok(schema) => Ok(schema),
        Err(ReadError::Memory) => Err(SpaceError::Memory),
        Err(ReadError::Damaged) => Err(SpaceError::Damaged),
    }
}
