//! The schema that was decoded last.
ghost use Rattle.std.specs.Prelude.{◌≡◌, ◌≤◌, ℕ, List, [], OnOk, IfErr};
ghost use Rattle.sqlval.specs.declared.schema.Table.{Table as AnyTable};
ghost use Rattle.page_space.specs.Space.{ReadRefused};
ghost use Rattle.catalog_records.specs.Records.{schema_records};
ghost use Rattle.catalog_records.specs.Keepable.{AreTables};
ghost use Rattle.catalog_records.specs.References.{AreReferencesOver};
ghost use Rattle.catalog.specs.Held.{entries_of, AreCoded, HoldsSchema, HoldsNoSchema};
ghost use Rattle.catalog.specs.Decoded.{IsDecoded, Leaves};

use crate::decoding::schema_of_entries;
use btree_read::{Entries, scan};
use catalog_records::ReadError;
use items::Items;
use page_space::{PageReader, SpaceError};
use sqlval::Schema;
use std::alloc::Global;

/// The schema that was decoded last, beside the entries of which it was.
#[derive(Drop)]
pub struct KnownSchema {
    entries: Entries,
    schema: Schema,
    ghost decoded: { IsDecoded entries schema.tables },
    ghost references: { AreReferencesOver schema.tables },
}

impl KnownSchema {
    /// The schema without tables.
    pub fn new(alloc: Global) -> KnownSchema
        ensures { result.schema.tables ≡ [] }
    {
        KnownSchema {
            entries: Entries::new(alloc),
            schema: Schema {
                tables: Items::new(alloc),
            },
        }
    }

    /// The schema.
    pub fn schema(&self) -> &Schema
        ensures { result.now ≡ self.now.schema }
    {
        &self.schema
    }

    /// Decodes the schema of these entries, where they are not those of the last one.
    fn hold(&mut self, alloc: Global, entries: Entries) -> Result<(), ReadError>
        ensures { (tables : List AnyTable) → AreTables tables → AreReferencesOver tables
            → AreCoded (schema_records tables) → entries ≡ entries_of (schema_records tables)
            → Leaves result (self.new.schema.tables ≡ tables) }
    {
        if entries.is_same(&self.entries) {
            return Ok(());
        }
        let schema = schema_of_entries(alloc, &entries)?;
        self.schema = schema;
        self.entries = entries;
        Ok(())
    }
}

/// Lets the schema that the tree at a root holds be the known one: it is decoded where its entries
/// are not those of the one that is known.
///
/// Refused as `read_schema` is, and then nothing is said of the known one.
pub fn read_known<R: PageReader>(
    space: &mut R,
    alloc: Global,
    known: &mut KnownSchema,
    root: u32,
) -> Result<(), SpaceError>
    ensures found { (owned : List ℕ) (tables : List AnyTable) → HoldsSchema (R.pages space.old) root owned tables
        → OnOk result (known.new.schema.tables ≡ tables) }
    ensures references { OnOk result (AreReferencesOver known.new.schema.tables) }
    ensures same { R.pages space.new ≡ R.pages space.old }
    ensures whole { R.is_whole space.old → R.is_whole space.new }
    ensures refusal { IfErr result (ReadRefused (HoldsNoSchema (R.pages space.old) root) (R.refused space.old) (R.refused space.new)) }
    ensures rising { R.refused space.old ≤ R.refused space.new }
    ensures follows { R.follows space.old space.new }
{
    let entries = scan(space, alloc, root)?;
    match known.hold(alloc, entries) {
        Ok(()) => Ok(()),
        Err(ReadError::Memory) => Err(SpaceError::Memory),
        Err(ReadError::Damaged) => Err(SpaceError::Damaged),
    }
}
