//! Records from the entries of a tree.
ghost use Rattle.std.specs.Prelude.{◌≡◌, ◌++◌, List, map, IfOk};
ghost use Rattle.sqlval.specs.declared.value.Value.{Value as AnyValue};
ghost use Rattle.sqlval.specs.declared.schema.Table.{Table as AnyTable};
ghost use Rattle.catalog_records.specs.declared.record.Record.{Record as AnyRecord};
ghost use Rattle.catalog_records.specs.Records.{schema_records};
ghost use Rattle.catalog_records.specs.Given.{Gives};
ghost use Rattle.catalog_records.specs.Keepable.{AreTables};
ghost use Rattle.catalog_records.specs.References.{AreReferencesOver};
ghost use Rattle.sqlrecord.specs.Key.{IsKeyOf, key_code};
ghost use Rattle.sqlrecord.specs.Row.{IsCodeOf, row_code};
ghost use Rattle.btree_read.specs.declared.entry.Entry.{Entry as AnyEntry};
ghost use Rattle.btree_read.specs.Nodes.{entry_of as cell_entry};
ghost use Rattle.catalog.specs.Held.{entries_of, IsCoded, AreCoded};
ghost use Rattle.catalog.specs.Decoded.{AreLeft, Leaves};

use btree_read::Entries;
use catalog_records::{ReadError, Record, schema_of_records};
use items::Items;
use sqlrecord::{DecodeError, SlotPage, decode_key, decode_row};
use sqlval::{Schema, Value};
use std::alloc::Global;

/// The key of a code.
fn key_of_code(alloc: Global, code: &[u8]) -> Result<Items<Value>, ReadError>
    ensures { (key : List AnyValue) → IsKeyOf code.now key → Gives result key }
{
    match decode_key(alloc, code) {
        Ok(key) => Ok(key),
        Err(DecodeError::OutOfMemory) => Err(ReadError::Memory),
        Err(DecodeError::Damaged) => Err(ReadError::Damaged),
    }
}

/// The row of a code.
fn row_of_code(alloc: Global, code: &[u8]) -> Result<Items<Value>, ReadError>
    ensures { (row : List AnyValue) → IsCodeOf code.now row → Gives result row }
{
    match decode_row(alloc, code) {
        Ok(row) => Ok(row),
        Err(DecodeError::OutOfMemory) => Err(ReadError::Memory),
        Err(DecodeError::Damaged) => Err(ReadError::Damaged),
    }
}

/// The record of a key's code and a row's.
fn record_of(alloc: Global, key: &[u8], row: &[u8]) -> Result<Record, ReadError>
    ensures { (r : AnyRecord) → IsCoded r → key.now ≡ key_code r.key → row.now ≡ row_code r.row → Gives result r }
{
    let key = key_of_code(alloc, key)?;
    let row = row_of_code(alloc, row)?;
    Ok(Record { key, row })
}

/// Puts the records of a leaf behind others.
fn put_records(
    alloc: Global,
    leaf: &SlotPage<'_>,
    records: &mut Items<Record>,
) -> Result<(), ReadError>
    ensures { (more : List AnyEntry) (all : List AnyRecord)
        → AreLeft records.old (map cell_entry leaf.now.cells ++ more) all
        → Leaves result (AreLeft records.new more all) }
{
    for i in 0..leaf.len() {
        let record = record_of(alloc, leaf.key(i), leaf.value(i))?;
        records.push(record)?;
    }
    Ok(())
}

/// The records of entries.
fn records_of(alloc: Global, entries: &Entries) -> Result<Items<Record>, ReadError>
    ensures { (all : List AnyRecord) → AreCoded all → entries.now ≡ entries_of all → Gives result all }
{
    let mut records = Items::new(alloc);
    let leaves = entries.leaves();
    for leaf in leaves {
        let page = leaf.page();
        put_records(alloc, &page, &mut records)?;
    }
    Ok(records)
}

/// The schema whose records these entries are.
pub(crate) fn schema_of_entries(alloc: Global, entries: &Entries) -> Result<Schema, ReadError>
    ensures again { (tables : List AnyTable) → AreTables tables → AreReferencesOver tables
        → AreCoded (schema_records tables) → entries.now ≡ entries_of (schema_records tables)
        → Gives result (record { tables = tables }) }
    ensures references { IfOk result (λ schema. AreReferencesOver schema.tables) }
{
    let records = records_of(alloc, entries)?;
    schema_of_records(alloc, records.as_slice())
}
