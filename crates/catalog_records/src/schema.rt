//! A schema from its records.
ghost use Rattle.std.specs.Prelude.{◌≡◌, ◌∷◌, ◌++◌, ◌<◌, ◌≤◌, ◌^◌, ℕ, List, length, IfOk, IsOk, IsErr};
ghost use Rattle.sqlval.specs.declared.schema.Table.{Table as AnyTable};
ghost use Rattle.catalog_records.specs.declared.record.Record.{Record as AnyRecord};
ghost use Rattle.catalog_records.specs.Records as kept;
ghost use Rattle.catalog_records.specs.Given.{Gives, GivesFront};
ghost use Rattle.catalog_records.specs.Keepable.{IsTable, AreTables};
ghost use Rattle.catalog_records.specs.References.{AreReferencesOver};
ghost use Rattle.catalog_records.specs.Rows.{EndsTable, IsNoSchema};

use crate::columns::{are_constraints_over, are_indexes_over};
use crate::key::key_in;
use crate::parts::page_of;
use crate::read_error::ReadError;
use crate::reading::{columns_first, constraints_first, indexes_first};
use crate::record::Record;
use crate::references::are_references_over;
use crate::values::{nothing_left, number_first};
use items::{Items, Text};
use sqlval::{Schema, Table};
use std::alloc::Global;

/// The name of the table whose record this is, and the root of its tree. Refused where it is no
/// table's.
fn table_in(record: &Record) -> Result<(&Text, u32), ReadError>
    ensures sound { IfOk result (λ given. kept.table_record given.0.now given.1 ≡ record.now) }
    ensures range { IfOk result (λ given. given.1 < 2 ^ 32) }
    ensures again { (name : List ℕ) (root : ℕ) → root < 2 ^ 32 → kept.table_record name root ≡ record.now
        → IsOk result }
{
    let key = key_in(record.key.as_slice())?;
    if key.kind != 0 || key.number != 0 {
        return Err(ReadError::Damaged);
    }
    let (root, rest) = number_first(record.row.as_slice())?;
    nothing_left(rest)?;
    let root = page_of(root)?;
    Ok((key.name, root))
}

/// The table whose records stand first, and the records behind them.
fn table_first<'a>(
    alloc: Global,
    first: &Record,
    behind: &'a [Record],
) -> Result<(Table, &'a [Record]), ReadError>
    ensures sound { IfOk result (λ given. kept.table_records given.0 ++ given.1.now ≡ first.now ∷ behind.now) }
    ensures range { IfOk result (λ given. IsTable given.0) }
    ensures shorter { IfOk result (λ given. length given.1.now ≤ length behind.now) }
    ensures again { (table : AnyTable) (more : List AnyRecord) → IsTable table → EndsTable more
        → kept.table_records table ++ more ≡ first.now ∷ behind.now → GivesFront result table more }
{
    let (name, root) = table_in(first)?;
    let (columns, rest) = columns_first(alloc, name, behind)?;
    let (constraints, rest) = constraints_first(alloc, name, rest)?;
    let (indexes, rest) = indexes_first(alloc, name, rest)?;
    if !are_constraints_over(columns.len(), constraints.as_slice()) {
        return Err(ReadError::Damaged);
    }
    if !are_indexes_over(columns.len(), indexes.as_slice()) {
        return Err(ReadError::Damaged);
    }
    let name = name.copy(alloc)?;
    let table = Table {
        name,
        columns,
        constraints,
        indexes,
        root,
    };
    Ok((table, rest))
}

/// The tables whose records these are.
fn tables_in(alloc: Global, records: &[Record]) -> Result<Items<Table>, ReadError>
    ensures sound { IfOk result (λ tables. kept.schema_records tables ≡ records.now) }
    ensures range { IfOk result AreTables }
    ensures again { (tables : List AnyTable) → AreTables tables → kept.schema_records tables ≡ records.now
        → Gives result tables }
{
    let mut tables = Items::new(alloc);
    let mut rest = records;
    while let Some((first, behind)) = rest.split_first() {
        let (table, others) = table_first(alloc, first, behind)?;
        tables.push(table)?;
        rest = others;
    }
    Ok(tables)
}

/// The schema whose records these are, in the order of their keys.
///
/// Refused for want of memory, and as damaged just where they are the records of no schema that the
/// program can hold.
pub fn schema_of_records(alloc: Global, records: &[Record]) -> Result<Schema, ReadError>
    ensures sound { IfOk result (λ schema. kept.schema_records schema.tables ≡ records.now) }
    ensures range { IfOk result (λ schema. AreTables schema.tables) }
    ensures references { IfOk result (λ schema. AreReferencesOver schema.tables) }
    ensures again { (tables : List AnyTable) → AreTables tables → AreReferencesOver tables
        → kept.schema_records tables ≡ records.now → Gives result (record { tables = tables }) }
    ensures damaged { IsNoSchema records.now → IsErr result }
{
    let tables = tables_in(alloc, records)?;
    if !are_references_over(tables.as_slice()) {
        return Err(ReadError::Damaged);
    }
    Ok(Schema { tables })
}
