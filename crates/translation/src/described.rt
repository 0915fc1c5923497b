//! What trees know of stored tables.

ghost use Rattle.std.specs.Prelude.{◌≡◌, List, [], map, IfOk};
ghost use Rattle.sqlval.specs.Schema.{table_place};
ghost use Rattle.algebra.specs.Described.{primary_key, known_of, table_at, described_in};

use algebra::StoredTable;
use items::{Items, Text};
use sqlval::{Constraint, Index, Rule, Schema, Table};
use std::alloc::{AllocError, Global};

/// What the schema knows of the table of this name; of a name that no table has, nothing but the
/// name. Refuses for want of memory alone.
pub fn describe(alloc: Global, schema: &Schema, name: &Text) -> Result<StoredTable, AllocError>
    ensures described { IfOk result (λ table. table ≡ described_in schema.now name.now) }
{
    let place = schema.find_table(name.as_slice());
    let copied = name.copy(alloc)?;
    match place {
        None => Ok(unknown(alloc, copied)),
        Some(place) => match schema.tables.get(place) {
            None => Ok(unknown(alloc, copied)),
            Some(table) => known(alloc, copied, table),
        },
    }
}

fn unknown(alloc: Global, name: Text) -> StoredTable
    ensures { result ≡ record { name = name; width = 0; key = None; indexes = [] } }
{
    StoredTable {
        name,
        width: 0,
        key: None,
        indexes: Items::new(alloc),
    }
}

fn known(alloc: Global, name: Text, table: &Table) -> Result<StoredTable, AllocError>
    ensures { IfOk result (λ found. found ≡ known_of name (Some table.now)) }
{
    let key = key_columns(alloc, table.constraints.as_slice())?;
    let indexes = index_columns(alloc, table.indexes.as_slice())?;
    Ok(StoredTable {
        name,
        width: table.columns.len(),
        key,
        indexes,
    })
}

fn key_columns(
    alloc: Global,
    constraints: &[Constraint],
) -> Result<Option<Items<usize>>, AllocError>
    ensures { IfOk result (λ key. key ≡ primary_key constraints.now) }
{
    for constraint in constraints {
        if let Rule::PrimaryKey(columns) = &constraint.rule {
            return Ok(Some(Items::from_slice(alloc, columns.as_slice())?));
        }
    }
    Ok(None)
}

fn index_columns(alloc: Global, indexes: &[Index]) -> Result<Items<Items<usize>>, AllocError>
    ensures { IfOk result (λ columns. columns ≡ map (λ index. index.columns) indexes.now) }
{
    let mut found = Items::new(alloc);
    for index in indexes {
        found.push(Items::from_slice(alloc, index.columns.as_slice())?)?;
    }
    Ok(found)
}
