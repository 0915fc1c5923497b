//! Copies of schemas and of their tables.
ghost use Rattle.std.specs.Prelude.{◌≡◌, IfOk};

use crate::constraints::copied_constraints;
use crate::indexes::copied_indexes;
use items::Items;
use sqlval::{Column, Schema, Table};
use std::alloc::{AllocError, Global};

/// A copy of a schema.
pub fn copied_schema(alloc: Global, schema: &Schema) -> Result<Schema, AllocError>
    ensures { IfOk result (λ copied. copied ≡ schema.now) }
{
    let tables = copied_tables(alloc, schema.tables.as_slice())?;
    Ok(Schema { tables })
}

fn copied_tables(alloc: Global, tables: &[Table]) -> Result<Items<Table>, AllocError>
    ensures { IfOk result (λ copied. copied ≡ tables.now) }
{
    let mut copied = Items::new(alloc);
    for table in tables {
        copied.push(copied_table(alloc, table)?)?;
    }
    Ok(copied)
}

/// A copy of a table.
pub fn copied_table(alloc: Global, table: &Table) -> Result<Table, AllocError>
    ensures { IfOk result (λ copied. copied ≡ table.now) }
{
    Ok(Table {
        name: table.name.copy(alloc)?,
        columns: copied_columns(alloc, table.columns.as_slice())?,
        constraints: copied_constraints(alloc, table.constraints.as_slice())?,
        indexes: copied_indexes(alloc, table.indexes.as_slice())?,
        root: table.root,
    })
}

fn copied_columns(alloc: Global, columns: &[Column]) -> Result<Items<Column>, AllocError>
    ensures { IfOk result (λ copied. copied ≡ columns.now) }
{
    let mut copied = Items::new(alloc);
    for column in columns {
        copied.push(copied_column(alloc, column)?)?;
    }
    Ok(copied)
}

fn copied_column(alloc: Global, column: &Column) -> Result<Column, AllocError>
    ensures { IfOk result (λ copied. copied ≡ column.now) }
{
    Ok(Column {
        name: column.name.copy(alloc)?,
        column_type: column.column_type,
    })
}
