//! A whole CREATE TABLE.

ghost use Rattle.std.specs.Prelude.{◌≡◌, List};
ghost use Rattle.sqlval.specs.declared.schema.Column.{Column};
ghost use Rattle.sqlval.specs.declared.schema.Constraint.{Constraint};
ghost use Rattle.typing.specs.CreateTable.{create_found};
ghost use Rattle.typing.specs.Finding.{Finding};
ghost use Rattle.typing.specs.Finds.{Finds};
ghost use Rattle.typing.specs.Known.{known};
ghost use Rattle.typing.specs.Table.{is_new};
ghost use Rattle.table_types.specs.Tables.{has_table, made_table};

use crate::columns::{definitions_of, typed_columns};
use crate::constraints::typed_constraints;
use items::{Items, Text};
use lexer::Name;
use refusals::{Reason, Refusal};
use sqlval::{Column, Constraint, Schema};
use std::alloc::Global;
use type_rules::both;
use typing::CreateTable;

/// What a CREATE TABLE stands for over a schema. A CHECK is kept as its printed text.
///
/// Refused by a reason of names or types, or a limit, that holds of it; where several hold, by any
/// of these. Refuses for want of memory too.
pub fn typed_create_table(
    alloc: Global,
    tree: &ast::CreateTable,
    schema: &Schema,
) -> Result<CreateTable, Refusal>
    ensures { Finds result (create_found (known schema.now) tree.now) }
{
    let definitions = definitions_of(alloc, tree.elements.as_slice())?;
    let columns = typed_columns(alloc, definitions.as_slice());
    let constraints = typed_constraints(alloc, schema, tree, definitions.as_slice());
    let name = new_table(schema, tree.table.as_text());
    let parts = both(columns, constraints);
    made_table(alloc, &tree.table, both(name, parts))
}

fn made_table(
    alloc: Global,
    name: &Name,
    parts: Result<((), (Items<Column>, Items<Constraint>)), Refusal>,
) -> Result<CreateTable, Refusal>
    ensures { (x : Finding (Unit {0} × (List Column × List Constraint))) → Finds parts x
        → Finds result (made_table name.now x) }
{
    let (_, (columns, constraints)) = parts?;
    Ok(CreateTable {
        name: name.as_text().copy(alloc)?,
        columns,
        constraints,
    })
}

fn new_table(schema: &Schema, name: &Text) -> Result<(), Refusal>
    ensures { Finds result (is_new (has_table (known schema.now) name.now)) }
{
    if has_table(schema, name) {
        return Err(Refusal::Invalid(Reason::Duplicate));
    }
    Ok(())
}

fn has_table(schema: &Schema, name: &Text) -> bool
    ensures { result ≡ has_table (known schema.now) name.now }
{
    match schema.find_table(name.as_slice()) {
        Some(place) => schema.tables.get(place).is_some(),
        None => false,
    }
}
