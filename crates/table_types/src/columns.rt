//! The columns of CREATE TABLE.

ghost use Rattle.std.specs.Prelude.{◌≡◌, ◌++◌, length, map, IfOk, OnOk};
ghost use Rattle.refusals.specs.declared.limit.Limit.TheVariants as limit;
ghost use Rattle.typing.specs.CreateTable.{type_found, varchar, written_type};
ghost use Rattle.typing.specs.Finding.{each};
ghost use Rattle.typing.specs.Finds.{Finds};
ghost use Rattle.typing.specs.Table.{at_most, distinct_found};
ghost use Rattle.table_types.specs.Tables.{column_of, columns_of, defined, element_definitions, frame_over, offer_of};

use crate::names::distinct_texts;
use ast::{TableElement, TypeName};
use items::{Items, Text};
use lexer::Number;
use refusals::{Limit, Reason, Refusal};
use sqlval::{Column, ColumnType, ValueType};
use std::alloc::{AllocError, Global};
use type_rules::{both, second};
use typing::{Frame, Offer};

/// The greatest number of columns of a table.
const MAXIMUM_COLUMNS: usize = 32;

/// A column that is defined: its name, and its type as it is written.
#[derive(Drop)]
pub struct Definition {
    pub name: Text,
    pub type_name: TypeName,
}

/// The columns that are defined, in the order of the text.
pub fn definitions_of(
    alloc: Global,
    elements: &[TableElement],
) -> Result<Items<Definition>, AllocError>
    ensures { IfOk result (λ definitions. definitions ≡ defined elements.now) }
{
    let mut definitions = Items::new(alloc);
    for element in elements {
        add_definition(alloc, &mut definitions, element)?;
    }
    Ok(definitions)
}

fn add_definition(
    alloc: Global,
    definitions: &mut Items<Definition>,
    element: &TableElement,
) -> Result<(), AllocError>
    ensures { OnOk result (definitions.new ≡ definitions.old ++ element_definitions element.now) }
{
    match element {
        TableElement::Column(column) => {
            let name = column.column.as_text().copy(alloc)?;
            let type_name = column.type_name;
            definitions.push(Definition { name, type_name })
        }
        TableElement::Constraint(_) => Ok(()),
    }
}

/// At most 32 columns, no two of one name.
pub fn typed_columns(alloc: Global, definitions: &[Definition]) -> Result<Items<Column>, Refusal>
    ensures { Finds result (columns_of definitions.now) }
{
    let list = both(
        few_columns(definitions),
        distinct_columns(alloc, definitions),
    );
    second(both(list, each_column(alloc, definitions)))
}

fn few_columns(definitions: &[Definition]) -> Result<(), Refusal>
    ensures { Finds result (at_most 32 limit.Columns (length definitions.now)) }
{
    if definitions.len() > MAXIMUM_COLUMNS {
        return Err(Refusal::Exceeded(Limit::Columns));
    }
    Ok(())
}

fn distinct_columns(alloc: Global, definitions: &[Definition]) -> Result<(), Refusal>
    ensures { Finds result (distinct_found (map (λ definition. definition.name) definitions.now)) }
{
    let names = names_of(alloc, definitions)?;
    distinct_texts(names.as_slice())
}

fn names_of(alloc: Global, definitions: &[Definition]) -> Result<Items<Text>, AllocError>
    ensures { IfOk result (λ names. names ≡ map (λ definition. definition.name) definitions.now) }
{
    let mut names = Items::with_capacity(alloc, definitions.len())?;
    for definition in definitions {
        names.push(definition.name.copy(alloc)?)?;
    }
    Ok(names)
}

fn each_column(alloc: Global, definitions: &[Definition]) -> Result<Items<Column>, Refusal>
    ensures { Finds result (each (map column_of definitions.now)) }
{
    let mut columns = Items::new(alloc);
    for definition in definitions {
        columns.push(typed_column(alloc, definition)?)?;
    }
    Ok(columns)
}

#[tactic(auto, using(crate::proofs::Lists::then_steps))]
fn typed_column(alloc: Global, definition: &Definition) -> Result<Column, Refusal>
    ensures { Finds result (column_of definition.now) }
{
    let column_type = column_type_of(definition.type_name)?;
    Ok(Column {
        name: definition.name.copy(alloc)?,
        column_type,
    })
}

fn column_type_of(name: TypeName) -> Result<ColumnType, Refusal>
    ensures { Finds result (type_found name) }
{
    match name {
        TypeName::Integer => Ok(ColumnType::Integer),
        TypeName::Int => Ok(ColumnType::Integer),
        TypeName::Varchar(length) => varchar_of(length),
        TypeName::CharacterVarying(length) => varchar_of(length),
    }
}

fn varchar_of(length: Number) -> Result<ColumnType, Refusal>
    ensures { Finds result (varchar length) }
{
    let length = length.value();
    if length < 1 || 255 < length {
        return Err(Refusal::Invalid(Reason::DataType));
    }
    Ok(ColumnType::Varchar(length as u8))
}

/// What a CHECK of the table sees.
pub fn defined_frame(
    alloc: Global,
    table: &Text,
    definitions: &[Definition],
) -> Result<Frame, AllocError>
    ensures { IfOk result (λ frame. frame ≡ frame_over table.now definitions.now) }
{
    let mut tables = Items::with_capacity(alloc, 1)?;
    tables.push(table.copy(alloc)?)?;
    Ok(Frame {
        tables,
        columns: offers_of(alloc, table, definitions)?,
        key: None,
    })
}

fn offers_of(
    alloc: Global,
    table: &Text,
    definitions: &[Definition],
) -> Result<Items<Offer>, AllocError>
    ensures { IfOk result (λ offers. offers ≡ map (offer_of table.now) definitions.now) }
{
    let mut offers = Items::with_capacity(alloc, definitions.len())?;
    for definition in definitions {
        let own = table.copy(alloc)?;
        offers.push(Offer {
            table: own,
            name: Some(definition.name.copy(alloc)?),
            value_type: written_type(definition.type_name),
        })?;
    }
    Ok(offers)
}

fn written_type(name: TypeName) -> ValueType
    ensures { result ≡ written_type name }
{
    match name {
        TypeName::Integer => ValueType::Integer,
        TypeName::Int => ValueType::Integer,
        TypeName::Varchar(_) => ValueType::Text,
        TypeName::CharacterVarying(_) => ValueType::Text,
    }
}
