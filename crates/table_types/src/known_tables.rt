//! The tables that a foreign key may reference: the one that is being made, by the columns and keys
//! that its own text declares, and those of a schema.

ghost use Rattle.std.specs.Prelude.{◌≡◌, ◌∷◌, ◌++◌, ℕ, List, [], flat_map, IfOk, OnOk};
ghost use Rattle.std.specs.List.{filter_map};
ghost use Rattle.sqlval.specs.declared.schema.Column.{Column as AnyColumn};
ghost use Rattle.typing.specs.Finding.{Finding, each};
ghost use Rattle.typing.specs.Finds.{Finds};
ghost use Rattle.typing.specs.Known.{known, known_key, known_table};
ghost use Rattle.typing.specs.Table.{table_found};
ghost use Rattle.typing.specs.declared.known.KnownKey.{KnownKey as AnyKey};
ghost use Rattle.table_types.specs.ForeignKeys.{column_key, element_keys, key_alone, kept_key, made_key, own_of, own_table_of, table_keys};
ghost use Rattle.table_types.specs.Tables.{parts_from};

use crate::columns::{Definition, typed_columns};
use crate::rules::{key_of, next_place, only};
use ast::{ColumnConstraint, ColumnRule, TableElement, TableRule};
use items::{Items, Text};
use refusals::Refusal;
use sqlval::{Column, Constraint, Rule, Schema, Table};
use std::alloc::{AllocError, Global};
use type_rules::{both, table_named};
use typing::{KnownKey, KnownTable};

// ---- the table that is being made

/// Its columns and its keys.
pub(crate) fn own_table(
    alloc: Global,
    definitions: &[Definition],
    elements: &[TableElement],
) -> Result<KnownTable, Refusal>
    ensures { Finds result (own_table_of definitions.now elements.now) }
{
    let columns = typed_columns(alloc, definitions);
    let keys = keys_in(alloc, definitions, elements);
    own_of(both(columns, keys))
}

#[tactic(auto, using(type_rules::proofs::FindsLemmas::part_steps))]
fn own_of(parts: Result<(Items<Column>, Items<KnownKey>), Refusal>) -> Result<KnownTable, Refusal>
    ensures { (x : Finding (List AnyColumn × List AnyKey)) → Finds parts x → Finds result (own_of x) }
{
    let (columns, keys) = parts?;
    let indexes = keys.len();
    Ok(KnownTable {
        columns,
        keys,
        indexes,
    })
}

/// The keys of these elements, in the order of the text.
fn keys_in(
    alloc: Global,
    definitions: &[Definition],
    elements: &[TableElement],
) -> Result<Items<KnownKey>, Refusal>
    ensures { Finds result (each (parts_from (element_keys definitions.now) 0 elements.now)) }
{
    let mut keys = Items::new(alloc);
    let mut place = 0;
    for element in elements {
        keys.append(keys_of_element(alloc, definitions, place, element)?)?;
        place = next_place(place, element);
    }
    Ok(keys)
}

fn keys_of_element(
    alloc: Global,
    definitions: &[Definition],
    place: usize,
    element: &TableElement,
) -> Result<Items<KnownKey>, Refusal>
    ensures { Finds result (each (element_keys definitions.now place element.now)) }
{
    match element {
        TableElement::Column(column) => {
            Ok(column_keys(alloc, place, column.constraints.as_slice())?)
        }
        TableElement::Constraint(constraint) => table_keys(alloc, definitions, &constraint.rule),
    }
}

fn column_keys(
    alloc: Global,
    place: usize,
    constraints: &[ColumnConstraint],
) -> Result<Items<KnownKey>, AllocError>
    ensures { IfOk result (λ keys. keys ≡ flat_map (λ c. column_key place c.rule) constraints.now) }
{
    let mut keys = Items::new(alloc);
    for constraint in constraints {
        add_column_key(alloc, &mut keys, place, &constraint.rule)?;
    }
    Ok(keys)
}

fn add_column_key(
    alloc: Global,
    keys: &mut Items<KnownKey>,
    place: usize,
    rule: &ColumnRule,
) -> Result<(), AllocError>
    ensures { OnOk result (keys.new ≡ keys.old ++ column_key place rule.now) }
{
    match rule {
        ColumnRule::NotNull => Ok(()),
        ColumnRule::PrimaryKey => keys.push(made_key(true, only(alloc, place)?)),
        ColumnRule::Unique => keys.push(made_key(false, only(alloc, place)?)),
        ColumnRule::Check(_) => Ok(()),
        ColumnRule::References(_) => Ok(()),
    }
}

fn made_key(is_primary: bool, columns: Items<usize>) -> KnownKey
    ensures { result ≡ made_key is_primary columns }
{
    KnownKey {
        is_primary,
        columns,
    }
}

fn table_keys(
    alloc: Global,
    definitions: &[Definition],
    rule: &TableRule,
) -> Result<Items<KnownKey>, Refusal>
    ensures { Finds result (each (table_keys definitions.now rule.now)) }
{
    match rule {
        TableRule::PrimaryKey(names) => {
            key_alone(alloc, true, key_of(alloc, definitions, names.as_slice()))
        }
        TableRule::Unique(names) => {
            key_alone(alloc, false, key_of(alloc, definitions, names.as_slice()))
        }
        TableRule::Check(_) => Ok(Items::new(alloc)),
        TableRule::ForeignKey(_) => Ok(Items::new(alloc)),
    }
}

#[tactic(auto, using(type_rules::proofs::FindsLemmas::part_steps))]
fn key_alone(
    alloc: Global,
    is_primary: bool,
    columns: Result<Items<usize>, Refusal>,
) -> Result<Items<KnownKey>, Refusal>
    ensures { (x : Finding (List ℕ)) → Finds columns x → Finds result (key_alone is_primary x) }
{
    let columns = columns?;
    Ok(only(alloc, made_key(is_primary, columns))?)
}

// ---- the tables of a schema

/// The stored table of a name.
pub(crate) fn stored_table(
    alloc: Global,
    schema: &Schema,
    name: &Text,
) -> Result<KnownTable, Refusal>
    ensures { Finds result (table_found (known schema.now) name.now) }
{
    let table = table_named(schema, name)?;
    Ok(known_table(alloc, table)?)
}

fn known_table(alloc: Global, table: &Table) -> Result<KnownTable, AllocError>
    ensures { IfOk result (λ made. made ≡ known_table table.now) }
{
    let columns = copied_columns(alloc, table.columns.as_slice())?;
    let keys = known_keys(alloc, table.constraints.as_slice())?;
    Ok(KnownTable {
        columns,
        keys,
        indexes: table.indexes.len(),
    })
}

fn copied_columns(alloc: Global, columns: &[Column]) -> Result<Items<Column>, AllocError>
    ensures { IfOk result (λ copied. copied ≡ columns.now) }
{
    let mut copied = Items::with_capacity(alloc, columns.len())?;
    for column in columns {
        copied.push(Column {
            name: column.name.copy(alloc)?,
            column_type: column.column_type,
        })?;
    }
    Ok(copied)
}

fn known_keys(alloc: Global, constraints: &[Constraint]) -> Result<Items<KnownKey>, AllocError>
    ensures { IfOk result (λ keys. keys ≡ filter_map (λ c. known_key c.rule) constraints.now) }
{
    let mut keys = Items::new(alloc);
    for constraint in constraints {
        add_known_key(alloc, &mut keys, &constraint.rule)?;
    }
    Ok(keys)
}

fn add_known_key(alloc: Global, keys: &mut Items<KnownKey>, rule: &Rule) -> Result<(), AllocError>
    ensures { OnOk result (keys.new ≡ keys.old ++ kept_key rule.now) }
{
    match rule {
        Rule::NotNull(_) => Ok(()),
        Rule::PrimaryKey(columns) => keys.push(made_key(true, copied_places(alloc, columns)?)),
        Rule::Unique(columns) => keys.push(made_key(false, copied_places(alloc, columns)?)),
        Rule::Check(_) => Ok(()),
        Rule::ForeignKey(_) => Ok(()),
    }
}

pub(crate) fn copied_places(
    alloc: Global,
    places: &Items<usize>,
) -> Result<Items<usize>, AllocError>
    ensures { IfOk result (λ copied. copied ≡ places.now) }
{
    Items::from_slice(alloc, places.as_slice())
}
