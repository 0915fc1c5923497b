//! The columns that get a value.

ghost use Rattle.std.specs.Prelude.{◌≡◌, map, IfOk};
ghost use Rattle.typing.specs.Finding.{each};
ghost use Rattle.typing.specs.Finds.{Finds};
ghost use Rattle.typing.specs.Insert.{target_named, targets_found, targets_from};
ghost use Rattle.typing.specs.Known.{known};
ghost use Rattle.change_types.specs.Parts.{targets_in};

use items::Items;
use lexer::Name;
use refusals::{Reason, Refusal};
use sqlval::{Column, Schema, Table, ValueType};
use std::alloc::{AllocError, Global};
use type_rules::{table_named, value_type_of};

/// The places and types of the columns of a table that are named; of all in order, where none is.
pub fn targets_in(
    alloc: Global,
    schema: &Schema,
    table: &Name,
    names: &[Name],
) -> Result<Items<(usize, ValueType)>, Refusal>
    ensures { Finds result (targets_in (known schema.now) table.now names.now) }
{
    let table = table_named(schema, table.as_text())?;
    targets_of(alloc, table, names)
}

#[tactic(auto, using(crate::proofs::TargetLists::target_steps))]
fn targets_of(
    alloc: Global,
    table: &Table,
    names: &[Name],
) -> Result<Items<(usize, ValueType)>, Refusal>
    ensures { Finds result (targets_found table.now.columns names.now) }
{
    if names.is_empty() {
        Ok(all_targets(alloc, table.columns.as_slice())?)
    } else {
        named_targets(alloc, table, names)
    }
}

fn all_targets(alloc: Global, columns: &[Column]) -> Result<Items<(usize, ValueType)>, AllocError>
    ensures { IfOk result (λ targets. targets ≡ targets_from 0 columns.now) }
{
    let mut targets = Items::with_capacity(alloc, columns.len())?;
    for (place, column) in columns.iter().enumerate() {
        targets.push((place, value_type_of(column.column_type)))?;
    }
    Ok(targets)
}

fn named_targets(
    alloc: Global,
    table: &Table,
    names: &[Name],
) -> Result<Items<(usize, ValueType)>, Refusal>
    ensures { Finds result (each (map (target_named table.now.columns) names.now)) }
{
    let mut targets = Items::new(alloc);
    for name in names {
        targets.push(target_named(table, name)?)?;
    }
    Ok(targets)
}

/// The place and type of the column of this name.
pub fn target_named(table: &Table, name: &Name) -> Result<(usize, ValueType), Refusal>
    ensures { Finds result (target_named table.now.columns name.now) }
{
    let Some(place) = table.find_column(name.as_text().as_slice()) else {
        return Err(Refusal::Invalid(Reason::Name));
    };
    match table.columns.get(place) {
        Some(column) => Ok((place, value_type_of(column.column_type))),
        None => Err(Refusal::Invalid(Reason::Name)),
    }
}
