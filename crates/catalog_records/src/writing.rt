//! The records of a table.
ghost use Rattle.std.specs.Prelude.{◌≡◌, [], ◌∷◌, ◌++◌, pos, IfOk, OnOk};
ghost use Rattle.catalog_records.specs.Records as kept;

use crate::error::WriteError;
use crate::places::text_of_places;
use crate::record::Record;
use items::{Items, Text};
use sqlval::{Column, ColumnType, Constraint, Index, Reference, Rule, Table, Value};
use std::alloc::{AllocError, Global};

/// A number as a value.
fn counted(number: usize) -> Result<Value, WriteError>
    ensures { IfOk result (λ value. value ≡ kept.counted number) }
{
    match i64::try_from(number) {
        Ok(number) => Ok(Value::Int(number)),
        Err(_) => Err(WriteError::TooLong),
    }
}

/// Two values in a list, with room for two more.
fn list_of(alloc: Global, first: Value, second: Value) -> Result<Items<Value>, AllocError>
    ensures { IfOk result (λ list. list ≡ first ∷ second ∷ []) }
{
    let mut list = Items::with_capacity(alloc, 4)?;
    list.push(first)?;
    list.push(second)?;
    Ok(list)
}

/// The key of a record.
fn key_of(
    alloc: Global,
    name: &Text,
    kind: usize,
    number: usize,
) -> Result<Items<Value>, WriteError>
    ensures { IfOk result (λ key. key ≡ kept.key_of name.now kind number) }
{
    let mut key = list_of(alloc, Value::Text(name.copy(alloc)?), counted(kind)?)?;
    key.push(counted(number)?)?;
    Ok(key)
}

/// The record of a table: where the tree of its rows begins.
///
/// Refused for want of memory.
pub fn table_record(alloc: Global, name: &Text, root: u32) -> Result<Record, WriteError>
    ensures { IfOk result (λ made. made ≡ kept.table_record name.now root) }
{
    let key = key_of(alloc, name, 0, 0)?;
    let mut row = Items::new(alloc);
    row.push(Value::Int(root as i64))?;
    Ok(Record { key, row })
}

/// The record of a column at this place of a table, from 0.
///
/// Refused for want of memory.
pub fn column_record(
    alloc: Global,
    name: &Text,
    place: usize,
    column: &Column,
) -> Result<Record, WriteError>
    ensures { IfOk result (λ made. made ≡ kept.column_record name.now place column.now) }
{
    let width = match column.column_type {
        ColumnType::Integer => 0,
        ColumnType::Varchar(most) => most as i64,
    };
    let key = key_of(alloc, name, 1, place)?;
    let row = list_of(
        alloc,
        Value::Text(column.name.copy(alloc)?),
        Value::Int(width),
    )?;
    Ok(Record { key, row })
}

/// What stands in the record of a constraint behind its name: its sort.
fn sort_of(rule: &Rule) -> i64
    ensures { result ≡ pos (kept.sort_of rule.now) }
{
    match rule {
        Rule::NotNull(_) => 1,
        Rule::PrimaryKey(_) => 2,
        Rule::Unique(_) => 3,
        Rule::Check(_) => 4,
        Rule::ForeignKey(_) => 5,
    }
}

/// Behind its sort: its own columns, or the text of its condition.
fn detail_of(alloc: Global, rule: &Rule) -> Result<Text, WriteError>
    ensures { IfOk result (λ text. text ≡ kept.detail_of rule.now) }
{
    match rule {
        Rule::NotNull(column) => text_of_places(alloc, &[*column]),
        Rule::PrimaryKey(columns) => text_of_places(alloc, columns.as_slice()),
        Rule::Unique(columns) => text_of_places(alloc, columns.as_slice()),
        Rule::Check(text) => Ok(text.copy(alloc)?),
        Rule::ForeignKey(reference) => text_of_places(alloc, reference.columns.as_slice()),
    }
}

/// Behind that: of a foreign key the table that it references, and that table's columns.
fn put_others(alloc: Global, row: &mut Items<Value>, rule: &Rule) -> Result<(), WriteError>
    ensures { OnOk result (row.new ≡ row.old ++ kept.others_of rule.now) }
{
    match rule {
        Rule::NotNull(_) => Ok(()),
        Rule::PrimaryKey(_) => Ok(()),
        Rule::Unique(_) => Ok(()),
        Rule::Check(_) => Ok(()),
        Rule::ForeignKey(reference) => put_referenced(alloc, row, reference),
    }
}

fn put_referenced(
    alloc: Global,
    row: &mut Items<Value>,
    reference: &Reference,
) -> Result<(), WriteError>
    ensures { OnOk result (row.new ≡ row.old ++ kept.referenced_values reference.now) }
{
    row.push(Value::Text(reference.table.copy(alloc)?))?;
    let places = text_of_places(alloc, reference.referenced.as_slice())?;
    row.push(Value::Text(places))?;
    Ok(())
}

/// The record of a constraint at this place of a table, from 1.
///
/// Refused for want of memory, and where its columns' places make a text of more than 1,000
/// characters.
pub fn constraint_record(
    alloc: Global,
    name: &Text,
    place: usize,
    constraint: &Constraint,
) -> Result<Record, WriteError>
    ensures { IfOk result (λ made. made ≡ kept.constraint_record name.now place constraint.now) }
{
    let key = key_of(alloc, name, 2, place)?;
    let sort = Value::Int(sort_of(&constraint.rule));
    let mut row = list_of(alloc, Value::Text(constraint.name.copy(alloc)?), sort)?;
    row.push(Value::Text(detail_of(alloc, &constraint.rule)?))?;
    put_others(alloc, &mut row, &constraint.rule)?;
    Ok(Record { key, row })
}

/// The name of an index as a value.
fn name_value(alloc: Global, name: &Option<Text>) -> Result<Value, AllocError>
    ensures { IfOk result (λ value. value ≡ kept.name_value name.now) }
{
    match name {
        None => Ok(Value::Null),
        Some(name) => Ok(Value::Text(name.copy(alloc)?)),
    }
}

/// The place of the constraint that owns an index, from 1; 0 where none does.
fn owner_number(owner: Option<usize>) -> Result<Value, WriteError>
    ensures { IfOk result (λ value. value ≡ kept.counted (kept.owner_number owner)) }
{
    match owner {
        None => counted(0),
        Some(place) => match place.checked_add(1) {
            Some(number) => counted(number),
            None => Err(WriteError::TooLong),
        },
    }
}

/// The record of an index at this place of a table, from 1.
///
/// Refused for want of memory, and where its columns' places make a text of more than 1,000
/// characters.
pub fn index_record(
    alloc: Global,
    name: &Text,
    place: usize,
    index: &Index,
) -> Result<Record, WriteError>
    ensures { IfOk result (λ made. made ≡ kept.index_record name.now place index.now) }
{
    let key = key_of(alloc, name, 3, place)?;
    let mut row = list_of(
        alloc,
        name_value(alloc, &index.name)?,
        owner_number(index.owner)?,
    )?;
    row.push(Value::Int(index.root as i64))?;
    row.push(Value::Text(text_of_places(alloc, index.columns.as_slice())?))?;
    Ok(Record { key, row })
}

fn put_columns(
    alloc: Global,
    records: &mut Items<Record>,
    name: &Text,
    columns: &[Column],
) -> Result<(), WriteError>
    ensures { OnOk result (records.new ≡ records.old ++ kept.column_records name.now 0 columns.now) }
{
    for (place, column) in columns.iter().enumerate() {
        records.push(column_record(alloc, name, place, column)?)?;
    }
    Ok(())
}

fn put_constraints(
    alloc: Global,
    records: &mut Items<Record>,
    name: &Text,
    constraints: &[Constraint],
) -> Result<(), WriteError>
    ensures { OnOk result (records.new ≡ records.old ++ kept.constraint_records name.now 1 constraints.now) }
{
    for (place, constraint) in constraints.iter().enumerate() {
        records.push(constraint_record(alloc, name, place + 1, constraint)?)?;
    }
    Ok(())
}

fn put_indexes(
    alloc: Global,
    records: &mut Items<Record>,
    name: &Text,
    indexes: &[Index],
) -> Result<(), WriteError>
    ensures { OnOk result (records.new ≡ records.old ++ kept.index_records name.now 1 indexes.now) }
{
    for (place, index) in indexes.iter().enumerate() {
        records.push(index_record(alloc, name, place + 1, index)?)?;
    }
    Ok(())
}

/// All records of a table, in the order of their keys.
///
/// Refused for want of memory, and where the columns' places of a constraint or an index make a
/// text of more than 1,000 characters.
pub fn records_of_table(alloc: Global, table: &Table) -> Result<Items<Record>, WriteError>
    ensures { IfOk result (λ records. records ≡ kept.table_records table.now) }
{
    let mut records = Items::new(alloc);
    records.push(table_record(alloc, &table.name, table.root)?)?;
    put_columns(alloc, &mut records, &table.name, table.columns.as_slice())?;
    put_constraints(
        alloc,
        &mut records,
        &table.name,
        table.constraints.as_slice(),
    )?;
    put_indexes(alloc, &mut records, &table.name, table.indexes.as_slice())?;
    Ok(records)
}
