//! The rows of records, by the form of their text.
ghost use Rattle.std.specs.Prelude.{◌≡◌, map, option_map, IfOk, IfErr};
ghost use Rattle.std.specs.List.{position_from};
ghost use Rattle.sqlval.specs.Schema.{same_name};
ghost use Rattle.csv.specs.Records.{fields_of};
ghost use Rattle.csv_rows.specs.Written.{AreRowsBy};
ghost use Rattle.csvio.specs.Forms.{AreFormed, RefusesForm, RefusesRows, columns_named, named_sources, placed_sources, writing_at, writing_of};

use crate::form::Form;
use crate::header::header_of;
use csv::ByteRecord;
use csv_rows::{Source, Writing, rows_by};
use denote::Rows;
use items::{Items, Text};
use refusals::{Reason, Refusal};
use sqlval::{Column, ColumnType, Schema};
use std::alloc::{AllocError, Global};

/// The columns of the table of this name; `None` where there is none.
pub(crate) fn columns_named<'a>(schema: &'a Schema, name: &Text) -> Option<&'a [Column]>
    ensures { option_map (λ columns. columns.now) result ≡ columns_named schema.entry.now.tables name.now }
{
    for table in schema.tables.as_slice() {
        if table.name.as_slice() == name.as_slice() {
            return Some(table.columns.as_slice());
        }
    }
    None
}

/// The rows of the records of a text, in this form, for a table that has these columns.
pub(crate) fn formed_rows(
    alloc: Global,
    form: Form,
    columns: &[Column],
    records: &[ByteRecord],
) -> Result<Rows, Refusal>
    ensures rows { IfOk result (AreFormed form columns.now (map fields_of records.now)) }
    ensures refused { IfErr result (RefusesForm form columns.now (map fields_of records.now)) }
{
    let Some((first, others)) = records.split_first() else {
        return Ok(Items::new(alloc));
    };
    if !form.header {
        return placed_rows(alloc, form.plain, columns, first.len(), records);
    }
    match header_of(alloc, columns, first) {
        Ok(names) => named_rows(alloc, form.plain, columns, names.as_slice(), others),
        Err(refusal) => Err(refusal),
    }
}

/// The rows of records of so many fields, which stand in the order of the columns.
fn placed_rows(
    alloc: Global,
    plain: bool,
    columns: &[Column],
    width: usize,
    records: &[ByteRecord],
) -> Result<Rows, Refusal>
    ensures rows { IfOk result (AreRowsBy (placed_sources plain columns.now width) (map fields_of records.now)) }
    ensures refused { IfErr result (RefusesRows (placed_sources plain columns.now width) (map fields_of records.now)) }
{
    match placed_sources(alloc, plain, columns, width) {
        Ok(sources) => rows_from(alloc, sources.as_slice(), records),
        Err(_) => Err(Refusal::Memory),
    }
}

/// The rows of the records behind a header.
fn named_rows(
    alloc: Global,
    plain: bool,
    columns: &[Column],
    names: &[Text],
    records: &[ByteRecord],
) -> Result<Rows, Refusal>
    ensures rows { IfOk result (AreRowsBy (named_sources plain names.now columns.now) (map fields_of records.now)) }
    ensures refused { IfErr result (RefusesRows (named_sources plain names.now columns.now) (map fields_of records.now)) }
{
    match named_sources(alloc, plain, columns, names) {
        Ok(sources) => rows_from(alloc, sources.as_slice(), records),
        Err(_) => Err(Refusal::Memory),
    }
}

/// The rows of records by sources; `field` where there are none.
fn rows_from(alloc: Global, sources: &[Source], records: &[ByteRecord]) -> Result<Rows, Refusal>
    ensures rows { IfOk result (AreRowsBy sources.now (map fields_of records.now)) }
    ensures refused { IfErr result (RefusesRows sources.now (map fields_of records.now)) }
{
    match rows_by(alloc, sources, records) {
        Ok(Some(rows)) => Ok(rows),
        Ok(None) => Err(Refusal::Invalid(Reason::Field)),
        Err(_) => Err(Refusal::Memory),
    }
}

/// Where the values of each column stand, by the names of a header.
fn named_sources(
    alloc: Global,
    plain: bool,
    columns: &[Column],
    names: &[Text],
) -> Result<Items<Source>, AllocError>
    ensures { IfOk result (λ sources. sources ≡ named_sources plain names.now columns.now) }
{
    let mut sources = Items::new(alloc);
    for column in columns {
        sources.push(Source {
            place: place_of(names, &column.name),
            writing: writing_of(plain, column.column_type),
        })?;
    }
    Ok(sources)
}

/// The place of a name among these, from 0.
fn place_of(names: &[Text], name: &Text) -> Option<usize>
    ensures { result ≡ position_from (λ other. same_name other name.now) 0 names.now }
{
    for (at, other) in names.iter().enumerate() {
        if other.as_slice() == name.as_slice() {
            return Some(at);
        }
    }
    None
}

/// A source for each of so many fields, in the order of the columns.
fn placed_sources(
    alloc: Global,
    plain: bool,
    columns: &[Column],
    width: usize,
) -> Result<Items<Source>, AllocError>
    ensures { IfOk result (λ sources. sources ≡ placed_sources plain columns.now width) }
{
    let mut sources = Items::new(alloc);
    for place in 0..width {
        sources.push(Source {
            place: Some(place),
            writing: writing_at(plain, columns.get(place)),
        })?;
    }
    Ok(sources)
}

/// How a field is written that stands where this column does, if there is one.
fn writing_at(plain: bool, column: Option<&Column>) -> Writing
    ensures { result ≡ writing_at plain (option_map (λ found. found.now) column.entry) }
{
    match column {
        Some(column) => writing_of(plain, column.column_type),
        None => {
            if plain {
                Writing::PlainText
            } else {
                Writing::Printed
            }
        }
    }
}

/// How the fields of a column of this type are written.
fn writing_of(plain: bool, column_type: ColumnType) -> Writing
    ensures { result ≡ writing_of plain column_type }
{
    if !plain {
        return Writing::Printed;
    }
    match column_type {
        ColumnType::Integer => Writing::PlainInteger,
        ColumnType::Varchar(_) => Writing::PlainText,
    }
}
