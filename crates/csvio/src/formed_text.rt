//! The text of rows in a form.
ghost use Rattle.std.specs.Prelude.{◌≡◌, map, IfOk, IfSome};
ghost use Rattle.csv.specs.Records.{fields_of};
ghost use Rattle.csv_rows.specs.Written.{plain_value};
ghost use Rattle.csvio.specs.Formed.{field_text, formed_text, header_text, records_text};

use crate::form::Form;
use crate::record::{copied, record_of};
use csv::{ByteRecord, WriterBuilder};
use denote::Row;
use itoa::Buffer;
use sqlval::{Column, Value};
use std::alloc::{AllocError, Global};

/// The text of rows of these columns: the names, where a header is asked for, and a record for each
/// row.
pub(crate) fn formed_text(
    alloc: Global,
    form: Form,
    columns: &[Column],
    rows: &[Row],
) -> Option<Vec<u8>>
    ensures { IfSome result (λ text. text.items ≡ formed_text form columns.now rows.now) }
{
    let mut text = header_text(alloc, form.header, columns)?;
    let records = records_text(alloc, form.plain, rows)?;
    text.extend_from_slice(records.as_slice()).ok()?;
    Some(text)
}

/// A record of the names of the columns, where a header is asked for.
fn header_text(alloc: Global, header: bool, columns: &[Column]) -> Option<Vec<u8>>
    ensures { IfSome result (λ text. text.items ≡ header_text header columns.now) }
{
    if !header {
        return Some(Vec::new(alloc));
    }
    let record = names_record(alloc, columns).ok()?;
    let mut writer = WriterBuilder::new().from_writer(Vec::new(alloc));
    writer.write_byte_record(&record).ok()?;
    writer.into_inner().ok()
}

/// The record of the names of the columns.
fn names_record(alloc: Global, columns: &[Column]) -> Result<ByteRecord, AllocError>
    ensures { IfOk result (λ fields. fields_of fields ≡ map (λ column. column.name) columns.now) }
{
    let mut fields = ByteRecord::new(alloc);
    for column in columns {
        fields.push_field(column.name.as_slice())?;
    }
    Ok(fields)
}

/// A record for each row.
fn records_text(alloc: Global, plain: bool, rows: &[Row]) -> Option<Vec<u8>>
    ensures { IfSome result (λ text. text.items ≡ records_text plain rows.now) }
{
    let mut writer = WriterBuilder::new().from_writer(Vec::new(alloc));
    for row in rows {
        let record = formed_record(alloc, plain, row.as_slice()).ok()?;
        writer.write_byte_record(&record).ok()?;
    }
    writer.into_inner().ok()
}

/// The record of a row.
fn formed_record(alloc: Global, plain: bool, row: &[Value]) -> Result<ByteRecord, AllocError>
    ensures { IfOk result (λ fields. fields_of fields ≡ map (field_text plain) row.now) }
{
    if plain {
        plain_record(alloc, row)
    } else {
        record_of(alloc, row)
    }
}

/// The record of a row whose values are written plainly.
fn plain_record(alloc: Global, row: &[Value]) -> Result<ByteRecord, AllocError>
    ensures { IfOk result (λ fields. fields_of fields ≡ map plain_value row.now) }
{
    let mut fields = ByteRecord::new(alloc);
    for value in row {
        let field = plain_field(alloc, value)?;
        fields.push_field(field.as_slice())?;
    }
    Ok(fields)
}

/// A value as it is written plainly.
fn plain_field(alloc: Global, value: &Value) -> Result<Vec<u8>, AllocError>
    ensures { IfOk result (λ field. field.items ≡ plain_value value.now) }
{
    match value {
        Value::Null => copied(alloc, b""),
        Value::Int(number) => copied(alloc, Buffer::new().format(*number).as_bytes()),
        Value::Text(text) => copied(alloc, text.as_slice()),
    }
}
