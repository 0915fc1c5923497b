//! The records of rows.
ghost use Rattle.std.specs.Prelude.{◌≡◌, map, IfOk, IfSome};
ghost use Rattle.csv.specs.Records.{fields_of};
ghost use Rattle.replies.specs.Printed.{printed_text, printed_value, spelled_character};
ghost use Rattle.csvio.specs.Dumping.{rows_text};

use csv::{ByteRecord, WriterBuilder};
use denote::Row;
use itoa::Buffer;
use sqlval::Value;
use std::alloc::{AllocError, Global};
use std::slice;

/// The text of rows: a record for each, a field for each value as it is printed.
pub(crate) fn rows_text(alloc: Global, rows: &[Row]) -> Option<Vec<u8>>
    ensures { IfSome result (λ text. text.items ≡ rows_text rows.now) }
{
    let mut writer = WriterBuilder::new().from_writer(Vec::new(alloc));
    for row in rows {
        let record = record_of(alloc, row.as_slice()).ok()?;
        writer.write_byte_record(&record).ok()?;
    }
    writer.into_inner().ok()
}

/// The record of a row.
pub(crate) fn record_of(alloc: Global, row: &[Value]) -> Result<ByteRecord, AllocError>
    ensures { IfOk result (λ fields. fields_of fields ≡ map printed_value row.now) }
{
    let mut fields = ByteRecord::new(alloc);
    for value in row {
        let field = field_of(alloc, value)?;
        fields.push_field(field.as_slice())?;
    }
    Ok(fields)
}

/// A value as it is printed.
fn field_of(alloc: Global, value: &Value) -> Result<Vec<u8>, AllocError>
    ensures { IfOk result (λ field. field.items ≡ printed_value value.now) }
{
    match value {
        Value::Null => copied(alloc, b"NULL"),
        Value::Int(number) => copied(alloc, Buffer::new().format(*number).as_bytes()),
        Value::Text(text) => quoted(alloc, text.as_slice()),
    }
}

pub(crate) fn copied(alloc: Global, bytes: &[u8]) -> Result<Vec<u8>, AllocError>
    ensures { IfOk result (λ copy. copy.items ≡ bytes.now) }
{
    let mut copy = Vec::new(alloc);
    copy.extend_from_slice(bytes)?;
    Ok(copy)
}

/// A text in single quotes, each quote in it twice.
fn quoted(alloc: Global, text: &[u8]) -> Result<Vec<u8>, AllocError>
    ensures { IfOk result (λ field. field.items ≡ printed_text text.now) }
{
    let mut field = copied(alloc, b"'")?;
    for character in text {
        field.extend_from_slice(spelled(character))?;
    }
    field.push(b'\'')?;
    Ok(field)
}

/// The character as a string holds it: a quote is written twice.
fn spelled(character: &u8) -> &[u8]
    ensures { result.now ≡ spelled_character character.now }
{
    if *character == b'\'' {
        b"''"
    } else {
        slice::from_ref(character)
    }
}
