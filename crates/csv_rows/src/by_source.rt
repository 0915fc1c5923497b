//! Rows by the sources of their columns.
ghost use Rattle.std.specs.Prelude.{◌≡◌, List, map, IfOk, Some};
ghost use Rattle.std.specs.List.{AllByRecursion};
ghost use Rattle.sqlval.specs.Value.{Row as HeldRow};
ghost use Rattle.sqlval.specs.declared.value.Value.{Value as Held};
ghost use Rattle.sqlrecord.specs.Storable.{AllStorable, IsStorable};
ghost use Rattle.csv.specs.Records.{fields_of};
ghost use Rattle.csv_rows.specs.Written.{AreRowsBy, IsRowBy, IsWrittenAt};

use crate::plain::written_value;
use crate::source::Source;
use csv::ByteRecord;
use items::Items;
use sqlval::Value;
use std::alloc::{AllocError, Global};

/// The rows of some records, of which each column's values stand as its source says; `None` where
/// some field is no such value, or is not there. Refuses for want of memory alone.
pub fn rows_by(
    alloc: Global,
    sources: &[Source],
    records: &[ByteRecord],
) -> Result<Option<Items<Items<Value>>>, AllocError>
    ensures sound { IfOk result (λ found. (rows : List HeldRow) → found ≡ Some rows
        → AreRowsBy sources.now (map fields_of records.now) rows) }
    ensures again { (rows : List HeldRow) → AllByRecursion AllStorable rows
        → AreRowsBy sources.now (map fields_of records.now) rows → IfOk result (λ found. found ≡ Some rows) }
{
    let mut rows = Items::new(alloc);
    let mut left = records;
    while let Some((record, others)) = left.split_first() {
        match row_by(alloc, sources, record)? {
            Some(row) => rows.push(row)?,
            None => return Ok(None),
        }
        left = others;
    }
    Ok(Some(rows))
}

/// The row of a record.
fn row_by(
    alloc: Global,
    sources: &[Source],
    fields: &ByteRecord,
) -> Result<Option<Items<Value>>, AllocError>
    ensures sound { IfOk result (λ found. (row : HeldRow) → found ≡ Some row
        → IsRowBy sources.now (fields_of fields.now) row) }
    ensures again { (row : HeldRow) → AllStorable row → IsRowBy sources.now (fields_of fields.now) row
        → IfOk result (λ found. found ≡ Some row) }
{
    let mut row = Items::new(alloc);
    let mut left = sources;
    while let Some((source, others)) = left.split_first() {
        match value_by(alloc, *source, fields)? {
            Some(value) => row.push(value)?,
            None => return Ok(None),
        }
        left = others;
    }
    Ok(Some(row))
}

/// The value of a column in a record.
fn value_by(alloc: Global, source: Source, fields: &ByteRecord) -> Result<Option<Value>, AllocError>
    ensures sound { IfOk result (λ found. (value : Held) → found ≡ Some value
        → IsWrittenAt source.place source.writing (fields_of fields.now) value) }
    ensures again { (value : Held) → IsStorable value
        → IsWrittenAt source.place source.writing (fields_of fields.now) value
        → IfOk result (λ found. found ≡ Some value) }
{
    let Some(place) = source.place else {
        return Ok(Some(Value::Null));
    };
    match fields.get(place) {
        Some(field) => written_value(alloc, source.writing, field),
        None => Ok(None),
    }
}
