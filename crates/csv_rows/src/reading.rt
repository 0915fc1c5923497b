//! The rows of a CSV text.
ghost use Rattle.std.specs.Prelude.{◌≡◌, ℕ, List, IfOk, IfErr, Some};
ghost use Rattle.std.specs.List.{AllByRecursion};
ghost use Rattle.sqlval.specs.Value.{Row};
ghost use Rattle.sqlrecord.specs.Storable.{AllStorable};
ghost use Rattle.csv_rows.specs.Rows.{AreRowsOf};
ghost use Rattle.csv_rows.specs.declared.error.ReadError.TheVariants.{Field};
ghost use Rattle.csv.specs.Reading.{error_kind};
ghost use Rattle.csv_rows.specs.Causes.{cause_of};

use crate::error::ReadError;
use crate::record::row_of;
use csv::{Error, ErrorKind, ReaderBuilder};
use items::Items;
use sqlval::Value;
use std::alloc::Global;
use std::io::Read;

/// The rows of a CSV text without a header, each field in the form in which values are printed.
/// A byte order mark is left off. Refused as `Field` only where no rows have this text.
pub fn read_rows<R: Read + Drop>(alloc: Global, reader: R) -> Result<Items<Items<Value>>, ReadError>
    ensures rows { IfOk result (λ rows. (bytes : List ℕ) → R.remaining reader ≡ Some bytes → AreRowsOf bytes rows) }
    ensures field { IfErr result (λ error. error ≡ Field → (bytes : List ℕ) → R.remaining reader ≡ Some bytes
        → (rows : List Row) → AllByRecursion AllStorable rows → AreRowsOf bytes rows → ⊥) }
{
    let records = ReaderBuilder::new()
        .has_headers(false)
        .from_reader(alloc, reader);
    let mut rows = Items::new(alloc);
    for found in records.into_byte_records() {
        let fields = match found {
            Ok(fields) => fields,
            Err(error) => return Err(cause(&error)),
        };
        match row_of(alloc, &fields)? {
            Some(row) => rows.push(row)?,
            None => return Err(ReadError::Field),
        }
    }
    Ok(rows)
}

/// What a refusal of the reader of records is.
pub(crate) fn cause(error: &Error) -> ReadError
    ensures { result ≡ cause_of (error_kind error.now) }
{
    match error.kind() {
        ErrorKind::Io(_) => ReadError::Reader,
        ErrorKind::OutOfMemory => ReadError::Memory,
        _ => ReadError::Field,
    }
}
