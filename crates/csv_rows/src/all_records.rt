//! The records of a CSV text.
ghost use Rattle.std.specs.Prelude.{◌≡◌, ℕ, List, map, IfOk, IfErr, Some};
ghost use Rattle.csv.specs.Records.{fields_of};
ghost use Rattle.csv_rows.specs.Written.{AreRecordsOf};
ghost use Rattle.csv_rows.specs.declared.error.ReadError.TheVariants.{Field};

use crate::error::ReadError;
use crate::reading::cause;
use csv::{ByteRecord, ReaderBuilder};
use items::Items;
use std::alloc::Global;
use std::io::Read;

/// The records of a CSV text, of which none is taken for a header. A byte order mark is left off.
/// Refused as `Field` only where the records have not all one number of fields.
pub fn read_records<R: Read + Drop>(
    alloc: Global,
    reader: R,
) -> Result<Items<ByteRecord>, ReadError>
    ensures records { IfOk result (λ records. (bytes : List ℕ) → R.remaining reader ≡ Some bytes
        → AreRecordsOf bytes (map fields_of records)) }
    ensures field { IfErr result (λ error. error ≡ Field → (bytes : List ℕ) → R.remaining reader ≡ Some bytes
        → (records : List (List (List ℕ))) → AreRecordsOf bytes records → ⊥) }
{
    let reading = ReaderBuilder::new()
        .has_headers(false)
        .from_reader(alloc, reader);
    let mut records = Items::new(alloc);
    for found in reading.into_byte_records() {
        match found {
            Ok(record) => records.push(record)?,
            Err(error) => return Err(cause(&error)),
        }
    }
    Ok(records)
}
