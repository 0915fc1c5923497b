//! Rows of a table as records of CSV: the values of printed fields, and rows read and written.
#![tactic(auto)]

mod all_records;
mod by_source;
mod error;
mod field;
mod integer;
mod plain;
mod quoted;
mod reading;
mod record;
mod source;

pub use all_records::read_records;
pub use by_source::rows_by;
pub use error::ReadError;
pub use field::value_of;
pub use plain::written_value;
pub use reading::read_rows;
pub use record::row_of;
pub use source::{Source, Writing};
