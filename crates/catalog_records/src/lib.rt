//! The schema of a database as records of values: what a store keeps of it, written and read back.
#![tactic(auto)]

mod columns;
mod error;
mod key;
mod laws;
mod numbers;
mod parts;
mod places;
mod read_error;
mod read_places;
mod reading;
mod record;
mod references;
mod schema;
mod values;
mod writing;

pub use columns::{are_among, are_constraints_over, are_indexes_over};
pub use error::WriteError;
pub use laws::records_tell_apart;
pub use read_error::ReadError;
pub use record::Record;
pub use references::{are_references_over, are_references_with, is_referenced};
pub use schema::schema_of_records;
pub use writing::{column_record, constraint_record, index_record, records_of_table, table_record};
