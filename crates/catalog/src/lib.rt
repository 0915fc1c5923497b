//! The schema of a database in a tree over pages: read, and its tables added, changed and dropped.
#![tactic(auto)]

mod adding;
mod altering;
mod decoding;
mod error;
mod known;
mod laws;
mod referring;
mod removing;
mod schema;

pub use adding::{add_table, set_root};
pub use altering::alter_table;
pub use error::ChangeError;
pub use known::{KnownSchema, read_known};
pub use laws::{schemas_stay, tables_are_one};
pub use referring::{are_references_in, is_referenced_in};
pub use removing::drop_table;
pub use schema::read_schema;
