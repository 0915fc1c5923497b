//! Copies of schemas, tables and indexes, each equal to what it copies. They are refused for want
//! of memory alone.
#![tactic(auto)]

mod constraints;
mod indexes;
mod tables;

pub use indexes::{copied_index, copied_places};
pub use tables::{copied_schema, copied_table};
