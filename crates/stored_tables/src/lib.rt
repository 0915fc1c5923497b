//! The tables of a database in a space of pages: a schema, and of each table its rows. And what
//! tables lie in pages, as a definition for all pages.
#![tactic(auto)]

mod content_laws;
mod laws;
mod naming;
mod reading;

pub use content_laws::contents_are_read;
pub use laws::{no_tables_at_first, numbers_rise, tables_stay};
pub use naming::{find_table, read_table};
pub use reading::{next, read_schema, scan};
