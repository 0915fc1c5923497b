//! A database in a space of pages: a schema, of each table its rows, and its indexes.
#![tactic(auto)]

mod creating;
mod dropping;
mod error;
mod exchange;
mod indexes;
mod indexing;
mod kept;
mod laws;
mod numbering;
mod replacing;
mod rows;
mod settling;
mod unindexing;

pub use creating::create_table;
pub use dropping::drop_table;
pub use error::DatabaseError;
pub use indexing::create_index;
pub use laws::{database_stays, no_database_at_first, owned_pages_are_of_trees, reads_as_tables};
pub use numbering::{row_near, row_of};
pub use replacing::replace;
pub use rows::{append, delete};
pub use unindexing::drop_index;
