//! The rows of a table in a tree over pages, by their numbers: read, appended, replaced and
//! deleted.
#![tactic(auto)]

mod appending;
mod changing;
mod decoding;
mod error;
mod fitting;
mod laws;
mod number;
mod reading;

pub use appending::append;
pub use changing::{delete, replace};
pub use error::AppendError;
pub use fitting::{are_fitting, is_fitting};
pub use laws::{rows_are_one, rows_stay};
pub use number::next_number;
pub use reading::{next, next_near, scan, some_rows};
