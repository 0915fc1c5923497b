//! Work on whole lists of rows: each function gives the list of its definition.
#![tactic(auto)]

mod aggregate;
mod counts;
mod digest;
mod functions;
mod grouped;
mod grouping;
mod groups;
mod marks;
mod row_key;
mod rows;
mod set_rows;
mod sorting;
mod totals;

pub use aggregate::Aggregate;
pub use functions::aggregates_of;
pub use grouped::group_rows;
pub use set_rows::{combined_rows, distinct_rows};
pub use sorting::{compare_rows, sorted_rows};
