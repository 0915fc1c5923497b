//! The bounds that a condition sets to a column, that a look-up by them misses no row, and what
//! such a look-up finds in the order of its numbers.
#![tactic(auto)]

mod bounds;
mod laws;
mod numbers;
mod sought;
mod taken;

pub use laws::ranges_miss_no_row;
pub use numbers::by_number;
pub use sought::{Limits, sought_limits};
pub use taken::limit_of;
