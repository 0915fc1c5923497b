//! The text of a call: which statement it is, and whether it is ROLLBACK.
#![tactic(auto)]

mod reading;
mod rollback;

pub use reading::{LONGEST_STATEMENT, read_statement};
pub use rollback::is_rollback;
