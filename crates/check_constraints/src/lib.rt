//! The CHECKs of a table: read again from their kept texts, and decided at rows.
#![tactic(auto)]

mod decided;
mod reading;

pub use decided::TableChecks;
pub use reading::{CheckFault, table_checks};
