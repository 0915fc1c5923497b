//! All rows of a plan, over a reading of a store.
#![tactic(auto)]

mod blocks;
mod listing;
mod made;
mod scans;

pub use listing::plan_listed;
pub use scans::tables_scanned;
