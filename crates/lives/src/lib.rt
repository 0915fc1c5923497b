//! A whole life of a device: runs over its tables, one after another.
#![tactic(auto)]

mod twice;

pub use twice::{EndedRuns, run_twice, run_twice_over_pages};
