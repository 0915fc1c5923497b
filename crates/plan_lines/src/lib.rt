//! The lines of an EXPLAIN: the steps by which a tree was rewritten, and the plan.
#![tactic(auto)]

mod line;
mod lines;
mod plan;
mod steps;

pub use lines::explained;
