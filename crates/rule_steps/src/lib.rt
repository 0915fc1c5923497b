//! The rules at a node: whether each may be used there, and what it makes of it.
#![tactic(auto)]

mod attempt;
mod bounds;
mod filters;
mod indexes;
mod joins;
mod lookups;
mod loops;
mod orders;
mod regroup;
mod subqueries;
mod together;

pub use attempt::{Attempt, can_use, tried};
