//! The foreign keys that a change of a table may violate, asked of the rows that came to it and of
//! those that went from it: each is looked up by an index, or among rows that were read once.
#![tactic(auto)]

mod asked;
mod keys;
mod looking;
mod sources;
mod ways;

pub use asked::{Asked, asked_of};
pub use looking::first_unmatched;
