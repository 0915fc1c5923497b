//! Operator trees: what they are, their outcome, their listing and their order keys. Types and
//! definitions alone.
#![tactic(auto)]

mod tree;

pub use tree::{Bound, Condition, Expression, SetFunction, StoredTable, Tree};
