//! What queries and changes mean, and the faults and lent tables that an evaluator over them names.
#![tactic(auto)]

mod fault;
mod tables;

pub use fault::{Fault, Stop};
pub use tables::{Row, Rows, Tables};
