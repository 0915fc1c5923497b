//! Statements, read from the front of a list of tokens.
#![tactic(auto)]

mod change;
mod create;
mod statement;

pub use statement::Statements;
