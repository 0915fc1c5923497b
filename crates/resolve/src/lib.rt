//! Names and types of statements: how a statement becomes a typed tree.
#![tactic(auto)]

mod built;
mod changes;
mod statements;

pub use statements::typed_statement;
