//! Statements and conditions written as tokens and as text, which read again as the same trees.
#![tactic(auto)]

mod part;
mod printing;
mod query;
mod statement;
mod writer;

pub use printing::{print, print_condition, print_condition_tokens, print_tokens};
