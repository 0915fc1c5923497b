//! Expressions and conditions, read from the front of a list of tokens.
#![tactic(auto)]

mod clauses;
mod condition;
mod expression;
mod rules;

pub use clauses::Clauses;
pub use rules::Rules;
