//! Statements and conditions from tokens.
#![tactic(auto)]

mod texts;

pub use texts::{MAXIMUM_NESTING, MAXIMUM_OPERANDS, parse, parse_condition};
