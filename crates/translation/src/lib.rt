//! From typed queries to operator trees.
#![tactic(auto)]

mod conditions;
mod described;
mod expressions;
mod nodes;
mod parts;
mod queries;

pub use conditions::translate_condition;
pub use described::describe;
pub use expressions::translate_expression;
pub use queries::{translate, translate_query};
