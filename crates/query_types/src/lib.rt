//! Names and types of queries: what a query of a text stands for over a schema.
#![tactic(auto)]

mod arguments;
mod conditions;
mod expressions;
mod functions;
mod order;
mod parts;
mod queries;
mod tables;

pub use conditions::typed_condition;
pub use expressions::typed_expression;
pub use order::typed_query;
pub use queries::typed_query_expression;
