//! Copies of syntax trees. Each equals what it copies, and is refused for want of memory alone.
//!
//! A tree is no `Clone`: its copy may be refused. `ast` has the trees alone, and is read by all
//! crates above it; their copies stand here, since they take longer to prove than the trees to
//! declare.
#![tactic(auto)]

mod conditions;
mod expressions;
mod operators;
mod parts;
mod queries;
mod statements;

pub use conditions::copy_condition;
pub use expressions::copy_expression;
pub use queries::copy_query;
pub use statements::copy_statement;
