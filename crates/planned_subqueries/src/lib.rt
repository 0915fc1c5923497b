//! Conditions and expressions whose subqueries go by plans.
#![tactic(auto)]

mod condition_nodes;
mod conditions;
mod expression_nodes;
mod expressions;
mod laws;
mod subqueries;
mod together;

pub use conditions::{planned_condition, planned_filter};
pub use expressions::{planned_expression, planned_expressions};
pub use laws::planned_trees_mean_the_same;
