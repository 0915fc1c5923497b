//! Trees whose subqueries stand as what they give, where no row round them changes that: so it is
//! found once for a statement, and not once a row.
#![tactic(auto)]

mod keeping;
mod lasting;
mod laws;
mod listing;
mod nodes;
mod parts;
mod subqueries;
mod tables;

pub use keeping::{kept_condition, kept_expression, kept_tree};
pub use laws::kept_trees_mean_the_same;
pub use listing::listed_once;
