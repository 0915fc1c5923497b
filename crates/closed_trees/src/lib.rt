//! Which rows outside itself an operator tree looks at. A tree that looks at none lists the same
//! wherever it stands.
#![tactic(auto)]

mod closed;
mod depths;
mod laws;
mod parts;

pub use closed::is_closed;
pub use depths::{depths_in_condition, depths_in_expression, depths_in_tree};
pub use laws::{closed_trees_list_alike, listings_see_the_rows_they_name};
