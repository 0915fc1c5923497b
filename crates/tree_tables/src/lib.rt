//! Which stored tables an operator tree reads, and that its listing depends on no others.
#![tactic(auto)]

mod laws;
mod names;
mod parts;

pub use laws::{listings_read_their_tables, values_read_their_tables};
pub use names::{
    tables_in_condition, tables_in_expression, tables_in_expressions, tables_in_functions,
    tables_in_tree,
};
pub use parts::joined;
