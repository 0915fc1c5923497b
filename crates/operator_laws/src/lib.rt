//! Laws of the operators of queries. Each clause is a law; the bodies are empty.
#![tactic(auto)]

mod operators;
mod order;

pub use operators::{
    connectives_are_the_tables, joins_are_filters_of_products, nested_chains_are_one_chain,
    set_operators_go_by_multiplicities,
};
pub use order::order_of_rows_never_matters;
