//! That listings of operator trees come in the order of their keys. Each clause is a law; the
//! bodies are empty.
#![tactic(auto)]

mod laws;

pub use laws::{listings_answer_in_order, listings_are_sorted};
