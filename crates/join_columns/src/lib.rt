//! By which columns a condition joins two sides, and that in its pairs the rows that match by these
//! columns stand for all others.
#![tactic(auto)]

mod laws;
mod pairs;

pub use laws::matching_rows_suffice;
pub use pairs::{conjuncts, join_pairs, left_places, pair_in, right_places};
