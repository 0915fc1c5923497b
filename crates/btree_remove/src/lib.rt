//! Removal from B+trees over pages.
#![tactic(auto)]

mod cells;
mod inner;
mod laws;
mod leaf;
mod outcome;
mod pair;
mod removal;
mod settling;
mod tree;

pub use laws::{no_page_is_lost, one_key_is_gone, trees_beside_stay};
pub use removal::remove;
pub use tree::drop_tree;
