//! Insertion into B+trees over pages, and what the entries of trees are known by.
#![tactic(auto)]

mod append;
mod cells;
mod entry_laws;
mod inner;
mod insertion;
mod laws;
mod leaf;
mod page;
mod run;

pub use append::insert_all;
pub use cells::cells_with;
pub use entry_laws::{entries_are_one, entries_ascend};
pub use inner::write_inner;
pub use insertion::insert;
pub use laws::{insertions_lose_no_page, other_trees_stay};
pub use page::{write_page, write_sound};
