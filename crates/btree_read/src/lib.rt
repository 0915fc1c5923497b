//! Search in B+trees over pages, and all entries of one.
#![tactic(auto)]

mod block;
mod entries;
mod entry;
mod last;
mod leaf;
mod leaf_block;
mod near;
mod node;
mod place;
mod value;
mod walk;
mod whole;

pub use block::entries_from;
pub use entries::Entries;
pub use entry::{Branch, Entry, Start};
pub use last::last_key;
pub use leaf_block::{Block, block_from};
pub use near::{LastLeaf, next_near};
pub use node::read_node;
pub use place::{child_at, first_place, is_before};
pub use value::get;
pub use walk::{next, seek};
pub use whole::scan;

/// The most levels of inner pages above the leaves of a tree.
pub const MAXIMUM_LEVELS: u32 = 15;
