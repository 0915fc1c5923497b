//! Rows of a database in pages found by an index of their table.
#![tactic(auto)]

mod blocks;
mod keys;
mod lookups;
mod places;
mod sought;
mod walking;

pub use blocks::{range_block, scan_block, seek_block};
pub use lookups::{next_in, range, seek};
