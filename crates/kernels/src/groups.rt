//! Rows by their keys.

use denote::Row;
use items::Items;

/// The rows with one key, null being alike to null.
#[derive(Drop)]
pub struct Group {
    pub key: Row,
    /// The places of its rows among all, from 0, in their order.
    pub places: Items<usize>,
}
