//! What removal leaves under a page.

use btree_read::Branch;

/// What is left under a page of which an entry was to be taken.
#[derive(Drop)]
pub(crate) enum Removed {
    /// The key was not there, and nothing has changed.
    Absent,
    /// A tree without the entry; a branch leads to a second tree behind it.
    Done(Option<Branch>),
    /// The entry is the only one of a leaf, which has not been changed.
    Emptied,
    /// An inner page, which has not been changed, would keep only this child.
    Lone(u32),
}
