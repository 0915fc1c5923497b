//! UPDATE and DELETE, over any store: what becomes of all rows is found first, by operator trees
//! over rows that are lent; then it is made.
#![tactic(auto)]

mod assigned;
mod candidates;
mod carrying;
mod change;
mod delete;
mod deleting;
mod harmless;
mod held;
mod listed;
mod making;
mod new_rows;
mod planned;
mod ranges;
mod reading;
mod reply;
mod touched;
mod trees;
mod update;
mod updating;

pub use change::{RowChange, RowUpdate};
pub use delete::delete_rows;
pub use deleting::deletions;
pub use planned::Planned;
pub use trees::{filter_tree, tables_for_filter, tables_for_update, update_trees};
pub use update::update_rows;
pub use updating::updates;
