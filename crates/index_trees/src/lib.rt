//! The entries of indexes in trees over pages.
#![tactic(auto)]

mod compared;
mod entries;
mod error;
mod laws;

pub use compared::is_entry_of;
pub use entries::{add_row, remove_row};
pub use error::IndexError;
pub use laws::{indexes_stay, same_rows_same_index};
