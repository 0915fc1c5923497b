//! What `sqlsh load` and `sqlsh dump` do: a table's rows from CSV into FILE, and from FILE to CSV.
#![tactic(auto)]

mod closing;
mod files;
mod formed_files;
mod note;
mod opening;
mod over_core;
mod over_core_formed;
mod words;

pub use closing::without_csv;
pub use files::run_transfer;
pub use opening::opened_core;
pub use over_core::{dump_to_end, load_batches_to_end, load_to_end};
pub use over_core_formed::{dump_formed_to_end, load_formed_batches_to_end, load_formed_to_end};
pub use words::{Transfer, Way, transfer_asked};
