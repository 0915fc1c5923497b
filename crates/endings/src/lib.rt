//! How a command ends: what is said, what is handed back, and the files that it may open.
#![tactic(auto)]

mod ended;
mod file;
mod telling;
mod words;

pub use ended::{EndedRun, FAILED, REFUSED, failed};
pub use file::{is_output, is_same_file, opened_file};
pub use telling::{say, tell};
pub use words::is_option;
