//! What `sqlmany` does: scripts that run side by side over one store, and what is printed of them.
#![tactic(auto)]

mod closing;
mod command_line;
mod cut;
mod ending;
mod files;
mod handed;
mod many;
mod options;
mod part;
mod program;
mod put;
mod show;
mod tables;
mod words;

pub use command_line::settings;
pub use handed::{EndedScripts, HandedBack};
pub use many::many_on;
pub use options::Settings;
pub use program::sqlmany;
pub use tables::many_in_memory;
