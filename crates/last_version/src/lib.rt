//! The version of the last commit over a file with a journal, with some of its pages in memory.
#![tactic(auto)]

mod file;
mod gate;
mod steps;
mod version;

pub use version::LastVersion;
