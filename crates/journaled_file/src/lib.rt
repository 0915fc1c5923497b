//! A file of pages over a device, whose commits survive a crash by a journal: what stands between
//! the steps of `journal` and versions in memory.
#![tactic(auto)]

mod opening;
mod reading;
mod steps;

pub use opening::{OpenRefusal, open_file};
pub use reading::read_page;
pub use steps::{cut_to, finish_open, put_some, shut_off, write_commit};
