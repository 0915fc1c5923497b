//! Reading the text that is kept of a CHECK again.
#![tactic(auto)]

mod reading;

pub use reading::read_check;
