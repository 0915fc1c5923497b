//! The key that a condition asks for, and that a look-up by it misses no row.
#![tactic(auto)]

mod laws;
mod sought;

pub use laws::look_ups_miss_no_row;
pub use sought::sought_key;
