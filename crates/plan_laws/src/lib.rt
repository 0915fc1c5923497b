//! Laws of plans that are sure to be chosen: how many rows of stored tables they read. Each clause
//! is a law; the bodies are empty.
#![tactic(auto)]

mod laws;

pub use laws::{joins_read_each_table_once, look_ups_read_what_matches};
