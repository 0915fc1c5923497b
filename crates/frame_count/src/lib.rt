//! How many pages a pool may keep in memory, as command lines ask for them.
#![tactic(auto)]

mod frames;

pub use frames::{DEFAULT_FRAMES, Frames, GREATEST_FRAMES, LEAST_FRAMES};
