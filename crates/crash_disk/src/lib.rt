//! A device in memory that loses power before one of its calls, and what is found of it afterwards.
#![tactic(auto)]

mod device;
mod outcome;

pub use device::{CrashDisk, Fill};
