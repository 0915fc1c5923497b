//! Sessions of one core for many threads: a lock, one history of all that was called under it, and
//! a thread that writes pages beside.
#![tactic(auto)]

mod callers;
mod desk;
mod event;
mod flusher;
mod gate;
mod jobs;
mod lock;
mod rule;
mod scripts;
mod turns;

pub use callers::{Client, Session};
pub use desk::Desk;
pub use flusher::{Flusher, Waker};
pub use gate::{Gate, NoGate};
pub use jobs::Answers;
pub use lock::{Shared, new_cell};
pub use rule::{Cell, Room, Token};
pub use scripts::run_scripts;
