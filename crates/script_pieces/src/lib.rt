//! An input cut into pieces, and what each piece asks for.
#![tactic(auto)]

mod buffer;
mod cutter;
mod place;
mod request;
mod stage;

pub use cutter::Cutter;
pub use request::Request;
