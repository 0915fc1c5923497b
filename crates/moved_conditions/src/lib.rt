//! Conditions that rules part and move: those of one side of a join, their columns in the places
//! that they have there, and trees with what is made of them.
#![tactic(auto)]

mod moving;
mod parting;
mod parts;
mod shift;
mod together;

pub use moving::{moved, moved_all};
pub use parting::{Division, into_conjuncts, parted};
pub use parts::{both, boxed, three};
pub use shift::Shift;
pub use together::{and_of, filter_of, filtered, inner_of, joined};
