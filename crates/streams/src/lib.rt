//! Plans whose lists are given in blocks.
#![tactic(auto)]

mod alike;
mod hash;
mod joins;
mod made;
mod named;
mod pairs;
mod ranges;
mod sides;
mod step;
mod steps;
mod tables;
mod whole;

pub use named::tables_in_parts;
pub use steps::{next_rows, rest_rows};
