//! The printed text of a condition, as it is kept of a CHECK.
#![tactic(auto)]

mod part;
mod text;
mod tree;
mod writer;

pub use text::text_of_condition;
