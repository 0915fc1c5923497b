//! What rules ask of a tree and of its conditions: how many columns the rows have, which columns a
//! condition names, by which columns it joins two sides, and whether something may raise.
#![tactic(auto)]

mod named;
mod quiet;
mod reach;
mod width;

pub use join_columns::{conjuncts, join_pairs, left_places, right_places};
pub use named::{
    all_within, is_plain, names_half, names_left, names_right, names_within, some_within,
};
pub use quiet::{all_quiet, conditions_quiet};
pub use reach::Reach;
pub use width::width_of;
