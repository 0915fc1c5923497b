//! How far the list of a plan was given, and what is left of it.
#![tactic(auto)]

mod indexes;
mod parts;
mod place;
mod rows;
mod turn;

pub use indexes::index_place;
pub use parts::{
    above, asked, asked_above, below, is_whole, last_number, last_position, place_after,
    place_beyond, seen, seen_above,
};
pub use place::{KeyedRows, Members, Place};
pub use rows::{first_row, kept_rows};
pub use turn::{
    KeyedTurn, PairedTurn, Turn, keyed_place, keyed_turn_of, paired_turn_of, pairs_place,
    test_place, turn_of,
};
