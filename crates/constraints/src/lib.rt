//! What stands round a change of tables: the mark before it, the lengths of rows and keys, and the
//! constraints of the table after it, with keys decided by sorting or by look-ups.
#![tactic(auto)]

mod checks;
mod constraints;
mod foreseeing;
mod foreseen;
mod frame;
mod keys;
mod lengths;
mod matching;
mod order;
mod refusal;
mod settled_rows;
mod tables;
mod twins;

pub use checks::{Checks, NoChecks};
pub use constraints::{has_check, violated_constraint};
pub use foreseeing::{are_few, foresee, look_again};
pub use foreseen::Foreseen;
pub use frame::{begin, settle, settle_unless, violation_in};
pub use keys::key_columns;
pub use lengths::{admit, fits_key, rows_fit_key};
pub use matching::{
    Moved, has_foreign_keys, is_at_end, rows_to_match, settle_came, settle_matches, settle_moved,
};
pub use order::compare_keys;
pub use refusal::refusal_of_stop;
pub use settled_rows::settle_rows;
pub use tables::table_named;
pub use twins::any_twins;
