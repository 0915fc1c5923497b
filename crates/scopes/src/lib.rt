//! What a part of a statement sees, and which column a name means there.
#![tactic(auto)]

mod columns;
mod counts;
mod names;
mod view;

pub use columns::{column, own_column, seen_in};
pub use counts::{count_in_condition, count_in_items};
pub use names::{are_distinct, is_among};
pub use view::{
    Clause, Scope, View, after_conjunction, after_expression, after_factor, after_items,
    after_negation, after_term,
};
