//! What operators, predicates, tables, joins and SELECTs are found to be, given what their parts
//! are found to be, and such parts put together. Nothing here goes down a tree.
#![tactic(auto)]

mod conditions;
mod expressions;
mod findings;
mod functions;
mod queries;
mod selects;
mod tables;

pub use conditions::{
    add_conjunct, add_disjunct, and_of, between, compared, exists, in_list, in_query, like,
    negated, null_test, or_of, tested,
};
pub use expressions::{
    after_sign, calculation, concatenation, first_operator, joined_text, multiplier,
    number_constant, of_type, summand, text_constant, with_sign,
};
pub use findings::{both, boxed, second};
pub use functions::{aggregate_of, is_distinct, value_seen};
pub use queries::{column_of_query, combinable, combined, intersection, operation, scalar};
pub use selects::{
    MAXIMUM_RESULT_COLUMNS, all_columns, column_name, copied_name, key_found, made_select, named,
    settled,
};
pub use tables::{
    Joined, crossed, derived, frame_of, inner, join_sides, left, shown_name, stored, table_named,
    value_type_of,
};
