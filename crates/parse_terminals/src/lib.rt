//! The next tokens, parts that are repeated, and the parts that hold no other part, read from the
//! front of a list of tokens.
#![tactic(auto)]

mod cursor;
mod error;
mod lists;
mod sort;
mod terminals;

pub use cursor::{
    after_symbol, after_word, eat_word, is_symbol, is_word, name, next_is_symbol, next_is_word,
    number, symbol, word,
};
pub use error::ParseError;
pub use lists::{boxed, listed, many, names, only_if, paired, parenthesized};
pub use sort::sort_key;
pub use terminals::{
    add_operator, alias, column, comparison, count_rows, intersect, literal, may_alias,
    may_quantifier, may_sign, multiply_operator, next_is_name, next_is_number, next_is_string,
    opens_condition, opens_query, opens_subquery, set_function, set_operator, string, truth_test,
};
