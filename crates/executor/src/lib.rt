//! Operator trees carried out over tables whose rows are lent: exactly their listings.
#![tactic(auto)]

mod expressions;
mod found;
mod joins;
mod keys;
mod listed;
mod parts;
mod predicates;
mod rows;
mod sides;
mod subqueries;
mod trees;
mod truths;

pub use expressions::{arguments_of_rows, expression_value};
pub use joins::{halves_of_sides, joined_by_keys, joined_sides, keyed_sides, triples_of_sides};
pub use keys::{key_row, ranged_rows, rows_beside, sought_rows};
pub use listed::{Env, Listed};
pub use parts::{combined_listed, distinct_listed, grouped_listed, sorted_listed};
pub use predicates::condition_truth;
pub use rows::{product_listed, put_if, put_pairs};
pub use subqueries::{MemberList, list_of_members, members_of};
pub use trees::{
    filtered_moving, filtered_part, groups_of_part, kept_by_list, members_of_sides, projected,
    projected_part, tree_listed,
};
