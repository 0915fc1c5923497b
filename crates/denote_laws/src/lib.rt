//! Laws of the definitions of meaning. Each clause is a law; the bodies are empty.
#![tactic(auto)]

mod changes;
mod failures;
mod order;

pub use changes::{
    a_database_violates_what_its_tables_violate, changes_keep_databases_good,
    refused_changes_leave_the_database, what_comes_and_goes_decides,
    what_is_not_matched_is_violated, what_violates_nothing_is_good,
};
pub use failures::{no_failure_is_empty, no_meaning_is_an_empty_failure};
pub use order::{changes_depend_on_bags_alone, queries_depend_on_bags_alone};
