//! What queries answer and VALUES give, over a reading of a store: by operator trees, over all
//! forms of tables.
#![tactic(auto)]

mod explanation;
mod fault;
mod itself;
mod lent;
mod planned;
mod query;
mod rows;
mod sources;

pub use explanation::explain;
pub use fault::refusal_of_fault;
pub use lent::{LentTable, LentTables, lent_tables};
pub use planned::{PlannedQuery, answer, plan_beside_tree, query_plan, run_plan, unordered_plan};
pub use query::{query_tree, run_all};
pub use rows::rows_to_insert;
pub use sources::{source_trees, tables_for_sources};
