//! Sessions of SQL over any store: `sessions` with the reader of statements, the rules of names and
//! types, and the changes that are built.
#![tactic(auto)]

mod premises;
mod sql;

pub use premises::good_worlds_show_good_databases;
pub use sql::{Core, Sql};
