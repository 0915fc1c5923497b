//! Changes of the tables of any store: what each makes of the newest version, or why it is refused.
#![tactic(auto)]

mod fitting;
mod given_rows;
mod insert;
mod making;
mod named_checks;
mod query_rows;
mod touching;
mod value_rows;

pub use given_rows::insert_given;
pub use making::make;
