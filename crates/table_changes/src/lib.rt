//! Changes of tables, over any store: what CREATE and DROP, and an INSERT of rows that are given,
//! make of the newest version, or what they are refused for.
#![tactic(auto)]

mod creating;
mod deciding;
mod dropping;
mod indexing;
mod inserting;
mod reply;

pub use creating::create_table;
pub use dropping::{drop_index, drop_table};
pub use indexing::create_index;
pub use inserting::insert_rows;
pub use reply::reply_for;
