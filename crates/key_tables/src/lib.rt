//! Rows by the values of their columns: which rows match a key, and what a list has among it.
#![tactic(auto)]

mod digest;
mod kept_keys;
mod key_table;
mod lent_key;
mod member;
mod members;

pub use kept_keys::KeptKeys;
pub use key_table::KeyTable;
pub use members::Members;
