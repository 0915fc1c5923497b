//! Queries, and the three rules that recursion goes through, read from the front of a list of
//! tokens.
#![tactic(auto)]

pub mod entry;
mod query;
mod table;
