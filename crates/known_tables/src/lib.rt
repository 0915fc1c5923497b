//! What the trees of queries know of stored tables. Each clause is a law; the bodies are empty.
#![tactic(auto)]

mod laws;

pub use laws::described_tables_are_known;
