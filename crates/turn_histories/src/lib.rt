//! Laws of a query in turns in the history of all callers of a shared core. Nothing of it runs.
#![tactic(auto)]

mod laws;

pub use laws::turns_in_histories_answer;
