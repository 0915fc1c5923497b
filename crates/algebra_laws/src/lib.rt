//! Laws of operator trees. Each clause is a law; the bodies are empty.
#![tactic(auto)]

mod listing;
mod raising;
mod translation;

pub use listing::{listings_answer_outcomes, listings_answer_queries};
pub use raising::denials_are_certain;
pub use translation::{evaluation_keeps_the_meaning, translation_keeps_the_meaning};
