//! Rules over operator trees, used at a path: one of them, or a list of steps.
#![tactic(auto)]

mod parts;
mod steps;
mod together;
mod walk;

pub use raising::{can_raise, condition_can_raise, expression_can_raise};
pub use rule_steps::Attempt;
pub use rules::{Path, Rule, Step};
pub use steps::{apply, replay};
pub use walk::try_at;
