//! Which parts of an operator tree may raise a fault.
#![tactic(auto)]

mod raising;

pub use raising::{can_raise, condition_can_raise, expression_can_raise};
