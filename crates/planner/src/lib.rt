//! Plans: operator trees that are carried out as they stand, and which of them is chosen for a
//! tree.
#![tactic(auto)]

mod down;
mod nodes;
mod outline;
mod plans;
mod up;
mod wanted;

pub use plans::{Plan, Planned, choose_plan, plan_of};
