//! What rules over operator trees are: their names, when a tree may stand for another, and what
//! each rule makes of a node. Definitions alone, in `specs/`: nothing of it runs.
#![tactic(auto)]

mod rule;

pub use rule::{Path, Rule, Step};
