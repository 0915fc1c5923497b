//! Scripts: the pieces of an input, carried out in order as calls of the sessions of a core over
//! any store.
#![tactic(auto)]

mod script;

pub use script::{ScriptFault, run};
