//! What a call of a session answers, and its printed text.
#![tactic(auto)]

mod printing;
mod reply;

pub use printing::print_reply;
pub use reply::Reply;
