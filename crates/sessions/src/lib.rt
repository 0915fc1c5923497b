//! Sessions over any store: how the statements of up to 64 sessions are carried out, each call a
//! step of the world that the store shows.
#![tactic(auto)]

mod calling;
mod change;
mod changes;
mod core_of;
mod cursor_calls;
mod explaining;
mod falling;
mod inserting;
mod kind;
mod language;
mod query;
mod query_calls;
mod slots;

pub use changes::Changes;
pub use core_of::{Core, Refused, SessionId};
pub use language::Language;
pub use slots::MOST_SESSIONS;
