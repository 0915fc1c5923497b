//! The cursors of a session: the queries that it declared, and those that are open.
#![tactic(auto)]

mod block;
mod cursor;
mod held;
mod named;

pub use cursor::{OpenCursor, next_row, next_rows, open_cursor};
pub use held::Cursors;
pub use named::MOST_CURSORS;
