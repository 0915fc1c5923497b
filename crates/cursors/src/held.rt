//! What is kept of a session's cursors.
ghost use Rattle.std.specs.Prelude.{◌≡◌, true};
ghost use Rattle.cursors.specs.Apart.{are_apart};

use crate::cursor::OpenCursor;
use ast::OrderedQuery;
use items::Items;
use lexer::Name;

/// A query that was declared, and its cursor where it is open.
#[derive(Drop)]
pub struct Declared {
    pub(crate) name: Name,
    pub(crate) query: OrderedQuery,
    pub(crate) cursor: Option<OpenCursor>,
}

/// The queries that a session declared, each with its cursor where that is open, and the cursor
/// without a name.
#[derive(Drop)]
pub struct Cursors {
    pub(crate) declared: Items<Declared>,
    pub(crate) unnamed: Option<OpenCursor>,
    ghost apart: { are_apart declared ≡ true },
}
