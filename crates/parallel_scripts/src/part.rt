//! What the pieces of a script are.

/// What a piece of a script is to `sqlmany`.
#[derive(Clone, Copy, PartialEq, Eq)]
pub(crate) enum Part {
    /// It is a call.
    Calls,
    /// It begins with `@`, and is refused: each script has one session.
    Wrong,
}
