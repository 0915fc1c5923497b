//! What callers were told. No value of these types is made: a history consists of them.

use refusals::Refusal;
use replies::Reply;
use std::collections::LinkedList;

/// What a caller asked its session.
pub enum Question {
    /// To carry out the statement in this text.
    Text(LinkedList<u8>),
    /// To open the query in this text, whose cursor has no name.
    Query(LinkedList<u8>),
    /// So many of the next rows of that query.
    Rows(u64),
    /// To close it.
    Close,
}

/// A call, with the number of its session and what its caller was told.
pub enum Act {
    /// A session was made, and has this number.
    Connects(u64),
    /// No session was made, for this reason.
    Refused(Refusal),
    /// The session was asked this, and got this reply.
    Says(u64, Question, Reply),
    /// The session was ended.
    Ends(u64),
}

/// A call of the caller of this number, and how many calls the device had refused after it, as the
/// store counts them.
pub struct Event {
    pub who: u64,
    pub act: Act,
    pub refused: u64,
}
