//! Scripts that are to run, and that have run.
ghost use Rattle.std.specs.Prelude.{◌≡◌, []};

use crate::callers::{Client, Session};
use crate::flusher::Waker;
use crate::rule::Room;
use refusals::Refusal;
use replies::Reply;

/// The caller of a script, with its session where that stands.
pub(crate) enum Caller<J: Room> {
    Idle(Client<J>),
    Stands(Session<J>),
}

/// The answers to the texts of a script: each a reply, or why no session was made for it.
pub type Answers = Vec<Result<Reply, Refusal>>;

/// A script that is to run: its number, from 0, a caller that has made no call, and what wakes the
/// flusher.
#[derive(Drop)]
pub(crate) struct Job<J: Room> {
    pub(crate) number: usize,
    pub(crate) client: Client<J>,
    pub(crate) waker: Waker,
    pub(crate) ghost named: { client.who ≡ number },
    pub(crate) ghost fresh: { client.mine ≡ [] },
}

/// A script that has run: its caller, whose session was ended, and the answers.
#[derive(Drop)]
pub(crate) struct Done<J: Room> {
    pub(crate) client: Client<J>,
    pub(crate) answers: Answers,
}

/// The job of this number.
pub(crate) fn numbered<J: Room>(number: usize, client: Client<J>, waker: Waker) -> Job<J>
    requires { (client.who ≡ number) × (client.mine ≡ []) }
    ensures { (result.number ≡ number) × (result.client ≡ client) }
{
    Job {
        number,
        client,
        waker,
    }
}
