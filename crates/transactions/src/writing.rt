//! Who writes, and what a session sees.
ghost use Rattle.std.specs.Prelude.{◌≡◌, false, if◌then◌else◌};
ghost use Rattle.store.specs.Going.{keeps};
ghost use Rattle.store.specs.Stored.{ended};
ghost use Rattle.session_definitions.specs.World.{is_session};
ghost use Rattle.transactions.specs.Orderly.{is_too_late};
ghost use Rattle.transactions.specs.Shown.{view_in};

use store::{Store, View};

/// Whether a session is the writer.
pub fn is_writer(writer: Option<u64>, session: u64) -> bool
    ensures { result ≡ is_session session writer }
{
    match writer {
        Some(other) => other == session,
        None => false,
    }
}

/// Whether a session's change comes too late: another session is the writer, or its transaction
/// found an older version than the newest.
pub fn comes_too_late<S: Store>(store: &S, writer: Option<u64>, session: u64) -> bool
    ensures { result ≡ is_too_late (S.shows store.now) writer session }
{
    match writer {
        Some(other) => other != session,
        None => match store.number(session) {
            Some(number) => number != store.commits(),
            None => false,
        },
    }
}

/// What a session with a transaction sees: the writer the changes, any other what it found.
pub fn view_of(writer: Option<u64>, session: u64) -> View
    ensures { result ≡ view_in writer session }
{
    if is_writer(writer, session) {
        View::Working
    } else {
        View::Found(session)
    }
}

/// Ends the transaction that a refused statement would have begun, and does nothing where it began
/// none.
pub fn take_back<S: Store>(store: &mut S, session: u64, idle: bool)
    ensures shows { S.shows store.new ≡ (if idle then ended (S.shows store.old) session else S.shows store.old) }
    ensures stays { idle ≡ false → store.new ≡ store.old }
    ensures goes { S.goes_on store.old store.new keeps }
{
    if idle {
        store.end(session);
    }
}
