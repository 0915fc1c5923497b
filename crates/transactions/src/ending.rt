//! How transactions and sessions end.
ghost use Rattle.std.specs.Prelude.{◌≡◌, ◌≢◌, ◌⊎◌, ℕ, Bool, Some, None, slice_set};
ghost use Rattle.std.specs.FinMap.{get};
ghost use Rattle.ast.specs.declared.statement.Statement.TheVariants as asks;
ghost use Rattle.lexer.specs.Token.{Bytes};
ghost use Rattle.statement_definitions.specs.Reading.{IsRead};
ghost use Rattle.session_definitions.specs.Rules.{Rules};
ghost use Rattle.session_definitions.specs.Run.{without_session};
ghost use Rattle.statement_definitions.specs.Rollback.{IsRollback};
ghost use Rattle.transactions.specs.Moves.{Moves};
ghost use Rattle.transactions.specs.Orderly.{IsOrderly};
ghost use Rattle.session_definitions.specs.World.{is_session};
ghost use Rattle.store.specs.Going.{keeps};
ghost use Rattle.transactions.specs.Ended.{ended_by};
ghost use Rattle.store.specs.Errors.{CommittingReaches};
ghost use Rattle.transactions.specs.Refused.{Counts, IfRefused, TellsDamage, TellsReached};
ghost use Rattle.transactions.specs.Shown.{Kept, Slots, read_by, settled, slot_at, shown, with_mode};
ghost use Rattle.store.specs.Stored.{Found};

use crate::refusal::refusal_of;
use crate::writing::is_writer;
use ast::AccessMode;
use replies::Reply;
use store::Store;

/// COMMIT. A refusal leaves the transaction open. Where nothing was changed, nothing is written.
pub fn commit<S: Store>(
    store: &mut S,
    writer: &mut Option<u64>,
    mode: &mut AccessMode,
    session: u64,
) -> Reply
    ensures moves { (rules : Rules) (text : Bytes) (work : Bool) (kept : Kept) → IsRead text (asks.Commit work)
        → (IsRollback text → ⊥) → S.is_sound store.old → IsOrderly (S.shows store.old) writer.old
        → Moves rules session text result (S.shows store.old) writer.old (with_mode kept mode.old) (S.shows store.new) writer.new
        (settled (get (S.shows store.new).readers session) (with_mode kept mode.new)) }
    ensures refused { Counts result (S.refused store.old) (S.refused store.new) }
    ensures limits { IfRefused result (TellsReached (CommittingReaches (S.counted store.old) (S.shows store.old).commits)) }
    ensures damage { TellsDamage result (S.damaged store.old) (S.damaged store.new) }
    ensures kept { IfRefused result (λ refusal. (S.shows store.new ≡ S.shows store.old)
        × (writer.new ≡ writer.old) × (mode.new ≡ mode.old)) }
    ensures left { (get (S.shows store.new).readers session ≡ None)
        ⊎ ((S.shows store.new ≡ S.shows store.old) × (writer.new ≡ writer.old)) }
    ensures idle { S.unchanged store.old → S.writes store.new ≡ S.writes store.old }
    ensures goes { S.goes_on store.old store.new (ended_by (is_session session writer.old) (S.shows store.old)) }
{
    if store.number(session).is_none() {
        return Reply::Done;
    }
    if is_writer(*writer, session) {
        if let Err(error) = store.commit() {
            return Reply::Refused(refusal_of(error));
        }
        *writer = None;
        store.end(session);
        *mode = AccessMode::ReadWrite;
        return Reply::Done;
    }
    store.end(session);
    *mode = AccessMode::ReadWrite;
    Reply::Done
}

/// ROLLBACK. Takes no memory and always succeeds.
pub fn roll_back<S: Store>(
    store: &mut S,
    writer: &mut Option<u64>,
    mode: &mut AccessMode,
    session: u64,
) -> Reply
    ensures moves { (rules : Rules) (text : Bytes) (work : Bool) (kept : Kept) → IsRead text (asks.Rollback work)
        → IsOrderly (S.shows store.old) writer.old
        → Moves rules session text result (S.shows store.old) writer.old (with_mode kept mode.old) (S.shows store.new) writer.new
        (settled (get (S.shows store.new).readers session) (with_mode kept mode.new)) }
    ensures done { result ≡ Reply.Done }
    ensures damage { S.damaged store.new ≡ S.damaged store.old }
    ensures gone { get (S.shows store.new).readers session ≡ None }
    ensures goes { S.goes_on store.old store.new keeps }
{
    if store.number(session).is_none() {
        return Reply::Done;
    }
    if is_writer(*writer, session) {
        *writer = None;
        store.discard();
        store.end(session);
        *mode = AccessMode::ReadWrite;
        return Reply::Done;
    }
    store.end(session);
    *mode = AccessMode::ReadWrite;
    Reply::Done
}

/// The end of a session, whose transaction is rolled back. Takes no memory.
pub fn drop_session<S: Store>(store: &mut S, writer: &mut Option<u64>, session: u64)
    ensures drops { (slots : Slots) (kept : Kept) → slot_at slots session ≡ Some kept
        → shown (S.shows store.new) writer.new (slice_set slots session None) ≡ without_session (shown (S.shows store.old) writer.old slots) session }
    ensures order { IsOrderly (S.shows store.old) writer.old → IsOrderly (S.shows store.new) writer.new }
    ensures others { (q : ℕ) → q ≢ session → get (S.shows store.new).readers q ≡ get (S.shows store.old).readers q }
    ensures reads { (q : ℕ) → q ≢ session → (f : Found)
        → read_by (S.shows store.new) writer.new q f ≡ read_by (S.shows store.old) writer.old q f }
    ensures damage { S.damaged store.new ≡ S.damaged store.old }
    ensures gone { get (S.shows store.new).readers session ≡ None }
    ensures goes { S.goes_on store.old store.new keeps }
{
    if is_writer(*writer, session) {
        *writer = None;
        store.discard();
        store.end(session);
        return;
    }
    store.end(session);
}
