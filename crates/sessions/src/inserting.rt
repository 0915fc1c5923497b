//! Rows that are put in by a call, in a session.
ghost use Rattle.std.specs.Prelude.{◌≡◌, ◌≢◌, ◌⊎◌, IfOk, IfErr, OnErr};
ghost use Rattle.std.specs.FinMap.{get};
ghost use Rattle.refusals.specs.declared.refusal.Refusal.TheVariants.{Disk, SerializationFailure};
ghost use Rattle.ast.specs.declared.statement.Statement.{Statement as Tree};
ghost use Rattle.denote.specs.Database.{IsGood};
ghost use Rattle.session_definitions.specs.Asked.{Asked};
ghost use Rattle.session_definitions.specs.InsertedRows.{inserting};
ghost use Rattle.session_definitions.specs.Rules.{Rules, AreRules};
ghost use Rattle.store.specs.Contents.{database_of};
ghost use Rattle.store.specs.Errors.{HasRisen};
ghost use Rattle.store.specs.Going.{Going};
ghost use Rattle.store.specs.Stored.{SameButMark};
ghost use Rattle.transactions.specs.Moves.{IsClosedIn, MovesBy};
ghost use Rattle.transactions.specs.Orderly.{IsOrderly};
ghost use Rattle.transactions.specs.Refused.{Counts, IfRefused, TellsReached};
ghost use Rattle.transactions.specs.Shown.{settled};
ghost use Rattle.cursors.specs.ByName.{IsShut};
ghost use Rattle.sessions.specs.Changed.{MakesChange, RefusesStatement};
ghost use Rattle.sessions.specs.Numbers.{kept_of};
ghost use Rattle.sessions.specs.Seen.{seen_in};
ghost use Rattle.sessions.specs.ToldLimits.{GivenTell, IsActive, IsSaidBetween};

use crate::change::is_read_only;
use crate::changes::Changes;
use crate::slots::Slot;
use denote::Rows;
use items::Text;
use refusals::Refusal;
use replies::Reply;
use std::alloc::Global;
use store::{Store, View};
use transactions::{comes_too_late, refusal_of, take_back};

/// The INSERT of these rows into all columns of a table, as a change that a statement asks for: in
/// a transaction that only reads it is refused (25000), and beside an open cursor (24000). Where it
/// comes too late it is refused (40001), and the session's transaction is rolled back. It begins a
/// transaction where the session has none, but not where it is refused; the session is the writer
/// then. A limit of what the store counts is told where the store counted so before a beginning was
/// taken back.
pub(crate) fn insert_rows<S: Store, L: Changes<S>>(
    alloc: Global,
    language: &L,
    store: &mut S,
    writer: &mut Option<u64>,
    slot: &Slot,
    session: u64,
    table: &Text,
    rows: Rows,
) -> Reply
    ensures moves { (rules : Rules) → AreRules rules
        → S.is_sound store.old → IsOrderly (S.shows store.old) writer.old
        → IsClosedIn (get (S.shows store.old).readers session) (kept_of slot.now)
        → IsGood rules.check (seen_in (S.shows store.old) writer.old session)
        → MovesBy rules session (Asked.Insert table.now rows) result (S.shows store.old) writer.old (kept_of slot.now) (S.shows store.new) writer.new
        (settled (get (S.shows store.new).readers session) (kept_of slot.now)) }
    ensures kept { IfRefused result (λ refusal. refusal ≢ SerializationFailure
        → SameButMark (S.shows store.old) (S.shows store.new) × (writer.new ≡ writer.old)) }
    ensures left { IsShut slot.now.cursors
        ⊎ (SameButMark (S.shows store.old) (S.shows store.new) × (writer.new ≡ writer.old)) }
    ensures reached { IfRefused result (IsSaidBetween S.goes_on (IsActive (S.shows store.old) session) store.old store.new (λ middle.
        TellsReached (GivenTell (S.counted middle) (S.is_sound store.old) (S.shows store.old).working table.now rows))) }
    ensures device { Counts result (S.refused store.old) (S.refused store.new) }
    ensures goes { S.goes_on store.old store.new Going.changes }
{
    if is_read_only(slot.mode) {
        return Reply::Refused(Refusal::TransactionState);
    }
    if slot.cursors.has_open() {
        return Reply::Refused(Refusal::CursorState);
    }
    if comes_too_late(store, *writer, session) {
        store.end(session);
        return Reply::Refused(Refusal::SerializationFailure);
    }
    let idle = store.number(session).is_none();
    if let Err(error) = store.begin(session) {
        return Reply::Refused(refusal_of(error));
    }
    match make(alloc, language, store, table, rows) {
        Ok(reply) => {
            *writer = Some(session);
            reply
        }
        Err(refusal) => {
            take_back(store, session, idle);
            Reply::Refused(refusal)
        }
    }
}

/// Carries out the INSERT of these rows over the newest version with its changes.
fn make<S: Store, L: Changes<S>>(
    alloc: Global,
    language: &L,
    store: &mut S,
    table: &Text,
    rows: Rows,
) -> Result<Reply, Refusal>
    ensures changes { IfOk result (λ reply. (rules : Rules) (x : Tree) → AreRules rules → S.is_sound store.old
        → IsGood rules.check (database_of (S.shows store.old).working)
        → MakesChange (inserting rules table.now rows) (S.shows store.old) x reply (S.shows store.new)) }
    ensures refused { IfErr result (λ refusal. (rules : Rules) (x : Tree) → AreRules rules → S.is_sound store.old
        → IsGood rules.check (database_of (S.shows store.old).working)
        → RefusesStatement (inserting rules table.now rows) (database_of (S.shows store.old).working) x refusal) }
    ensures reached { IfErr result (TellsReached (GivenTell (S.counted store.new) (S.is_sound store.old) (S.shows store.old).working table.now rows)) }
    ensures accepted { IfOk result (λ reply. IfRefused reply (λ refusal. ⊥)) }
    ensures device { IfErr result (λ refusal. refusal ≡ Disk → HasRisen (S.refused store.old) (S.refused store.new)) }
    ensures same { OnErr result (SameButMark (S.shows store.old) (S.shows store.new)) }
    ensures goes { S.goes_on store.old store.new Going.changes }
{
    if let Err(error) = store.prepare(View::Working) {
        return Err(refusal_of(error));
    }
    language.insert(alloc, store, table, rows)
}
