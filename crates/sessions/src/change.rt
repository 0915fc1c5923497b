//! A change in a session.
ghost use Rattle.std.specs.Prelude.{◌≡◌, ◌≢◌, ◌⊎◌, true, IfOk, IfErr, OnErr, MatchOption};
ghost use Rattle.ast.specs.declared.statement.Statement.{Statement as Tree};
ghost use Rattle.lexer.specs.Token.{Bytes};
ghost use Rattle.denote.specs.Database.{IsGood};
ghost use Rattle.denote.specs.SchemaOf.{IsSchemaOf};
ghost use Rattle.session_definitions.specs.Rules.{Rules, AreRules, Means};
ghost use Rattle.session_definitions.specs.Transactions as transactions;
ghost use Rattle.statement_definitions.specs.Reading.{IsRead};
ghost use Rattle.statement_definitions.specs.Rollback.{IsRollback};
ghost use Rattle.refusals.specs.declared.refusal.Refusal.TheVariants.{Disk, SerializationFailure};
ghost use Rattle.store.specs.Contents.{database_of};
ghost use Rattle.store.specs.Errors.{HasRisen};
ghost use Rattle.store.specs.Going.{Going};
ghost use Rattle.store.specs.Stored.{SameButMark};
ghost use Rattle.std.specs.FinMap.{get};
ghost use Rattle.transactions.specs.Moves.{IsClosedIn, Moves};
ghost use Rattle.transactions.specs.Shown.{settled};
ghost use Rattle.cursors.specs.ByName.{IsShut};
ghost use Rattle.sessions.specs.Numbers.{kept_of};
ghost use Rattle.transactions.specs.Orderly.{IsOrderly};
ghost use Rattle.transactions.specs.Refused.{Counts, IfRefused, TellsReached};
ghost use Rattle.typing.specs.declared.statement.Change.{Change as Typing};
ghost use Rattle.typing.specs.declared.statement.Typed.TheVariants as does;
ghost use Rattle.sessions.specs.Changed.{HasChanged, MakesChange, RefusesChange, RefusesStatement};
ghost use Rattle.sessions.specs.Kinds.{is_change};
ghost use Rattle.sessions.specs.Seen.{seen_in};
ghost use Rattle.sessions.specs.ToldLimits.{IsActive, IsSaidBetween, StatementTells, TypedTells};

use crate::changes::Changes;
use crate::falling::let_fall;
use crate::language::{Language, typed_by};
use crate::slots::Slot;
use ast::{AccessMode, Statement};
use refusals::Refusal;
use replies::Reply;
use std::alloc::Global;
use store::{Store, View};
use transactions::{comes_too_late, refusal_of, take_back};
use typing::{Change, Typed};

/// A change. In a transaction that only reads it is refused (25000), and beside an open cursor
/// (24000). Where it comes too late it is refused (40001), and the session's transaction is rolled
/// back. It begins a transaction where the session has none, but not where it is refused; the
/// session is the writer then. A limit of what the store counts is told where the store counted so
/// before a beginning was taken back.
pub(crate) fn change<S: Store, L: Language + Changes<S>>(
    alloc: Global,
    language: &L,
    store: &mut S,
    writer: &mut Option<u64>,
    slot: &Slot,
    session: u64,
    statement: &Statement,
) -> Reply
    ensures moves { (rules : Rules) (text : Bytes) → AreRules rules → is_change statement.now ≡ true
        → IsRead text statement.now → (IsRollback text → ⊥)
        → S.is_sound store.old → IsOrderly (S.shows store.old) writer.old
        → IsClosedIn (get (S.shows store.old).readers session) (kept_of slot.now)
        → IsGood rules.check (seen_in (S.shows store.old) writer.old session)
        → Moves rules session text result (S.shows store.old) writer.old (kept_of slot.now) (S.shows store.new) writer.new
        (settled (get (S.shows store.new).readers session) (kept_of slot.now)) }
    ensures kept { IfRefused result (λ refusal. refusal ≢ SerializationFailure
        → SameButMark (S.shows store.old) (S.shows store.new) × (writer.new ≡ writer.old)) }
    ensures left { IsShut slot.now.cursors
        ⊎ (SameButMark (S.shows store.old) (S.shows store.new) × (writer.new ≡ writer.old)) }
    ensures reached { IfRefused result (IsSaidBetween S.goes_on (IsActive (S.shows store.old) session) store.old store.new (λ middle.
        TellsReached (StatementTells (S.counted middle) (S.is_sound store.old) (S.shows store.old).working statement.now))) }
    ensures device { Counts result (S.refused store.old) (S.refused store.new) }
    ensures goes { S.goes_on store.old store.new Going.changes }
{
    if is_read_only(slot.mode) {
        return Reply::Refused(Refusal::TransactionState);
    }
    if slot.cursors.has_open() {
        return Reply::Refused(Refusal::CursorState);
    }
    if comes_too_late(store, *writer, session) {
        store.end(session);
        return Reply::Refused(Refusal::SerializationFailure);
    }
    let idle = store.number(session).is_none();
    if let Err(error) = store.begin(session) {
        return Reply::Refused(refusal_of(error));
    }
    match make(alloc, language, store, statement) {
        Ok(reply) => {
            *writer = Some(session);
            reply
        }
        Err(refusal) => {
            take_back(store, session, idle);
            Reply::Refused(refusal)
        }
    }
}

/// Whether a transaction of this mode only reads.
pub(crate) fn is_read_only(mode: AccessMode) -> bool
    ensures { result ≡ transactions.is_read_only mode }
{
    match mode {
        AccessMode::ReadOnly => true,
        AccessMode::ReadWrite => false,
    }
}

/// Types a change over the newest version with its changes, and carries it out.
fn make<S: Store, L: Language + Changes<S>>(
    alloc: Global,
    language: &L,
    store: &mut S,
    statement: &Statement,
) -> Result<Reply, Refusal>
    ensures changes { IfOk result (λ reply. (rules : Rules) → AreRules rules → is_change statement.now ≡ true
        → S.is_sound store.old → IsGood rules.check (database_of (S.shows store.old).working)
        → MakesChange rules (S.shows store.old) statement.now reply (S.shows store.new)) }
    ensures refused { IfErr result (λ refusal. (rules : Rules) → AreRules rules → is_change statement.now ≡ true
        → S.is_sound store.old → IsGood rules.check (database_of (S.shows store.old).working)
        → RefusesStatement rules (database_of (S.shows store.old).working) statement.now refusal) }
    ensures reached { IfErr result (TellsReached (StatementTells (S.counted store.new) (S.is_sound store.old) (S.shows store.old).working statement.now)) }
    ensures accepted { IfOk result (λ reply. IfRefused reply (λ refusal. ⊥)) }
    ensures device { IfErr result (λ refusal. refusal ≡ Disk → HasRisen (S.refused store.old) (S.refused store.new)) }
    ensures same { OnErr result (SameButMark (S.shows store.old) (S.shows store.new)) }
    ensures goes { S.goes_on store.old store.new Going.changes }
{
    if let Err(error) = store.prepare(View::Working) {
        return Err(refusal_of(error));
    }
    match typed_by(alloc, language, statement, store.schema()) {
        Ok(typed) => make_typed(alloc, language, store, typed),
        Err(refusal) => Err(refusal),
    }
}

/// Carries out a typed change.
fn make_typed<S: Store, L: Language + Changes<S>>(
    alloc: Global,
    language: &L,
    store: &mut S,
    typed: Typed,
) -> Result<Reply, Refusal>
    ensures changes { IfOk result (λ reply. (rules : Rules) (x : Tree) (change : Typing) → AreRules rules
        → typed ≡ does.Change change → S.is_sound store.old
        → IsSchemaOf (S.prepared store.old) (database_of (S.shows store.old).working)
        → IsGood rules.check (database_of (S.shows store.old).working)
        → Means rules (database_of (S.shows store.old).working) x (does.Change change)
        → HasChanged rules (S.shows store.old) change reply (S.shows store.new)) }
    ensures refused { IfErr result (λ refusal. (rules : Rules) (x : Tree) (change : Typing) → AreRules rules
        → typed ≡ does.Change change → S.is_sound store.old
        → IsSchemaOf (S.prepared store.old) (database_of (S.shows store.old).working)
        → IsGood rules.check (database_of (S.shows store.old).working)
        → Means rules (database_of (S.shows store.old).working) x (does.Change change)
        → RefusesChange rules (database_of (S.shows store.old).working) change refusal) }
    ensures reached { IfErr result (TellsReached (TypedTells (S.counted store.new) (S.is_sound store.old) (S.prepared store.old) (S.shows store.old).working typed)) }
    ensures accepted { IfOk result (λ reply. IfRefused reply (λ refusal. ⊥)) }
    ensures device { IfErr result (λ refusal. refusal ≡ Disk → HasRisen (S.refused store.old) (S.refused store.new)) }
    ensures same { OnErr result (SameButMark (S.shows store.old) (S.shows store.new)) }
    ensures goes { S.goes_on store.old store.new Going.changes }
{
    match change_of(typed) {
        Some(change) => language.make(alloc, store, change),
        None => Err(Refusal::NotSupported),
    }
}

/// The change that a statement stands for.
fn change_of(typed: Typed) -> Option<Change>
    ensures { MatchOption result ((change : Typing) → typed ≡ does.Change change
        → ⊥) (λ change. typed ≡ does.Change change) }
{
    match typed {
        Typed::Change(change) => Some(change),
        other => {
            let_fall(other);
            None
        }
    }
}
