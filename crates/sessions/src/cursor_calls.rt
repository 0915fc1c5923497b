//! DECLARE, OPEN, FETCH and CLOSE in a session.
ghost use Rattle.std.specs.Prelude.{◌≡◌, ◌≢◌, ℕ, true, false, IfOk, IfErr, MatchOption, MatchResult, None, Option, ⊤};
ghost use Rattle.std.specs.FinMap.{get};
ghost use Rattle.ast.specs.declared.statement.Statement.TheVariants as asks;
ghost use Rattle.lexer.specs.Token.{Bytes};
ghost use Rattle.denote.specs.Database.{CheckReading, IsGood};
ghost use Rattle.denote.specs.Query.{denotes};
ghost use Rattle.denote.specs.SchemaOf.{IsSchemaOf};
ghost use Rattle.session_definitions.specs.Asked.{Asked};
ghost use Rattle.session_definitions.specs.Refusals.{IsReserved};
ghost use Rattle.session_definitions.specs.Rules.{Rules, AreRules};
ghost use Rattle.statement_definitions.specs.Reading.{IsRead};
ghost use Rattle.statement_definitions.specs.Rollback.{IsRollback};
ghost use Rattle.refusals.specs.declared.refusal.Refusal.TheVariants.{Disk};
ghost use Rattle.store.specs.Contents.{database_of};
ghost use Rattle.store.specs.Errors.{HasRisen};
ghost use Rattle.store.specs.Going.{Going};
ghost use Rattle.store.specs.Stored.{SameButMark, Stored};
ghost use Rattle.store.specs.View.{seen_by};
ghost use Rattle.transactions.specs.Orderly.{IsOrderly};
ghost use Rattle.transactions.specs.Refused.{Counts, IfRefused, TellsNoLimit};
ghost use Rattle.cursors.specs.Opened.{BeginsAt, Fits, HasNext, MayTake, cursor_of};
ghost use Rattle.sessions.specs.Held.{Holds, Leaves};
ghost use Rattle.sessions.specs.Kinds.{is_declare, is_fetch, is_of_cursor};
ghost use Rattle.sessions.specs.Numbers.{kept_of};
ghost use Rattle.sessions.specs.Seen.{seen_in};
ghost use Rattle.sessions.specs.Opened.{GivesNext, OpensAs, RefusesOpening, told};

use crate::falling::let_fall;
use crate::language::{Language, query_typed_by};
use crate::slots::Slot;
use algebra_laws::translation_keeps_the_meaning;
use ast::{DeclareCursor, OrderedQuery, Statement};
use cursors::{OpenCursor, next_row, open_cursor};
use denote::Row;
use lexer::Name;
use query_answers::plan_beside_tree;
use refusals::Refusal;
use replies::Reply;
use std::alloc::Global;
use store::{Seen, Store, View};
use transactions::{refusal_of, take_back, view_of};
use typing::OrderedQuery as TypedQuery;

/// The cursor that a statement declares, or the statement as it was.
pub(crate) fn declared_in(statement: Statement) -> Result<DeclareCursor, Statement>
    ensures { MatchResult result (λ cursor. statement ≡ asks.DeclareCursor cursor)
        (λ other. (other ≡ statement) × (is_declare statement ≡ false)) }
{
    match statement {
        Statement::DeclareCursor(cursor) => Ok(cursor.into_inner()),
        other => Err(other),
    }
}

/// DECLARE. The session keeps the query, also where it has no transaction. Refused (24000) where
/// the cursor of this name is open, and by the limit `cursors`.
pub(crate) fn declare(slot: &mut Slot, cursor: DeclareCursor) -> Reply
    ensures leaves { (rules : Rules) (text : Bytes) (st : Stored) (w : Option ℕ) (s : ℕ)
        → IsRead text (asks.DeclareCursor cursor)
        → (IsRollback text → ⊥) → IsOrderly st w → Holds st w s slot.old.cursors
        → Leaves rules s (Asked.Text text) result st w slot.old st w slot.new }
    ensures device { IfRefused result (λ refusal. refusal ≢ Disk) }
    ensures limits { IfRefused result TellsNoLimit }
    ensures kept { IfRefused result (λ refusal. kept_of slot.new ≡ kept_of slot.old) }
{
    let DeclareCursor {
        cursor: name,
        query,
    } = cursor;
    if slot.cursors.is_open(&name) {
        return Reply::Refused(Refusal::CursorState);
    }
    match slot.cursors.declare(name, query) {
        Ok(()) => Reply::Done,
        Err(refusal) => Reply::Refused(refusal),
    }
}

/// FETCH: the next row, the end, or the fault of the query, which closes the cursor; so does any
/// other refusal of an open one. It reads what the session's transaction reads, and changes
/// nothing.
fn fetch<S: Store>(
    alloc: Global,
    store: &mut S,
    writer: Option<u64>,
    slot: &mut Slot,
    session: u64,
    name: &Name,
) -> Reply
    ensures leaves { (rules : Rules) (text : Bytes) → IsRead text (asks.Fetch name.now)
        → S.is_sound store.old → IsOrderly (S.shows store.old) writer
        → Holds (S.shows store.old) writer session slot.old.cursors
        → Leaves rules session (Asked.Text text) result (S.shows store.old) writer slot.old (S.shows store.new) writer slot.new }
    ensures device { Counts result (S.refused store.old) (S.refused store.new) }
    ensures limits { IfRefused result TellsNoLimit }
    ensures goes { S.goes_on store.old store.new Going.reads }
{
    if !slot.cursors.is_open(name) {
        return Reply::Refused(Refusal::CursorState);
    }
    let held = slot.cursors.exchange(name, None);
    let AfterFetch { left, reply } = fetched(alloc, store, view_of(writer, session), held);
    let was = slot.cursors.exchange(name, left);
    let_go(was, reply)
}

/// What is left of a cursor after a FETCH, and the reply.
#[derive(Drop)]
pub(crate) struct AfterFetch {
    pub(crate) left: Option<OpenCursor>,
    pub(crate) reply: Reply,
}

/// A FETCH of what stood under a name, over a version of the store.
fn fetched<S: Store>(
    alloc: Global,
    store: &mut S,
    view: View,
    held: Option<OpenCursor>,
) -> AfterFetch
    ensures gives { MatchOption held ⊤ (λ cursor. S.is_sound store.old
        → Fits cursor (seen_by (S.shows store.old) view)
        → GivesNext cursor result.left result.reply (seen_by (S.shows store.old) view)) }
    ensures device { Counts result.reply (S.refused store.old) (S.refused store.new) }
    ensures limits { IfRefused result.reply TellsNoLimit }
    ensures shows { S.shows store.new ≡ S.shows store.old }
    ensures goes { S.goes_on store.old store.new Going.reads }
{
    match held {
        Some(cursor) => fetched_from(alloc, store, view, cursor),
        None => refused(Refusal::CursorState),
    }
}

/// The next row of a cursor, or its end; or a refusal, and then nothing is left of it.
fn fetched_from<S: Store>(
    alloc: Global,
    store: &mut S,
    view: View,
    cursor: OpenCursor,
) -> AfterFetch
    ensures gives { S.is_sound store.old → Fits cursor (seen_by (S.shows store.old) view)
        → GivesNext cursor result.left result.reply (seen_by (S.shows store.old) view) }
    ensures device { Counts result.reply (S.refused store.old) (S.refused store.new) }
    ensures limits { IfRefused result.reply TellsNoLimit }
    ensures shows { S.shows store.new ≡ S.shows store.old }
    ensures goes { S.goes_on store.old store.new Going.reads }
{
    let mut cursor = cursor;
    match next_seen(alloc, store, view, &mut cursor) {
        Ok(next) => AfterFetch {
            left: Some(cursor),
            reply: reply_of_next(next),
        },
        Err(refusal) => refused(refusal),
    }
}

/// The next row of a cursor over a version of the store, or its end.
fn next_seen<S: Store>(
    alloc: Global,
    store: &mut S,
    view: View,
    cursor: &mut OpenCursor,
) -> Result<Option<Row>, Refusal>
    ensures next { IfOk result (λ next. S.is_sound store.old → Fits cursor.old (seen_by (S.shows store.old) view)
        → HasNext next (cursor_of cursor.old (seen_by (S.shows store.old) view)) (cursor_of cursor.new (seen_by (S.shows store.old) view))) }
    ensures fits { IfOk result (λ next. S.is_sound store.old → Fits cursor.old (seen_by (S.shows store.old) view)
        → Fits cursor.new (seen_by (S.shows store.old) view)) }
    ensures refused { IfErr result (λ refusal. S.is_sound store.old
        → Fits cursor.old (seen_by (S.shows store.old) view)
        → MayTake refusal 1 (cursor_of cursor.old (seen_by (S.shows store.old) view))) }
    ensures device { IfErr result (λ refusal. refusal ≡ Disk → HasRisen (S.refused store.old) (S.refused store.new)) }
    ensures limits { IfErr result TellsNoLimit }
    ensures shows { S.shows store.new ≡ S.shows store.old }
    ensures goes { S.goes_on store.old store.new Going.reads }
{
    let mut seen = Seen { store, view };
    next_row(alloc, &mut seen, cursor)
}

/// A FETCH that is refused leaves no cursor.
pub(crate) fn refused(refusal: Refusal) -> AfterFetch
    ensures left { result.left ≡ None }
    ensures reply { result.reply ≡ Reply.Refused refusal }
{
    AfterFetch {
        left: None,
        reply: Reply::Refused(refusal),
    }
}

/// The reply, once a cursor is let go.
pub(crate) fn let_go(_was: Option<OpenCursor>, reply: Reply) -> Reply
    ensures { result ≡ reply }
{
    reply
}

/// The reply to a FETCH: a row, or the end.
fn reply_of_next(next: Option<Row>) -> Reply
    ensures { result ≡ told next }
{
    match next {
        Some(row) => Reply::Row(row),
        None => Reply::EndOfRows,
    }
}

/// CLOSE. Refused (24000) where the cursor is not open. Takes no memory.
fn close(slot: &mut Slot, name: &Name) -> Reply
    ensures leaves { (rules : Rules) (text : Bytes) (st : Stored) (w : Option ℕ) (s : ℕ)
        → IsRead text (asks.CloseCursor name.now)
        → IsOrderly st w → Holds st w s slot.old.cursors
        → Leaves rules s (Asked.Text text) result st w slot.old st w slot.new }
    ensures device { IfRefused result (λ refusal. refusal ≢ Disk) }
    ensures limits { IfRefused result TellsNoLimit }
    ensures kept { IfRefused result (λ refusal. kept_of slot.new ≡ kept_of slot.old) }
{
    if !slot.cursors.is_open(name) {
        return Reply::Refused(Refusal::CursorState);
    }
    let was = slot.cursors.exchange(name, None);
    let_go(was, Reply::Done)
}

/// A cursor over a version of the store, of which no row was given yet.
pub(crate) fn opened<S: Store, L: Language>(
    alloc: Global,
    language: &L,
    store: &mut S,
    view: View,
    query: &OrderedQuery,
) -> Result<OpenCursor, Refusal>
    ensures opens { IfOk result (λ cursor. (rules : Rules) → AreRules rules → S.is_sound store.old
        → IsGood rules.check (database_of (seen_by (S.shows store.old) view))
        → OpensAs rules (seen_by (S.shows store.old) view) query.now cursor) }
    ensures refused { IfErr result (λ refusal. (rules : Rules) → AreRules rules → S.is_sound store.old
        → RefusesOpening rules (database_of (seen_by (S.shows store.old) view)) query.now refusal) }
    ensures device { IfErr result (λ refusal. refusal ≡ Disk → HasRisen (S.refused store.old) (S.refused store.new)) }
    ensures limits { IfErr result TellsNoLimit }
    ensures shows { S.shows store.new ≡ S.shows store.old }
    ensures goes { S.goes_on store.old store.new Going.keeps }
{
    if let Err(error) = store.prepare(view) {
        return Err(refusal_of(error));
    }
    match query_typed_by(alloc, language, query, store.schema()) {
        Ok(typed) => {
            let cursor = opened_typed(alloc, store, view, &typed);
            let_fall(typed);
            cursor
        }
        Err(refusal) => Err(refusal),
    }
}

/// A cursor of a typed query, by its plan.
fn opened_typed<S: Store>(
    alloc: Global,
    store: &mut S,
    view: View,
    query: &TypedQuery,
) -> Result<OpenCursor, Refusal>
    ensures begins { IfOk result (λ cursor. (reading : CheckReading) → S.is_sound store.old
        → IsGood reading (database_of (seen_by (S.shows store.old) view))
        → IsSchemaOf (S.prepared store.old) (database_of (seen_by (S.shows store.old) view))
        → BeginsAt cursor (seen_by (S.shows store.old) view)) }
    ensures means { IfOk result (λ cursor.
        (cursor_of cursor (seen_by (S.shows store.old) view)).outcome ≡ denotes (database_of (seen_by (S.shows store.old) view)) query.now) }
    ensures refused { IfErr result (λ refusal. S.is_sound store.old → IsReserved refusal) }
    ensures device { IfErr result (λ refusal. refusal ≡ Disk → HasRisen (S.refused store.old) (S.refused store.new)) }
    ensures limits { IfErr result TellsNoLimit }
    ensures shows { S.shows store.new ≡ S.shows store.old }
    ensures goes { S.goes_on store.old store.new Going.reads }
{
    translation_keeps_the_meaning();
    let planned = match plan_beside_tree(alloc, store.schema(), query) {
        Ok(planned) => planned,
        Err(_) => return Err(Refusal::Memory),
    };
    let mut seen = Seen { store, view };
    open_cursor(alloc, &mut seen, planned)
}

/// OPEN. It begins a transaction where the session has none, but not where it is refused: 24000
/// where nothing was declared under the name or the cursor is open, and for what its query is
/// refused for. It is refused by no limit of the store.
fn open<S: Store, L: Language>(
    alloc: Global,
    language: &L,
    store: &mut S,
    writer: Option<u64>,
    slot: &mut Slot,
    session: u64,
    name: &Name,
) -> Reply
    ensures leaves { (rules : Rules) (text : Bytes) → AreRules rules → IsRead text (asks.OpenCursor name.now)
        → (IsRollback text → ⊥)
        → S.is_sound store.old → IsOrderly (S.shows store.old) writer
        → Holds (S.shows store.old) writer session slot.old.cursors
        → IsGood rules.check (seen_in (S.shows store.old) writer session)
        → Leaves rules session (Asked.Text text) result (S.shows store.old) writer slot.old (S.shows store.new) writer slot.new }
    ensures device { Counts result (S.refused store.old) (S.refused store.new) }
    ensures limits { IfRefused result TellsNoLimit }
    ensures kept { IfRefused result (λ refusal. SameButMark (S.shows store.old) (S.shows store.new)
        × (slot.new ≡ slot.old)) }
    ensures goes { S.goes_on store.old store.new Going.keeps }
{
    if slot.cursors.is_open(name) {
        return Reply::Refused(Refusal::CursorState);
    }
    let Some(query) = slot.cursors.query_of(name) else {
        return Reply::Refused(Refusal::CursorState);
    };
    let idle = store.number(session).is_none();
    if let Err(error) = store.begin(session) {
        return Reply::Refused(refusal_of(error));
    }
    match opened(alloc, language, store, view_of(writer, session), query) {
        Ok(cursor) => {
            let was = slot.cursors.exchange(name, Some(cursor));
            let_go(was, Reply::Done)
        }
        Err(refusal) => {
            take_back(store, session, idle);
            Reply::Refused(refusal)
        }
    }
}

/// A statement of a cursor that is not DECLARE.
pub(crate) fn cursor_call<S: Store, L: Language>(
    alloc: Global,
    language: &L,
    store: &mut S,
    writer: Option<u64>,
    slot: &mut Slot,
    session: u64,
    statement: &Statement,
) -> Reply
    ensures leaves { (rules : Rules) (text : Bytes) → AreRules rules → IsRead text statement.now
        → is_of_cursor statement.now ≡ true
        → is_declare statement.now ≡ false → (IsRollback text → ⊥)
        → S.is_sound store.old → IsOrderly (S.shows store.old) writer
        → Holds (S.shows store.old) writer session slot.old.cursors
        → IsGood rules.check (seen_in (S.shows store.old) writer session)
        → Leaves rules session (Asked.Text text) result (S.shows store.old) writer slot.old (S.shows store.new) writer slot.new }
    ensures device { Counts result (S.refused store.old) (S.refused store.new) }
    ensures limits { IfRefused result TellsNoLimit }
    ensures kept { IfRefused result (λ refusal. is_fetch statement.now ≡ false
        → SameButMark (S.shows store.old) (S.shows store.new) × (kept_of slot.new ≡ kept_of slot.old)) }
    ensures goes { S.goes_on store.old store.new Going.keeps }
{
    match statement {
        Statement::OpenCursor(name) => open(alloc, language, store, writer, slot, session, name),
        Statement::Fetch(name) => fetch(alloc, store, writer, slot, session, name),
        Statement::CloseCursor(name) => close(slot, name),
        _ => Reply::Refused(Refusal::NotSupported),
    }
}
