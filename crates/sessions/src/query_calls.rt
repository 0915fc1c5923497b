//! The query of a text, whose cursor has no name: it is opened, its rows are taken, it is closed.
ghost use Rattle.std.specs.Prelude.{◌≡◌, ◌≤◌, ℕ, length, is_some, IfErr, IfOk, IsTrue, MatchOption, None, Option};
ghost use Rattle.refusals.specs.declared.refusal.Refusal.TheVariants.{CursorState, Disk};
ghost use Rattle.ast.specs.declared.statement.Statement.TheVariants as asks;
ghost use Rattle.lexer.specs.Token.{Bytes};
ghost use Rattle.denote.specs.Database.{IsGood};
ghost use Rattle.session_definitions.specs.Asked.{Asked};
ghost use Rattle.session_definitions.specs.Rules.{Rules, AreRules};
ghost use Rattle.statement_definitions.specs.Reading.{IsRead};
ghost use Rattle.store.specs.Errors.{HasRisen};
ghost use Rattle.store.specs.Going.{Going};
ghost use Rattle.store.specs.Stored.{SameButMark, Stored};
ghost use Rattle.store.specs.View.{seen_by};
ghost use Rattle.transactions.specs.Orderly.{IsOrderly};
ghost use Rattle.transactions.specs.Refused.{Counts, IfRefused, TellsNoLimit};
ghost use Rattle.cursors.specs.Opened.{Fits, IsAhead, MayTake, cursor_of};
ghost use Rattle.sessions.specs.Held.{Holds, Leaves};
ghost use Rattle.sessions.specs.Seen.{seen_in};
ghost use Rattle.sessions.specs.Kinds.{IsOfKind, IsQueryText};
ghost use Rattle.sessions.specs.declared.kind.Kind.TheVariants as kinds;
ghost use Rattle.sessions.specs.Opened.{GivesRows};
ghost use Rattle.sessions.specs.Turned.{TellsOpening, TellsRows};

use crate::cursor_calls::{AfterFetch, let_go, opened, refused};
use crate::falling::let_fall;
use crate::language::Language;
use crate::slots::Slot;
use ast::{OrderedQuery, Statement};
use cursors::{OpenCursor, next_rows};
use denote::Rows;
use refusals::{Reason, Refusal};
use replies::Reply;
use std::alloc::Global;
use store::{Seen, Store, View};
use transactions::{refusal_of, take_back, view_of};

/// Whether a text is a query. It says no for want of memory too.
pub(crate) fn is_query<L: Language>(alloc: Global, language: &L, text: &[u8]) -> bool
    ensures { IsTrue result → IsQueryText text.now }
{
    match language.read(alloc, text) {
        Ok(statement) => {
            let asks = asks_a_query(&statement);
            let_fall(statement);
            asks
        }
        Err(_) => false,
    }
}

/// Whether a statement is a query.
fn asks_a_query(statement: &Statement) -> bool
    ensures { IsTrue result → IsOfKind kinds.Query statement.now }
{
    match statement {
        Statement::Query(_) => true,
        _ => false,
    }
}

/// Opens the query in a text. Another statement is refused by `syntax`. It begins a transaction
/// where the session has none, but not where it is refused.
pub(crate) fn open_query<S: Store, L: Language>(
    alloc: Global,
    language: &L,
    store: &mut S,
    writer: Option<u64>,
    slot: &mut Slot,
    session: u64,
    text: &[u8],
) -> Reply
    ensures leaves { (rules : Rules) → AreRules rules → S.is_sound store.old → IsOrderly (S.shows store.old) writer
        → Holds (S.shows store.old) writer session slot.old.cursors
        → IsGood rules.check (seen_in (S.shows store.old) writer session)
        → Leaves rules session (Asked.Query text.now) result (S.shows store.old) writer slot.old (S.shows store.new) writer slot.new }
    ensures device { Counts result (S.refused store.old) (S.refused store.new) }
    ensures limits { IfRefused result TellsNoLimit }
    ensures told { TellsOpening result }
    ensures kept { IfRefused result (λ refusal. SameButMark (S.shows store.old) (S.shows store.new)
        × (slot.new ≡ slot.old)) }
    ensures goes { S.goes_on store.old store.new Going.keeps }
{
    match language.read(alloc, text) {
        Ok(statement) => {
            let reply = open_statement(alloc, language, store, writer, slot, session, &statement);
            let_fall(statement);
            reply
        }
        Err(refusal) => Reply::Refused(refusal),
    }
}

/// Opens the query that a statement is; another statement is refused.
fn open_statement<S: Store, L: Language>(
    alloc: Global,
    language: &L,
    store: &mut S,
    writer: Option<u64>,
    slot: &mut Slot,
    session: u64,
    statement: &Statement,
) -> Reply
    ensures leaves { (rules : Rules) (text : Bytes) → AreRules rules → IsRead text statement.now
        → S.is_sound store.old → IsOrderly (S.shows store.old) writer
        → Holds (S.shows store.old) writer session slot.old.cursors
        → IsGood rules.check (seen_in (S.shows store.old) writer session)
        → Leaves rules session (Asked.Query text) result (S.shows store.old) writer slot.old (S.shows store.new) writer slot.new }
    ensures device { Counts result (S.refused store.old) (S.refused store.new) }
    ensures limits { IfRefused result TellsNoLimit }
    ensures told { TellsOpening result }
    ensures kept { IfRefused result (λ refusal. SameButMark (S.shows store.old) (S.shows store.new)
        × (slot.new ≡ slot.old)) }
    ensures goes { S.goes_on store.old store.new Going.keeps }
{
    match statement {
        Statement::Query(query) => {
            open_read(alloc, language, store, writer, slot, session, query.get())
        }
        _ => Reply::Refused(Refusal::Invalid(Reason::Syntax)),
    }
}

/// Opens a query that was read.
fn open_read<S: Store, L: Language>(
    alloc: Global,
    language: &L,
    store: &mut S,
    writer: Option<u64>,
    slot: &mut Slot,
    session: u64,
    query: &OrderedQuery,
) -> Reply
    ensures leaves { (rules : Rules) (text : Bytes) → AreRules rules → IsRead text (asks.Query query.now)
        → S.is_sound store.old → IsOrderly (S.shows store.old) writer
        → Holds (S.shows store.old) writer session slot.old.cursors
        → IsGood rules.check (seen_in (S.shows store.old) writer session)
        → Leaves rules session (Asked.Query text) result (S.shows store.old) writer slot.old (S.shows store.new) writer slot.new }
    ensures device { Counts result (S.refused store.old) (S.refused store.new) }
    ensures limits { IfRefused result TellsNoLimit }
    ensures told { TellsOpening result }
    ensures kept { IfRefused result (λ refusal. SameButMark (S.shows store.old) (S.shows store.new)
        × (slot.new ≡ slot.old)) }
    ensures goes { S.goes_on store.old store.new Going.keeps }
{
    if slot.cursors.has_unnamed() {
        return Reply::Refused(Refusal::CursorState);
    }
    let idle = store.number(session).is_none();
    if let Err(error) = store.begin(session) {
        return Reply::Refused(refusal_of(error));
    }
    match opened(alloc, language, store, view_of(writer, session), query) {
        Ok(cursor) => {
            let was = slot.cursors.exchange_unnamed(Some(cursor));
            let_go(was, Reply::Done)
        }
        Err(refusal) => {
            take_back(store, session, idle);
            Reply::Refused(refusal)
        }
    }
}

/// The next rows of the query that was opened: so many; or fewer, and then the end is reached. A
/// refusal stands in place of them, and closes it. It reads what the session's transaction reads,
/// and changes nothing.
pub(crate) fn take_rows<S: Store>(
    alloc: Global,
    store: &mut S,
    writer: Option<u64>,
    slot: &mut Slot,
    session: u64,
    count: u64,
) -> Reply
    ensures leaves { (rules : Rules) → S.is_sound store.old → IsOrderly (S.shows store.old) writer
        → Holds (S.shows store.old) writer session slot.old.cursors
        → Leaves rules session (Asked.Rows count) result (S.shows store.old) writer slot.old (S.shows store.new) writer slot.new }
    ensures told { TellsRows count result }
    ensures device { Counts result (S.refused store.old) (S.refused store.new) }
    ensures limits { IfRefused result TellsNoLimit }
    ensures goes { S.goes_on store.old store.new Going.reads }
{
    let held = slot.cursors.exchange_unnamed(None);
    let AfterFetch { left, reply } = taken(alloc, store, view_of(writer, session), held, count);
    let was = slot.cursors.exchange_unnamed(left);
    let_go(was, reply)
}

/// The next rows of what was open, over a version of the store.
fn taken<S: Store>(
    alloc: Global,
    store: &mut S,
    view: View,
    held: Option<OpenCursor>,
    count: u64,
) -> AfterFetch
    ensures gives { MatchOption held ((result.left ≡ None) × (result.reply ≡ Reply.Refused CursorState))
        (λ cursor. S.is_sound store.old → Fits cursor (seen_by (S.shows store.old) view)
        → GivesRows cursor count result.left result.reply (seen_by (S.shows store.old) view)) }
    ensures told { TellsRows count result.reply }
    ensures device { Counts result.reply (S.refused store.old) (S.refused store.new) }
    ensures limits { IfRefused result.reply TellsNoLimit }
    ensures shows { S.shows store.new ≡ S.shows store.old }
    ensures goes { S.goes_on store.old store.new Going.reads }
{
    match held {
        Some(cursor) => taken_from(alloc, store, view, cursor, count),
        None => refused(Refusal::CursorState),
    }
}

/// The next rows of a cursor; or a refusal, and then nothing is left of it.
fn taken_from<S: Store>(
    alloc: Global,
    store: &mut S,
    view: View,
    cursor: OpenCursor,
    count: u64,
) -> AfterFetch
    ensures gives { S.is_sound store.old → Fits cursor (seen_by (S.shows store.old) view)
        → GivesRows cursor count result.left result.reply (seen_by (S.shows store.old) view) }
    ensures told { TellsRows count result.reply }
    ensures device { Counts result.reply (S.refused store.old) (S.refused store.new) }
    ensures limits { IfRefused result.reply TellsNoLimit }
    ensures shows { S.shows store.new ≡ S.shows store.old }
    ensures goes { S.goes_on store.old store.new Going.reads }
{
    let mut cursor = cursor;
    match rows_seen(alloc, store, view, &mut cursor, count) {
        Ok(rows) => AfterFetch {
            left: Some(cursor),
            reply: Reply::Rows(rows),
        },
        Err(refusal) => refused(refusal),
    }
}

/// The next rows of a cursor over a version of the store.
fn rows_seen<S: Store>(
    alloc: Global,
    store: &mut S,
    view: View,
    cursor: &mut OpenCursor,
    count: u64,
) -> Result<Rows, Refusal>
    ensures rows { IfOk result (λ rows. S.is_sound store.old → Fits cursor.old (seen_by (S.shows store.old) view)
        → IsAhead rows count (cursor_of cursor.old (seen_by (S.shows store.old) view)) (cursor_of cursor.new (seen_by (S.shows store.old) view))) }
    ensures most { IfOk result (λ rows. length rows ≤ count) }
    ensures fits { IfOk result (λ rows. S.is_sound store.old → Fits cursor.old (seen_by (S.shows store.old) view)
        → Fits cursor.new (seen_by (S.shows store.old) view)) }
    ensures refused { IfErr result (λ refusal. S.is_sound store.old
        → Fits cursor.old (seen_by (S.shows store.old) view)
        → MayTake refusal count (cursor_of cursor.old (seen_by (S.shows store.old) view))) }
    ensures device { IfErr result (λ refusal. refusal ≡ Disk → HasRisen (S.refused store.old) (S.refused store.new)) }
    ensures limits { IfErr result TellsNoLimit }
    ensures shows { S.shows store.new ≡ S.shows store.old }
    ensures goes { S.goes_on store.old store.new Going.reads }
{
    let mut seen = Seen { store, view };
    next_rows(alloc, &mut seen, cursor, count)
}

/// Closes the query that was opened. Takes no memory, and succeeds where it is open.
pub(crate) fn close_query(slot: &mut Slot) -> Reply
    ensures leaves { (rules : Rules) (st : Stored) (w : Option ℕ) (s : ℕ) → IsOrderly st w
        → Holds st w s slot.old.cursors
        → Leaves rules s Asked.Close result st w slot.old st w slot.new }
    ensures refused { IfRefused result (λ refusal. refusal ≡ CursorState) }
{
    let held = slot.cursors.exchange_unnamed(None);
    if was_open(held) {
        Reply::Done
    } else {
        Reply::Refused(Refusal::CursorState)
    }
}

/// Whether a cursor was open, which is let go.
fn was_open(held: Option<OpenCursor>) -> bool
    ensures { result ≡ is_some held }
{
    let open = held.is_some();
    let_fall(held);
    open
}
