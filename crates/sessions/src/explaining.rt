//! EXPLAIN in a session.
ghost use Rattle.std.specs.Prelude.{◌≡◌, ◌≢◌, ◌⊎◌, IfOk, IfErr};
ghost use Rattle.algebra.specs.Described.{described_in};
ghost use Rattle.algebra.specs.Translated.{tree_of_ordered};
ghost use Rattle.ast.specs.declared.statement.OrderedQuery.{OrderedQuery};
ghost use Rattle.ast.specs.declared.statement.Statement.TheVariants as asks;
ghost use Rattle.lexer.specs.Token.{Bytes};
ghost use Rattle.query_answers.specs.Explanation.{ShowsPlan};
ghost use Rattle.refusals.specs.declared.refusal.Refusal.TheVariants.{Disk, Memory};
ghost use Rattle.session_definitions.specs.Rules.{Rules, AreRules};
ghost use Rattle.statement_definitions.specs.Reading.{IsRead};
ghost use Rattle.statement_definitions.specs.Rollback.{IsRollback};
ghost use Rattle.std.specs.FinMap.{get};
ghost use Rattle.store.specs.Contents.{database_of};
ghost use Rattle.store.specs.Errors.{HasRisen};
ghost use Rattle.store.specs.Going.{Going};
ghost use Rattle.store.specs.Stored.{SameButMark, begun};
ghost use Rattle.store.specs.View.{seen_by};
ghost use Rattle.transactions.specs.Moves.{IsClosedIn, Moves};
ghost use Rattle.transactions.specs.Orderly.{IsOrderly};
ghost use Rattle.transactions.specs.Refused.{Counts, IfRefused, TellsNoLimit};
ghost use Rattle.transactions.specs.Shown.{Kept, settled};
ghost use Rattle.typing.specs.declared.statement.Typed.TheVariants as does;
ghost use Rattle.typing.specs.declared.typed.OrderedQuery.{OrderedQuery as Query};
ghost use Rattle.sessions.specs.Explained.{IfLines, RefusesLines, ShowsLines};
ghost use Rattle.sessions.specs.Seen.{seen_in};

use crate::falling::let_fall;
use crate::language::{Language, typed_by};
use ast::Statement;
use items::{Items, Text};
use query_answers::explain;
use refusals::Refusal;
use replies::Reply;
use sqlval::Schema;
use std::alloc::Global;
use store::{Store, View};
use transactions::{refusal_of, take_back, view_of};
use typing::Typed;

/// EXPLAIN: the lines of a plan of its query, which is not evaluated. It begins a transaction where
/// the session has none, but not where it is refused. It is refused by no limit of the store.
pub(crate) fn explain_query<S: Store, L: Language>(
    alloc: Global,
    language: &L,
    store: &mut S,
    writer: Option<u64>,
    session: u64,
    statement: &Statement,
) -> Reply
    ensures moves { (rules : Rules) (text : Bytes) (x : OrderedQuery) (kept : Kept) → AreRules rules
        → statement.now ≡ asks.Explain x → IsRead text (asks.Explain x) → (IsRollback text → ⊥)
        → S.is_sound store.old → IsOrderly (S.shows store.old) writer
        → IsClosedIn (get (S.shows store.old).readers session) kept
        → Moves rules session text result (S.shows store.old) writer kept (S.shows store.new) writer
        (settled (get (S.shows store.new).readers session) kept) }
    ensures explained { (x : OrderedQuery) → statement.now ≡ asks.Explain x → S.is_sound store.old
        → IfLines result (ShowsLines (seen_in (S.shows store.old) writer session) x) }
    ensures device { Counts result (S.refused store.old) (S.refused store.new) }
    ensures limits { IfRefused result TellsNoLimit }
    ensures kept { IfRefused result (λ refusal. SameButMark (S.shows store.old) (S.shows store.new)) }
    ensures left { (S.shows store.new ≡ begun (S.shows store.old) session)
        ⊎ SameButMark (S.shows store.old) (S.shows store.new) }
    ensures goes { S.goes_on store.old store.new Going.keeps }
{
    let idle = store.number(session).is_none();
    if let Err(error) = store.begin(session) {
        return Reply::Refused(refusal_of(error));
    }
    match lines_seen(alloc, language, store, view_of(writer, session), statement) {
        Ok(lines) => Reply::Lines(lines),
        Err(refusal) => {
            take_back(store, session, idle);
            Reply::Refused(refusal)
        }
    }
}

/// The lines of an EXPLAIN over a version of the store, of which no row is read.
fn lines_seen<S: Store, L: Language>(
    alloc: Global,
    language: &L,
    store: &mut S,
    view: View,
    statement: &Statement,
) -> Result<Items<Text>, Refusal>
    ensures explained { IfOk result (λ lines. (x : OrderedQuery) → statement.now ≡ asks.Explain x
        → S.is_sound store.old
        → ShowsLines (database_of (seen_by (S.shows store.old) view)) x lines) }
    ensures refused { IfErr result (λ refusal. (rules : Rules) (x : OrderedQuery) → AreRules rules
        → statement.now ≡ asks.Explain x → S.is_sound store.old
        → RefusesLines rules (database_of (seen_by (S.shows store.old) view)) x refusal) }
    ensures device { IfErr result (λ refusal. refusal ≡ Disk → HasRisen (S.refused store.old) (S.refused store.new)) }
    ensures limits { IfErr result TellsNoLimit }
    ensures shows { S.shows store.new ≡ S.shows store.old }
    ensures goes { S.goes_on store.old store.new Going.keeps }
{
    if let Err(error) = store.prepare(view) {
        return Err(refusal_of(error));
    }
    let schema = store.schema();
    match typed_by(alloc, language, statement, schema) {
        Ok(typed) => {
            let lines = lines_of(alloc, schema, &typed);
            let_fall(typed);
            lines
        }
        Err(refusal) => Err(refusal),
    }
}

/// The lines of a typed EXPLAIN.
fn lines_of(alloc: Global, schema: &Schema, typed: &Typed) -> Result<Items<Text>, Refusal>
    ensures explained { IfOk result (λ lines. (query : Query) → typed.now ≡ does.Explain query
        → ShowsPlan (tree_of_ordered (described_in schema.now) query) lines) }
    ensures refused { IfErr result (λ refusal. (query : Query) → typed.now ≡ does.Explain query
        → refusal ≡ Memory) }
    ensures device { IfErr result (λ refusal. refusal ≢ Disk) }
    ensures limits { IfErr result TellsNoLimit }
{
    match typed {
        Typed::Explain(query) => match explain(alloc, schema, query) {
            Ok(lines) => Ok(lines),
            Err(_) => Err(Refusal::Memory),
        },
        _ => Err(Refusal::NotSupported),
    }
}
