//! A query in a session.
ghost use Rattle.std.specs.Prelude.{◌≡◌, ◌⊎◌, Ok, IfOk, IfErr};
ghost use Rattle.denote.specs.Answer.{Answers};
ghost use Rattle.denote.specs.Database.{CheckReading, IsGood};
ghost use Rattle.denote.specs.Query.{denotes};
ghost use Rattle.denote.specs.SchemaOf.{IsSchemaOf};
ghost use Rattle.typing.specs.declared.statement.Typed.TheVariants as does;
ghost use Rattle.typing.specs.declared.typed.OrderedQuery.{OrderedQuery as Query};
ghost use Rattle.ast.specs.declared.statement.OrderedQuery.{OrderedQuery};
ghost use Rattle.ast.specs.declared.statement.Statement.TheVariants as asks;
ghost use Rattle.lexer.specs.Token.{Bytes};
ghost use Rattle.query_answers.specs.Refused.{MayRefuse};
ghost use Rattle.session_definitions.specs.Rules.{Rules, AreRules};
ghost use Rattle.statement_definitions.specs.Reading.{IsRead};
ghost use Rattle.statement_definitions.specs.Rollback.{IsRollback};
ghost use Rattle.refusals.specs.declared.refusal.Refusal.TheVariants.{Disk};
ghost use Rattle.store.specs.Contents.{database_of};
ghost use Rattle.store.specs.Errors.{HasRisen};
ghost use Rattle.store.specs.Going.{Going};
ghost use Rattle.store.specs.Stored.{SameButMark, begun};
ghost use Rattle.store.specs.View.{seen_by};
ghost use Rattle.std.specs.FinMap.{get};
ghost use Rattle.transactions.specs.Moves.{IsClosedIn, Moves};
ghost use Rattle.transactions.specs.Shown.{Kept, settled};
ghost use Rattle.transactions.specs.Orderly.{IsOrderly};
ghost use Rattle.transactions.specs.Refused.{Counts, IfRefused, TellsNoLimit};
ghost use Rattle.sessions.specs.Answered.{GivesRows, RefusesQuery};
ghost use Rattle.sessions.specs.Seen.{seen_in};

use crate::falling::let_fall;
use crate::language::{Language, typed_by};
use ast::Statement;
use denote::Rows;
use query_answers::{answer, query_plan};
use refusals::Refusal;
use replies::Reply;
use std::alloc::Global;
use store::{Seen, Store, View};
use transactions::{refusal_of, take_back, view_of};
use typing::Typed;

/// A query. It begins a transaction where the session has none, but not where it is refused. It is
/// refused by no limit of the store.
pub(crate) fn query<S: Store, L: Language>(
    alloc: Global,
    language: &L,
    store: &mut S,
    writer: Option<u64>,
    session: u64,
    statement: &Statement,
) -> Reply
    ensures moves { (rules : Rules) (text : Bytes) (x : OrderedQuery) (kept : Kept) → AreRules rules
        → statement.now ≡ asks.Query x → IsRead text (asks.Query x) → (IsRollback text → ⊥)
        → S.is_sound store.old → IsOrderly (S.shows store.old) writer
        → IsClosedIn (get (S.shows store.old).readers session) kept
        → IsGood rules.check (seen_in (S.shows store.old) writer session)
        → Moves rules session text result (S.shows store.old) writer kept (S.shows store.new) writer
        (settled (get (S.shows store.new).readers session) kept) }
    ensures device { Counts result (S.refused store.old) (S.refused store.new) }
    ensures limits { IfRefused result TellsNoLimit }
    ensures kept { IfRefused result (λ refusal. SameButMark (S.shows store.old) (S.shows store.new)) }
    ensures left { (S.shows store.new ≡ begun (S.shows store.old) session)
        ⊎ SameButMark (S.shows store.old) (S.shows store.new) }
    ensures goes { S.goes_on store.old store.new Going.keeps }
{
    let idle = store.number(session).is_none();
    if let Err(error) = store.begin(session) {
        return Reply::Refused(refusal_of(error));
    }
    match rows_seen(alloc, language, store, view_of(writer, session), statement) {
        Ok(rows) => Reply::Rows(rows),
        Err(refusal) => {
            take_back(store, session, idle);
            Reply::Refused(refusal)
        }
    }
}

/// The rows of a query over a version of the store.
fn rows_seen<S: Store, L: Language>(
    alloc: Global,
    language: &L,
    store: &mut S,
    view: View,
    statement: &Statement,
) -> Result<Rows, Refusal>
    ensures gives { IfOk result (λ rows. (rules : Rules) (x : OrderedQuery) → AreRules rules
        → statement.now ≡ asks.Query x → S.is_sound store.old
        → IsGood rules.check (database_of (seen_by (S.shows store.old) view))
        → GivesRows rules (database_of (seen_by (S.shows store.old) view)) x rows) }
    ensures refused { IfErr result (λ refusal. (rules : Rules) (x : OrderedQuery) → AreRules rules
        → statement.now ≡ asks.Query x → S.is_sound store.old
        → IsGood rules.check (database_of (seen_by (S.shows store.old) view))
        → RefusesQuery rules (database_of (seen_by (S.shows store.old) view)) x refusal) }
    ensures device { IfErr result (λ refusal. refusal ≡ Disk → HasRisen (S.refused store.old) (S.refused store.new)) }
    ensures limits { IfErr result TellsNoLimit }
    ensures shows { S.shows store.new ≡ S.shows store.old }
    ensures goes { S.goes_on store.old store.new Going.keeps }
{
    if let Err(error) = store.prepare(view) {
        return Err(refusal_of(error));
    }
    match typed_by(alloc, language, statement, store.schema()) {
        Ok(typed) => {
            let rows = evaluate(alloc, store, view, &typed);
            let_fall(typed);
            rows
        }
        Err(refusal) => Err(refusal),
    }
}

/// The rows of a typed query, by its plan.
fn evaluate<S: Store>(
    alloc: Global,
    store: &mut S,
    view: View,
    typed: &Typed,
) -> Result<Rows, Refusal>
    ensures answers { IfOk result (λ rows. (reading : CheckReading) (query : Query) → typed.now ≡ does.Query query
        → S.is_sound store.old → IsGood reading (database_of (seen_by (S.shows store.old) view))
        → IsSchemaOf (S.prepared store.old) (database_of (seen_by (S.shows store.old) view))
        → Answers (Ok rows) (denotes (database_of (seen_by (S.shows store.old) view)) query)) }
    ensures refused { IfErr result (λ refusal. (reading : CheckReading) (query : Query) → typed.now ≡ does.Query query
        → S.is_sound store.old → IsGood reading (database_of (seen_by (S.shows store.old) view))
        → IsSchemaOf (S.prepared store.old) (database_of (seen_by (S.shows store.old) view))
        → MayRefuse (denotes (database_of (seen_by (S.shows store.old) view)) query).unordered.faults refusal) }
    ensures device { IfErr result (λ refusal. refusal ≡ Disk → HasRisen (S.refused store.old) (S.refused store.new)) }
    ensures limits { IfErr result TellsNoLimit }
    ensures shows { S.shows store.new ≡ S.shows store.old }
    ensures goes { S.goes_on store.old store.new Going.reads }
{
    match typed {
        Typed::Query(query) => {
            let plan = match query_plan(alloc, store.schema(), query) {
                Ok(plan) => plan,
                Err(_) => return Err(Refusal::Memory),
            };
            let mut seen = Seen { store, view };
            let rows = answer(alloc, &mut seen, &plan);
            let_fall(plan);
            rows
        }
        _ => Err(Refusal::NotSupported),
    }
}
