//! The rows of an INSERT of a query.
ghost use Rattle.std.specs.Prelude.{◌≡◌, [], List, Ok, Some, IfOk, IfErr};
ghost use Rattle.std.specs.FinMap.{get};
ghost use Rattle.refusals.specs.declared.refusal.Refusal.TheVariants.{Disk};
ghost use Rattle.sqlval.specs.Value.{Row as Given};
ghost use Rattle.typing.specs.declared.statement.Change.TheVariants as does;
ghost use Rattle.typing.specs.declared.statement.InsertSource.TheVariants as from;
ghost use Rattle.typing.specs.declared.typed.Query.{Query as Asked};
ghost use Rattle.denote.specs.Answer.{Answers};
ghost use Rattle.denote.specs.Database.{CheckReading, IsGood, Table, checks_of};
ghost use Rattle.denote.specs.Query.{denotes};
ghost use Rattle.denote.specs.SchemaOf.{IsSchemaOf};
ghost use Rattle.query_answers.specs.Planned.{IsPlanOf, unordered};
ghost use Rattle.query_answers.specs.Refused.{MayRefuse};
ghost use Rattle.query_answers.specs.Sources.{AreChecksOf};
ghost use Rattle.store.specs.Contents.{database_of};
ghost use Rattle.store.specs.Errors.{HasRisen};
ghost use Rattle.store.specs.Going.{Going};
ghost use Rattle.transactions.specs.Refused.{TellsNoLimit};
ghost use Rattle.constraints.specs.Changed.{RefusesChange};
ghost use Rattle.table_changes.specs.Given.{AreGiven};
ghost use Rattle.change.specs.Listed.{constants, constants_of};

use crate::value_rows::stored_rows;
use algebra::{Expression, Tree};
use check_constraints::TableChecks;
use denote::{Row, Rows};
use items::Items;
use query_answers::{LentTables, answer, unordered_plan};
use refusals::Refusal;
use std::alloc::{AllocError, Global};
use store::{Seen, Store, View};
use typing::{Insert, Query};

/// The rows of a query, by its plan, as the table is to hold them. The store is left as it was.
pub(crate) fn query_rows<S: Store>(
    alloc: Global,
    store: &mut S,
    insert: &Insert,
    query: &Query,
    checks: &TableChecks,
) -> Result<Rows, Refusal>
    ensures gives { IfOk result (λ rows. (reading : CheckReading) (table : Table) → S.is_sound store.old
        → IsSchemaOf (S.prepared store.old) (database_of (S.shows store.old).working)
        → IsGood reading (database_of (S.shows store.old).working)
        → get (database_of (S.shows store.old).working) insert.now.table ≡ Some table
        → AreChecksOf (checks_of reading insert.now.table table) checks.now.conditions
        → insert.now.source ≡ from.Query query.now
        → AreGiven reading (database_of (S.shows store.old).working) insert.now rows) }
    ensures refused { IfErr result (λ refusal. (reading : CheckReading) (table : Table) → S.is_sound store.old
        → IsSchemaOf (S.prepared store.old) (database_of (S.shows store.old).working)
        → IsGood reading (database_of (S.shows store.old).working)
        → get (database_of (S.shows store.old).working) insert.now.table ≡ Some table
        → AreChecksOf (checks_of reading insert.now.table table) checks.now.conditions
        → insert.now.source ≡ from.Query query.now
        → RefusesChange reading (database_of (S.shows store.old).working) (does.Insert insert.now) refusal) }
    ensures limits { IfErr result TellsNoLimit }
    ensures device { IfErr result (λ refusal. refusal ≡ Disk → HasRisen (S.refused store.old) (S.refused store.new)) }
    ensures shows { S.shows store.new ≡ S.shows store.old }
    ensures goes { S.goes_on store.old store.new Going.reads }
{
    let plan = match unordered_plan(alloc, store.schema(), query) {
        Ok(plan) => plan,
        Err(_) => return Err(Refusal::Memory),
    };
    match sources_of(alloc, store, &plan) {
        Ok(sources) => {
            let nothing = LentTables {
                tables: Items::new(alloc),
            };
            stored_rows(
                alloc,
                store.schema(),
                &insert.table,
                &insert.columns,
                checks,
                &nothing,
                sources.as_slice(),
            )
        }
        Err(refusal) => Err(refusal),
    }
}

/// The rows that a plan gives over the newest version, as sources. It is refused by a fault of the
/// query, and for what the store is refused for.
fn sources_of<S: Store>(
    alloc: Global,
    store: &mut S,
    plan: &Tree,
) -> Result<Items<Items<Expression>>, Refusal>
    ensures gives { IfOk result (λ sources. (rows : List Given) × (sources ≡ constants rows)
        × (S.is_sound store.old → (query : Asked) → IsPlanOf (S.shows store.old).working (unordered query) plan.now
        → Answers (Ok rows) (denotes (database_of (S.shows store.old).working) (unordered query)))) }
    ensures refused { IfErr result (λ refusal. S.is_sound store.old → (query : Asked)
        → IsPlanOf (S.shows store.old).working (unordered query) plan.now
        → MayRefuse (denotes (database_of (S.shows store.old).working) (unordered query)).unordered.faults refusal) }
    ensures limits { IfErr result TellsNoLimit }
    ensures device { IfErr result (λ refusal. refusal ≡ Disk → HasRisen (S.refused store.old) (S.refused store.new)) }
    ensures prepared { S.prepared store.new ≡ S.prepared store.old }
    ensures shows { S.shows store.new ≡ S.shows store.old }
    ensures goes { S.goes_on store.old store.new Going.reads }
{
    let mut seen = Seen {
        store,
        view: View::Working,
    };
    match answer(alloc, &mut seen, plan) {
        Ok(rows) => match constants(alloc, rows) {
            Ok(sources) => Ok(sources),
            Err(_) => Err(Refusal::Memory),
        },
        Err(refusal) => Err(refusal),
    }
}

/// Rows as sources, each value a constant.
pub(crate) fn constants(alloc: Global, rows: Rows) -> Result<Items<Items<Expression>>, AllocError>
    ensures { IfOk result (λ sources. sources ≡ constants rows) }
{
    let mut sources = Items::new(alloc);
    for row in rows.into_vec() {
        sources.push(constants_of(alloc, row)?)?;
    }
    Ok(sources)
}

fn constants_of(alloc: Global, row: Row) -> Result<Items<Expression>, AllocError>
    ensures { IfOk result (λ sources. sources ≡ constants_of row) }
{
    let mut sources = Items::new(alloc);
    for value in row.into_vec() {
        sources.push(Expression::Constant(value))?;
    }
    Ok(sources)
}
