//! INSERT.
ghost use Rattle.std.specs.Prelude.{◌≡◌, Some, IfOk, IfErr, OnErr};
ghost use Rattle.std.specs.FinMap.{get};
ghost use Rattle.refusals.specs.declared.refusal.Refusal.TheVariants.{Disk};
ghost use Rattle.typing.specs.Check.{IsCheckReading};
ghost use Rattle.typing.specs.declared.statement.Change.TheVariants as does;
ghost use Rattle.denote.specs.Database.{CheckReading, IsGood, Table, checks_of};
ghost use Rattle.denote.specs.SchemaOf.{IsSchemaOf};
ghost use Rattle.query_answers.specs.Sources.{AreChecksOf};
ghost use Rattle.transactions.specs.Refused.{IfRefused, TellsNoLimit, TellsReached};
ghost use Rattle.store.specs.Contents.{database_of};
ghost use Rattle.store.specs.Errors.{HasRisen};
ghost use Rattle.store.specs.Going.{Going};
ghost use Rattle.store.specs.Stored.{SameButMark};
ghost use Rattle.constraints.specs.Changed.{RefusesChange};
ghost use Rattle.table_changes.specs.Given.{AreGiven, HasAccepted};
ghost use Rattle.change.specs.Reached.{ChangeReaches};

use crate::named_checks::named_checks;
use crate::query_rows::query_rows;
use crate::value_rows::value_rows;
use check_constraints::TableChecks;
use denote::Rows;
use refusals::Refusal;
use replies::Reply;
use std::alloc::Global;
use store::Store;
use table_changes::insert_rows;
use typing::{Insert, InsertSource};

/// INSERT of VALUES or of a query. All its rows are evaluated before the first is stored. A name
/// that does not stand, which the rules of names exclude, is refused as for want of memory; a CHECK
/// whose text cannot be read is `Damaged`.
pub(crate) fn insert<S: Store>(
    alloc: Global,
    store: &mut S,
    insert: &Insert,
) -> Result<Reply, Refusal>
    ensures changes { IfOk result (λ reply. (reading : CheckReading) → IsCheckReading reading → S.is_sound store.old
        → IsSchemaOf (S.prepared store.old) (database_of (S.shows store.old).working)
        → IsGood reading (database_of (S.shows store.old).working)
        → HasAccepted reading (S.shows store.old) (does.Insert insert.now) reply (S.shows store.new)) }
    ensures refused { IfErr result (λ refusal. (reading : CheckReading) → IsCheckReading reading → S.is_sound store.old
        → IsSchemaOf (S.prepared store.old) (database_of (S.shows store.old).working)
        → IsGood reading (database_of (S.shows store.old).working)
        → RefusesChange reading (database_of (S.shows store.old).working) (does.Insert insert.now) refusal) }
    ensures accepted { IfOk result (λ reply. IfRefused reply (λ refusal. ⊥)) }
    ensures limits { IfErr result (TellsReached (ChangeReaches (S.counted store.new) (S.is_sound store.old) (S.prepared store.old) (S.shows store.old).working (does.Insert insert.now))) }
    ensures device { IfErr result (λ refusal. refusal ≡ Disk → HasRisen (S.refused store.old) (S.refused store.new)) }
    ensures same { OnErr result (SameButMark (S.shows store.old) (S.shows store.new)) }
    ensures goes { S.goes_on store.old store.new Going.changes }
{
    let checks = match named_checks(alloc, store.schema(), &insert.table) {
        Ok(checks) => checks,
        Err(refusal) => return Err(refusal),
    };
    match rows_of(alloc, store, insert, &checks) {
        Ok(rows) => insert_rows(alloc, store, &insert.table, rows, &checks),
        Err(refusal) => Err(refusal),
    }
}

/// The rows that are stored. The store is left as it was.
fn rows_of<S: Store>(
    alloc: Global,
    store: &mut S,
    insert: &Insert,
    checks: &TableChecks,
) -> Result<Rows, Refusal>
    ensures gives { IfOk result (λ rows. (reading : CheckReading) (table : Table) → S.is_sound store.old
        → IsSchemaOf (S.prepared store.old) (database_of (S.shows store.old).working)
        → IsGood reading (database_of (S.shows store.old).working)
        → get (database_of (S.shows store.old).working) insert.now.table ≡ Some table
        → AreChecksOf (checks_of reading insert.now.table table) checks.now.conditions
        → AreGiven reading (database_of (S.shows store.old).working) insert.now rows) }
    ensures refused { IfErr result (λ refusal. (reading : CheckReading) (table : Table) → S.is_sound store.old
        → IsSchemaOf (S.prepared store.old) (database_of (S.shows store.old).working)
        → IsGood reading (database_of (S.shows store.old).working)
        → get (database_of (S.shows store.old).working) insert.now.table ≡ Some table
        → AreChecksOf (checks_of reading insert.now.table table) checks.now.conditions
        → RefusesChange reading (database_of (S.shows store.old).working) (does.Insert insert.now) refusal) }
    ensures limits { IfErr result TellsNoLimit }
    ensures device { IfErr result (λ refusal. refusal ≡ Disk → HasRisen (S.refused store.old) (S.refused store.new)) }
    ensures shows { S.shows store.new ≡ S.shows store.old }
    ensures goes { S.goes_on store.old store.new Going.reads }
{
    match &insert.source {
        InsertSource::Values(values) => value_rows(alloc, store, insert, values.as_slice(), checks),
        InsertSource::Query(query) => query_rows(alloc, store, insert, query, checks),
    }
}
