//! DELETE.
ghost use Rattle.std.specs.Prelude.{◌≡◌, [], IfOk, IfErr, IfSome, OnErr};
ghost use Rattle.std.specs.FinMap.{get};
ghost use Rattle.refusals.specs.declared.refusal.Refusal.TheVariants.{Disk};
ghost use Rattle.typing.specs.declared.statement.Change.TheVariants as does;
ghost use Rattle.denote.specs.Database.{CheckReading, IsGood, rows_in};
ghost use Rattle.denote.specs.SchemaOf.{IsSchemaOf};
ghost use Rattle.transactions.specs.Refused.{IfRefused, TellsNoLimit, TellsReached};
ghost use Rattle.store.specs.Contents.{Contents, database_of};
ghost use Rattle.store.specs.Errors.{ChangingReaches, HasRisen};
ghost use Rattle.store.specs.Going.{Going};
ghost use Rattle.store.specs.Stored.{SameButMark};
ghost use Rattle.tree_tables.specs.TablesRead.{Agree};
ghost use Rattle.query_answers.specs.Lent.{rows_lent};
ghost use Rattle.constraints.specs.Changed.{HasChanged, RefusesChange};
ghost use Rattle.constraints.specs.Settled.{Decided};
ghost use Rattle.update_delete.specs.Statements.{IsFilterOf, tables_in_filter};
ghost use Rattle.update_delete.specs.Candidates.{AreCandidates};
ghost use Rattle.update_delete.specs.Plans.{IsPlanned};
ghost use Rattle.update_delete.specs.RowChanges.{rows_new};

use crate::candidates::candidates;
use crate::carrying::carry_out;
use crate::deleting::deletions;
use crate::planned::{Planned, planned_for};
use crate::reading::lent_to_delete;
use crate::trees::filter_tree;
use algebra::Condition;
use constraints::{Checks, refusal_of_stop, table_named};
use query_answers::LentTables;
use refusals::Refusal;
use replies::Reply;
use sqlval::Schema;
use std::alloc::Global;
use store::{Numbered, Store};
use typing::Delete;

/// DELETE from a table of a good database: the rows that its condition touches go. The condition
/// sees the tables as they were. It is refused by a fault of its evaluation over all rows, or else
/// by a foreign key that would be violated (23000); for want of memory, by the device or by a limit
/// of the store. Whether a CHECK is violated is decided by `checks`. It sets the mark. Where it is
/// refused, all is as it was, but for the mark.
pub fn delete_rows<S: Store, C: Checks>(
    alloc: Global,
    store: &mut S,
    delete: &Delete,
    checks: &C,
) -> Result<Reply, Refusal>
    ensures changes { IfOk result (λ reply. (reading : CheckReading) → S.is_sound store.old
        → IsSchemaOf (S.prepared store.old) (database_of (S.shows store.old).working)
        → Decided (C.decides checks.now reading) (database_of (S.shows store.old).working) delete.now.table
        → IsGood reading (database_of (S.shows store.old).working)
        → HasChanged reading (S.shows store.old) (does.Delete delete.now) reply (S.shows store.new)) }
    ensures refused { IfErr result (λ refusal. (reading : CheckReading) → S.is_sound store.old
        → IsSchemaOf (S.prepared store.old) (database_of (S.shows store.old).working)
        → Decided (C.decides checks.now reading) (database_of (S.shows store.old).working) delete.now.table
        → IsGood reading (database_of (S.shows store.old).working)
        → RefusesChange reading (database_of (S.shows store.old).working) (does.Delete delete.now) refusal) }
    ensures accepted { IfOk result (λ reply. IfRefused reply (λ refusal. ⊥)) }
    ensures limits { IfErr result (TellsReached (ChangingReaches (S.counted store.new))) }
    ensures device { IfErr result (λ refusal. refusal ≡ Disk → HasRisen (S.refused store.old) (S.refused store.new)) }
    ensures same { OnErr result (SameButMark (S.shows store.old) (S.shows store.new)) }
    ensures goes { S.goes_on store.old store.new Going.changes }
{
    match planned_deletion(alloc, store, delete) {
        Ok(Some(planned)) => carry_out(alloc, store, &delete.table, planned, checks),
        Ok(None) => Ok(Reply::Unchanged),
        Err(refusal) => Err(refusal),
    }
}

/// What becomes of the rows that the condition may touch, where the others stay; nothing where no
/// table has the name. The store is left as it was.
fn planned_deletion<S: Store>(
    alloc: Global,
    store: &mut S,
    delete: &Delete,
) -> Result<Option<Planned>, Refusal>
    ensures planned { IfOk result (λ planned. (reading : CheckReading) → S.is_sound store.old
        → IsSchemaOf (S.prepared store.old) (database_of (S.shows store.old).working)
        → IsGood reading (database_of (S.shows store.old).working)
        → IsPlanned reading (S.shows store.old).working (does.Delete delete.now) delete.now.table planned) }
    ensures spares { IfOk result (λ planned. IfSome planned (λ p. rows_new p.changes ≡ [])) }
    ensures refused { IfErr result (λ refusal. (reading : CheckReading) → S.is_sound store.old
        → IsSchemaOf (S.prepared store.old) (database_of (S.shows store.old).working)
        → IsGood reading (database_of (S.shows store.old).working)
        → RefusesChange reading (database_of (S.shows store.old).working) (does.Delete delete.now) refusal) }
    ensures limits { IfErr result TellsNoLimit }
    ensures device { IfErr result (λ refusal. refusal ≡ Disk → HasRisen (S.refused store.old) (S.refused store.new)) }
    ensures shows { S.shows store.new ≡ S.shows store.old }
    ensures goes { S.goes_on store.old store.new Going.reads }
{
    let filter = match filter_tree(alloc, store.schema(), &delete.filter) {
        Ok(filter) => filter,
        Err(_) => return Err(Refusal::Memory),
    };
    let lent = match lent_to_delete(alloc, store, &filter) {
        Ok(lent) => lent,
        Err(refusal) => return Err(refusal),
    };
    let found = match candidates(alloc, store, &delete.table, &filter) {
        Ok(found) => found,
        Err(refusal) => return Err(refusal),
    };
    all_deletions(alloc, store.schema(), delete, &filter, &lent, found)
}

/// What becomes of the rows that were found.
fn all_deletions(
    alloc: Global,
    schema: &Schema,
    delete: &Delete,
    filter: &Option<Condition>,
    lent: &LentTables,
    found: Numbered,
) -> Result<Option<Planned>, Refusal>
    ensures planned { IfOk result (λ planned. (reading : CheckReading) (c : Contents)
        → IsSchemaOf schema.now (database_of c)
        → IsFilterOf (rows_in (database_of c)) delete.now.filter filter.now
        → Agree (rows_lent lent.now.tables) (rows_in (database_of c)) (tables_in_filter filter.now)
        → AreCandidates (get c delete.now.table) filter.now found
        → IsPlanned reading c (does.Delete delete.now) delete.now.table planned) }
    ensures spares { IfOk result (λ planned. IfSome planned (λ p. rows_new p.changes ≡ [])) }
    ensures refused { IfErr result (λ refusal. (reading : CheckReading) (c : Contents)
        → IsSchemaOf schema.now (database_of c)
        → IsFilterOf (rows_in (database_of c)) delete.now.filter filter.now
        → Agree (rows_lent lent.now.tables) (rows_in (database_of c)) (tables_in_filter filter.now)
        → AreCandidates (get c delete.now.table) filter.now found
        → RefusesChange reading (database_of c) (does.Delete delete.now) refusal) }
    ensures limits { IfErr result TellsNoLimit }
    ensures device { IfErr result (λ refusal. refusal ≡ Disk → ⊥) }
{
    let Some(_) = table_named(schema, &delete.table) else {
        return Ok(None);
    };
    let Numbered { numbers, rows } = found;
    match deletions(alloc, lent, filter, rows.as_slice()) {
        Ok(changes) => planned_for(alloc, numbers, rows, changes, true),
        Err(stop) => Err(refusal_of_stop(stop)),
    }
}
