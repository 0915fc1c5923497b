//! UPDATE.
ghost use Rattle.std.specs.Prelude.{◌≡◌, IfOk, IfErr, OnErr};
ghost use Rattle.std.specs.FinMap.{get};
ghost use Rattle.refusals.specs.declared.refusal.Refusal.TheVariants.{Disk};
ghost use Rattle.typing.specs.declared.statement.Change.TheVariants as does;
ghost use Rattle.denote.specs.Database.{CheckReading, IsGood, rows_in};
ghost use Rattle.denote.specs.SchemaOf.{IsSchemaOf};
ghost use Rattle.transactions.specs.Refused.{IfRefused, TellsNoLimit, TellsReached};
ghost use Rattle.store.specs.Contents.{Contents, database_of};
ghost use Rattle.store.specs.Errors.{HasRisen};
ghost use Rattle.store.specs.Going.{Going};
ghost use Rattle.store.specs.Stored.{SameButMark};
ghost use Rattle.tree_tables.specs.TablesRead.{Agree};
ghost use Rattle.query_answers.specs.Lent.{rows_lent};
ghost use Rattle.constraints.specs.Changed.{HasChanged, RefusesChange};
ghost use Rattle.constraints.specs.Settled.{Decided};
ghost use Rattle.update_delete.specs.Statements.{IsUpdateOf, tables_in_update};
ghost use Rattle.update_delete.specs.Checked.{AreChecksFor};
ghost use Rattle.update_delete.specs.Candidates.{AreCandidates};
ghost use Rattle.update_delete.specs.Plans.{IsPlanned};
ghost use Rattle.update_delete.specs.Reached.{IsNumberedOut, ReplacingReaches};

use crate::candidates::candidates;
use crate::carrying::carry_out;
use crate::change::RowUpdate;
use crate::harmless::are_harmless;
use crate::planned::{Planned, planned_for};
use crate::reading::lent_to_update;
use crate::trees::update_trees;
use crate::updating::updates;
use algebra::Condition;
use constraints::{Checks, refusal_of_stop, table_named};
use query_answers::LentTables;
use refusals::Refusal;
use replies::Reply;
use sqlval::Schema;
use std::alloc::Global;
use store::{Numbered, Store};
use typing::Update;

/// UPDATE of a table of a good database: each row that its condition touches gets the values of its
/// sources, all at once, and where no row is touched nothing changes. Conditions and sources see
/// the tables as they were. It is refused by a fault of its evaluation over all rows, or else by a
/// constraint that the table would violate (23000); for want of memory, by the device or by a limit
/// of the store. `trees` are those of the conditions of the table's CHECKs, which are evaluated at
/// each new row; whether one is violated is decided by `checks`. It sets the mark. Where it is
/// refused, all is as it was, but for the mark.
pub fn update_rows<S: Store, C: Checks>(
    alloc: Global,
    store: &mut S,
    update: &Update,
    trees: &[Condition],
    checks: &C,
) -> Result<Reply, Refusal>
    ensures changes { IfOk result (λ reply. (reading : CheckReading) → S.is_sound store.old
        → IsSchemaOf (S.prepared store.old) (database_of (S.shows store.old).working)
        → Decided (C.decides checks.now reading) (database_of (S.shows store.old).working) update.now.table
        → AreChecksFor reading (database_of (S.shows store.old).working) update.now.table trees.now
        → IsGood reading (database_of (S.shows store.old).working)
        → HasChanged reading (S.shows store.old) (does.Update update.now) reply (S.shows store.new)) }
    ensures refused { IfErr result (λ refusal. (reading : CheckReading) → S.is_sound store.old
        → IsSchemaOf (S.prepared store.old) (database_of (S.shows store.old).working)
        → Decided (C.decides checks.now reading) (database_of (S.shows store.old).working) update.now.table
        → AreChecksFor reading (database_of (S.shows store.old).working) update.now.table trees.now
        → IsGood reading (database_of (S.shows store.old).working)
        → RefusesChange reading (database_of (S.shows store.old).working) (does.Update update.now) refusal) }
    ensures accepted { IfOk result (λ reply. IfRefused reply (λ refusal. ⊥)) }
    ensures limits { IfErr result (TellsReached (ReplacingReaches (S.counted store.new) (S.is_sound store.old
        → IsNumberedOut (get (S.shows store.old).working update.now.table)))) }
    ensures device { IfErr result (λ refusal. refusal ≡ Disk → HasRisen (S.refused store.old) (S.refused store.new)) }
    ensures same { OnErr result (SameButMark (S.shows store.old) (S.shows store.new)) }
    ensures goes { S.goes_on store.old store.new Going.changes }
{
    match planned_update(alloc, store, update, trees, checks) {
        Ok(Some(planned)) => carry_out(alloc, store, &update.table, planned, checks),
        Ok(None) => Ok(Reply::Unchanged),
        Err(refusal) => Err(refusal),
    }
}

/// What becomes of the rows that the condition may touch, where the others stay; nothing where no
/// table has the name. The store is left as it was.
fn planned_update<S: Store, C: Checks>(
    alloc: Global,
    store: &mut S,
    update: &Update,
    trees: &[Condition],
    checks: &C,
) -> Result<Option<Planned>, Refusal>
    ensures planned { IfOk result (λ planned. (reading : CheckReading) → S.is_sound store.old
        → IsSchemaOf (S.prepared store.old) (database_of (S.shows store.old).working)
        → Decided (C.decides checks.now reading) (database_of (S.shows store.old).working) update.now.table
        → AreChecksFor reading (database_of (S.shows store.old).working) update.now.table trees.now
        → IsGood reading (database_of (S.shows store.old).working)
        → IsPlanned reading (S.shows store.old).working (does.Update update.now) update.now.table planned) }
    ensures refused { IfErr result (λ refusal. (reading : CheckReading) → S.is_sound store.old
        → IsSchemaOf (S.prepared store.old) (database_of (S.shows store.old).working)
        → AreChecksFor reading (database_of (S.shows store.old).working) update.now.table trees.now
        → IsGood reading (database_of (S.shows store.old).working)
        → RefusesChange reading (database_of (S.shows store.old).working) (does.Update update.now) refusal) }
    ensures limits { IfErr result TellsNoLimit }
    ensures device { IfErr result (λ refusal. refusal ≡ Disk → HasRisen (S.refused store.old) (S.refused store.new)) }
    ensures shows { S.shows store.new ≡ S.shows store.old }
    ensures goes { S.goes_on store.old store.new Going.reads }
{
    let made = match update_trees(alloc, store.schema(), update) {
        Ok(made) => made,
        Err(_) => return Err(Refusal::Memory),
    };
    let lent = match lent_to_update(alloc, store, &made) {
        Ok(lent) => lent,
        Err(refusal) => return Err(refusal),
    };
    let found = match candidates(alloc, store, &update.table, &made.filter) {
        Ok(found) => found,
        Err(refusal) => return Err(refusal),
    };
    all_updates(
        alloc,
        store.schema(),
        update,
        trees,
        checks,
        &made,
        &lent,
        found,
    )
}

/// What becomes of the rows that were found.
fn all_updates<C: Checks>(
    alloc: Global,
    schema: &Schema,
    update: &Update,
    trees: &[Condition],
    checks: &C,
    made: &RowUpdate,
    lent: &LentTables,
    found: Numbered,
) -> Result<Option<Planned>, Refusal>
    ensures planned { IfOk result (λ planned. (reading : CheckReading) (c : Contents)
        → IsSchemaOf schema.now (database_of c)
        → Decided (C.decides checks.now reading) (database_of c) update.now.table
        → AreChecksFor reading (database_of c) update.now.table trees.now
        → IsUpdateOf (rows_in (database_of c)) update.now made.now
        → Agree (rows_lent lent.now.tables) (rows_in (database_of c)) (tables_in_update made.now)
        → AreCandidates (get c update.now.table) made.now.filter found
        → IsPlanned reading c (does.Update update.now) update.now.table planned) }
    ensures refused { IfErr result (λ refusal. (reading : CheckReading) (c : Contents)
        → IsSchemaOf schema.now (database_of c) → AreChecksFor reading (database_of c) update.now.table trees.now
        → IsUpdateOf (rows_in (database_of c)) update.now made.now
        → Agree (rows_lent lent.now.tables) (rows_in (database_of c)) (tables_in_update made.now)
        → AreCandidates (get c update.now.table) made.now.filter found
        → RefusesChange reading (database_of c) (does.Update update.now) refusal) }
    ensures limits { IfErr result TellsNoLimit }
    ensures device { IfErr result (λ refusal. refusal ≡ Disk → ⊥) }
{
    let Some(table) = table_named(schema, &update.table) else {
        return Ok(None);
    };
    let Numbered { numbers, rows } = found;
    match updates(alloc, lent, table, trees, made, rows.as_slice()) {
        Ok(changes) => match are_harmless(alloc, table, checks, &rows, &changes) {
            Ok(harmless) => planned_for(alloc, numbers, rows, changes, harmless),
            Err(refusal) => Err(refusal),
        },
        Err(stop) => Err(refusal_of_stop(stop)),
    }
}
