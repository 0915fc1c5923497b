//! INSERT of rows that are given.
ghost use Rattle.std.specs.Prelude.{◌≡◌, ℕ, List, IfOk, IfErr, OnErr};
ghost use Rattle.std.specs.FinMap.{get};
ghost use Rattle.refusals.specs.declared.refusal.Refusal.TheVariants.{Disk};
ghost use Rattle.typing.specs.declared.statement.Change.TheVariants as does;
ghost use Rattle.typing.specs.declared.statement.InsertSource.{InsertSource};
ghost use Rattle.denote.specs.Database.{CheckReading, IsGood};
ghost use Rattle.store.specs.Contents.{database_of};
ghost use Rattle.store.specs.Errors.{HasRisen, StoringReaches};
ghost use Rattle.store.specs.Going.{Going};
ghost use Rattle.store.specs.Stored.{SameButMark};
ghost use Rattle.transactions.specs.Refused.{IfRefused, TellsReached};
ghost use Rattle.constraints.specs.Changed.{RefusesChange};
ghost use Rattle.constraints.specs.Settled.{Decided};
ghost use Rattle.table_changes.specs.Given.{AreGiven, HasAccepted, into};

use crate::deciding::known_to_hold;
use crate::reply::reply_for;
use constraints::{Checks, begin, rows_to_match, settle_came, settle_unless};
use denote::Rows;
use items::Text;
use refusals::Refusal;
use replies::Reply;
use std::alloc::Global;
use store::Store;
use transactions::refusal_of;

/// INSERT into the table of this name of a good database, where evaluation gave these rows: they
/// come to the end of the table, or it is refused: by a constraint that would be violated (23000),
/// for want of memory, by the device or by a limit of the store.
/// CHECKs are decided by what is given for them. It sets the mark. Where it is refused, all is as
/// it was, but for the mark.
pub fn insert_rows<S: Store, C: Checks>(
    alloc: Global,
    store: &mut S,
    table: &Text,
    rows: Rows,
    checks: &C,
) -> Result<Reply, Refusal>
    ensures changes { IfOk result (λ reply. (reading : CheckReading) (columns : List ℕ) (source : InsertSource)
        → S.is_sound store.old
        → Decided (C.decides checks.now reading) (database_of (S.shows store.old).working) table.now
        → IsGood reading (database_of (S.shows store.old).working)
        → AreGiven reading (database_of (S.shows store.old).working) (into table.now columns source) rows
        → HasAccepted reading (S.shows store.old) (does.Insert (into table.now columns source)) reply (S.shows store.new)) }
    ensures refused { IfErr result (λ refusal. (reading : CheckReading) (columns : List ℕ) (source : InsertSource)
        → S.is_sound store.old
        → Decided (C.decides checks.now reading) (database_of (S.shows store.old).working) table.now
        → IsGood reading (database_of (S.shows store.old).working)
        → AreGiven reading (database_of (S.shows store.old).working) (into table.now columns source) rows
        → RefusesChange reading (database_of (S.shows store.old).working) (does.Insert (into table.now columns source)) refusal) }
    ensures accepted { IfOk result (λ reply. IfRefused reply (λ refusal. ⊥)) }
    ensures limits { IfErr result (TellsReached (StoringReaches (S.counted store.new) (get (S.shows store.old).working table.now) rows)) }
    ensures device { IfErr result (λ refusal. refusal ≡ Disk → HasRisen (S.refused store.old) (S.refused store.new)) }
    ensures same { OnErr result (SameButMark (S.shows store.old) (S.shows store.new)) }
    ensures goes { S.goes_on store.old store.new Going.changes }
{
    if let Err(refusal) = begin(store) {
        return Err(refusal);
    }
    let known = match known_to_hold(alloc, store, table, rows.as_slice(), checks) {
        Ok(known) => known,
        Err(refusal) => return Err(refusal),
    };
    let came = match rows_to_match(alloc, store, table, rows.as_slice()) {
        Ok(came) => came,
        Err(refusal) => return Err(refusal),
    };
    let count = rows.len();
    if let Err(error) = store.append(table, rows) {
        return Err(refusal_of(error));
    }
    if let Err(refusal) = settle_unless(alloc, store, table, checks, known) {
        return Err(refusal);
    }
    match settle_came(alloc, store, table, &came) {
        Ok(()) => Ok(reply_for(count)),
        Err(refusal) => Err(refusal),
    }
}
