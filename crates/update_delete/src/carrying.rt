//! What becomes of the rows of a table is made, and the table is decided on as a whole.
ghost use Rattle.std.specs.Prelude.{◌≡◌, IfOk, IfErr, OnErr};
ghost use Rattle.std.specs.FinMap.{get};
ghost use Rattle.refusals.specs.declared.refusal.Refusal.TheVariants.{Disk};
ghost use Rattle.typing.specs.declared.statement.Change.{Change};
ghost use Rattle.denote.specs.Database.{CheckReading, IsGood};
ghost use Rattle.transactions.specs.Refused.{IfRefused, TellsReached};
ghost use Rattle.store.specs.Contents.{database_of};
ghost use Rattle.store.specs.Errors.{HasRisen};
ghost use Rattle.store.specs.Going.{Going};
ghost use Rattle.store.specs.Stored.{SameButMark};
ghost use Rattle.constraints.specs.Changed.{HasChanged, RefusesChange};
ghost use Rattle.constraints.specs.Settled.{Decided};
ghost use Rattle.update_delete.specs.Plans.{IsMeant, IsHarmless};
ghost use Rattle.update_delete.specs.Reached.{IsNumberedOut, MakingReaches};

use crate::making::{make_changes, touched};
use crate::new_rows::{rows_moved, rows_to_look_up, settle_new};
use crate::planned::Planned;
use crate::reply::reply_for;
use constraints::{Checks, begin, settle_moved};
use items::Text;
use refusals::Refusal;
use replies::Reply;
use std::alloc::Global;
use store::Store;

/// Makes of the rows of a table of a good database what is planned: all of it, where the database
/// then violates no constraint; else nothing. The table is not looked at where what is planned is
/// sure to be harmless; where few rows change, only these are, and the keys of the new ones are
/// looked up; else all of it is. Then foreign keys are asked, of the rows that came and of those
/// that went. It sets the mark. It is refused by a constraint that would be violated (23000), for
/// want of memory, by the device or by a limit of the store.
pub(crate) fn carry_out<S: Store, C: Checks>(
    alloc: Global,
    store: &mut S,
    name: &Text,
    planned: Planned,
    checks: &C,
) -> Result<Reply, Refusal>
    ensures changes { IfOk result (λ reply. (reading : CheckReading) (change : Change) → S.is_sound store.old
        → Decided (C.decides checks.now reading) (database_of (S.shows store.old).working) name.now
        → IsGood reading (database_of (S.shows store.old).working)
        → IsHarmless reading (S.shows store.old).working change name.now planned
        → HasChanged reading (S.shows store.old) change reply (S.shows store.new)) }
    ensures refused { IfErr result (λ refusal. (reading : CheckReading) (change : Change) → S.is_sound store.old
        → Decided (C.decides checks.now reading) (database_of (S.shows store.old).working) name.now
        → IsMeant reading (S.shows store.old).working change name.now planned
        → RefusesChange reading (database_of (S.shows store.old).working) change refusal) }
    ensures accepted { IfOk result (λ reply. IfRefused reply (λ refusal. ⊥)) }
    ensures limits { IfErr result (TellsReached (MakingReaches (S.counted store.new) planned.changes (S.is_sound store.old
        → IsNumberedOut (get (S.shows store.old).working name.now)))) }
    ensures device { IfErr result (λ refusal. refusal ≡ Disk → HasRisen (S.refused store.old) (S.refused store.new)) }
    ensures same { OnErr result (SameButMark (S.shows store.old) (S.shows store.new)) }
    ensures goes { S.goes_on store.old store.new Going.changes }
{
    let Planned {
        numbers,
        changes,
        gone,
        harmless,
    } = planned;
    let count = touched(changes.as_slice());
    let rows = match rows_to_look_up(alloc, store, name, harmless, count, changes.as_slice()) {
        Ok(rows) => rows,
        Err(refusal) => return Err(refusal),
    };
    let moved = match rows_moved(alloc, store, name, changes.as_slice(), gone) {
        Ok(moved) => moved,
        Err(refusal) => return Err(refusal),
    };
    if let Err(refusal) = begin(store) {
        return Err(refusal);
    }
    if let Err(refusal) = make_changes(store, name, numbers.as_slice(), changes) {
        return Err(refusal);
    }
    if let Err(refusal) = settle_new(alloc, store, name, checks, harmless, &rows) {
        return Err(refusal);
    }
    match settle_moved(alloc, store, name, &moved) {
        Ok(()) => Ok(reply_for(count)),
        Err(refusal) => Err(refusal),
    }
}
