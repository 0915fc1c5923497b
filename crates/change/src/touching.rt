//! UPDATE and DELETE.
ghost use Rattle.std.specs.Prelude.{◌≡◌, IfOk, IfErr, OnErr};
ghost use Rattle.std.specs.FinMap.{get};
ghost use Rattle.refusals.specs.declared.refusal.Refusal.TheVariants.{Disk};
ghost use Rattle.typing.specs.Check.{IsCheckReading};
ghost use Rattle.typing.specs.declared.statement.Change.TheVariants as does;
ghost use Rattle.denote.specs.Database.{CheckReading, IsGood};
ghost use Rattle.denote.specs.SchemaOf.{IsSchemaOf};
ghost use Rattle.transactions.specs.Refused.{IfRefused, TellsReached};
ghost use Rattle.store.specs.Contents.{database_of};
ghost use Rattle.store.specs.Errors.{ChangingReaches, HasRisen};
ghost use Rattle.store.specs.Going.{Going};
ghost use Rattle.store.specs.Stored.{SameButMark};
ghost use Rattle.constraints.specs.Changed.{HasChanged, RefusesChange};
ghost use Rattle.update_delete.specs.Reached.{IsNumberedOut, ReplacingReaches};

use crate::named_checks::named_checks;
use refusals::Refusal;
use replies::Reply;
use std::alloc::Global;
use store::Store;
use typing::{Delete, Update};
use update_delete::{delete_rows, update_rows};

/// UPDATE. A name that does not stand, which the rules of names exclude, is refused as for want of
/// memory; a CHECK whose text cannot be read is `Damaged`.
pub(crate) fn update<S: Store>(
    alloc: Global,
    store: &mut S,
    update: &Update,
) -> Result<Reply, Refusal>
    ensures changes { IfOk result (λ reply. (reading : CheckReading) → IsCheckReading reading → S.is_sound store.old
        → IsSchemaOf (S.prepared store.old) (database_of (S.shows store.old).working)
        → IsGood reading (database_of (S.shows store.old).working)
        → HasChanged reading (S.shows store.old) (does.Update update.now) reply (S.shows store.new)) }
    ensures refused { IfErr result (λ refusal. (reading : CheckReading) → IsCheckReading reading → S.is_sound store.old
        → IsSchemaOf (S.prepared store.old) (database_of (S.shows store.old).working)
        → IsGood reading (database_of (S.shows store.old).working)
        → RefusesChange reading (database_of (S.shows store.old).working) (does.Update update.now) refusal) }
    ensures accepted { IfOk result (λ reply. IfRefused reply (λ refusal. ⊥)) }
    ensures limits { IfErr result (TellsReached (ReplacingReaches (S.counted store.new) (S.is_sound store.old
        → IsNumberedOut (get (S.shows store.old).working update.now.table)))) }
    ensures device { IfErr result (λ refusal. refusal ≡ Disk → HasRisen (S.refused store.old) (S.refused store.new)) }
    ensures same { OnErr result (SameButMark (S.shows store.old) (S.shows store.new)) }
    ensures goes { S.goes_on store.old store.new Going.changes }
{
    match named_checks(alloc, store.schema(), &update.table) {
        Ok(checks) => update_rows(alloc, store, update, checks.conditions.as_slice(), &checks),
        Err(refusal) => Err(refusal),
    }
}

/// DELETE. A name that does not stand, which the rules of names exclude, is refused as for want of
/// memory; a CHECK whose text cannot be read is `Damaged`.
pub(crate) fn delete<S: Store>(
    alloc: Global,
    store: &mut S,
    delete: &Delete,
) -> Result<Reply, Refusal>
    ensures changes { IfOk result (λ reply. (reading : CheckReading) → IsCheckReading reading → S.is_sound store.old
        → IsSchemaOf (S.prepared store.old) (database_of (S.shows store.old).working)
        → IsGood reading (database_of (S.shows store.old).working)
        → HasChanged reading (S.shows store.old) (does.Delete delete.now) reply (S.shows store.new)) }
    ensures refused { IfErr result (λ refusal. (reading : CheckReading) → IsCheckReading reading → S.is_sound store.old
        → IsSchemaOf (S.prepared store.old) (database_of (S.shows store.old).working)
        → IsGood reading (database_of (S.shows store.old).working)
        → RefusesChange reading (database_of (S.shows store.old).working) (does.Delete delete.now) refusal) }
    ensures accepted { IfOk result (λ reply. IfRefused reply (λ refusal. ⊥)) }
    ensures limits { IfErr result (TellsReached (ChangingReaches (S.counted store.new))) }
    ensures device { IfErr result (λ refusal. refusal ≡ Disk → HasRisen (S.refused store.old) (S.refused store.new)) }
    ensures same { OnErr result (SameButMark (S.shows store.old) (S.shows store.new)) }
    ensures goes { S.goes_on store.old store.new Going.changes }
{
    match named_checks(alloc, store.schema(), &delete.table) {
        Ok(checks) => delete_rows(alloc, store, delete, &checks),
        Err(refusal) => Err(refusal),
    }
}
