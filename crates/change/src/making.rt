//! A change.
ghost use Rattle.std.specs.Prelude.{◌≡◌, IfOk, IfErr, OnErr};
ghost use Rattle.refusals.specs.declared.refusal.Refusal.TheVariants.{Disk};
ghost use Rattle.typing.specs.Check.{IsCheckReading};
ghost use Rattle.denote.specs.Database.{CheckReading, IsGood};
ghost use Rattle.denote.specs.SchemaOf.{IsSchemaOf};
ghost use Rattle.transactions.specs.Refused.{IfRefused, TellsReached};
ghost use Rattle.store.specs.Contents.{database_of};
ghost use Rattle.store.specs.Errors.{HasRisen};
ghost use Rattle.store.specs.Going.{Going};
ghost use Rattle.store.specs.Stored.{SameButMark};
ghost use Rattle.constraints.specs.Changed.{RefusesChange};
ghost use Rattle.table_changes.specs.Given.{HasAccepted};
ghost use Rattle.change.specs.Reached.{ChangeReaches};

use crate::insert::insert;
use crate::touching::{delete, update};
use refusals::Refusal;
use replies::Reply;
use std::alloc::Global;
use store::Store;
use table_changes::{create_index, create_table, drop_index, drop_table};
use typing::Change;

/// Carries out a change of the newest version, whose schema is the one that is ready and whose
/// database is good: so keys may be looked up where few rows come. It sets the mark, and a refusal
/// leaves all as it was, but for the mark.
pub fn make<S: Store>(alloc: Global, store: &mut S, change: Change) -> Result<Reply, Refusal>
    ensures changes { IfOk result (λ reply. (reading : CheckReading) → IsCheckReading reading → S.is_sound store.old
        → IsSchemaOf (S.prepared store.old) (database_of (S.shows store.old).working)
        → IsGood reading (database_of (S.shows store.old).working)
        → HasAccepted reading (S.shows store.old) change reply (S.shows store.new)) }
    ensures refused { IfErr result (λ refusal. (reading : CheckReading) → IsCheckReading reading → S.is_sound store.old
        → IsSchemaOf (S.prepared store.old) (database_of (S.shows store.old).working)
        → IsGood reading (database_of (S.shows store.old).working)
        → RefusesChange reading (database_of (S.shows store.old).working) change refusal) }
    ensures accepted { IfOk result (λ reply. IfRefused reply (λ refusal. ⊥)) }
    ensures limits { IfErr result (TellsReached (ChangeReaches (S.counted store.new) (S.is_sound store.old) (S.prepared store.old) (S.shows store.old).working change)) }
    ensures device { IfErr result (λ refusal. refusal ≡ Disk → HasRisen (S.refused store.old) (S.refused store.new)) }
    ensures same { OnErr result (SameButMark (S.shows store.old) (S.shows store.new)) }
    ensures goes { S.goes_on store.old store.new Going.changes }
{
    match change {
        Change::CreateTable(table) => create_table(alloc, store, table),
        Change::DropTable(name) => drop_table(store, &name),
        Change::CreateIndex(index) => create_index(alloc, store, index),
        Change::DropIndex(name) => drop_index(store, &name),
        Change::Insert(inserted) => insert(alloc, store, &inserted),
        Change::Update(updated) => update(alloc, store, &updated),
        Change::Delete(deleted) => delete(alloc, store, &deleted),
    }
}
