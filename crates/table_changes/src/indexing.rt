//! CREATE INDEX.
ghost use Rattle.std.specs.Prelude.{◌≡◌, Some, None, IfOk, IfErr, OnErr};
ghost use Rattle.refusals.specs.declared.refusal.Refusal.TheVariants.{Disk};
ghost use Rattle.typing.specs.declared.statement.Change.TheVariants as does;
ghost use Rattle.denote.specs.Database.{CheckReading};
ghost use Rattle.denote.specs.SchemaOf.{IsSchemaOf};
ghost use Rattle.store.specs.Contents.{database_of};
ghost use Rattle.store.specs.Errors.{ChangingReaches, HasRisen};
ghost use Rattle.store.specs.Going.{Going};
ghost use Rattle.store.specs.Stored.{SameButMark};
ghost use Rattle.transactions.specs.Refused.{IfRefused, TellsReached};
ghost use Rattle.constraints.specs.Changed.{HasChanged, RefusesChange};
ghost use Rattle.table_changes.specs.Indexes.{with_owner};

use constraints::{begin, refusal_of_stop, rows_fit_key, table_named};
use items::{Items, Text};
use refusals::Refusal;
use replies::Reply;
use sqlval::Index;
use std::alloc::Global;
use store::{Store, View};
use transactions::refusal_of;
use typing::CreateIndex;

/// CREATE INDEX: an index of the rows that are there. It sets the mark. It is refused where some
/// row's key is too long (X0003 `key`), for want of memory, by the device or by a limit of the
/// store; all is then as it was, but for the mark.
pub fn create_index<S: Store>(
    alloc: Global,
    store: &mut S,
    index: CreateIndex,
) -> Result<Reply, Refusal>
    ensures changes { IfOk result (λ reply. (reading : CheckReading) → S.is_sound store.old
        → IsSchemaOf (S.prepared store.old) (database_of (S.shows store.old).working)
        → HasChanged reading (S.shows store.old) (does.CreateIndex index) reply (S.shows store.new)) }
    ensures refused { IfErr result (λ refusal. (reading : CheckReading) → S.is_sound store.old
        → IsSchemaOf (S.prepared store.old) (database_of (S.shows store.old).working)
        → RefusesChange reading (database_of (S.shows store.old).working) (does.CreateIndex index) refusal) }
    ensures accepted { IfOk result (λ reply. IfRefused reply (λ refusal. ⊥)) }
    ensures limits { IfErr result (TellsReached (ChangingReaches (S.counted store.new))) }
    ensures device { IfErr result (λ refusal. refusal ≡ Disk → HasRisen (S.refused store.old) (S.refused store.new)) }
    ensures same { OnErr result (SameButMark (S.shows store.old) (S.shows store.new)) }
    ensures goes { S.goes_on store.old store.new Going.changes }
{
    let Some(_) = table_named(store.schema(), &index.table) else {
        return Ok(Reply::Unchanged);
    };
    if let Err(refusal) = begin(store) {
        return Err(refusal);
    }
    let found = match store.scan(alloc, View::Working, &index.table) {
        Ok(found) => found,
        Err(error) => return Err(refusal_of(error)),
    };
    if let Err(stop) = rows_fit_key(alloc, index.columns.as_slice(), found.rows.as_slice()) {
        return Err(refusal_of_stop(stop));
    }
    let CreateIndex {
        name,
        table,
        columns,
    } = index;
    let made = named_index(name, columns);
    match store.create_index(&table, made) {
        Ok(()) => Ok(Reply::Done),
        Err(error) => Err(refusal_of(error)),
    }
}

/// The index of a name over these columns, as a store is given it: no constraint owns it.
fn named_index(name: Text, columns: Items<usize>) -> Index
    ensures owners { with_owner result ≡ (None, record { name = Some name; columns = columns }) }
{
    Index {
        name: Some(name),
        columns,
        owner: None,
        root: 0,
    }
}
