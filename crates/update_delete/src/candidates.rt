//! The rows among which a change looks for those that it touches.
ghost use Rattle.std.specs.Prelude.{◌≡◌, IfOk, IfErr, IfSome};
ghost use Rattle.std.specs.FinMap.{get};
ghost use Rattle.refusals.specs.declared.refusal.Refusal.TheVariants.{Disk};
ghost use Rattle.denote.specs.SchemaOf.{IsSchemaOf};
ghost use Rattle.session_definitions.specs.Refusals.{IsReserved};
ghost use Rattle.store.specs.Contents.{database_of};
ghost use Rattle.store.specs.Errors.{HasRisen};
ghost use Rattle.store.specs.Going.{Going};
ghost use Rattle.transactions.specs.Refused.{TellsNoLimit};
ghost use Rattle.update_delete.specs.Candidates.{AreCandidates, Asks, AsksIn};

use crate::ranges::ranged_candidates;
use algebra::Condition;
use constraints::table_named;
use denote::Row;
use items::Text;
use key_lookups::{look_ups_miss_no_row, sought_key};
use refusals::Refusal;
use sqlval::{Index, Schema};
use std::alloc::{AllocError, Global};
use store::{Numbered, Store, View};
use transactions::refusal_of;

/// A look-up in an index: its place in its table, and a key.
#[derive(Drop)]
pub(crate) struct LookUp {
    pub(crate) place: usize,
    pub(crate) key: Row,
}

/// The rows of the table of this name that its first index finds for whose columns the condition
/// asks for a key; without such an index those in a range of one, or all rows. At no other row is
/// the condition true, nor does it raise a fault there.
pub(crate) fn candidates<S: Store>(
    alloc: Global,
    store: &mut S,
    name: &Text,
    filter: &Option<Condition>,
) -> Result<Numbered, Refusal>
    ensures rows { S.is_sound store.old → IsSchemaOf (S.prepared store.old) (database_of (S.shows store.old).working)
        → IfOk result (λ found. AreCandidates (get (S.shows store.old).working name.now) filter.now found) }
    ensures refused { IfErr result (λ refusal. S.is_sound store.old → IsReserved refusal) }
    ensures limits { IfErr result TellsNoLimit }
    ensures device { IfErr result (λ refusal. refusal ≡ Disk → HasRisen (S.refused store.old) (S.refused store.new)) }
    ensures prepared { S.prepared store.new ≡ S.prepared store.old }
    ensures shows { S.shows store.new ≡ S.shows store.old }
    ensures goes { S.goes_on store.old store.new Going.reads }
{
    look_ups_miss_no_row();
    match look_up_in(alloc, store.schema(), name, filter) {
        Ok(Some(look_up)) => {
            let key = look_up.key.as_slice();
            match store.seek(alloc, View::Working, name, look_up.place, key) {
                Ok(found) => Ok(found),
                Err(error) => Err(refusal_of(error)),
            }
        }
        Ok(None) => ranged_candidates(alloc, store, name, filter),
        Err(_) => Err(Refusal::Memory),
    }
}

/// The look-up that a condition asks for in an index of the table of this name.
fn look_up_in(
    alloc: Global,
    schema: &Schema,
    name: &Text,
    filter: &Option<Condition>,
) -> Result<Option<LookUp>, AllocError>
    ensures { IfOk result (λ found. IfSome found (λ look_up. AsksIn schema.now name.now filter.now look_up)) }
{
    match filter {
        None => Ok(None),
        Some(condition) => match table_named(schema, name) {
            None => Ok(None),
            Some(table) => match first_look_up(alloc, table.indexes.as_slice(), condition) {
                Ok(found) => Ok(found),
                Err(refused) => Err(refused),
            },
        },
    }
}

/// The look-up in the first of these indexes for whose columns a condition asks for a key.
fn first_look_up(
    alloc: Global,
    indexes: &[Index],
    condition: &Condition,
) -> Result<Option<LookUp>, AllocError>
    ensures { IfOk result (λ found. IfSome found (λ look_up. Asks indexes.now condition.now look_up)) }
{
    for (place, index) in indexes.iter().enumerate() {
        if let Some(key) = sought_key(alloc, condition, index.columns.as_slice())? {
            return Ok(Some(LookUp { place, key }));
        }
    }
    Ok(None)
}
