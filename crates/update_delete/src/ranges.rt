//! The rows among which a change looks for those that it touches, by a range of an index.
ghost use Rattle.std.specs.Prelude.{◌≡◌, ℕ, List, Some, filter, IfOk, IfErr, IfSome};
ghost use Rattle.std.specs.FinMap.{get};
ghost use Rattle.refusals.specs.declared.refusal.Refusal.TheVariants.{Disk};
ghost use Rattle.algebra.specs.Bounds.{is_within};
ghost use Rattle.denote.specs.SchemaOf.{IsSchemaOf};
ghost use Rattle.session_definitions.specs.Refusals.{IsReserved};
ghost use Rattle.store.specs.Contents.{Entry, database_of};
ghost use Rattle.store.specs.Errors.{HasRisen};
ghost use Rattle.store.specs.Going.{Going};
ghost use Rattle.store.specs.Indexes.{columns_at, entries_of};
ghost use Rattle.store.specs.View.{AreEntries};
ghost use Rattle.transactions.specs.Refused.{TellsNoLimit};
ghost use Rattle.update_delete.specs.Candidates.{AreCandidates};
ghost use Rattle.update_delete.specs.Ranges.{AsksRange, AsksRangeIn};

use algebra::Condition;
use constraints::table_named;
use items::Text;
use range_lookups::{Limits, by_number, limit_of, ranges_miss_no_row, sought_limits};
use refusals::Refusal;
use sqlval::{Index, Schema};
use std::alloc::{AllocError, Global};
use store::{Numbered, Store, View};
use transactions::refusal_of;

/// A range of an index: the place of the index in its table, and the bounds of its first column.
#[derive(Drop)]
pub(crate) struct RangeLookUp {
    pub(crate) place: usize,
    pub(crate) limits: Limits,
}

/// The rows of the table of this name that are within the bounds which the condition sets to the
/// first column of an index, in the order of their numbers: by the first index with both bounds, or
/// else with one; without such an index all rows. At no other row is the condition true, nor does
/// it raise a fault there.
pub(crate) fn ranged_candidates<S: Store>(
    alloc: Global,
    store: &mut S,
    name: &Text,
    filter: &Option<Condition>,
) -> Result<Numbered, Refusal>
    ensures rows { S.is_sound store.old → IsSchemaOf (S.prepared store.old) (database_of (S.shows store.old).working)
        → IfOk result (λ found. AreCandidates (get (S.shows store.old).working name.now) filter.now found) }
    ensures refused { IfErr result (λ refusal. S.is_sound store.old → IsReserved refusal) }
    ensures limits { IfErr result TellsNoLimit }
    ensures device { IfErr result (λ refusal. refusal ≡ Disk → HasRisen (S.refused store.old) (S.refused store.new)) }
    ensures prepared { S.prepared store.new ≡ S.prepared store.old }
    ensures shows { S.shows store.new ≡ S.shows store.old }
    ensures goes { S.goes_on store.old store.new Going.reads }
{
    ranges_miss_no_row();
    match range_in(alloc, store.schema(), name, filter) {
        Ok(Some(range)) => rows_in_range(alloc, store, name, range),
        Ok(None) => match store.scan(alloc, View::Working, name) {
            Ok(found) => Ok(found),
            Err(error) => Err(refusal_of(error)),
        },
        Err(_) => Err(Refusal::Memory),
    }
}

/// The rows within a range, in the order of their numbers.
fn rows_in_range<S: Store>(
    alloc: Global,
    store: &mut S,
    name: &Text,
    range: RangeLookUp,
) -> Result<Numbered, Refusal>
    ensures rows { (columns : List ℕ) → S.is_sound store.old
        → columns_at (get (S.shows store.old).working name.now) range.place ≡ Some columns
        → IfOk result (λ found. AreEntries found (filter (λ (e : Entry). is_within columns range.limits.low range.limits.high e.1) (entries_of (get (S.shows store.old).working name.now)))) }
    ensures refused { IfErr result (λ refusal. S.is_sound store.old → IsReserved refusal) }
    ensures limits { IfErr result TellsNoLimit }
    ensures device { IfErr result (λ refusal. refusal ≡ Disk → HasRisen (S.refused store.old) (S.refused store.new)) }
    ensures prepared { S.prepared store.new ≡ S.prepared store.old }
    ensures shows { S.shows store.new ≡ S.shows store.old }
    ensures goes { S.goes_on store.old store.new Going.reads }
{
    let RangeLookUp { place, limits } = range;
    let Limits { low, high } = limits;
    let low = limit_of(low);
    let high = limit_of(high);
    match store.range(alloc, View::Working, name, place, &low, &high) {
        Ok(found) => match by_number(alloc, found) {
            Ok(ordered) => Ok(ordered),
            Err(_) => Err(Refusal::Memory),
        },
        Err(error) => Err(refusal_of(error)),
    }
}

/// The range that a condition asks for in an index of the table of this name.
fn range_in(
    alloc: Global,
    schema: &Schema,
    name: &Text,
    filter: &Option<Condition>,
) -> Result<Option<RangeLookUp>, AllocError>
    ensures { IfOk result (λ found. IfSome found (λ look_up. AsksRangeIn schema.now name.now filter.now look_up)) }
{
    match filter {
        None => Ok(None),
        Some(condition) => match table_named(schema, name) {
            None => Ok(None),
            Some(table) => match range_among(alloc, table.indexes.as_slice(), condition) {
                Ok(found) => Ok(found),
                Err(refused) => Err(refused),
            },
        },
    }
}

/// By an index with both bounds before one with a single bound.
fn range_among(
    alloc: Global,
    indexes: &[Index],
    condition: &Condition,
) -> Result<Option<RangeLookUp>, AllocError>
    ensures { IfOk result (λ found. IfSome found (λ look_up. AsksRange indexes.now condition.now look_up)) }
{
    match first_range(alloc, true, indexes, condition)? {
        Some(range) => Ok(Some(range)),
        None => first_range(alloc, false, indexes, condition),
    }
}

/// The range in the first of these indexes whose first column the condition bounds.
fn first_range(
    alloc: Global,
    both: bool,
    indexes: &[Index],
    condition: &Condition,
) -> Result<Option<RangeLookUp>, AllocError>
    ensures { IfOk result (λ found. IfSome found (λ look_up. AsksRange indexes.now condition.now look_up)) }
{
    for (place, index) in indexes.iter().enumerate() {
        if let Some(limits) = sought_limits(alloc, both, condition, index.columns.as_slice())? {
            return Ok(Some(RangeLookUp { place, limits }));
        }
    }
    Ok(None)
}
