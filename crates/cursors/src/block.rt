//! Blocks of rows that a cursor reads ahead.
ghost use Rattle.std.specs.Prelude.{◌≡◌, [], true, IfOk, IfErr};
ghost use Rattle.std.specs.Vec.Iter.{into_iter_items};
ghost use Rattle.refusals.specs.declared.refusal.Refusal.TheVariants.{Disk, Memory};
ghost use Rattle.algebra.specs.declared.tree.Tree.{Tree as Plan};
ghost use Rattle.places.specs.Indexes.{HasIndexes};
ghost use Rattle.places.specs.Left.{Entries, before, left};
ghost use Rattle.places.specs.Views.{is_whole};
ghost use Rattle.session_definitions.specs.Refusals.{IsReserved};
ghost use Rattle.store.specs.Errors.{HasRisen};
ghost use Rattle.streams.specs.Parts.{names_in_parts};
ghost use Rattle.transactions.specs.Refused.{TellsNoLimit};
ghost use Rattle.cursors.specs.Opened.{CanGoOn, entries_at};

use algebra::Tree;
use denote::{Row, Rows, Tables};
use items::{Items, Text};
use places::{Place, is_whole, kept_rows};
use refusals::Refusal;
use std::alloc::Global;
use std::vec::IntoIter;
use store::Reading;
use streams::next_rows;
use transactions::refusal_of;

/// How many rows of a table are read ahead at most.
const BLOCK: usize = 64;

/// No tables: a plan that is read so has no subquery that looks at one.
struct NoTables;

impl Tables for NoTables {
    ghost rows_of = { λ _ _. [] };

    fn rows(&self, _name: &Text) -> &[Row] {
        &[]
    }
}

/// Rows, to be taken one after another.
pub(crate) fn rows_ahead(rows: Rows) -> IntoIter<Row>
    ensures { into_iter_items result ≡ rows }
{
    rows.into_vec().into_iter()
}

/// No rows.
pub(crate) fn none_ahead(alloc: Global) -> IntoIter<Row>
    ensures { into_iter_items result ≡ [] }
{
    let none: Rows = Items::new(alloc);
    rows_ahead(none)
}

/// The next rows of a list that is kept at a place. Refused for want of memory alone.
fn kept_block(alloc: Global, place: &mut Place) -> Result<IntoIter<Row>, Refusal>
    ensures rows { (entries : Entries) (tree : Plan) → is_whole place.old ≡ true
        → IfOk result (λ rows. before (into_iter_items rows) (left entries place.new tree) ≡ left entries place.old tree) }
    ensures kept { is_whole place.old ≡ true → IfOk result (λ rows. is_whole place.new ≡ true) }
    ensures refused { IfErr result (λ refusal. refusal ≡ Memory) }
{
    match kept_rows(alloc, place, BLOCK) {
        Ok(rows) => Ok(rows_ahead(rows)),
        Err(_) => Err(Refusal::Memory),
    }
}

/// The next rows of a plan behind a place: of each table that it reads a block at most. No subquery
/// of it names a table.
fn plan_block<R: Reading>(
    alloc: Global,
    reading: &mut R,
    plan: &Tree,
    place: &mut Place,
) -> Result<IntoIter<Row>, Refusal>
    ensures rows { R.is_sound reading.old → names_in_parts plan.now ≡ []
        → HasIndexes (R.shows reading.old).contents plan.now
        → IfOk result (λ rows. before (into_iter_items rows) (left (entries_at (R.shows reading.old).contents) place.new plan.now)
        ≡ left (entries_at (R.shows reading.old).contents) place.old plan.now) }
    ensures refused { IfErr result (λ refusal. R.is_sound reading.old → IsReserved refusal) }
    ensures limits { IfErr result TellsNoLimit }
    ensures counts { IfErr result (λ refusal. refusal ≡ Disk
        → HasRisen (R.shows reading.old).refused (R.shows reading.new).refused) }
    ensures follows { R.follows reading.old reading.new }
{
    match next_rows(alloc, &NoTables, reading, plan, place, BLOCK) {
        Ok(rows) => Ok(rows_ahead(rows)),
        Err(error) => Err(refusal_of(error)),
    }
}

/// The next rows of a plan, and its place behind them. None may come, though some are left. It is
/// refused for what the reading is refused for, and for want of memory; nothing is known of the
/// place then.
pub(crate) fn next_block<R: Reading>(
    alloc: Global,
    reading: &mut R,
    plan: &Tree,
    place: &mut Place,
) -> Result<IntoIter<Row>, Refusal>
    ensures rows { IfOk result (λ rows. R.is_sound reading.old
        → CanGoOn plan.now place.old (R.shows reading.old).contents
        → before (into_iter_items rows) (left (entries_at (R.shows reading.old).contents) place.new plan.now)
        ≡ left (entries_at (R.shows reading.old).contents) place.old plan.now) }
    ensures goes_on { IfOk result (λ rows. R.is_sound reading.old
        → CanGoOn plan.now place.old (R.shows reading.old).contents
        → CanGoOn plan.now place.new (R.shows reading.old).contents) }
    ensures refused { IfErr result (λ refusal. R.is_sound reading.old → IsReserved refusal) }
    ensures limits { IfErr result TellsNoLimit }
    ensures counts { IfErr result (λ refusal. refusal ≡ Disk
        → HasRisen (R.shows reading.old).refused (R.shows reading.new).refused) }
    ensures follows { R.follows reading.old reading.new }
{
    if is_whole(place) {
        kept_block(alloc, place)
    } else {
        plan_block(alloc, reading, plan, place)
    }
}
