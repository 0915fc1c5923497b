//! An open cursor: its plan, how far the list of that was read, and what was read ahead.
ghost use Rattle.std.specs.Prelude.{◌≡◌, ◌≢◌, ◌≤◌, ◌↔◌, [], true, length, IfOk, IfErr, None, Some};
ghost use Rattle.refusals.specs.declared.refusal.Refusal.TheVariants.{Disk};
ghost use Rattle.algebra.specs.Listing.{tree_listing};
ghost use Rattle.denote.specs.declared.fault.Fault.{Fault as Raised};
ghost use Rattle.executor.specs.Reply.{outcome_of};
ghost use Rattle.query_answers.specs.Answered.{rows_found};
ghost use Rattle.query_answers.specs.Planned.{StandsFor};
ghost use Rattle.rules.specs.Same.{IsSameTree};
ghost use Rattle.session_definitions.specs.Refusals.{IsReserved, refusal_of as refusal_for};
ghost use Rattle.store.specs.Contents.{Contents};
ghost use Rattle.store.specs.Errors.{HasRisen};
ghost use Rattle.streams.specs.Parts.{names_in_parts};
ghost use Rattle.transactions.specs.Refused.{TellsNoLimit};
ghost use Rattle.cursors.specs.Opened.{BeginsAt, Fits, HasNext, IsAhead, MayTake, cursor_of};

use crate::block::{next_block, none_ahead, rows_ahead};
use algebra::Tree;
use algebra_laws::listings_answer_outcomes;
use denote::{Fault, Row, Rows};
use executor::Listed;
use items::{Boxed, Items};
use order_laws::listings_are_sorted;
use places::{Place, first_row};
use query_answers::{PlannedQuery, refusal_of_fault, run_plan};
use refusals::Refusal;
use std::alloc::{AllocError, Global};
use std::vec::IntoIter;
use store::Reading;
use streams::tables_in_parts;

/// A cursor that is open: the tree of its query, by which is said what it may give; the plan, and
/// how far the list of that was read; and the rows that were read and are not given yet.
#[derive(Drop)]
pub struct OpenCursor {
    pub(crate) tree: Boxed<Tree>,
    pub(crate) plan: Boxed<Tree>,
    pub(crate) ahead: IntoIter<Row>,
    pub(crate) place: Place,
}

/// The cursor of a plan of which nothing was read yet.
fn unread(alloc: Global, query: PlannedQuery) -> OpenCursor
    ensures begins { (contents : Contents) → names_in_parts query.plan ≡ []
        → StandsFor contents query.plan query.tree → BeginsAt result contents }
    ensures tree { result.tree ≡ query.tree }
{
    let PlannedQuery { tree, plan } = query;
    OpenCursor {
        tree,
        plan,
        ahead: none_ahead(alloc),
        place: Place::Start,
    }
}

/// The cursor of a list that was made whole, of which nothing was given yet.
fn at_beginning(query: PlannedQuery, listed: Listed) -> OpenCursor
    ensures begins { (contents : Contents) → outcome_of listed ≡ tree_listing (rows_found contents) query.plan []
        → IsSameTree (rows_found contents) query.plan query.tree → BeginsAt result contents }
    ensures tree { result.tree ≡ query.tree }
{
    let PlannedQuery { tree, plan } = query;
    let Listed { rows, fault } = listed;
    OpenCursor {
        tree,
        plan,
        ahead: rows_ahead(rows),
        place: Place::Ended(fault),
    }
}

/// A cursor whose plan's whole list is made now, with the fault that ends it.
fn open_whole<R: Reading>(
    alloc: Global,
    reading: &mut R,
    query: PlannedQuery,
) -> Result<OpenCursor, Refusal>
    ensures begins { IfOk result (λ cursor. R.is_sound reading.old
        → StandsFor (R.shows reading.old).contents query.plan query.tree
        → BeginsAt cursor (R.shows reading.old).contents) }
    ensures tree { IfOk result (λ cursor. cursor.tree ≡ query.tree) }
    ensures refused { IfErr result (λ refusal. R.is_sound reading.old → IsReserved refusal) }
    ensures limits { IfErr result TellsNoLimit }
    ensures counts { IfErr result (λ refusal. refusal ≡ Disk
        → HasRisen (R.shows reading.old).refused (R.shows reading.new).refused) }
    ensures follows { R.follows reading.old reading.new }
{
    match run_plan(alloc, reading, query.plan.get()) {
        Ok(listed) => Ok(at_beginning(query, listed)),
        Err(refusal) => Err(refusal),
    }
}

/// Whether no subquery of a plan names a table.
fn stands_alone(alloc: Global, plan: &Tree) -> Result<bool, AllocError>
    ensures { IfOk result (λ alone. (alone ≡ true) ↔ (names_in_parts plan.now ≡ [])) }
{
    match tables_in_parts(alloc, plan) {
        Ok(names) => Ok(names.is_empty()),
        Err(error) => Err(error),
    }
}

/// Opens a cursor of a query over the tables as the reading finds them, by its plan. Where no
/// subquery of that names a table nothing is read; the list of any other plan is made whole. It is
/// refused for want of memory, and for what `run_plan` is refused for.
pub fn open_cursor<R: Reading>(
    alloc: Global,
    reading: &mut R,
    query: PlannedQuery,
) -> Result<OpenCursor, Refusal>
    ensures begins { IfOk result (λ cursor. R.is_sound reading.old
        → StandsFor (R.shows reading.old).contents query.plan query.tree
        → BeginsAt cursor (R.shows reading.old).contents) }
    ensures tree { IfOk result (λ cursor. cursor.tree ≡ query.tree) }
    ensures unread { names_in_parts query.plan ≡ [] → reading.new ≡ reading.old }
    ensures refused { IfErr result (λ refusal. R.is_sound reading.old → IsReserved refusal) }
    ensures limits { IfErr result TellsNoLimit }
    ensures counts { IfErr result (λ refusal. refusal ≡ Disk
        → HasRisen (R.shows reading.old).refused (R.shows reading.new).refused) }
    ensures follows { R.follows reading.old reading.new }
{
    match stands_alone(alloc, query.plan.get()) {
        Err(_) => Err(Refusal::Memory),
        Ok(alone) => {
            if alone {
                Ok(unread(alloc, query))
            } else {
                open_whole(alloc, reading, query)
            }
        }
    }
}

/// The end of a list, or the fault that ended it.
fn at_end(fault: Option<Fault>) -> Result<Option<Row>, Refusal>
    ensures end { IfOk result (λ next. (next ≡ None) × (fault ≡ None)) }
    ensures refused { IfErr result (λ refusal. (raised : Raised) × (refusal ≡ refusal_for raised) × (fault ≡ Some raised)) }
    ensures limits { IfErr result TellsNoLimit }
    ensures device { IfErr result (λ refusal. refusal ≢ Disk) }
{
    match fault {
        None => Ok(None),
        Some(fault) => Err(refusal_of_fault(fault)),
    }
}

/// The next row of a cursor; where none is left the end, which is `None`, or the fault of its
/// query, as often as it is asked for. Where no row is ahead blocks are read until one is: so at
/// most a block was read ahead of what was given. It is refused for what the reading is refused
/// for, too, and nothing is known of the cursor then.
pub fn next_row<R: Reading>(
    alloc: Global,
    reading: &mut R,
    cursor: &mut OpenCursor,
) -> Result<Option<Row>, Refusal>
    ensures next { IfOk result (λ next. R.is_sound reading.old → Fits cursor.old (R.shows reading.old).contents
        → HasNext next (cursor_of cursor.old (R.shows reading.old).contents) (cursor_of cursor.new (R.shows reading.old).contents)) }
    ensures fits { IfOk result (λ next. R.is_sound reading.old → Fits cursor.old (R.shows reading.old).contents
        → Fits cursor.new (R.shows reading.old).contents) }
    ensures refused { IfErr result (λ refusal. R.is_sound reading.old → Fits cursor.old (R.shows reading.old).contents
        → MayTake refusal 1 (cursor_of cursor.old (R.shows reading.old).contents)) }
    ensures limits { IfErr result TellsNoLimit }
    ensures counts { IfErr result (λ refusal. refusal ≡ Disk
        → HasRisen (R.shows reading.old).refused (R.shows reading.new).refused) }
    ensures follows { R.follows reading.old reading.new }
{
    listings_answer_outcomes();
    listings_are_sorted();
    for _ in 0..u64::MAX {
        match first_row(&mut cursor.ahead) {
            Some(row) => return Ok(Some(row)),
            None => match cursor.place {
                Place::Ended(fault) => return at_end(fault),
                _ => match next_block(alloc, reading, cursor.plan.get(), &mut cursor.place) {
                    Ok(rows) => cursor.ahead = rows,
                    Err(refusal) => return Err(refusal),
                },
            },
        }
    }
    Err(Refusal::Memory)
}

/// The next rows of a cursor: so many; or fewer, and then the end is reached. It is refused by the
/// fault of its query that stands before the last of them, for what the reading is refused for, and
/// for want of memory. Nothing is known of the cursor then.
pub fn next_rows<R: Reading>(
    alloc: Global,
    reading: &mut R,
    cursor: &mut OpenCursor,
    count: u64,
) -> Result<Rows, Refusal>
    ensures rows { IfOk result (λ rows. R.is_sound reading.old → Fits cursor.old (R.shows reading.old).contents
        → IsAhead rows count (cursor_of cursor.old (R.shows reading.old).contents) (cursor_of cursor.new (R.shows reading.old).contents)) }
    ensures most { IfOk result (λ rows. length rows ≤ count) }
    ensures fits { IfOk result (λ rows. R.is_sound reading.old → Fits cursor.old (R.shows reading.old).contents
        → Fits cursor.new (R.shows reading.old).contents) }
    ensures refused { IfErr result (λ refusal. R.is_sound reading.old → Fits cursor.old (R.shows reading.old).contents
        → MayTake refusal count (cursor_of cursor.old (R.shows reading.old).contents)) }
    ensures limits { IfErr result TellsNoLimit }
    ensures counts { IfErr result (λ refusal. refusal ≡ Disk
        → HasRisen (R.shows reading.old).refused (R.shows reading.new).refused) }
    ensures follows { R.follows reading.old reading.new }
{
    listings_answer_outcomes();
    listings_are_sorted();
    let mut rows = Items::new(alloc);
    for taken in 0..count {
        match next_row(alloc, reading, cursor) {
            Ok(Some(row)) => {
                if rows.push(row).is_err() {
                    return Err(Refusal::Memory);
                }
            }
            Ok(None) => return Ok(rows),
            Err(refusal) => return Err(refusal),
        }
    }
    Ok(rows)
}
