//! The answer of a query.
ghost use Rattle.std.specs.Prelude.{◌≡◌, ◌≢◌, ◌≤◌, ◌+◌, [], Ok, IfOk, IfErr};
ghost use Rattle.refusals.specs.declared.refusal.Refusal.TheVariants.{Disk, Memory};
ghost use Rattle.store.specs.Errors.{HasRisen};
ghost use Rattle.algebra.specs.Described.{described_in};
ghost use Rattle.algebra.specs.Listing.{reply_of, tree_listing};
ghost use Rattle.algebra.specs.Translated.{tree_of_ordered};
ghost use Rattle.denote.specs.Outcome.{Outcome};
ghost use Rattle.executor.specs.Reply.{Lists, outcome_of};
ghost use Rattle.session_definitions.specs.Refusals.{IsReserved};
ghost use Rattle.tree_tables.specs.TablesRead.{tables_in_tree};
ghost use Rattle.transactions.specs.Refused.{TellsNoLimit};
ghost use Rattle.query_answers.specs.Lent.{rows_under};
ghost use Rattle.query_answers.specs.Answered.{IsTreeOf, RefusesAs, rows_found};

use crate::fault::refusal_of_fault;
use crate::itself::{reads_itself, run_by_itself};
use crate::lent::lent_tables;
use algebra::Tree;
use denote::{Rows, Stop};
use executor::Listed;
use refusals::Refusal;
use sqlval::Schema;
use std::alloc::{AllocError, Global};
use store::Reading;
use translation::translate;
use tree_tables::{listings_read_their_tables, tables_in_tree};
use typing::OrderedQuery;
use uncorrelated_subqueries::listed_once;

/// The tree of a query that was typed over this schema; it knows of each table that it names what
/// the schema does. Refuses for want of memory alone.
pub fn query_tree(alloc: Global, schema: &Schema, query: &OrderedQuery) -> Result<Tree, AllocError>
    ensures tree { IfOk result (λ tree. IsTreeOf query.now tree) }
    ensures known { IfOk result (λ tree. tree ≡ tree_of_ordered (described_in schema.now) query.now) }
{
    translate(alloc, schema, query)
}

/// Carries out a plan, which is a tree as it stands: what it lists, over the tables as the reading
/// finds them. Each table that it names is read once, and no row besides. A fault of the plan is
/// the end of its list and no refusal; it is refused for want of memory, and for what the store is
/// refused for.
pub fn run_all<R: Reading>(alloc: Global, reading: &mut R, plan: &Tree) -> Result<Listed, Refusal>
    ensures lists { R.is_sound reading.old
        → IfOk result (λ listed. outcome_of listed ≡ tree_listing (rows_found (R.shows reading.old).contents) plan.now []) }
    ensures read { R.is_sound reading.old
        → IfOk result (λ _. (R.shows reading.new).read ≤ (R.shows reading.old).read + rows_under (rows_found (R.shows reading.old).contents) (tables_in_tree plan.now)) }
    ensures refused { IfErr result (λ refusal. R.is_sound reading.old → IsReserved refusal) }
    ensures limits { IfErr result TellsNoLimit }
    ensures counts { IfErr result (λ refusal. refusal ≡ Disk
        → HasRisen (R.shows reading.old).refused (R.shows reading.new).refused) }
    ensures follows { R.follows reading.old reading.new }
{
    match reads_itself(alloc, plan) {
        Err(_) => Err(Refusal::Memory),
        Ok(goes) => {
            if goes {
                run_by_itself(alloc, reading, plan)
            } else {
                run_whole(alloc, reading, plan)
            }
        }
    }
}

/// The same of any plan: its tables are lent to it whole.
pub(crate) fn run_whole<R: Reading>(
    alloc: Global,
    reading: &mut R,
    plan: &Tree,
) -> Result<Listed, Refusal>
    ensures lists { R.is_sound reading.old
        → IfOk result (λ listed. outcome_of listed ≡ tree_listing (rows_found (R.shows reading.old).contents) plan.now []) }
    ensures read { R.is_sound reading.old
        → IfOk result (λ _. (R.shows reading.new).read ≤ (R.shows reading.old).read + rows_under (rows_found (R.shows reading.old).contents) (tables_in_tree plan.now)) }
    ensures refused { IfErr result (λ refusal. R.is_sound reading.old → IsReserved refusal) }
    ensures limits { IfErr result TellsNoLimit }
    ensures counts { IfErr result (λ refusal. refusal ≡ Disk
        → HasRisen (R.shows reading.old).refused (R.shows reading.new).refused) }
    ensures follows { R.follows reading.old reading.new }
{
    listings_read_their_tables();
    let names = match tables_in_tree(alloc, plan) {
        Ok(names) => names,
        Err(_) => return Err(Refusal::Memory),
    };
    let lent = match lent_tables(alloc, reading, names.as_slice()) {
        Ok(lent) => lent,
        Err(refusal) => return Err(refusal),
    };
    unstopped(listed_once(alloc, &lent, plan))
}

/// A list. What stops one is want of memory.
fn unstopped(listed: Result<Listed, Stop>) -> Result<Listed, Refusal>
    ensures lists { (meant : Outcome) → Lists listed meant → IfOk result (λ list. outcome_of list ≡ meant) }
    ensures refused { IfErr result (λ refusal. refusal ≡ Memory) }
{
    match listed {
        Ok(listed) => Ok(listed),
        Err(_) => Err(Refusal::Memory),
    }
}

/// What is shown of a listing: its rows, or the fault that ends it.
pub(crate) fn shown(listed: Listed) -> Result<Rows, Refusal>
    ensures rows { IfOk result (λ rows. reply_of (outcome_of listed) ≡ Ok rows) }
    ensures refused { IfErr result (RefusesAs (reply_of (outcome_of listed))) }
    ensures stored { IfErr result (λ refusal. refusal ≢ Disk) }
    ensures limits { IfErr result TellsNoLimit }
{
    match listed.fault {
        None => Ok(listed.rows),
        Some(fault) => Err(refusal_of_fault(fault)),
    }
}
