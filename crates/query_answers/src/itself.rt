//! Plans that read their tables themselves: none is lent whole to them.
ghost use Rattle.std.specs.Prelude.{◌≡◌, ◌≤◌, ◌+◌, true, [], IfOk, IfErr};
ghost use Rattle.std.specs.List.{list_any};
ghost use Rattle.refusals.specs.declared.refusal.Refusal.TheVariants.{Disk};
ghost use Rattle.session_definitions.specs.Refusals.{IsReserved};
ghost use Rattle.algebra.specs.Listing.{tree_listing};
ghost use Rattle.executor.specs.Reply.{outcome_of};
ghost use Rattle.sqlval.specs.Schema.{same_name};
ghost use Rattle.store.specs.Errors.{HasRisen};
ghost use Rattle.places.specs.Left.{entries_in};
ghost use Rattle.plan_listings.specs.Loops.{loops_by_no_index};
ghost use Rattle.streams.specs.Parts.{CanRun};
ghost use Rattle.streams.specs.Reads.{to_begin};
ghost use Rattle.transactions.specs.Refused.{TellsNoLimit};
ghost use Rattle.query_answers.specs.Answered.{rows_found};
ghost use Rattle.query_answers.specs.Itself.{ReadsItself, are_distinct};

use crate::lent::NoTables;
use algebra::Tree;
use executor::Listed;
use items::Text;
use plan_listings::{plan_listed, tables_scanned};
use refusals::Refusal;
use std::alloc::{AllocError, Global};
use store::Reading;
use streams::tables_in_parts;
use transactions::refusal_of;

/// Whether one of these names is this one.
fn is_among(names: &[Text], name: &Text) -> bool
    ensures { result ≡ list_any (λ other. same_name other name.now) names.now }
{
    for other in names {
        if other.as_slice() == name.as_slice() {
            return true;
        }
    }
    false
}

/// Whether none of these names comes twice.
fn are_distinct(names: &[Text]) -> bool
    ensures { result ≡ are_distinct names.now }
{
    let mut left = names;
    while let Some((name, rest)) = left.split_first() {
        if is_among(rest, name) {
            return false;
        }
        left = rest;
    }
    true
}

/// Whether a plan reads its tables itself: it scans them, none twice, and no subquery of it names
/// one. Refuses for want of memory alone.
pub(crate) fn reads_itself(alloc: Global, plan: &Tree) -> Result<bool, AllocError>
    ensures { IfOk result (λ goes. goes ≡ true → ReadsItself plan.now) }
{
    let parts = tables_in_parts(alloc, plan)?;
    if !parts.is_empty() {
        return Ok(false);
    }
    match tables_scanned(alloc, plan)? {
        None => Ok(false),
        Some(names) => Ok(are_distinct(names.as_slice())),
    }
}

/// Carries out a plan of which no subquery names a table: where it joins nothing, or joins by keys,
/// it asks for its tables block by block. What a store keeps to give a block is its own affair.
pub(crate) fn run_by_itself<R: Reading>(
    alloc: Global,
    reading: &mut R,
    plan: &Tree,
) -> Result<Listed, Refusal>
    ensures lists { R.is_sound reading.old → CanRun (λ _. []) (R.shows reading.old) plan.now
        → IfOk result (λ listed. outcome_of listed ≡ tree_listing (rows_found (R.shows reading.old).contents) plan.now []) }
    ensures read { R.is_sound reading.old → CanRun (λ _. []) (R.shows reading.old) plan.now
        → loops_by_no_index plan.now ≡ true
        → IfOk result (λ _. (R.shows reading.new).read ≤ (R.shows reading.old).read + to_begin (entries_in (R.shows reading.old)) plan.now) }
    ensures refused { IfErr result (λ refusal. R.is_sound reading.old → IsReserved refusal) }
    ensures limits { IfErr result TellsNoLimit }
    ensures counts { IfErr result (λ refusal. refusal ≡ Disk
        → HasRisen (R.shows reading.old).refused (R.shows reading.new).refused) }
    ensures follows { R.follows reading.old reading.new }
{
    match plan_listed(alloc, &NoTables, reading, plan) {
        Ok(listed) => Ok(listed),
        Err(error) => Err(refusal_of(error)),
    }
}
