//! The plan of a query, and what it answers by that.
ghost use Rattle.std.specs.Prelude.{◌≡◌, ◌≤◌, ◌+◌, ◌↔◌, true, [], List, Ok, IfOk, IfErr};
ghost use Rattle.refusals.specs.declared.refusal.Refusal.TheVariants.{Disk};
ghost use Rattle.session_definitions.specs.Refusals.{IsReserved};
ghost use Rattle.typing.specs.declared.typed.OrderedQuery.{OrderedQuery as Asked};
ghost use Rattle.algebra.specs.Described.{described_in};
ghost use Rattle.algebra.specs.Listing.{reply_of, tree_listing};
ghost use Rattle.algebra.specs.OrderKeys.{ordered_outcome};
ghost use Rattle.algebra.specs.Translated.{tree_of_ordered, tree_of_query};
ghost use Rattle.algebra.specs.declared.tree.Condition.{Condition};
ghost use Rattle.algebra.specs.declared.tree.StoredTable.{StoredTable};
ghost use Rattle.denote.specs.Answer.{Answers};
ghost use Rattle.denote.specs.Database.{CheckReading, IsGood};
ghost use Rattle.denote.specs.Meaning.{Tables};
ghost use Rattle.denote.specs.Query.{denotes};
ghost use Rattle.denote.specs.SchemaOf.{IsSchemaOf};
ghost use Rattle.executor.specs.Reply.{outcome_of};
ghost use Rattle.places.specs.Indexes.{HasIndexes};
ghost use Rattle.places.specs.Left.{entries_in};
ghost use Rattle.plan_listings.specs.Loops.{loops_by_no_index};
ghost use Rattle.planner.specs.Joins.{AsksPairs, JoinsByKeys};
ghost use Rattle.planner.specs.Looks.{Asks, LooksUp};
ghost use Rattle.rules.specs.Same.{AreAmong, Fits, Keeps};
ghost use Rattle.rules.specs.Stored.{stored_in_tree};
ghost use Rattle.store.specs.Contents.{Contents, database_of};
ghost use Rattle.store.specs.Errors.{HasRisen};
ghost use Rattle.streams.specs.Parts.{names_in_parts};
ghost use Rattle.streams.specs.Reads.{to_begin};
ghost use Rattle.transactions.specs.Refused.{TellsNoLimit};
ghost use Rattle.tree_tables.specs.TablesRead.{tables_in_tree};
ghost use Rattle.query_answers.specs.Answered.{IsTreeOf, rows_found};
ghost use Rattle.query_answers.specs.Lent.{rows_under};
ghost use Rattle.query_answers.specs.Planned.{IsPlanOf, StandsFor, unordered};
ghost use Rattle.query_answers.specs.Refused.{MayRefuse};

use crate::itself::run_by_itself;
use crate::query::{query_tree, run_whole, shown};
use algebra::Tree;
use algebra_laws::translation_keeps_the_meaning;
use denote::Rows;
use executor::Listed;
use items::Boxed;
use known_tables::described_tables_are_known;
use planner::choose_plan;
use refusals::Refusal;
use rewrite_laws::rules_keep_the_outcome;
use sqlval::Schema;
use std::alloc::{AllocError, Global};
use store::Reading;
use streams::tables_in_parts;
use translation::translate_query;
use typing::{OrderedQuery, Query};

/// The plan that is chosen for a query which was typed over this schema. Over every good database
/// whose schema it is its list answers the query, and it reads by indexes that the tables have
/// there. A query of one table whose filter asks for a key of an index looks that up, and one of
/// the product of two tables whose filter equates columns of both joins them by keys. Refuses for
/// want of memory alone.
pub fn query_plan(alloc: Global, schema: &Schema, query: &OrderedQuery) -> Result<Tree, AllocError>
    ensures plan { (reading : CheckReading) (contents : Contents) → IsGood reading (database_of contents)
        → IsSchemaOf schema.now (database_of contents) → IfOk result (IsPlanOf contents query.now) }
    ensures looks { (condition : Condition) (table : StoredTable)
        → Asks condition table (tree_of_ordered (described_in schema.now) query.now)
        → IfOk result (λ plan. LooksUp condition table plan) }
    ensures joins { (condition : Condition) (left right : StoredTable)
        → AsksPairs condition left right (tree_of_ordered (described_in schema.now) query.now)
        → IfOk result (λ plan. JoinsByKeys left right plan) }
{
    described_tables_are_known();
    translation_keeps_the_meaning();
    match query_tree(alloc, schema, query) {
        Ok(tree) => planned(alloc, tree),
        Err(error) => Err(error),
    }
}

/// The same of a query without ORDER BY, as that of an INSERT.
pub fn unordered_plan(alloc: Global, schema: &Schema, query: &Query) -> Result<Tree, AllocError>
    ensures plan { (reading : CheckReading) (contents : Contents) → IsGood reading (database_of contents)
        → IsSchemaOf schema.now (database_of contents) → IfOk result (IsPlanOf contents (unordered query.now)) }
    ensures looks { (condition : Condition) (table : StoredTable)
        → Asks condition table (tree_of_query (described_in schema.now) query.now)
        → IfOk result (λ plan. LooksUp condition table plan) }
    ensures joins { (condition : Condition) (left right : StoredTable)
        → AsksPairs condition left right (tree_of_query (described_in schema.now) query.now)
        → IfOk result (λ plan. JoinsByKeys left right plan) }
{
    described_tables_are_known();
    translation_keeps_the_meaning();
    match translate_query(alloc, schema, query) {
        Ok(rows) => planned(alloc, rows),
        Err(error) => Err(error),
    }
}

/// The tree of a query, and the plan that is chosen for it.
#[derive(Drop)]
pub struct PlannedQuery {
    pub tree: Boxed<Tree>,
    pub plan: Boxed<Tree>,
}

/// The tree of a query that was typed over this schema, and the plan that is chosen for it, which
/// stands for the tree over every good database of this schema. Refuses for want of memory alone.
pub fn plan_beside_tree(
    alloc: Global,
    schema: &Schema,
    query: &OrderedQuery,
) -> Result<PlannedQuery, AllocError>
    ensures tree { IfOk result (λ p. IsTreeOf query.now p.tree) }
    ensures plan { (reading : CheckReading) (contents : Contents) → IsGood reading (database_of contents)
        → IsSchemaOf schema.now (database_of contents) → IfOk result (λ p. StandsFor contents p.plan p.tree) }
    ensures looks { (condition : Condition) (table : StoredTable)
        → Asks condition table (tree_of_ordered (described_in schema.now) query.now)
        → IfOk result (λ p. LooksUp condition table p.plan) }
    ensures joins { (condition : Condition) (left right : StoredTable)
        → AsksPairs condition left right (tree_of_ordered (described_in schema.now) query.now)
        → IfOk result (λ p. JoinsByKeys left right p.plan) }
{
    described_tables_are_known();
    match tree_in_box(alloc, schema, query) {
        Ok(tree) => match plan_in_box(alloc, schema, query) {
            Ok(plan) => Ok(PlannedQuery { tree, plan }),
            Err(error) => Err(error),
        },
        Err(error) => Err(error),
    }
}

fn tree_in_box(
    alloc: Global,
    schema: &Schema,
    query: &OrderedQuery,
) -> Result<Boxed<Tree>, AllocError>
    ensures { IfOk result (λ tree. tree ≡ tree_of_ordered (described_in schema.now) query.now) }
{
    match query_tree(alloc, schema, query) {
        Ok(tree) => Boxed::new(alloc, tree),
        Err(error) => Err(error),
    }
}

fn plan_in_box(
    alloc: Global,
    schema: &Schema,
    query: &OrderedQuery,
) -> Result<Boxed<Tree>, AllocError>
    ensures keeps { IfOk result (λ plan. Keeps plan (tree_of_ordered (described_in schema.now) query.now)) }
    ensures stored { IfOk result (λ plan.
        AreAmong (stored_in_tree plan) (stored_in_tree (tree_of_ordered (described_in schema.now) query.now))) }
    ensures looks { (condition : Condition) (table : StoredTable)
        → Asks condition table (tree_of_ordered (described_in schema.now) query.now)
        → IfOk result (λ plan. LooksUp condition table plan) }
    ensures joins { (condition : Condition) (left right : StoredTable)
        → AsksPairs condition left right (tree_of_ordered (described_in schema.now) query.now)
        → IfOk result (λ plan. JoinsByKeys left right plan) }
{
    match query_tree(alloc, schema, query) {
        Ok(tree) => match planned(alloc, tree) {
            Ok(chosen) => Boxed::new(alloc, chosen),
            Err(error) => Err(error),
        },
        Err(error) => Err(error),
    }
}

/// The plan that is chosen for a tree. It reads no other tables, and over tables that fit the tree
/// its list answers the tree.
fn planned(alloc: Global, tree: Tree) -> Result<Tree, AllocError>
    ensures keeps { IfOk result (λ plan. Keeps plan tree) }
    ensures stored { IfOk result (λ plan. AreAmong (stored_in_tree plan) (stored_in_tree tree)) }
    ensures answers { (tables : Tables) → Fits tables tree
        → IfOk result (λ plan. Answers (reply_of (tree_listing tables plan [])) (ordered_outcome tables tree)) }
    ensures looks { (condition : Condition) (table : StoredTable) → Asks condition table tree
        → IfOk result (λ plan. LooksUp condition table plan) }
    ensures joins { (condition : Condition) (left right : StoredTable) → AsksPairs condition left right tree
        → IfOk result (λ plan. JoinsByKeys left right plan) }
{
    rules_keep_the_outcome();
    match choose_plan(alloc, tree) {
        Ok(planned) => Ok(planned.plan.tree),
        Err(error) => Err(error),
    }
}

/// Whether no subquery of a plan names a table.
fn stands_alone(alloc: Global, plan: &Tree) -> Result<bool, AllocError>
    ensures { IfOk result (λ alone. (alone ≡ true) ↔ (names_in_parts plan.now ≡ [])) }
{
    match tables_in_parts(alloc, plan) {
        Ok(names) => Ok(names.is_empty()),
        Err(error) => Err(error),
    }
}

/// Carries out a plan whose indexes are those of the stored tables: what it lists. Where no
/// subquery of it names a table, it reads its tables itself, and of a look-up no more rows than
/// match; a join that goes by no index reads each side once. A plan with such a subquery goes over
/// its whole tables, each read once.
pub fn run_plan<R: Reading>(alloc: Global, reading: &mut R, plan: &Tree) -> Result<Listed, Refusal>
    ensures lists { R.is_sound reading.old → HasIndexes (R.shows reading.old).contents plan.now
        → IfOk result (λ listed. outcome_of listed ≡ tree_listing (rows_found (R.shows reading.old).contents) plan.now []) }
    ensures read { R.is_sound reading.old → HasIndexes (R.shows reading.old).contents plan.now
        → names_in_parts plan.now ≡ [] → loops_by_no_index plan.now ≡ true
        → IfOk result (λ _. (R.shows reading.new).read ≤ (R.shows reading.old).read + to_begin (entries_in (R.shows reading.old)) plan.now) }
    ensures whole { R.is_sound reading.old → (names_in_parts plan.now ≡ [] → ⊥)
        → IfOk result (λ _. (R.shows reading.new).read ≤ (R.shows reading.old).read + rows_under (rows_found (R.shows reading.old).contents) (tables_in_tree plan.now)) }
    ensures refused { IfErr result (λ refusal. R.is_sound reading.old → IsReserved refusal) }
    ensures limits { IfErr result TellsNoLimit }
    ensures counts { IfErr result (λ refusal. refusal ≡ Disk
        → HasRisen (R.shows reading.old).refused (R.shows reading.new).refused) }
    ensures follows { R.follows reading.old reading.new }
{
    match stands_alone(alloc, plan) {
        Err(_) => Err(Refusal::Memory),
        Ok(alone) => {
            if alone {
                run_by_itself(alloc, reading, plan)
            } else {
                run_whole(alloc, reading, plan)
            }
        }
    }
}

/// The rows of a query by its plan. It is refused by one of the query's faults, and for what the
/// store is refused for.
pub fn answer<R: Reading>(alloc: Global, reading: &mut R, plan: &Tree) -> Result<Rows, Refusal>
    ensures answers { IfOk result (λ rows. R.is_sound reading.old → (ordered : Asked)
        → IsPlanOf (R.shows reading.old).contents ordered plan.now
        → Answers (Ok rows) (denotes (database_of (R.shows reading.old).contents) ordered)) }
    ensures read { R.is_sound reading.old → HasIndexes (R.shows reading.old).contents plan.now
        → names_in_parts plan.now ≡ [] → loops_by_no_index plan.now ≡ true
        → IfOk result (λ _. (R.shows reading.new).read ≤ (R.shows reading.old).read + to_begin (entries_in (R.shows reading.old)) plan.now) }
    ensures whole { R.is_sound reading.old → (names_in_parts plan.now ≡ [] → ⊥)
        → IfOk result (λ _. (R.shows reading.new).read ≤ (R.shows reading.old).read + rows_under (rows_found (R.shows reading.old).contents) (tables_in_tree plan.now)) }
    ensures refused { IfErr result (λ refusal. R.is_sound reading.old → (ordered : Asked)
        → IsPlanOf (R.shows reading.old).contents ordered plan.now
        → MayRefuse (denotes (database_of (R.shows reading.old).contents) ordered).unordered.faults refusal) }
    ensures limits { IfErr result TellsNoLimit }
    ensures counts { IfErr result (λ refusal. refusal ≡ Disk
        → HasRisen (R.shows reading.old).refused (R.shows reading.new).refused) }
    ensures follows { R.follows reading.old reading.new }
{
    match run_plan(alloc, reading, plan) {
        Ok(listed) => shown(listed),
        Err(refusal) => Err(refusal),
    }
}
