//! Plans, and the one that is chosen for a tree.

ghost use Rattle.std.specs.Prelude.{◌≡◌, [], ◌++◌, false, Contains, List, Some, IfOk};
ghost use Rattle.algebra.specs.Listing.{reply_of, tree_listing};
ghost use Rattle.algebra.specs.OrderKeys.{ordered_outcome};
ghost use Rattle.algebra.specs.declared.tree.Condition.{Condition};
ghost use Rattle.algebra.specs.declared.tree.StoredTable.{StoredTable};
ghost use Rattle.algebra.specs.declared.tree.Tree.{Tree};
ghost use Rattle.denote.specs.Answer.{Answers};
ghost use Rattle.denote.specs.Database.{CheckReading, Database, IsGood, rows_in};
ghost use Rattle.denote.specs.Meaning.{Tables};
ghost use Rattle.planner.specs.Joins.{AsksPairs, JoinsByKeys};
ghost use Rattle.planner.specs.Led.{Led};
ghost use Rattle.planner.specs.Looks.{Asks, LooksUp};
ghost use Rattle.rules.specs.declared.rule.Step.{Step};
ghost use Rattle.rules.specs.Applied.{replayed};
ghost use Rattle.rules.specs.Same.{Fits, Has, IsSameTree};
ghost use Rattle.rules.specs.Stored.{stored_in_tree};

use crate::down::moved_down;
use crate::outline::{Outline, turned};
use crate::up::improved;
use algebra::Tree;
use algebra_laws::denials_are_certain;
use items::Items;
use order_laws::listings_answer_in_order;
use rewrite::Step;
use rewrite_laws::{answers_stay, good_databases_fit, rules_keep_the_outcome};
use std::alloc::{AllocError, Global};
use tree_columns::conditions_quiet;

/// A tree that is to be carried out as it stands.
#[derive(Drop)]
pub struct Plan {
    pub tree: Tree,
}

/// A plan, and the steps that lead to its tree from the one that was given.
#[derive(Drop)]
pub struct Planned {
    pub steps: Items<Step>,
    pub plan: Plan,
}

/// The plan of a tree, as it stands.
pub fn plan_of(tree: Tree) -> Plan
    ensures { result.tree ≡ tree }
{
    Plan { tree }
}

/// A plan for a tree. Its steps can be replayed, and lead to the plan's tree. Over every good
/// database that has the tables as the tree knows them the plan has the outcome of the tree, and
/// what it lists answers the tree. Refuses for want of memory alone, and drops the tree then.
pub fn choose_plan(alloc: Global, tree: Tree) -> Result<Planned, AllocError>
    ensures replays { IfOk result (λ p. replayed p.steps tree ≡ Some p.plan.tree) }
    ensures same { (reading : CheckReading) (db : Database) → IsGood reading db
        → ((table : StoredTable) → Contains (stored_in_tree tree) table → Has db table)
        → IfOk result (λ p. IsSameTree (rows_in db) p.plan.tree tree) }
    ensures answers { (tables : Tables) → Fits tables tree
        → IfOk result (λ p. Answers (reply_of (tree_listing tables p.plan.tree [])) (ordered_outcome tables tree)) }
    ensures looks { (condition : Condition) (table : StoredTable) → Asks condition table tree
        → IfOk result (λ p. LooksUp condition table p.plan.tree) }
    ensures joins { (condition : Condition) (left right : StoredTable) → AsksPairs condition left right tree
        → IfOk result (λ p. JoinsByKeys left right p.plan.tree) }
{
    rules_keep_the_outcome();
    good_databases_fit();
    answers_stay();
    listings_answer_in_order();
    plan_found(alloc, tree)
}

fn plan_found(alloc: Global, tree: Tree) -> Result<Planned, AllocError>
    ensures replays { IfOk result (λ p. replayed p.steps tree ≡ Some p.plan.tree) }
    ensures looks { (condition : Condition) (table : StoredTable) → Asks condition table tree
        → IfOk result (λ p. LooksUp condition table p.plan.tree) }
    ensures joins { (condition : Condition) (left right : StoredTable) → AsksPairs condition left right tree
        → IfOk result (λ p. JoinsByKeys left right p.plan.tree) }
{
    denials_are_certain();
    let calm = conditions_quiet(&tree);
    let Outline { steps, tree: moved } = moved_down(alloc, calm, usize::MAX, tree)?;
    let steps = turned(alloc, steps);
    with_choices(alloc, steps, improved(alloc, moved))
}

/// The steps, and behind them those by which operators were chosen.
fn with_choices(
    alloc: Global,
    steps: Result<Items<Step>, AllocError>,
    improved: Result<Outline, AllocError>,
) -> Result<Planned, AllocError>
    ensures replays { (old middle : Tree) (first : List Step) → replayed first old ≡ Some middle
        → IfOk steps (λ s. s ≡ first)
        → IfOk improved (λ o. Led false middle o) → IfOk result (λ p. replayed p.steps old ≡ Some p.plan.tree) }
    ensures looks { (condition : Condition) (table : StoredTable) → IfOk improved (λ o. LooksUp condition table o.tree)
        → IfOk result (λ p. LooksUp condition table p.plan.tree) }
    ensures joins { (left right : StoredTable) → IfOk improved (λ o. JoinsByKeys left right o.tree)
        → IfOk result (λ p. JoinsByKeys left right p.plan.tree) }
{
    let Outline { steps: more, tree } = improved?;
    let steps = both(steps, turned(alloc, more))?;
    Ok(Planned {
        steps,
        plan: plan_of(tree),
    })
}

fn both(
    steps: Result<Items<Step>, AllocError>,
    more: Result<Items<Step>, AllocError>,
) -> Result<Items<Step>, AllocError>
    ensures { (first second : List Step) → IfOk steps (λ s. s ≡ first) → IfOk more (λ m. m ≡ second)
        → IfOk result (λ all. all ≡ first ++ second) }
{
    let mut steps = steps?;
    steps.append(more?)?;
    Ok(steps)
}
