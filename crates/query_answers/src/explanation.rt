//! What EXPLAIN shows.
ghost use Rattle.std.specs.Prelude.{◌≡◌, IfOk};
ghost use Rattle.algebra.specs.Described.{described_in};
ghost use Rattle.algebra.specs.Translated.{tree_of_ordered};
ghost use Rattle.plan_lines.specs.Lines.{explained};
ghost use Rattle.query_answers.specs.Explanation.{ShowsPlan};

use crate::query::query_tree;
use algebra::Tree;
use items::{Items, Text};
use plan_lines::explained;
use planner::{Planned, choose_plan};
use sqlval::Schema;
use std::alloc::{AllocError, Global};
use typing::OrderedQuery;

/// The lines of EXPLAIN of a query which was typed over this schema: the steps by which its tree
/// becomes the plan that `choose_plan` gives, as `query_plan` has it, and that plan. No table is
/// read. Refuses for want of memory alone.
pub fn explain(
    alloc: Global,
    schema: &Schema,
    query: &OrderedQuery,
) -> Result<Items<Text>, AllocError>
    ensures shows { IfOk result (ShowsPlan (tree_of_ordered (described_in schema.now) query.now)) }
{
    match query_tree(alloc, schema, query) {
        Ok(tree) => plan_shown(alloc, tree),
        Err(error) => Err(error),
    }
}

/// The steps from a tree to the plan that is chosen for it, and that plan.
fn plan_shown(alloc: Global, tree: Tree) -> Result<Items<Text>, AllocError>
    ensures shows { IfOk result (ShowsPlan tree) }
{
    match choose_plan(alloc, tree) {
        Ok(planned) => steps_and_plan(alloc, planned),
        Err(error) => Err(error),
    }
}

fn steps_and_plan(alloc: Global, planned: Planned) -> Result<Items<Text>, AllocError>
    ensures lines { IfOk result (λ lines. lines ≡ explained planned.steps planned.plan.tree) }
{
    explained(alloc, planned.steps.as_slice(), &planned.plan.tree)
}
