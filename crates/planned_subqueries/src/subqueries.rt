//! A subquery as the tree of its plan.

ghost use Rattle.std.specs.Prelude.{IfOk};
ghost use Rattle.rules.specs.Same.{Keeps};

use crate::together::boxed;
use algebra::Tree;
use items::Boxed;
use planner::choose_plan;
use rewrite_laws::rules_keep_the_outcome;
use std::alloc::{AllocError, Global};

/// A subquery as the tree of a plan for it.
pub fn planned_tree(alloc: Global, tree: Boxed<Tree>) -> Result<Boxed<Tree>, AllocError>
    ensures { IfOk result (λ new. Keeps new tree) }
{
    boxed(alloc, tree_of_plan(alloc, tree.into_inner()))
}

fn tree_of_plan(alloc: Global, tree: Tree) -> Result<Tree, AllocError>
    ensures { IfOk result (λ new. Keeps new tree) }
{
    rules_keep_the_outcome();
    match choose_plan(alloc, tree) {
        Ok(planned) => Ok(planned.plan.tree),
        Err(error) => Err(error),
    }
}
