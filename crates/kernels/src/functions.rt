//! What a tree's set functions are, without their arguments.

ghost use Rattle.std.specs.Prelude.{◌≡◌, IfOk, map};
ghost use Rattle.algebra.specs.declared.tree.Tree.{Tree-F};
ghost use Rattle.algebra.specs.Meaning.{Layer, TreeMeaning, function_by};
ghost use Rattle.kernels.specs.Aggregates.{kind_of};

use crate::aggregate::Aggregate;
use algebra::SetFunction;
use items::Items;
use std::alloc::{AllocError, Global};

#[tactic(auto, using(crate::proofs::FunctionNodes::function_nodes))]
fn aggregate_of(function: &SetFunction) -> Aggregate
    ensures { (step : Layer Tree-F → TreeMeaning) → result ≡ kind_of (function_by step function.now) }
{
    match function {
        SetFunction::CountRows => Aggregate::CountRows,
        SetFunction::Over {
            function,
            distinct,
            argument: _,
        } => Aggregate::Over {
            function: *function,
            distinct: *distinct,
        },
    }
}

/// The set functions without their arguments. Refuses for want of memory alone.
pub fn aggregates_of(
    alloc: Global,
    functions: &[SetFunction],
) -> Result<Items<Aggregate>, AllocError>
    ensures { (step : Layer Tree-F → TreeMeaning)
        → IfOk result (λ aggregates. aggregates ≡ map kind_of (map (function_by step) functions.now)) }
{
    let mut aggregates = Items::with_capacity(alloc, functions.len())?;
    for function in functions {
        aggregates.push(aggregate_of(function))?;
    }
    Ok(aggregates)
}
