//! The subqueries of a condition, each as the tree of its plan.

ghost use Rattle.std.specs.Prelude.{IfOk};
ghost use Rattle.operator_laws.specs.Same.{Each, IfBoth};
ghost use Rattle.rules.specs.Same.{KeepsCondition};

use crate::condition_nodes::{
    and_of, between_of, compare_of, exists_of, in_list_of, in_query_of, like_of, not_of, null_of,
    or_of, truth_of,
};
use crate::expressions::boxed_expression;
use crate::subqueries::planned_tree;
use crate::together::{boxed, pushed};
use algebra::Condition;
use items::{Boxed, Items};
use std::alloc::{AllocError, Global};

/// A condition in which each subquery stands as the tree of a plan for it, and all else as it was.
/// Over tables that fit the condition it has the same truth value or the same faults at each row.
/// Refuses for want of memory alone.
#[cycle(conditions)]
pub fn planned_condition(alloc: Global, condition: Condition) -> Result<Condition, AllocError>
    ensures { IfOk result (λ new. KeepsCondition new condition) }
{
    match condition {
        Condition::Or(operands) => or_of(all_conditions(alloc, operands)),
        Condition::And(operands) => and_of(all_conditions(alloc, operands)),
        Condition::Not(operand) => not_of(boxed_condition(alloc, operand)),
        Condition::IsTruth(operand, truth) => truth_of(boxed_condition(alloc, operand), truth),
        Condition::Compare(operator, left, right) => {
            let left = boxed_expression(alloc, left);
            compare_of(operator, left, boxed_expression(alloc, right))
        }
        Condition::Between(operand, low, high) => {
            let operand = boxed_expression(alloc, operand);
            let low = boxed_expression(alloc, low);
            between_of(operand, low, boxed_expression(alloc, high))
        }
        Condition::InList(operand, values) => in_list_of(boxed_expression(alloc, operand), values),
        Condition::InQuery(operand, tree) => {
            let operand = boxed_expression(alloc, operand);
            in_query_of(operand, planned_tree(alloc, tree))
        }
        Condition::Like(operand, pattern) => {
            let operand = boxed_expression(alloc, operand);
            like_of(operand, boxed_expression(alloc, pattern))
        }
        Condition::IsNull(operand) => null_of(boxed_expression(alloc, operand)),
        Condition::Exists(tree) => exists_of(planned_tree(alloc, tree)),
    }
}

/// A condition that is planned, if there is one.
pub fn planned_filter(
    alloc: Global,
    filter: Option<Condition>,
) -> Result<Option<Condition>, AllocError>
    ensures { IfOk result (λ new. IfBoth KeepsCondition new filter) }
{
    match filter {
        None => Ok(None),
        Some(condition) => match planned_condition(alloc, condition) {
            Ok(new) => Ok(Some(new)),
            Err(refused) => Err(refused),
        },
    }
}

#[cycle(conditions)]
fn boxed_condition(
    alloc: Global,
    condition: Boxed<Condition>,
) -> Result<Boxed<Condition>, AllocError>
    ensures { IfOk result (λ new. KeepsCondition new condition) }
{
    boxed(alloc, planned_condition(alloc, condition.into_inner()))
}

#[cycle(conditions)]
fn all_conditions(
    alloc: Global,
    conditions: Items<Condition>,
) -> Result<Items<Condition>, AllocError>
    ensures { IfOk result (λ new. Each KeepsCondition new conditions) }
{
    let mut made = Ok(Items::new(alloc));
    for condition in conditions.into_vec() {
        made = pushed(made, planned_condition(alloc, condition));
    }
    made
}
