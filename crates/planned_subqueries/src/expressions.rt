//! The subqueries of an expression, each as the tree of its plan.

ghost use Rattle.std.specs.Prelude.{IfOk};
ghost use Rattle.operator_laws.specs.Same.{Each};
ghost use Rattle.rules.specs.Same.{KeepsExpression};
ghost use Rattle.planned_subqueries.specs.Kept.{KeepsNext};

use crate::expression_nodes::{calculation_of, concatenation_of, negation_of, scalar_of};
use crate::subqueries::planned_tree;
use crate::together::{boxed, pushed, with_operator};
use algebra::Expression;
use items::{Boxed, Items};
use std::alloc::{AllocError, Global};
use typing::Arithmetic;

/// An expression in which each subquery stands as the tree of a plan for it, and all else as it
/// was. Over tables that fit the expression it has the same value or the same faults at each row.
/// Refuses for want of memory alone.
#[cycle(expressions)]
pub fn planned_expression(alloc: Global, expression: Expression) -> Result<Expression, AllocError>
    ensures { IfOk result (λ new. KeepsExpression new expression) }
{
    match expression {
        Expression::Constant(value) => Ok(Expression::Constant(value)),
        Expression::Column { depth, place } => Ok(Expression::Column { depth, place }),
        Expression::Calculation(first, others) => {
            let first = boxed_expression(alloc, first);
            calculation_of(first, all_operands(alloc, others))
        }
        Expression::Concatenation(first, others) => {
            let first = boxed_expression(alloc, first);
            concatenation_of(first, planned_expressions(alloc, others))
        }
        Expression::Negation(operand) => negation_of(boxed_expression(alloc, operand)),
        Expression::Scalar(tree) => scalar_of(planned_tree(alloc, tree)),
    }
}

#[cycle(expressions)]
pub fn boxed_expression(
    alloc: Global,
    expression: Boxed<Expression>,
) -> Result<Boxed<Expression>, AllocError>
    ensures { IfOk result (λ new. KeepsExpression new expression) }
{
    boxed(alloc, planned_expression(alloc, expression.into_inner()))
}

/// Each of these, planned.
#[cycle(expressions)]
pub fn planned_expressions(
    alloc: Global,
    expressions: Items<Expression>,
) -> Result<Items<Expression>, AllocError>
    ensures { IfOk result (λ new. Each KeepsExpression new expressions) }
{
    let mut made = Ok(Items::new(alloc));
    for expression in expressions.into_vec() {
        made = pushed(made, planned_expression(alloc, expression));
    }
    made
}

#[cycle(expressions)]
fn all_operands(
    alloc: Global,
    operands: Items<(Arithmetic, Expression)>,
) -> Result<Items<(Arithmetic, Expression)>, AllocError>
    ensures { IfOk result (λ new. Each KeepsNext new operands) }
{
    let mut made = Ok(Items::new(alloc));
    for (operator, operand) in operands.into_vec() {
        let operand = planned_expression(alloc, operand);
        made = pushed(made, with_operator(operator, operand));
    }
    made
}
