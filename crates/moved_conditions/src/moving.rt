//! Conditions with other columns in the places of their own.

ghost use Rattle.std.specs.Prelude.{◌≡◌, map, IfOk};
ghost use Rattle.algebra.specs.declared.tree.Expression.TheVariants as e;
ghost use Rattle.rules.specs.Columns.{moved, moved_expression};
ghost use Rattle.moved_conditions.specs.Shifted.{shifted};

use crate::parts::{both, boxed, pushed, three};
use crate::shift::{Shift, shifted};
use algebra::{Condition, Expression};
use items::{Boxed, Items};
use sqlval::Value;
use std::alloc::{AllocError, Global};

/// A plain condition with another column in the place of each, made anew; the old one stays.
/// Refuses a condition that is not plain, which no rule moves; one whose column would stand behind
/// more columns than a `usize` counts, which no memory holds; and else for want of memory alone.
#[cycle(moved)]
#[tactic(auto, using(crate::proofs::MovedNodes::moved_nodes))]
pub fn moved(
    alloc: Global,
    condition: &Condition,
    shift: Shift,
    width: usize,
) -> Result<Condition, AllocError>
    ensures { IfOk result (λ made. made ≡ moved (shifted shift width) condition.now) }
{
    match condition {
        Condition::Or(operands) => {
            let operands = moved_all(alloc, operands, shift, width)?;
            Ok(Condition::Or(operands))
        }
        Condition::And(operands) => {
            let operands = moved_all(alloc, operands, shift, width)?;
            Ok(Condition::And(operands))
        }
        Condition::Not(operand) => {
            let operand = boxed_condition(alloc, operand, shift, width)?;
            Ok(Condition::Not(operand))
        }
        Condition::IsTruth(operand, truth) => {
            let operand = boxed_condition(alloc, operand, shift, width)?;
            Ok(Condition::IsTruth(operand, *truth))
        }
        Condition::Compare(operator, left, right) => {
            let left = boxed_operand(alloc, left, shift, width);
            let (left, right) = both(left, boxed_operand(alloc, right, shift, width))?;
            Ok(Condition::Compare(*operator, left, right))
        }
        Condition::Between(operand, low, high) => {
            let (operand, low, high) = three(
                boxed_operand(alloc, operand, shift, width),
                boxed_operand(alloc, low, shift, width),
                boxed_operand(alloc, high, shift, width),
            )?;
            Ok(Condition::Between(operand, low, high))
        }
        Condition::InList(operand, values) => {
            let operand = boxed_operand(alloc, operand, shift, width);
            let (operand, values) = both(operand, copied_values(alloc, values))?;
            Ok(Condition::InList(operand, values))
        }
        Condition::InQuery(_, _) => Err(AllocError),
        Condition::Like(operand, pattern) => {
            let operand = boxed_operand(alloc, operand, shift, width);
            let (operand, pattern) = both(operand, boxed_operand(alloc, pattern, shift, width))?;
            Ok(Condition::Like(operand, pattern))
        }
        Condition::IsNull(operand) => {
            let operand = boxed_operand(alloc, operand, shift, width)?;
            Ok(Condition::IsNull(operand))
        }
        Condition::Exists(_) => Err(AllocError),
    }
}

#[cycle(moved)]
#[tactic(auto, using(crate::proofs::MovedNodes::moved_nodes))]
fn boxed_condition(
    alloc: Global,
    condition: &Boxed<Condition>,
    shift: Shift,
    width: usize,
) -> Result<Boxed<Condition>, AllocError>
    ensures { IfOk result (λ made. made ≡ moved (shifted shift width) condition.now) }
{
    boxed(alloc, moved(alloc, condition.get(), shift, width))
}

/// Each of these, moved.
#[cycle(moved)]
#[tactic(auto, using(crate::proofs::MovedNodes::moved_nodes))]
pub fn moved_all(
    alloc: Global,
    conditions: &Items<Condition>,
    shift: Shift,
    width: usize,
) -> Result<Items<Condition>, AllocError>
    ensures { IfOk result (λ made. made ≡ map (moved (shifted shift width)) conditions.now) }
{
    let mut made = Items::new(alloc);
    for condition in conditions.as_slice() {
        made = pushed(made, moved(alloc, condition, shift, width))?;
    }
    Ok(made)
}

fn boxed_operand(
    alloc: Global,
    operand: &Boxed<Expression>,
    shift: Shift,
    width: usize,
) -> Result<Boxed<Expression>, AllocError>
    ensures { IfOk result (λ made. made ≡ moved_expression (shifted shift width) operand.now) }
{
    boxed(alloc, moved_operand(alloc, operand.get(), shift, width))
}

#[tactic(auto, using(crate::proofs::MovedNodes::moved_nodes))]
fn moved_operand(
    alloc: Global,
    operand: &Expression,
    shift: Shift,
    width: usize,
) -> Result<Expression, AllocError>
    ensures { IfOk result (λ made. made ≡ moved_expression (shifted shift width) operand.now) }
{
    match operand {
        Expression::Constant(value) => Ok(Expression::Constant(value.copy(alloc)?)),
        Expression::Column { depth, place } => moved_column(shift, width, *depth, *place),
        Expression::Calculation(_, _) => Err(AllocError),
        Expression::Concatenation(_, _) => Err(AllocError),
        Expression::Negation(_) => Err(AllocError),
        Expression::Scalar(_) => Err(AllocError),
    }
}

fn moved_column(
    shift: Shift,
    width: usize,
    depth: usize,
    place: usize,
) -> Result<Expression, AllocError>
    ensures { IfOk result (λ made. made ≡ e.Column (shifted shift width depth place).0 (shifted shift width depth place).1) }
{
    match shifted(shift, width, depth, place) {
        Some((depth, place)) => Ok(Expression::Column { depth, place }),
        None => Err(AllocError),
    }
}

fn copied_values(alloc: Global, values: &Items<Value>) -> Result<Items<Value>, AllocError>
    ensures { IfOk result (λ copied. copied ≡ values.now) }
{
    let mut copied = Items::new(alloc);
    for value in values.as_slice() {
        copied = pushed(copied, value.copy(alloc))?;
    }
    Ok(copied)
}
