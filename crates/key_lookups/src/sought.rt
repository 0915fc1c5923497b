//! The key that a condition asks for.

ghost use Rattle.std.specs.Prelude.{◌≡◌, IfOk};
ghost use Rattle.std.specs.Option.{option_copied};
ghost use Rattle.algebra.specs.declared.tree.Condition.{out-Condition};
ghost use Rattle.algebra.specs.declared.tree.Expression.{out-Expression};
ghost use Rattle.key_lookups.specs.Sought.{compared_literal, conjuncts_at, is_column, key_among, key_sought, literal_beside, literal_for, literal_in, literal_of};

use algebra::{Condition, Expression};
use denote::Row;
use items::Items;
use raising::condition_can_raise;
use sqlval::{CompOp, Value};
use std::alloc::{AllocError, Global};
use std::slice::from_ref;

/// The key that a row has in these columns where the condition is true at it. There is one where
/// the condition raises no fault and has, among its conjuncts, an equality of each of the columns
/// with a literal. Refuses for want of memory alone.
pub fn sought_key(
    alloc: Global,
    condition: &Condition,
    columns: &[usize],
) -> Result<Option<Row>, AllocError>
    ensures { IfOk result (λ found. found ≡ key_sought columns.now condition.now) }
{
    if condition_can_raise(condition) {
        return Ok(None);
    }
    key_of_conjuncts(alloc, conjuncts(condition), columns)
}

#[tactic(auto, using(crate::proofs::Opened::opened))]
fn conjuncts(condition: &Condition) -> &[Condition]
    ensures { result.now ≡ conjuncts_at (out-Condition condition.now) condition.now }
{
    match condition {
        Condition::And(operands) => operands.as_slice(),
        _ => from_ref(condition),
    }
}

fn key_of_conjuncts(
    alloc: Global,
    conjuncts: &[Condition],
    columns: &[usize],
) -> Result<Option<Row>, AllocError>
    ensures { IfOk result (λ found. found ≡ key_among conjuncts.now columns.now) }
{
    let mut key = Items::new(alloc);
    for column in columns {
        match literal_of_column(*column, conjuncts) {
            Some(value) => key.push(value.copy(alloc)?)?,
            None => return Ok(None),
        }
    }
    Ok(Some(key))
}

/// The literal of the first of these conditions that equates a column with one.
fn literal_of_column<'a>(column: usize, conjuncts: &'a [Condition]) -> Option<&'a Value>
    ensures { option_copied result ≡ literal_for column conjuncts.now }
{
    for conjunct in conjuncts {
        if let Some(value) = equated_literal(column, conjunct) {
            return Some(value);
        }
    }
    None
}

#[tactic(auto, using(crate::proofs::Opened::opened))]
fn equated_literal<'a>(column: usize, condition: &'a Condition) -> Option<&'a Value>
    ensures { option_copied result ≡ literal_in column (out-Condition condition.now) }
{
    match condition {
        Condition::Compare(operator, left, right) => {
            literal_of_either(column, *operator, left.get(), right.get())
        }
        _ => None,
    }
}

fn literal_of_either<'a>(
    column: usize,
    operator: CompOp,
    left: &'a Expression,
    right: &'a Expression,
) -> Option<&'a Value>
    ensures { option_copied result ≡ compared_literal column operator (out-Expression left.now) (out-Expression right.now) }
{
    match operator {
        CompOp::Equal => match literal_on_other_side(column, left, right) {
            Some(value) => Some(value),
            None => literal_on_other_side(column, right, left),
        },
        _ => None,
    }
}

fn literal_on_other_side<'a>(
    column: usize,
    one: &Expression,
    other: &'a Expression,
) -> Option<&'a Value>
    ensures { option_copied result ≡ literal_beside column (out-Expression one.now) (out-Expression other.now) }
{
    if is_this_column(column, one) {
        return literal(other);
    }
    None
}

#[tactic(auto, using(crate::proofs::Opened::opened))]
fn is_this_column(column: usize, expression: &Expression) -> bool
    ensures { result ≡ is_column column (out-Expression expression.now) }
{
    match expression {
        Expression::Column { depth, place } => *depth == 0 && *place == column,
        _ => false,
    }
}

#[tactic(auto, using(crate::proofs::Opened::opened))]
fn literal(expression: &Expression) -> Option<&Value>
    ensures { option_copied result ≡ literal_of (out-Expression expression.now) }
{
    match expression {
        Expression::Constant(value) => Some(value),
        _ => None,
    }
}
