//! The bounds that conditions set to a column.

ghost use Rattle.std.specs.Prelude.{◌≡◌, IfOk};
ghost use Rattle.std.specs.Option.{option_copied};
ghost use Rattle.algebra.specs.declared.tree.Condition.{out-Condition};
ghost use Rattle.algebra.specs.declared.tree.Expression.{out-Expression};
ghost use Rattle.key_lookups.specs.Sought.{is_column, literal_of};
ghost use Rattle.rules.specs.Bounds.{literal_by};
ghost use Rattle.range_lookups.specs.Ends.{bound_among, bound_by, bound_in, compared_bound, inclusion, other_end};

use algebra::{Bound, Condition, Expression};
use sqlval::{CompOp, Value};
use std::alloc::{AllocError, Global};

/// An end of a range.
#[derive(Clone, Copy)]
pub enum End {
    Low,
    High,
}

/// The first bound at an end that one of these conditions sets to a column.
pub fn bound_among(
    alloc: Global,
    end: End,
    column: usize,
    conditions: &[Condition],
) -> Result<Option<Bound>, AllocError>
    ensures { IfOk result (λ found. found ≡ bound_among end column conditions.now) }
{
    for condition in conditions {
        if let Some(bound) = bound_in(alloc, end, column, condition)? {
            return Ok(Some(bound));
        }
    }
    Ok(None)
}

#[tactic(auto, using(join_columns::proofs::Opened::opened))]
fn bound_in(
    alloc: Global,
    end: End,
    column: usize,
    condition: &Condition,
) -> Result<Option<Bound>, AllocError>
    ensures { IfOk result (λ found. found ≡ bound_in end column (out-Condition condition.now)) }
{
    match condition {
        Condition::Compare(operator, left, right) => {
            compared_bound(alloc, end, column, *operator, left.get(), right.get())
        }
        Condition::Between(operand, low, high) => match end {
            End::Low => bound_by(
                alloc,
                Some(true),
                literal_by(column, operand.get(), low.get()),
            ),
            End::High => bound_by(
                alloc,
                Some(true),
                literal_by(column, operand.get(), high.get()),
            ),
        },
        _ => Ok(None),
    }
}

fn compared_bound(
    alloc: Global,
    end: End,
    column: usize,
    operator: CompOp,
    left: &Expression,
    right: &Expression,
) -> Result<Option<Bound>, AllocError>
    ensures { IfOk result (λ found. found ≡ compared_bound end column operator left.now right.now) }
{
    match bound_by(
        alloc,
        inclusion(end, operator),
        literal_by(column, left, right),
    )? {
        Some(bound) => Ok(Some(bound)),
        None => bound_by(
            alloc,
            inclusion(other_end(end), operator),
            literal_by(column, right, left),
        ),
    }
}

fn other_end(end: End) -> End
    ensures { result ≡ other_end end }
{
    match end {
        End::Low => End::High,
        End::High => End::Low,
    }
}

/// Whether `column operator literal` has the literal itself, if it sets a bound at this end.
fn inclusion(end: End, operator: CompOp) -> Option<bool>
    ensures { result ≡ inclusion end operator }
{
    match end {
        End::Low => match operator {
            CompOp::Greater => Some(false),
            CompOp::GreaterOrEqual => Some(true),
            _ => None,
        },
        End::High => match operator {
            CompOp::Less => Some(false),
            CompOp::LessOrEqual => Some(true),
            _ => None,
        },
    }
}

fn bound_by(
    alloc: Global,
    inclusive: Option<bool>,
    literal: Option<&Value>,
) -> Result<Option<Bound>, AllocError>
    ensures { IfOk result (λ found. found ≡ bound_by inclusive (option_copied literal.entry)) }
{
    match inclusive {
        Some(inclusive) => match literal {
            Some(value) => Ok(Some(Bound {
                value: value.copy(alloc)?,
                inclusive,
            })),
            None => Ok(None),
        },
        None => Ok(None),
    }
}

/// The literal where the operand is the column.
fn literal_by<'a>(column: usize, operand: &Expression, other: &'a Expression) -> Option<&'a Value>
    ensures { option_copied result ≡ literal_by column operand.now other.now }
{
    if is_this_column(column, operand) {
        return literal(other);
    }
    None
}

#[tactic(auto, using(join_columns::proofs::Opened::opened))]
fn is_this_column(column: usize, expression: &Expression) -> bool
    ensures { result ≡ is_column column (out-Expression expression.now) }
{
    match expression {
        Expression::Column { depth, place } => *depth == 0 && *place == column,
        _ => false,
    }
}

#[tactic(auto, using(join_columns::proofs::Opened::opened))]
fn literal(expression: &Expression) -> Option<&Value>
    ensures { option_copied result ≡ literal_of (out-Expression expression.now) }
{
    match expression {
        Expression::Constant(value) => Some(value),
        _ => None,
    }
}
