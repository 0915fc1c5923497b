//! Which columns a condition names. None of it takes memory.

ghost use Rattle.std.specs.Prelude.{◌≡◌, map};
ghost use Rattle.std.specs.List.{list_all, list_any};
ghost use Rattle.algebra.specs.Raising.{is_plain, itself};
ghost use Rattle.rules.specs.Columns.{expression_names_only, in_half, in_left, in_right, names_only};
ghost use Rattle.tree_columns.specs.Within.{within};

use crate::reach::{Reach, is_within};
use algebra::{Condition, Expression};

/// Whether a condition is plain and names no other columns than these.
#[cycle(named)]
#[tactic(auto, using(crate::proofs::NamedNodes::named_nodes))]
pub fn names_within(condition: &Condition, reach: Reach, width: usize) -> bool
    ensures { result ≡ names_only (within reach width) condition.now }
{
    match condition {
        Condition::Or(operands) => all_name_within(operands.as_slice(), reach, width),
        Condition::And(operands) => all_name_within(operands.as_slice(), reach, width),
        Condition::Not(operand) => names_within(operand.get(), reach, width),
        Condition::IsTruth(operand, _) => names_within(operand.get(), reach, width),
        Condition::Compare(_, left, right) => {
            operand_within(left.get(), reach, width) && operand_within(right.get(), reach, width)
        }
        Condition::Between(operand, low, high) => {
            operand_within(operand.get(), reach, width)
                && (operand_within(low.get(), reach, width)
                    && operand_within(high.get(), reach, width))
        }
        Condition::InList(operand, _) => operand_within(operand.get(), reach, width),
        Condition::InQuery(_, _) => false,
        Condition::Like(operand, pattern) => {
            operand_within(operand.get(), reach, width)
                && operand_within(pattern.get(), reach, width)
        }
        Condition::IsNull(operand) => operand_within(operand.get(), reach, width),
        Condition::Exists(_) => false,
    }
}

#[cycle(named)]
#[tactic(auto, using(crate::proofs::NamedNodes::named_nodes))]
fn all_name_within(operands: &[Condition], reach: Reach, width: usize) -> bool
    ensures { result ≡ list_all itself (map (names_only (within reach width)) operands.now) }
{
    for operand in operands {
        if !names_within(operand, reach, width) {
            return false;
        }
    }
    true
}

#[tactic(auto, using(crate::proofs::NamedNodes::named_nodes))]
fn operand_within(expression: &Expression, reach: Reach, width: usize) -> bool
    ensures { result ≡ expression_names_only (within reach width) expression.now }
{
    match expression {
        Expression::Constant(_) => true,
        Expression::Column { depth, place } => is_within(reach, width, *depth, *place),
        Expression::Calculation(_, _) => false,
        Expression::Concatenation(_, _) => false,
        Expression::Negation(_) => false,
        Expression::Scalar(_) => false,
    }
}

/// Whether a condition is plain: no subquery, and no operator on values.
pub fn is_plain(condition: &Condition) -> bool
    ensures { result ≡ is_plain condition.now }
{
    names_within(condition, Reach::Anywhere, 0)
}

/// Whether a condition is plain and names columns of the left side alone, which has so many, and of
/// rows outside.
pub fn names_left(condition: &Condition, width: usize) -> bool
    ensures { result ≡ names_only (in_left width) condition.now }
{
    names_within(condition, Reach::LeftSide, width)
}

/// Likewise of the right side alone.
pub fn names_right(condition: &Condition, width: usize) -> bool
    ensures { result ≡ names_only (in_right width) condition.now }
{
    names_within(condition, Reach::RightSide, width)
}

/// Whether the condition of a subquery is plain and may stand on a half join, whose left side has
/// so many columns.
pub fn names_half(condition: &Condition, width: usize) -> bool
    ensures { result ≡ names_only (in_half width) condition.now }
{
    names_within(condition, Reach::HalfJoin, width)
}

/// Whether one of these conditions at least is plain and names no other columns.
pub fn some_within(conditions: &[Condition], reach: Reach, width: usize) -> bool
    ensures { result ≡ list_any (names_only (within reach width)) conditions.now }
{
    for condition in conditions {
        if names_within(condition, reach, width) {
            return true;
        }
    }
    false
}

/// Whether all of them are and do.
pub fn all_within(conditions: &[Condition], reach: Reach, width: usize) -> bool
    ensures { result ≡ list_all (names_only (within reach width)) conditions.now }
{
    for condition in conditions {
        if !names_within(condition, reach, width) {
            return false;
        }
    }
    true
}
