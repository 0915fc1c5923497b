//! Nodes of conditions over planned parts.

ghost use Rattle.std.specs.Prelude.{List, IfOk};
ghost use Rattle.algebra.specs.declared.tree.Condition.{Condition};
ghost use Rattle.algebra.specs.declared.tree.Condition.TheVariants as c;
ghost use Rattle.algebra.specs.declared.tree.Expression.{Expression};
ghost use Rattle.algebra.specs.declared.tree.Tree.{Tree};
ghost use Rattle.operator_laws.specs.Same.{Each};
ghost use Rattle.rules.specs.Same.{Keeps, KeepsCondition, KeepsExpression};

use crate::together::{both, three};
use algebra::{Condition, Expression, Tree};
use items::{Boxed, Items};
use sqlval::{CompOp, Truth, Value};
use std::alloc::AllocError;

pub fn or_of(operands: Result<Items<Condition>, AllocError>) -> Result<Condition, AllocError>
    ensures { (old : List Condition) → IfOk operands (λ new. Each KeepsCondition new old)
        → IfOk result (λ made. KeepsCondition made (c.Or old)) }
{
    let operands = operands?;
    Ok(Condition::Or(operands))
}

pub fn and_of(operands: Result<Items<Condition>, AllocError>) -> Result<Condition, AllocError>
    ensures { (old : List Condition) → IfOk operands (λ new. Each KeepsCondition new old)
        → IfOk result (λ made. KeepsCondition made (c.And old)) }
{
    let operands = operands?;
    Ok(Condition::And(operands))
}

pub fn not_of(operand: Result<Boxed<Condition>, AllocError>) -> Result<Condition, AllocError>
    ensures { (old : Condition) → IfOk operand (λ new. KeepsCondition new old)
        → IfOk result (λ made. KeepsCondition made (c.Not old)) }
{
    let operand = operand?;
    Ok(Condition::Not(operand))
}

pub fn truth_of(
    operand: Result<Boxed<Condition>, AllocError>,
    truth: Truth,
) -> Result<Condition, AllocError>
    ensures { (old : Condition) → IfOk operand (λ new. KeepsCondition new old)
        → IfOk result (λ made. KeepsCondition made (c.IsTruth old truth)) }
{
    let operand = operand?;
    Ok(Condition::IsTruth(operand, truth))
}

pub fn compare_of(
    operator: CompOp,
    left: Result<Boxed<Expression>, AllocError>,
    right: Result<Boxed<Expression>, AllocError>,
) -> Result<Condition, AllocError>
    ensures { (x y : Expression) → IfOk left (λ new. KeepsExpression new x) → IfOk right (λ new. KeepsExpression new y)
        → IfOk result (λ made. KeepsCondition made (c.Compare operator x y)) }
{
    let sides = both(left, right)?;
    Ok(Condition::Compare(operator, sides.0, sides.1))
}

pub fn between_of(
    operand: Result<Boxed<Expression>, AllocError>,
    low: Result<Boxed<Expression>, AllocError>,
    high: Result<Boxed<Expression>, AllocError>,
) -> Result<Condition, AllocError>
    ensures { (x y z : Expression) → IfOk operand (λ new. KeepsExpression new x)
        → IfOk low (λ new. KeepsExpression new y) → IfOk high (λ new. KeepsExpression new z)
        → IfOk result (λ made. KeepsCondition made (c.Between x y z)) }
{
    let parts = three(operand, low, high)?;
    Ok(Condition::Between(parts.0, parts.1, parts.2))
}

pub fn in_list_of(
    operand: Result<Boxed<Expression>, AllocError>,
    values: Items<Value>,
) -> Result<Condition, AllocError>
    ensures { (old : Expression) → IfOk operand (λ new. KeepsExpression new old)
        → IfOk result (λ made. KeepsCondition made (c.InList old values)) }
{
    let operand = operand?;
    Ok(Condition::InList(operand, values))
}

pub fn in_query_of(
    operand: Result<Boxed<Expression>, AllocError>,
    tree: Result<Boxed<Tree>, AllocError>,
) -> Result<Condition, AllocError>
    ensures { (x : Expression) (t : Tree) → IfOk operand (λ new. KeepsExpression new x) → IfOk tree (λ new. Keeps new t)
        → IfOk result (λ made. KeepsCondition made (c.InQuery x t)) }
{
    let parts = both(operand, tree)?;
    Ok(Condition::InQuery(parts.0, parts.1))
}

pub fn like_of(
    operand: Result<Boxed<Expression>, AllocError>,
    pattern: Result<Boxed<Expression>, AllocError>,
) -> Result<Condition, AllocError>
    ensures { (x y : Expression) → IfOk operand (λ new. KeepsExpression new x)
        → IfOk pattern (λ new. KeepsExpression new y) → IfOk result (λ made. KeepsCondition made (c.Like x y)) }
{
    let sides = both(operand, pattern)?;
    Ok(Condition::Like(sides.0, sides.1))
}

pub fn null_of(operand: Result<Boxed<Expression>, AllocError>) -> Result<Condition, AllocError>
    ensures { (old : Expression) → IfOk operand (λ new. KeepsExpression new old)
        → IfOk result (λ made. KeepsCondition made (c.IsNull old)) }
{
    let operand = operand?;
    Ok(Condition::IsNull(operand))
}

pub fn exists_of(tree: Result<Boxed<Tree>, AllocError>) -> Result<Condition, AllocError>
    ensures { (old : Tree) → IfOk tree (λ new. Keeps new old)
        → IfOk result (λ made. KeepsCondition made (c.Exists old)) }
{
    let tree = tree?;
    Ok(Condition::Exists(tree))
}
