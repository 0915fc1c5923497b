//! Nodes of expressions over planned parts.

ghost use Rattle.std.specs.Prelude.{List, IfOk};
ghost use Rattle.algebra.specs.declared.tree.Expression.{Expression};
ghost use Rattle.algebra.specs.declared.tree.Expression.TheVariants as e;
ghost use Rattle.algebra.specs.declared.tree.Tree.{Tree};
ghost use Rattle.operator_laws.specs.Same.{Each};
ghost use Rattle.rules.specs.Same.{Keeps, KeepsExpression};
ghost use Rattle.typing.specs.declared.typed.Arithmetic.{Arithmetic};
ghost use Rattle.planned_subqueries.specs.Kept.{KeepsNext};

use crate::together::both;
use algebra::{Expression, Tree};
use items::{Boxed, Items};
use std::alloc::AllocError;
use typing::Arithmetic;

pub fn calculation_of(
    first: Result<Boxed<Expression>, AllocError>,
    others: Result<Items<(Arithmetic, Expression)>, AllocError>,
) -> Result<Expression, AllocError>
    ensures { (x : Expression) (rest : List (Arithmetic × Expression)) → IfOk first (λ new. KeepsExpression new x)
        → IfOk others (λ new. Each KeepsNext new rest)
        → IfOk result (λ made. KeepsExpression made (e.Calculation x rest)) }
{
    let parts = both(first, others)?;
    Ok(Expression::Calculation(parts.0, parts.1))
}

pub fn concatenation_of(
    first: Result<Boxed<Expression>, AllocError>,
    others: Result<Items<Expression>, AllocError>,
) -> Result<Expression, AllocError>
    ensures { (x : Expression) (rest : List Expression) → IfOk first (λ new. KeepsExpression new x)
        → IfOk others (λ new. Each KeepsExpression new rest)
        → IfOk result (λ made. KeepsExpression made (e.Concatenation x rest)) }
{
    let parts = both(first, others)?;
    Ok(Expression::Concatenation(parts.0, parts.1))
}

pub fn negation_of(operand: Result<Boxed<Expression>, AllocError>) -> Result<Expression, AllocError>
    ensures { (old : Expression) → IfOk operand (λ new. KeepsExpression new old)
        → IfOk result (λ made. KeepsExpression made (e.Negation old)) }
{
    let operand = operand?;
    Ok(Expression::Negation(operand))
}

pub fn scalar_of(tree: Result<Boxed<Tree>, AllocError>) -> Result<Expression, AllocError>
    ensures { (old : Tree) → IfOk tree (λ new. Keeps new old)
        → IfOk result (λ made. KeepsExpression made (e.Scalar old)) }
{
    let tree = tree?;
    Ok(Expression::Scalar(tree))
}
