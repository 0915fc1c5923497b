//! Expressions and their parts.

ghost use Rattle.std.specs.Prelude.{◌≡◌, IfOk};

use crate::parts::{Part, both, boxed, pushed, with};
use crate::queries::copy_boxed_query;
use ast::{AddOperator, Expression, Factor, MultiplyOperator, Primary, Term};
use items::{Boxed, Items};
use std::alloc::{AllocError, Global};

/// A copy of an expression. Refuses for want of memory alone.
#[cycle(copies)]
pub fn copy_expression(expression: &Expression, alloc: Global) -> Result<Expression, AllocError>
    ensures copied { IfOk result (λ copied. copied ≡ expression.now) }
{
    let first = copy_term(&expression.first, alloc);
    let (first, others) = both(first, copy_terms(&expression.others, alloc))?;
    Ok(Expression { first, others })
}

#[cycle(copies)]
fn copy_terms(
    others: &Items<(AddOperator, Term)>,
    alloc: Global,
) -> Result<Items<(AddOperator, Term)>, AllocError>
    ensures { IfOk result (λ copied. copied ≡ others.now) }
{
    let mut copied = Items::new(alloc);
    for (operator, term) in others.as_slice() {
        copied = pushed(copied, with(*operator, copy_term(term, alloc)))?;
    }
    Ok(copied)
}

#[cycle(copies)]
fn copy_term(term: &Term, alloc: Global) -> Result<Term, AllocError>
    ensures { IfOk result (λ copied. copied ≡ term.now) }
{
    let first = copy_factor(&term.first, alloc);
    let (first, others) = both(first, copy_factors(&term.others, alloc))?;
    Ok(Term { first, others })
}

#[cycle(copies)]
fn copy_factors(
    others: &Items<(MultiplyOperator, Factor)>,
    alloc: Global,
) -> Result<Items<(MultiplyOperator, Factor)>, AllocError>
    ensures { IfOk result (λ copied. copied ≡ others.now) }
{
    let mut copied = Items::new(alloc);
    for (operator, factor) in others.as_slice() {
        copied = pushed(copied, with(*operator, copy_factor(factor, alloc)))?;
    }
    Ok(copied)
}

#[cycle(copies)]
fn copy_factor(factor: &Factor, alloc: Global) -> Result<Factor, AllocError>
    ensures { IfOk result (λ copied. copied ≡ factor.now) }
{
    let primary = copy_primary(&factor.primary, alloc)?;
    Ok(Factor {
        sign: factor.sign,
        primary,
    })
}

#[cycle(copies)]
fn copy_primary(primary: &Primary, alloc: Global) -> Result<Primary, AllocError>
    ensures { IfOk result (λ copied. copied ≡ primary.now) }
{
    match primary {
        Primary::Number(number) => Ok(Primary::Number(*number)),
        Primary::Text(text) => Ok(Primary::Text(text.copy(alloc)?)),
        Primary::Column(column) => Ok(Primary::Column(column.copy(alloc)?)),
        Primary::CountRows => Ok(Primary::CountRows),
        Primary::Aggregate(function, quantifier, operand) => {
            let operand = copy_boxed_expression(operand, alloc)?;
            Ok(Primary::Aggregate(*function, *quantifier, operand))
        }
        Primary::Parenthesized(expression) => {
            let expression = copy_boxed_expression(expression, alloc)?;
            Ok(Primary::Parenthesized(expression))
        }
        Primary::Subquery(query) => Ok(Primary::Subquery(copy_boxed_query(query, alloc)?)),
    }
}

#[cycle(copies)]
fn copy_boxed_expression(
    expression: &Boxed<Expression>,
    alloc: Global,
) -> Result<Boxed<Expression>, AllocError>
    ensures { IfOk result (λ copied. copied ≡ expression.now) }
{
    boxed(alloc, copy_expression(expression.get(), alloc))
}
