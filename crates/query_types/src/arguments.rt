//! Set functions and their arguments, in which neither a query nor a set function may stand.

ghost use Rattle.typing.specs.Finding.{each};
ghost use Rattle.typing.specs.Finds.{Finds};
ghost use Rattle.typing.specs.Known.{Known};
ghost use Rattle.typing.specs.Part.{Argument};
ghost use Rattle.typing.specs.Scope.{Scope as Frames, ungrouped};
ghost use Rattle.typing.specs.SetFunction.{aggregate_found, column_seen, count_rows};
ghost use Rattle.typing.specs.Typing.{expression_part, factor_part, primary_part, term_part};
ghost use Rattle.scopes.specs.Seen.{frames};
ghost use Rattle.query_types.specs.Parts.{continued, argument_view, factor_after, in_order, multiplied, summed, term_after};

use ast::{AddOperator, Column, Factor, MultiplyOperator, Primary, Quantifier, Sign, Term};
use items::Items;
use refusals::{Reason, Refusal};
use scopes::{Clause, Scope, View, column};
use sqlval::ValueType;
use std::alloc::Global;
use type_rules::{
    after_sign, aggregate_of, calculation, concatenation, first_operator, is_distinct, joined_text,
    multiplier, number_constant, summand, text_constant, with_sign,
};
use typing::{Arithmetic, Expression, SetFunction, TypedExpression};

/// A set function over its argument, and its type.
pub fn typed_aggregate(
    alloc: Global,
    function: ast::SetFunction,
    quantifier: Option<Quantifier>,
    argument: &ast::Expression,
    scope: &Scope,
) -> Result<(SetFunction, ValueType), Refusal>
    ensures { (k : Known)
        → Finds result (aggregate_found function quantifier (expression_part k argument.now) (frames scope.now)) }
{
    let argument = argument_expression(alloc, argument, scope);
    aggregate_of(function, is_distinct(quantifier), argument)
}

/// `COUNT(*)`, and its type.
pub fn row_count() -> Result<(SetFunction, ValueType), Refusal>
    ensures { (scope : Frames) → Finds result (count_rows scope) }
{
    Ok((SetFunction::CountRows, ValueType::Integer))
}

fn argument_column(scope: &Scope, name: &Column) -> Result<TypedExpression, Refusal>
    ensures { Finds result (column_seen Argument name.now (ungrouped (frames scope.now))) }
{
    let clause = Clause::Argument;
    column(&View { scope, clause }, name)
}

#[cycle(arguments)]
fn argument_expression(
    alloc: Global,
    tree: &ast::Expression,
    scope: &Scope,
) -> Result<TypedExpression, Refusal>
    ensures { (k : Known) → Finds result ((expression_part k tree.now).found (argument_view (frames scope.now))) }
{
    let first = argument_term(alloc, &tree.first, scope);
    let others = tree.others.as_slice();
    let Some(operator) = first_operator(others) else {
        return first;
    };
    match operator {
        AddOperator::Concatenate => {
            concatenation(alloc, first, argument_texts(alloc, others, scope))
        }
        _ => calculation(alloc, first, argument_summands(alloc, others, scope)),
    }
}

#[cycle(arguments)]
fn argument_summands(
    alloc: Global,
    others: &[(AddOperator, Term)],
    scope: &Scope,
) -> Result<Items<(Arithmetic, Expression)>, Refusal>
    ensures { (k : Known)
        → Finds result (each (in_order (term_after k) summed others.now (argument_view (frames scope.now)))) }
{
    let mut operands = Items::new(alloc);
    for (operator, term) in others {
        operands.push(summand(*operator, argument_term(alloc, term, scope))?)?;
    }
    Ok(operands)
}

#[cycle(arguments)]
fn argument_texts(
    alloc: Global,
    others: &[(AddOperator, Term)],
    scope: &Scope,
) -> Result<Items<Expression>, Refusal>
    ensures { (k : Known)
        → Finds result (each (in_order (term_after k) continued others.now (argument_view (frames scope.now)))) }
{
    let mut operands = Items::new(alloc);
    for (operator, term) in others {
        operands.push(joined_text(*operator, argument_term(alloc, term, scope))?)?;
    }
    Ok(operands)
}

#[cycle(arguments)]
fn argument_term(alloc: Global, tree: &Term, scope: &Scope) -> Result<TypedExpression, Refusal>
    ensures { (k : Known) → Finds result ((term_part k tree.now).found (argument_view (frames scope.now))) }
{
    let first = argument_factor(alloc, &tree.first, scope);
    if tree.others.is_empty() {
        return first;
    }
    let others = argument_multipliers(alloc, tree.others.as_slice(), scope);
    calculation(alloc, first, others)
}

#[cycle(arguments)]
fn argument_multipliers(
    alloc: Global,
    others: &[(MultiplyOperator, Factor)],
    scope: &Scope,
) -> Result<Items<(Arithmetic, Expression)>, Refusal>
    ensures { (k : Known)
        → Finds result (each (in_order (factor_after k) multiplied others.now (argument_view (frames scope.now)))) }
{
    let mut operands = Items::new(alloc);
    for (operator, factor) in others {
        operands.push(multiplier(*operator, argument_factor(alloc, factor, scope))?)?;
    }
    Ok(operands)
}

#[cycle(arguments)]
fn argument_factor(alloc: Global, tree: &Factor, scope: &Scope) -> Result<TypedExpression, Refusal>
    ensures { (k : Known) → Finds result ((factor_part k tree.now).found (argument_view (frames scope.now))) }
{
    argument_primary(alloc, &tree.primary, tree.sign, scope)
}

#[cycle(arguments)]
fn argument_primary(
    alloc: Global,
    tree: &Primary,
    sign: Option<Sign>,
    scope: &Scope,
) -> Result<TypedExpression, Refusal>
    ensures { (k : Known) → Finds result ((primary_part k tree.now sign).found (argument_view (frames scope.now))) }
{
    match tree {
        Primary::Number(number) => number_constant(with_sign(sign, *number)),
        Primary::Text(text) => after_sign(alloc, sign, text_constant(alloc, text)),
        Primary::Column(name) => after_sign(alloc, sign, argument_column(scope, name)),
        Primary::Parenthesized(inner) => {
            after_sign(alloc, sign, argument_expression(alloc, inner.get(), scope))
        }
        Primary::CountRows => Err(Refusal::Invalid(Reason::Grouping)),
        Primary::Aggregate(_, _, _) => Err(Refusal::Invalid(Reason::Grouping)),
        Primary::Subquery(_) => Err(Refusal::Invalid(Reason::Grouping)),
    }
}
