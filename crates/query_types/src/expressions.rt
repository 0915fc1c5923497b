//! Names and types of expressions.

ghost use Rattle.typing.specs.Finding.{each};
ghost use Rattle.typing.specs.Finds.{Finds};
ghost use Rattle.typing.specs.Known.{known};
ghost use Rattle.typing.specs.Typing.{expression_part, factor_part, primary_part, term_part};
ghost use Rattle.scopes.specs.Seen.{seen};
ghost use Rattle.query_types.specs.Parts.{continued, factor_after, in_order, multiplied, summed, term_after};

use crate::arguments::{row_count, typed_aggregate};
use crate::parts::query_seen;
use crate::queries::typed_query_expression;
use ast::{AddOperator, Factor, MultiplyOperator, Primary, Sign, Term};
use items::Items;
use refusals::Refusal;
use scopes::{View, after_factor, after_term, column};
use sqlval::Schema;
use std::alloc::Global;
use type_rules::{
    after_sign, calculation, concatenation, first_operator, joined_text, multiplier,
    number_constant, scalar, summand, text_constant, value_seen, with_sign,
};
use typing::{Arithmetic, Expression, TypedExpression};

/// What an expression stands for where it is seen so.
#[cycle(queries)]
pub fn typed_expression(
    alloc: Global,
    schema: &Schema,
    tree: &ast::Expression,
    view: &View,
) -> Result<TypedExpression, Refusal>
    ensures { Finds result ((expression_part (known schema.now) tree.now).found (seen view.now)) }
{
    let others = tree.others.as_slice();
    let Some(operator) = first_operator(others) else {
        return typed_term(alloc, schema, &tree.first, view);
    };
    let next = after_term(&tree.first, view)?;
    let first = typed_term(alloc, schema, &tree.first, view);
    match operator {
        AddOperator::Concatenate => {
            concatenation(alloc, first, joined_texts(alloc, schema, others, &next))
        }
        _ => calculation(alloc, first, summands(alloc, schema, others, &next)),
    }
}

#[cycle(queries)]
fn summands(
    alloc: Global,
    schema: &Schema,
    others: &[(AddOperator, Term)],
    view: &View,
) -> Result<Items<(Arithmetic, Expression)>, Refusal>
    ensures { Finds result (each (in_order (term_after (known schema.now)) summed others.now (seen view.now))) }
{
    let mut operands = Items::new(alloc);
    let mut here = *view;
    for (operator, term) in others {
        let next = after_term(term, &here)?;
        operands.push(summand(*operator, typed_term(alloc, schema, term, &here))?)?;
        here = next;
    }
    Ok(operands)
}

#[cycle(queries)]
fn joined_texts(
    alloc: Global,
    schema: &Schema,
    others: &[(AddOperator, Term)],
    view: &View,
) -> Result<Items<Expression>, Refusal>
    ensures { Finds result (each (in_order (term_after (known schema.now)) continued others.now (seen view.now))) }
{
    let mut operands = Items::new(alloc);
    let mut here = *view;
    for (operator, term) in others {
        let next = after_term(term, &here)?;
        operands.push(joined_text(*operator, typed_term(alloc, schema, term, &here))?)?;
        here = next;
    }
    Ok(operands)
}

#[cycle(queries)]
fn typed_term(
    alloc: Global,
    schema: &Schema,
    tree: &Term,
    view: &View,
) -> Result<TypedExpression, Refusal>
    ensures { Finds result ((term_part (known schema.now) tree.now).found (seen view.now)) }
{
    if tree.others.is_empty() {
        return typed_factor(alloc, schema, &tree.first, view);
    }
    let next = after_factor(&tree.first, view)?;
    let first = typed_factor(alloc, schema, &tree.first, view);
    let others = multipliers(alloc, schema, tree.others.as_slice(), &next);
    calculation(alloc, first, others)
}

#[cycle(queries)]
fn multipliers(
    alloc: Global,
    schema: &Schema,
    others: &[(MultiplyOperator, Factor)],
    view: &View,
) -> Result<Items<(Arithmetic, Expression)>, Refusal>
    ensures { Finds result (each (in_order (factor_after (known schema.now)) multiplied others.now (seen view.now))) }
{
    let mut operands = Items::new(alloc);
    let mut here = *view;
    for (operator, factor) in others {
        let next = after_factor(factor, &here)?;
        operands.push(multiplier(*operator, typed_factor(alloc, schema, factor, &here))?)?;
        here = next;
    }
    Ok(operands)
}

#[cycle(queries)]
fn typed_factor(
    alloc: Global,
    schema: &Schema,
    tree: &Factor,
    view: &View,
) -> Result<TypedExpression, Refusal>
    ensures { Finds result ((factor_part (known schema.now) tree.now).found (seen view.now)) }
{
    typed_primary(alloc, schema, &tree.primary, tree.sign, view)
}

#[cycle(queries)]
fn typed_primary(
    alloc: Global,
    schema: &Schema,
    tree: &Primary,
    sign: Option<Sign>,
    view: &View,
) -> Result<TypedExpression, Refusal>
    ensures { Finds result ((primary_part (known schema.now) tree.now sign).found (seen view.now)) }
{
    match tree {
        Primary::Number(number) => number_constant(with_sign(sign, *number)),
        Primary::Text(text) => after_sign(alloc, sign, text_constant(alloc, text)),
        Primary::Column(name) => after_sign(alloc, sign, column(view, name)),
        Primary::CountRows => after_sign(alloc, sign, value_seen(view.clause, row_count())),
        Primary::Aggregate(function, quantifier, argument) => {
            let argument = argument.get();
            let aggregate = typed_aggregate(alloc, *function, *quantifier, argument, view.scope);
            after_sign(alloc, sign, value_seen(view.clause, aggregate))
        }
        Primary::Parenthesized(inner) => {
            let inner = typed_expression(alloc, schema, inner.get(), view);
            after_sign(alloc, sign, inner)
        }
        Primary::Subquery(query) => {
            let query = typed_query_expression(alloc, schema, query.get(), view.scope);
            after_sign(alloc, sign, scalar(alloc, query_seen(view.clause, query)))
        }
    }
}
