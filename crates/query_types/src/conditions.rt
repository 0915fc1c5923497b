//! Names and types of conditions.

ghost use Rattle.std.specs.Prelude.{◌∷◌, Ok};
ghost use Rattle.std.specs.Option.{option_map};
ghost use Rattle.typing.specs.Condition.{conjunction, disjunction};
ghost use Rattle.typing.specs.Finds.{Finds};
ghost use Rattle.typing.specs.Known.{known};
ghost use Rattle.typing.specs.Typing.{condition_part, conjunction_part, negation_part, predicate_part};
ghost use Rattle.scopes.specs.Seen.{seen};
ghost use Rattle.query_types.specs.Parts.{as_found, in_order};
ghost use Rattle.query_types.specs.Selects.{filter_part};

use crate::expressions::typed_expression;
use crate::parts::{query_seen, tested_negation, written};
use crate::queries::typed_query_expression;
use ast::{Conjunction, Negation, Predicate};
use items::{Boxed, Items};
use refusals::Refusal;
use scopes::{View, after_conjunction, after_expression, after_negation};
use sqlval::Schema;
use std::alloc::Global;
use type_rules::{
    add_conjunct, add_disjunct, and_of, between, column_of_query, compared, exists, in_list,
    in_query, like, null_test, or_of,
};
use typing::Condition;

/// The condition of WHERE or HAVING, where it is written.
#[cycle(queries)]
pub fn typed_filter(
    alloc: Global,
    schema: &Schema,
    tree: &Option<Boxed<ast::Condition>>,
    view: &View,
) -> Result<Option<Condition>, Refusal>
    ensures { Finds result ((filter_part (known schema.now) tree.now).found (seen view.now)) }
{
    match tree {
        None => Ok(None),
        Some(condition) => written(typed_condition(alloc, schema, condition.get(), view)),
    }
}

/// What a condition stands for where it is seen so.
#[cycle(queries)]
pub fn typed_condition(
    alloc: Global,
    schema: &Schema,
    tree: &ast::Condition,
    view: &View,
) -> Result<Condition, Refusal>
    ensures { Finds result ((condition_part (known schema.now) tree.now).found (seen view.now)) }
{
    let next = after_conjunction(&tree.first, view)?;
    let first = typed_conjunction(alloc, schema, &tree.first, view)?;
    typed_disjunction(alloc, schema, tree.others.as_slice(), &next, first)
}

#[cycle(queries)]
fn typed_disjunction(
    alloc: Global,
    schema: &Schema,
    others: &[Conjunction],
    view: &View,
    first: Condition,
) -> Result<Condition, Refusal>
    ensures { Finds result (disjunction (Ok first ∷ in_order (conjunction_part (known schema.now)) as_found others.now (seen view.now))) }
{
    let mut operands = Items::new(alloc);
    add_disjunct(&mut operands, first)?;
    let mut here = *view;
    for other in others {
        let next = after_conjunction(other, &here)?;
        let operand = typed_conjunction(alloc, schema, other, &here)?;
        add_disjunct(&mut operands, operand)?;
        here = next;
    }
    Ok(or_of(operands))
}

#[cycle(queries)]
fn typed_conjunction(
    alloc: Global,
    schema: &Schema,
    tree: &Conjunction,
    view: &View,
) -> Result<Condition, Refusal>
    ensures { Finds result ((conjunction_part (known schema.now) tree.now).found (seen view.now)) }
{
    let next = after_negation(&tree.first, view)?;
    let first = typed_negation(alloc, schema, &tree.first, view)?;
    typed_negations(alloc, schema, tree.others.as_slice(), &next, first)
}

#[cycle(queries)]
fn typed_negations(
    alloc: Global,
    schema: &Schema,
    others: &[Negation],
    view: &View,
    first: Condition,
) -> Result<Condition, Refusal>
    ensures { Finds result (conjunction (Ok first ∷ in_order (negation_part (known schema.now)) as_found others.now (seen view.now))) }
{
    let mut operands = Items::new(alloc);
    add_conjunct(&mut operands, first)?;
    let mut here = *view;
    for other in others {
        let next = after_negation(other, &here)?;
        let operand = typed_negation(alloc, schema, other, &here)?;
        add_conjunct(&mut operands, operand)?;
        here = next;
    }
    Ok(and_of(operands))
}

#[cycle(queries)]
fn typed_negation(
    alloc: Global,
    schema: &Schema,
    tree: &Negation,
    view: &View,
) -> Result<Condition, Refusal>
    ensures { Finds result ((negation_part (known schema.now) tree.now).found (seen view.now)) }
{
    let predicate = typed_predicate(alloc, schema, &tree.test.predicate, view);
    tested_negation(alloc, tree.is_negated, tree.test.truth, predicate)
}

#[cycle(queries)]
fn typed_predicate(
    alloc: Global,
    schema: &Schema,
    tree: &Predicate,
    view: &View,
) -> Result<Condition, Refusal>
    ensures { Finds result ((predicate_part (known schema.now) tree.now).found (seen view.now)) }
{
    match tree {
        Predicate::Nested(inner) => typed_condition(alloc, schema, inner.get(), view),
        Predicate::Compare(x, operator, y) => {
            let next = after_expression(x, view)?;
            let x = typed_expression(alloc, schema, x, view);
            let y = typed_expression(alloc, schema, y, &next);
            compared(alloc, *operator, x, y)
        }
        Predicate::Between(x, is_negated, low, high) => {
            let second = after_expression(x, view)?;
            let third = after_expression(low, &second)?;
            let x = typed_expression(alloc, schema, x, view);
            let low = typed_expression(alloc, schema, low, &second);
            let high = typed_expression(alloc, schema, high, &third);
            between(alloc, *is_negated, x, low, high)
        }
        Predicate::InList(x, is_negated, literals) => {
            let x = typed_expression(alloc, schema, x, view);
            in_list(alloc, *is_negated, x, literals.as_slice())
        }
        Predicate::InQuery(x, is_negated, query) => {
            let x = typed_expression(alloc, schema, x, view);
            let query = typed_query_expression(alloc, schema, query.get(), view.scope);
            let column = column_of_query(query_seen(view.clause, query));
            in_query(alloc, *is_negated, x, column)
        }
        Predicate::Like(x, is_negated, pattern) => {
            let next = after_expression(x, view)?;
            let x = typed_expression(alloc, schema, x, view);
            let pattern = typed_expression(alloc, schema, pattern, &next);
            like(alloc, *is_negated, x, pattern)
        }
        Predicate::IsNull(x, is_negated) => {
            let x = typed_expression(alloc, schema, x, view);
            null_test(alloc, *is_negated, x)
        }
        Predicate::Exists(query) => {
            let query = typed_query_expression(alloc, schema, query.get(), view.scope);
            exists(alloc, query_seen(view.clause, query))
        }
    }
}
