//! The set functions of a SELECT, in the order of the text. Those of queries inside it are their
//! own.

ghost use Rattle.std.specs.Prelude.{◌++◌, map};
ghost use Rattle.typing.specs.Finds.{Finds};
ghost use Rattle.typing.specs.Known.{Known};
ghost use Rattle.typing.specs.Part.{functions_of};
ghost use Rattle.typing.specs.Typing.{condition_part, conjunction_part, expression_part, factor_part, item_part, negation_part, predicate_part, term_part};
ghost use Rattle.scopes.specs.Seen.{frames};
ghost use Rattle.query_types.specs.Parts.{functions_in};
ghost use Rattle.query_types.specs.Selects.{filter_part, list_part};

use crate::arguments::{row_count, typed_aggregate};
use crate::parts::{joined, only_function};
use ast::{
    Condition, Conjunction, Expression, Factor, Negation, Predicate, Primary, SelectItem, Term,
};
use items::{Boxed, Items};
use refusals::Refusal;
use scopes::Scope;
use std::alloc::Global;
use typing::SetFunction;

/// Of the select list and then of HAVING.
pub fn shown_functions(
    alloc: Global,
    items: &Option<Items<SelectItem>>,
    having: &Option<Boxed<Condition>>,
    scope: &Scope,
) -> Result<Items<SetFunction>, Refusal>
    ensures { (k : Known)
        → Finds result (functions_in (frames scope.now) ((list_part k items.now).functions ++ (filter_part k having.now).functions)) }
{
    let listed = functions_in_list(alloc, items, scope);
    joined(listed, functions_in_filter(alloc, having, scope))
}

fn functions_in_list(
    alloc: Global,
    items: &Option<Items<SelectItem>>,
    scope: &Scope,
) -> Result<Items<SetFunction>, Refusal>
    ensures { (k : Known) → Finds result (functions_in (frames scope.now) (list_part k items.now).functions) }
{
    match items {
        None => Ok(Items::new(alloc)),
        Some(items) => functions_in_items(alloc, items.as_slice(), scope),
    }
}

fn functions_in_items(
    alloc: Global,
    items: &[SelectItem],
    scope: &Scope,
) -> Result<Items<SetFunction>, Refusal>
    ensures { (k : Known)
        → Finds result (functions_in (frames scope.now) (functions_of (map (item_part k) items.now))) }
{
    let mut functions = Ok(Items::new(alloc));
    for item in items {
        functions = joined(
            functions,
            functions_in_expression(alloc, &item.value, scope),
        );
    }
    functions
}

fn functions_in_filter(
    alloc: Global,
    filter: &Option<Boxed<Condition>>,
    scope: &Scope,
) -> Result<Items<SetFunction>, Refusal>
    ensures { (k : Known) → Finds result (functions_in (frames scope.now) (filter_part k filter.now).functions) }
{
    match filter {
        None => Ok(Items::new(alloc)),
        Some(condition) => functions_in_condition(alloc, condition.get(), scope),
    }
}

#[cycle(functions)]
fn functions_in_expression(
    alloc: Global,
    tree: &Expression,
    scope: &Scope,
) -> Result<Items<SetFunction>, Refusal>
    ensures { (k : Known) → Finds result (functions_in (frames scope.now) (expression_part k tree.now).functions) }
{
    let mut functions = functions_in_term(alloc, &tree.first, scope);
    for (_, term) in tree.others.as_slice() {
        functions = joined(functions, functions_in_term(alloc, term, scope));
    }
    functions
}

#[cycle(functions)]
fn functions_in_term(
    alloc: Global,
    tree: &Term,
    scope: &Scope,
) -> Result<Items<SetFunction>, Refusal>
    ensures { (k : Known) → Finds result (functions_in (frames scope.now) (term_part k tree.now).functions) }
{
    let mut functions = functions_in_factor(alloc, &tree.first, scope);
    for (_, factor) in tree.others.as_slice() {
        functions = joined(functions, functions_in_factor(alloc, factor, scope));
    }
    functions
}

#[cycle(functions)]
fn functions_in_factor(
    alloc: Global,
    tree: &Factor,
    scope: &Scope,
) -> Result<Items<SetFunction>, Refusal>
    ensures { (k : Known) → Finds result (functions_in (frames scope.now) (factor_part k tree.now).functions) }
{
    match &tree.primary {
        Primary::CountRows => only_function(alloc, row_count()),
        Primary::Aggregate(function, quantifier, argument) => {
            let argument = argument.get();
            let aggregate = typed_aggregate(alloc, *function, *quantifier, argument, scope);
            only_function(alloc, aggregate)
        }
        Primary::Parenthesized(inner) => functions_in_expression(alloc, inner.get(), scope),
        Primary::Number(_) => Ok(Items::new(alloc)),
        Primary::Text(_) => Ok(Items::new(alloc)),
        Primary::Column(_) => Ok(Items::new(alloc)),
        Primary::Subquery(_) => Ok(Items::new(alloc)),
    }
}

#[cycle(condition_functions)]
fn functions_in_condition(
    alloc: Global,
    tree: &Condition,
    scope: &Scope,
) -> Result<Items<SetFunction>, Refusal>
    ensures { (k : Known) → Finds result (functions_in (frames scope.now) (condition_part k tree.now).functions) }
{
    let mut functions = functions_in_conjunction(alloc, &tree.first, scope);
    for other in tree.others.as_slice() {
        functions = joined(functions, functions_in_conjunction(alloc, other, scope));
    }
    functions
}

#[cycle(condition_functions)]
fn functions_in_conjunction(
    alloc: Global,
    tree: &Conjunction,
    scope: &Scope,
) -> Result<Items<SetFunction>, Refusal>
    ensures { (k : Known) → Finds result (functions_in (frames scope.now) (conjunction_part k tree.now).functions) }
{
    let mut functions = functions_in_negation(alloc, &tree.first, scope);
    for other in tree.others.as_slice() {
        functions = joined(functions, functions_in_negation(alloc, other, scope));
    }
    functions
}

#[cycle(condition_functions)]
fn functions_in_negation(
    alloc: Global,
    tree: &Negation,
    scope: &Scope,
) -> Result<Items<SetFunction>, Refusal>
    ensures { (k : Known) → Finds result (functions_in (frames scope.now) (negation_part k tree.now).functions) }
{
    functions_in_predicate(alloc, &tree.test.predicate, scope)
}

#[cycle(condition_functions)]
fn functions_in_predicate(
    alloc: Global,
    tree: &Predicate,
    scope: &Scope,
) -> Result<Items<SetFunction>, Refusal>
    ensures { (k : Known) → Finds result (functions_in (frames scope.now) (predicate_part k tree.now).functions) }
{
    match tree {
        Predicate::Nested(inner) => functions_in_condition(alloc, inner.get(), scope),
        Predicate::Compare(x, _, y) => {
            let functions = functions_in_expression(alloc, x, scope);
            joined(functions, functions_in_expression(alloc, y, scope))
        }
        Predicate::Between(x, _, low, high) => {
            let functions = functions_in_expression(alloc, x, scope);
            let functions = joined(functions, functions_in_expression(alloc, low, scope));
            joined(functions, functions_in_expression(alloc, high, scope))
        }
        Predicate::Like(x, _, pattern) => {
            let functions = functions_in_expression(alloc, x, scope);
            joined(functions, functions_in_expression(alloc, pattern, scope))
        }
        Predicate::InList(x, _, _) => functions_in_expression(alloc, x, scope),
        Predicate::InQuery(x, _, _) => functions_in_expression(alloc, x, scope),
        Predicate::IsNull(x, _) => functions_in_expression(alloc, x, scope),
        Predicate::Exists(_) => Ok(Items::new(alloc)),
    }
}
