//! Names and types of queries.

ghost use Rattle.std.specs.Prelude.{map};
ghost use Rattle.typing.specs.Finding.{each};
ghost use Rattle.typing.specs.Finds.{Finds};
ghost use Rattle.typing.specs.Known.{known};
ghost use Rattle.typing.specs.Part.{Shown};
ghost use Rattle.typing.specs.Typing.{addend_found, operand_found, query_found, select_found};
ghost use Rattle.scopes.specs.Seen.{frames};
ghost use Rattle.query_types.specs.Selects.{addend_after, clauses_of, list_part, operand_after, settled_in};

use crate::conditions::typed_filter;
use crate::expressions::typed_expression;
use crate::functions::shown_functions;
use crate::parts::{grouped, groups_of, inside, is_grouped, item_name, select_over, width_of};
use crate::tables::typed_from;
use ast::{Addend, Operand, SelectItem, SetOperator};
use items::{Boxed, Items};
use refusals::{Limit, Refusal};
use scopes::{Clause, Scope, View, after_expression, after_items};
use sqlval::Schema;
use std::alloc::Global;
use type_rules::{
    MAXIMUM_RESULT_COLUMNS, all_columns, both, combinable, combined, copied_name, intersection,
    key_found, named, operation, settled,
};
use typing::{Query, SetOperation, Settled, ShownItem, TypedQuery};

/// What a query stands for inside these FROMs, and the columns of its result.
#[cycle(queries)]
pub fn typed_query_expression(
    alloc: Global,
    schema: &Schema,
    tree: &ast::Query,
    scope: &Scope,
) -> Result<TypedQuery, Refusal>
    ensures { Finds result (query_found (known schema.now) tree.now (frames scope.now)) }
{
    let first = typed_addend(alloc, schema, &tree.first, scope);
    if tree.others.is_empty() {
        return first;
    }
    let first = first?;
    let others = typed_addends(alloc, schema, tree.others.as_slice(), scope, &first);
    combined(alloc, first, others)
}

#[cycle(queries)]
fn typed_addends(
    alloc: Global,
    schema: &Schema,
    others: &[(SetOperator, Addend)],
    scope: &Scope,
    first: &TypedQuery,
) -> Result<Items<(SetOperation, Query)>, Refusal>
    ensures { Finds result (each (map (addend_after (known schema.now) first.now (frames scope.now)) others.now)) }
{
    let mut operands = Items::new(alloc);
    for (operator, addend) in others {
        let addend = typed_addend(alloc, schema, addend, scope);
        operands.push(combinable(first, operation(*operator), addend)?)?;
    }
    Ok(operands)
}

#[cycle(queries)]
fn typed_addend(
    alloc: Global,
    schema: &Schema,
    tree: &Addend,
    scope: &Scope,
) -> Result<TypedQuery, Refusal>
    ensures { Finds result (addend_found (known schema.now) tree.now (frames scope.now)) }
{
    let first = typed_operand(alloc, schema, &tree.first, scope);
    if tree.others.is_empty() {
        return first;
    }
    let first = first?;
    let others = typed_operands(alloc, schema, tree.others.as_slice(), scope, &first);
    combined(alloc, first, others)
}

#[cycle(queries)]
fn typed_operands(
    alloc: Global,
    schema: &Schema,
    others: &[(bool, Operand)],
    scope: &Scope,
    first: &TypedQuery,
) -> Result<Items<(SetOperation, Query)>, Refusal>
    ensures { Finds result (each (map (operand_after (known schema.now) first.now (frames scope.now)) others.now)) }
{
    let mut operands = Items::new(alloc);
    for (all, operand) in others {
        let operand = typed_operand(alloc, schema, operand, scope);
        operands.push(combinable(first, intersection(*all), operand)?)?;
    }
    Ok(operands)
}

#[cycle(queries)]
fn typed_operand(
    alloc: Global,
    schema: &Schema,
    tree: &Operand,
    scope: &Scope,
) -> Result<TypedQuery, Refusal>
    ensures { Finds result (operand_found (known schema.now) tree.now (frames scope.now)) }
{
    match tree {
        Operand::Select(select) => typed_select(alloc, schema, select.get(), scope),
        Operand::Grouped(query) => typed_query_expression(alloc, schema, query.get(), scope),
    }
}

#[cycle(queries)]
fn typed_select(
    alloc: Global,
    schema: &Schema,
    tree: &ast::Select,
    scope: &Scope,
) -> Result<TypedQuery, Refusal>
    ensures { Finds result (select_found (known schema.now) tree.now (frames scope.now)) }
{
    let from = typed_from(alloc, schema, tree.from.as_slice(), &*scope)?;
    let rows = inside(&*scope, &from.frame);
    let settled = typed_clauses(alloc, schema, tree, &rows);
    select_over(
        alloc,
        tree.quantifier,
        tree.groups.as_slice(),
        from,
        settled,
    )
}

/// The clauses of a SELECT, which see the rows of its FROM.
#[cycle(queries)]
fn typed_clauses(
    alloc: Global,
    schema: &Schema,
    tree: &ast::Select,
    rows: &Scope,
) -> Result<Settled, Refusal>
    ensures { Finds result (settled_in (clauses_of (known schema.now) tree.now) (frames rows.now)) }
{
    let key = key_found(alloc, is_grouped(tree), tree.groups.as_slice(), &*rows)?;
    let groups = grouped(&*rows, key.as_ref());
    let shown = View {
        scope: &groups,
        clause: Clause::Shown(width_of(&key)),
    };
    let after_list = after_items(&tree.items, &shown)?;
    let filtered = View {
        scope: &*rows,
        clause: Clause::Plain,
    };
    let filter = typed_filter(alloc, schema, &tree.filter, &filtered);
    let functions = shown_functions(alloc, &tree.items, &tree.having, &*rows);
    let list = typed_list(alloc, schema, &tree.items, &groups, width_of(&key));
    let having = typed_filter(alloc, schema, &tree.having, &after_list);
    let groups = groups_of(key, both(list, having));
    settled(both(filter, both(functions, groups)))
}

/// The select list in these FROMs, whose set functions have their values from a place on.
#[cycle(queries)]
fn typed_list(
    alloc: Global,
    schema: &Schema,
    items: &Option<Items<SelectItem>>,
    scope: &Scope,
    first: usize,
) -> Result<Items<ShownItem>, Refusal>
    ensures { Finds result ((list_part (known schema.now) items.now).found (record { scope = frames scope.now; clause = Shown first })) }
{
    let Some(items) = items else {
        return all_columns(alloc, scope);
    };
    if items.len() > MAXIMUM_RESULT_COLUMNS {
        return Err(Refusal::Exceeded(Limit::Columns));
    }
    let mut shown = Items::new(alloc);
    let mut here = View {
        scope: &*scope,
        clause: Clause::Shown(first),
    };
    for item in items.as_slice() {
        let next = after_expression(&item.value, &here)?;
        let name = copied_name(alloc, item_name(item))?;
        let value = typed_expression(alloc, schema, &item.value, &here);
        shown.push(named(name, value)?)?;
        here = next;
    }
    Ok(shown)
}
