//! Select lists, groups, and SELECTs put together.

ghost use Rattle.std.specs.Prelude.{◌≡◌, map, Ok, List, Option, IfOk};
ghost use Rattle.std.specs.Option.{option_copied};
ghost use Rattle.typing.specs.Finding.{Finding, each};
ghost use Rattle.typing.specs.Finds.{Finds};
ghost use Rattle.typing.specs.Known.{Known};
ghost use Rattle.typing.specs.Scope.{own_column};
ghost use Rattle.typing.specs.Select.{all_columns, column_of, columns_from, grouping_of, key_found, limited, typed_item};
ghost use Rattle.typing.specs.Typing.{expression_part, factor_part, term_part};
ghost use Rattle.scopes.specs.Seen.{frames};
ghost use Rattle.type_rules.specs.Selects.{made_select, named, own_place, settled, shown_column};

use crate::functions::is_distinct;
use ast::{Column, Expression, Factor, Primary, Quantifier, Term};
use items::{Boxed, Items, Text};
use refusals::{Limit, Refusal};
use scopes::{Scope, own_column, seen_in};
use std::alloc::{AllocError, Global};
use typing::{
    Condition, Found, Grouping, Groups, Item, Offer, Query, ResultColumn, Select, SetFunction,
    Settled, ShownItem, Source, TypedExpression, TypedQuery,
};

/// The greatest number of columns of a result.
pub const MAXIMUM_RESULT_COLUMNS: usize = 256;

/// An item of a select list, with the name after AS, else that of the column that it is.
#[tactic(auto, using(crate::proofs::FindsLemmas::part_steps))]
pub fn named(
    name: Option<Text>,
    value: Result<TypedExpression, Refusal>,
) -> Result<ShownItem, Refusal>
    ensures { (x : Finding TypedExpression) → Finds value x → Finds result (named name x) }
{
    let TypedExpression {
        expression,
        value_type,
    } = value?;
    Ok(ShownItem {
        expression,
        name,
        value_type,
    })
}

/// The name of the column that an expression is, if it is one alone. `( A )` is no column.
#[tactic(auto, using(crate::proofs::ColumnNames::name_steps))]
pub fn column_name(tree: &Expression) -> Option<&Text>
    ensures { (k : Known) → option_copied result ≡ (expression_part k tree.now).name }
{
    if tree.others.is_empty() {
        term_column(&tree.first)
    } else {
        None
    }
}

#[tactic(auto, using(crate::proofs::ColumnNames::name_steps))]
fn term_column(tree: &Term) -> Option<&Text>
    ensures { (k : Known) → option_copied result ≡ (term_part k tree.now).name }
{
    if tree.others.is_empty() {
        factor_column(&tree.first)
    } else {
        None
    }
}

#[tactic(auto, using(crate::proofs::ColumnNames::factor_steps))]
fn factor_column(tree: &Factor) -> Option<&Text>
    ensures { (k : Known) → option_copied result ≡ (factor_part k tree.now).name }
{
    match &tree.primary {
        Primary::Column(column) => {
            match tree.sign {
                None => Some(column.name.as_text()),
                Some(_) => None,
            }
        }
        Primary::Number(_) => None,
        Primary::Text(_) => None,
        Primary::CountRows => None,
        Primary::Aggregate(_, _, _) => None,
        Primary::Parenthesized(_) => None,
        Primary::Subquery(_) => None,
    }
}

/// `*`: all columns of the innermost FROM, in order.
pub fn all_columns(alloc: Global, scope: &Scope) -> Result<Items<ShownItem>, Refusal>
    ensures { Finds result (limited (all_columns (frames scope.now))) }
{
    let Scope::Inside(frame, key, _) = scope else {
        return Ok(Items::new(alloc));
    };
    if frame.columns.len() > MAXIMUM_RESULT_COLUMNS {
        return Err(Refusal::Exceeded(Limit::Columns));
    }
    columns_of(alloc, *key, frame.columns.as_slice())
}

fn columns_of(
    alloc: Global,
    key: Option<&Items<usize>>,
    offers: &[Offer],
) -> Result<Items<ShownItem>, Refusal>
    ensures { Finds result (each (columns_from (option_copied key.entry) 0 offers.now)) }
{
    let mut items = Items::new(alloc);
    for (place, offer) in offers.iter().enumerate() {
        items.push(shown_column(alloc, key, place, offer)?)?;
    }
    Ok(items)
}

fn shown_column(
    alloc: Global,
    key: Option<&Items<usize>>,
    place: usize,
    offer: &Offer,
) -> Result<ShownItem, Refusal>
    ensures { Finds result (shown_column (option_copied key.entry) place offer.now) }
{
    let column = Found {
        place,
        value_type: offer.value_type,
    };
    let name = copied_name(alloc, offer.name.as_ref())?;
    named(name, seen_in(key, 0, column))
}

/// A name of its own.
pub fn copied_name(alloc: Global, name: Option<&Text>) -> Result<Option<Text>, AllocError>
    ensures { IfOk result (λ copy. copy ≡ option_copied name.entry) }
{
    match name {
        Some(name) => Ok(Some(name.copy(alloc)?)),
        None => Ok(None),
    }
}

/// The grouping columns, by their places in FROM's row; none where the SELECT is not grouped.
pub fn key_found(
    alloc: Global,
    is_grouped: bool,
    groups: &[Column],
    scope: &Scope,
) -> Result<Option<Items<usize>>, Refusal>
    ensures { Finds result (key_found is_grouped groups.now (frames scope.now)) }
{
    if !is_grouped {
        return Ok(None);
    }
    Ok(Some(places_of(alloc, groups, scope)?))
}

fn places_of(alloc: Global, groups: &[Column], scope: &Scope) -> Result<Items<usize>, Refusal>
    ensures { Finds result (each (map (own_place (frames scope.now)) groups.now)) }
{
    let mut places = Items::new(alloc);
    for column in groups {
        places.push(own_place(column, scope)?)?;
    }
    Ok(places)
}

fn own_place(column: &Column, scope: &Scope) -> Result<usize, Refusal>
    ensures { Finds result (own_place (frames scope.now) column.now) }
{
    let found = own_column(scope, column)?;
    Ok(found.place)
}

/// WHERE, the set functions and the rest put together.
#[tactic(auto, using(crate::proofs::FindsLemmas::part_steps))]
pub fn settled(
    parts: Result<(Option<Condition>, (Items<SetFunction>, Groups)), Refusal>,
) -> Result<Settled, Refusal>
    ensures { (x : Finding (Option Condition × (List SetFunction × Groups))) → Finds parts x
        → Finds result (settled x) }
{
    let (filter, (functions, groups)) = parts?;
    Ok(Settled {
        filter,
        functions,
        groups,
    })
}

/// A SELECT whose parts are settled.
pub fn made_select(
    alloc: Global,
    quantifier: Option<Quantifier>,
    groups: &[Column],
    from: Source,
    settled: Settled,
) -> Result<TypedQuery, Refusal>
    ensures { Finds result (Ok (made_select quantifier groups.now from settled)) }
{
    let Settled {
        filter,
        functions,
        groups: Groups { key, items, having },
    } = settled;
    let columns = result_columns(alloc, items.as_slice())?;
    let select = Select {
        distinct: is_distinct(quantifier),
        items: listed(alloc, items)?,
        from,
        filter,
        grouping: grouping_of(groups, functions, having, key),
    };
    Ok(TypedQuery {
        query: Query::Select(Boxed::new(alloc, select)?),
        columns,
    })
}

fn grouping_of(
    groups: &[Column],
    functions: Items<SetFunction>,
    having: Option<Condition>,
    key: Option<Items<usize>>,
) -> Option<Grouping>
    ensures { result ≡ grouping_of groups.now functions having key }
{
    let key = key?;
    let columns = if groups.is_empty() { None } else { Some(key) };
    Some(Grouping {
        columns,
        functions,
        having,
    })
}

fn result_columns(alloc: Global, items: &[ShownItem]) -> Result<Items<ResultColumn>, AllocError>
    ensures { IfOk result (λ columns. columns ≡ map column_of items.now) }
{
    let mut columns = Items::with_capacity(alloc, items.len())?;
    for item in items {
        let name = copied_name(alloc, item.name.as_ref())?;
        columns.push(ResultColumn {
            name,
            value_type: item.value_type,
        })?;
    }
    Ok(columns)
}

fn listed(alloc: Global, items: Items<ShownItem>) -> Result<Items<Item>, AllocError>
    ensures { IfOk result (λ list. list ≡ map typed_item items) }
{
    let mut list = Items::with_capacity(alloc, items.len())?;
    for item in items.into_vec() {
        list.push(Item {
            expression: item.expression,
            name: item.name,
        })?;
    }
    Ok(list)
}
