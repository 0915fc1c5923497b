//! ORDER BY, and whole queries.

ghost use Rattle.std.specs.Prelude.{◌≡◌, ℕ, List, map};
ghost use Rattle.sqlval.specs.Schema.{is_named};
ghost use Rattle.typing.specs.Finding.{Finding, each};
ghost use Rattle.typing.specs.Finds.{Finds};
ghost use Rattle.typing.specs.Known.{known};
ghost use Rattle.typing.specs.Order.{is_descending, key_found, named_from, only_place, ordered_found, place_of_position, sort_place};
ghost use Rattle.query_types.specs.Orders.{key_at, keys_with, ordered_by};

use crate::queries::typed_query_expression;
use ast::{Direction, SortColumn, SortKey};
use items::{Items, Text};
use lexer::Number;
use refusals::{Reason, Refusal};
use scopes::Scope;
use sqlval::Schema;
use std::alloc::Global;
use typing::{OrderKey, OrderedQuery, Query, ResultColumn, TypedQuery};

/// What a query that stands in no other stands for over a schema, with its ORDER BY.
///
/// Refused by a reason of names or types, or a limit of its tables and columns, that holds of it;
/// where several hold, by any of these. Refuses for want of memory too.
pub fn typed_query(
    alloc: Global,
    tree: &ast::OrderedQuery,
    schema: &Schema,
) -> Result<OrderedQuery, Refusal>
    ensures { Finds result (ordered_found (known schema.now) tree.now) }
{
    let query = typed_query_expression(alloc, schema, &tree.query, &Scope::Outermost);
    ordered_by(alloc, tree.order.as_slice(), query)
}

fn ordered_by(
    alloc: Global,
    order: &[SortKey],
    query: Result<TypedQuery, Refusal>,
) -> Result<OrderedQuery, Refusal>
    ensures { (x : Finding TypedQuery) → Finds query x → Finds result (ordered_by order.now x) }
{
    let TypedQuery { query, columns } = query?;
    with_keys(query, keys_found(alloc, columns.as_slice(), order))
}

#[tactic(auto, using(type_rules::proofs::FindsLemmas::part_steps))]
fn with_keys(query: Query, keys: Result<Items<OrderKey>, Refusal>) -> Result<OrderedQuery, Refusal>
    ensures { (x : Finding (List OrderKey)) → Finds keys x → Finds result (keys_with query x) }
{
    let keys = keys?;
    Ok(OrderedQuery { query, keys })
}

fn keys_found(
    alloc: Global,
    columns: &[ResultColumn],
    order: &[SortKey],
) -> Result<Items<OrderKey>, Refusal>
    ensures { Finds result (each (map (key_found columns.now) order.now)) }
{
    let mut keys = Items::new(alloc);
    for key in order {
        keys.push(key_found(columns, key)?)?;
    }
    Ok(keys)
}

fn key_found(columns: &[ResultColumn], key: &SortKey) -> Result<OrderKey, Refusal>
    ensures { Finds result (key_found columns.now key.now) }
{
    key_at(key.direction, sort_place(columns, &key.column))
}

#[tactic(auto, using(type_rules::proofs::FindsLemmas::part_steps))]
fn key_at(direction: Option<Direction>, place: Result<usize, Refusal>) -> Result<OrderKey, Refusal>
    ensures { (x : Finding ℕ) → Finds place x → Finds result (key_at direction x) }
{
    let place = place?;
    Ok(OrderKey {
        place,
        descending: is_descending(direction),
    })
}

/// Whether DESC is written.
fn is_descending(direction: Option<Direction>) -> bool
    ensures { result ≡ is_descending direction }
{
    match direction {
        None => false,
        Some(Direction::Ascending) => false,
        Some(Direction::Descending) => true,
    }
}

fn sort_place(columns: &[ResultColumn], column: &SortColumn) -> Result<usize, Refusal>
    ensures { Finds result (sort_place columns.now column.now) }
{
    match column {
        SortColumn::Named(name) => place_named(columns, name.as_text()),
        SortColumn::Position(number) => place_of_position(columns, *number),
    }
}

/// The place of the result column of this name, which no other may have.
fn place_named(columns: &[ResultColumn], name: &Text) -> Result<usize, Refusal>
    ensures { Finds result (only_place (named_from 0 name.now columns.now)) }
{
    let mut first = None;
    for (place, column) in columns.iter().enumerate() {
        if is_named(column, name) {
            if first.is_some() {
                return Err(Refusal::Invalid(Reason::Ambiguous));
            }
            first = Some(place);
        }
    }
    match first {
        Some(place) => Ok(place),
        None => Err(Refusal::Invalid(Reason::Name)),
    }
}

fn is_named(column: &ResultColumn, name: &Text) -> bool
    ensures { result ≡ is_named name.now column.now.name }
{
    match &column.name {
        Some(own) => own.as_slice() == name.as_slice(),
        None => false,
    }
}

/// A position is counted from 1.
fn place_of_position(columns: &[ResultColumn], position: Number) -> Result<usize, Refusal>
    ensures { Finds result (place_of_position columns.now position) }
{
    let position = position.value();
    if position < 1 {
        return Err(Refusal::Invalid(Reason::Columns));
    }
    let place = (position - 1) as usize;
    if place >= columns.len() {
        return Err(Refusal::Invalid(Reason::Columns));
    }
    Ok(place)
}
