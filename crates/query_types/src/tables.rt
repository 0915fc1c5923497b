//! Names and types of the tables of a FROM.

ghost use Rattle.typing.specs.Finds.{Finds};
ghost use Rattle.typing.specs.From.{From, from_found};
ghost use Rattle.typing.specs.Known.{known};
ghost use Rattle.typing.specs.Typing.{join_part, reference_part, source_part};
ghost use Rattle.scopes.specs.Seen.{frames};
ghost use Rattle.query_types.specs.Selects.{from_in};

use crate::conditions::typed_condition;
use crate::parts::{inner_join, inside, left_join};
use crate::queries::typed_query_expression;
use ast::{Join, TableReference, TableSource};
use refusals::{Reason, Refusal};
use scopes::{Clause, Scope, View};
use sqlval::Schema;
use std::alloc::Global;
use type_rules::{both, crossed, derived, join_sides, stored};
use typing::TypedFrom;

/// What a FROM shows, and what gives its rows.
#[cycle(queries)]
pub fn typed_from(
    alloc: Global,
    schema: &Schema,
    references: &[TableReference],
    scope: &Scope,
) -> Result<TypedFrom, Refusal>
    ensures { Finds result (from_found (from_in (known schema.now) references.now) (frames scope.now)) }
{
    let Some((first, others)) = references.split_first() else {
        return Err(Refusal::Invalid(Reason::Syntax));
    };
    let mut from = typed_reference(alloc, schema, first, scope);
    for other in others {
        from = crossed(alloc, from, typed_reference(alloc, schema, other, scope));
    }
    from
}

#[cycle(queries)]
fn typed_reference(
    alloc: Global,
    schema: &Schema,
    tree: &TableReference,
    scope: &Scope,
) -> Result<TypedFrom, Refusal>
    ensures { Finds result (from_found (reference_part (known schema.now) tree.now) (frames scope.now)) }
{
    let mut from = typed_source(alloc, schema, &tree.first, scope);
    for join in tree.joins.as_slice() {
        from = typed_join(alloc, schema, join, from, scope);
    }
    from
}

/// A table that is joined to those before it, whatever these are.
#[cycle(queries)]
fn typed_join(
    alloc: Global,
    schema: &Schema,
    tree: &Join,
    left: Result<TypedFrom, Refusal>,
    scope: &Scope,
) -> Result<TypedFrom, Refusal>
    ensures { (from : From) → Finds left (from_found from (frames scope.now))
        → Finds result (from_found (join_part (known schema.now) tree.now from) (frames scope.now)) }
{
    match tree {
        Join::Cross(right) => crossed(alloc, left, typed_source(alloc, schema, right, &*scope)),
        Join::Inner(_, right, on) => {
            let right = typed_source(alloc, schema, right, &*scope);
            let sides = join_sides(both(left, right))?;
            let inner = inside(&*scope, &sides.frame);
            let view = View {
                scope: &inner,
                clause: Clause::Plain,
            };
            let on = typed_condition(alloc, schema, on.get(), &view);
            inner_join(alloc, sides, on)
        }
        Join::Left(_, right, on) => {
            let right = typed_source(alloc, schema, right, &*scope);
            let sides = join_sides(both(left, right))?;
            let inner = inside(&*scope, &sides.frame);
            let view = View {
                scope: &inner,
                clause: Clause::Plain,
            };
            let on = typed_condition(alloc, schema, on.get(), &view);
            left_join(alloc, sides, on)
        }
    }
}

#[cycle(queries)]
fn typed_source(
    alloc: Global,
    schema: &Schema,
    tree: &TableSource,
    scope: &Scope,
) -> Result<TypedFrom, Refusal>
    ensures { Finds result (from_found (source_part (known schema.now) tree.now) (frames scope.now)) }
{
    match tree {
        TableSource::Table(name, alias) => stored(alloc, schema, name, alias),
        TableSource::Derived(query, alias) => {
            let query = typed_query_expression(alloc, schema, query.get(), scope);
            derived(alloc, query, alias.name.as_text())
        }
    }
}
