//! Set operators, and queries as values.

ghost use Rattle.std.specs.Prelude.{◌≡◌, List, Ok, length};
ghost use Rattle.std.specs.Cmp.Lexicographic.{pointwise};
ghost use Rattle.typing.specs.Finding.{Finding};
ghost use Rattle.typing.specs.Finds.{Finds};
ghost use Rattle.typing.specs.SetOperator.{agreeing, combinable, intersection, of_one_column, operation, same_type, scalar, types_of};
ghost use Rattle.type_rules.specs.Parts.{combined_of, scalar_of};

use items::{Boxed, Items};
use refusals::{Reason, Refusal};
use sqlval::ValueType;
use std::alloc::Global;
use typing::{
    Expression, Query, ResultColumn, SetOperation, SetOperator, TypedExpression, TypedQuery,
};

/// UNION or EXCEPT, with or without ALL.
pub fn operation(operator: ast::SetOperator) -> SetOperation
    ensures { result ≡ operation operator }
{
    match operator {
        ast::SetOperator::Union => SetOperation {
            operator: SetOperator::Union,
            all: false,
        },
        ast::SetOperator::UnionAll => SetOperation {
            operator: SetOperator::Union,
            all: true,
        },
        ast::SetOperator::Except => SetOperation {
            operator: SetOperator::Except,
            all: false,
        },
        ast::SetOperator::ExceptAll => SetOperation {
            operator: SetOperator::Except,
            all: true,
        },
    }
}

/// INTERSECT, with or without ALL.
pub fn intersection(all: bool) -> SetOperation
    ensures { result ≡ intersection all }
{
    SetOperation {
        operator: SetOperator::Intersect,
        all,
    }
}

/// An operand of a set operator, whose columns must agree with those of the first.
pub fn combinable(
    first: &TypedQuery,
    operation: SetOperation,
    other: Result<TypedQuery, Refusal>,
) -> Result<(SetOperation, Query), Refusal>
    ensures { (x : Finding TypedQuery) → Finds other x → Finds result (combinable (Ok first.now) (operation, x)) }
{
    let other = other?;
    agreeing(first.columns.as_slice(), other.columns.as_slice())?;
    Ok((operation, other.query))
}

/// As many columns on both sides, of equal types.
fn agreeing(first: &[ResultColumn], other: &[ResultColumn]) -> Result<(), Refusal>
    ensures { Finds result (agreeing (types_of first.now) (types_of other.now)) }
{
    if first.len() != other.len() {
        return Err(Refusal::Invalid(Reason::Columns));
    }
    if !have_same_types(first, other) {
        return Err(Refusal::Invalid(Reason::DataType));
    }
    Ok(())
}

fn have_same_types(first: &[ResultColumn], other: &[ResultColumn]) -> bool
    requires { length first.now ≡ length other.now }
    ensures { result ≡ pointwise same_type (types_of first.now) (types_of other.now) }
{
    let mut ours = first;
    let mut theirs = other;
    while let Some((column, rest)) = ours.split_first() {
        let Some((other, others)) = theirs.split_first() else {
            return false;
        };
        if column.value_type != other.value_type {
            return false;
        }
        ours = rest;
        theirs = others;
    }
    true
}

/// A chain of set operators, over at least one operand beside the first.
#[tactic(auto, using(crate::proofs::FindsLemmas::part_steps))]
pub fn combined(
    alloc: Global,
    first: TypedQuery,
    others: Result<Items<(SetOperation, Query)>, Refusal>,
) -> Result<TypedQuery, Refusal>
    ensures { (x : Finding (List (SetOperation × Query))) → Finds others x → Finds result (combined_of first x) }
{
    let others = others?;
    let TypedQuery { query, columns } = first;
    let query = Boxed::new(alloc, query)?;
    Ok(TypedQuery {
        query: Query::Combined(query, others),
        columns,
    })
}

/// A query of one column, with the type of that.
pub fn column_of_query(query: Result<TypedQuery, Refusal>) -> Result<(Query, ValueType), Refusal>
    ensures { (x : Finding TypedQuery) → Finds query x → Finds result (of_one_column x) }
{
    let TypedQuery { query, columns } = query?;
    match columns.as_slice() {
        [only] => Ok((query, only.value_type)),
        _ => Err(Refusal::Invalid(Reason::Columns)),
    }
}

/// A query in place of a value.
pub fn scalar(alloc: Global, query: Result<TypedQuery, Refusal>) -> Result<TypedExpression, Refusal>
    ensures { (x : Finding TypedQuery) → Finds query x → Finds result (scalar x) }
{
    scalar_of(alloc, column_of_query(query))
}

#[tactic(auto, using(crate::proofs::FindsLemmas::part_steps))]
fn scalar_of(
    alloc: Global,
    column: Result<(Query, ValueType), Refusal>,
) -> Result<TypedExpression, Refusal>
    ensures { (x : Finding (Query × ValueType)) → Finds column x → Finds result (scalar_of x) }
{
    let (query, value_type) = column?;
    Ok(TypedExpression {
        expression: Expression::Scalar(Boxed::new(alloc, query)?),
        value_type,
    })
}
