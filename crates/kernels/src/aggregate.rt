//! Set functions over values.

ghost use Rattle.std.specs.Prelude.{◌≡◌, [], ◌∷◌, IfOk, map, filter, not};
ghost use Rattle.sqlval.specs.Value.{is_null};
ghost use Rattle.denote.specs.Bag.{is_alike, distinct_by};
ghost use Rattle.denote.specs.Expression.{cell};
ghost use Rattle.denote.specs.Group.{taken};
ghost use Rattle.kernels.specs.Aggregates.{values_at, value_at as value_of};

use crate::rows::cell_of;
use crate::set_rows::distinct_rows;
use denote::{Row, Rows};
use items::Items;
use sqlval::Value;
use std::alloc::{AllocError, Global};
use typing::SetFunctionType;

/// A set function without its argument.
#[derive(Clone, Copy, PartialEq, Eq)]
pub enum Aggregate {
    /// COUNT(*)
    CountRows,
    /// A set function over an argument; with `distinct` of alike values one alone.
    Over {
        function: SetFunctionType,
        distinct: bool,
    },
}

/// The argument of the function with this number, at the row of this place; null where there is
/// none.
fn value_at(
    alloc: Global,
    arguments: &[Row],
    number: usize,
    place: usize,
) -> Result<Value, AllocError>
    ensures { IfOk result (λ value. value ≡ value_of arguments.now number place) }
{
    match arguments.get(place) {
        Some(row) => cell_of(alloc, row.as_slice(), number),
        None => Ok(Value::Null),
    }
}

/// The arguments of the function with this number, at the rows of these places.
pub fn member_values(
    alloc: Global,
    arguments: &[Row],
    number: usize,
    places: &[usize],
) -> Result<Items<Value>, AllocError>
    ensures { IfOk result (λ values. values ≡ values_at arguments.now number places.now) }
{
    let mut values = Items::with_capacity(alloc, places.len())?;
    for place in places {
        values.push(value_at(alloc, arguments, number, *place)?)?;
    }
    Ok(values)
}

/// The values that are not null.
fn known_values(alloc: Global, values: Items<Value>) -> Result<Items<Value>, AllocError>
    ensures { IfOk result (λ known. known ≡ filter (λ x. not (is_null x)) values) }
{
    let mut known = Items::new(alloc);
    for value in values.into_vec() {
        match value {
            Value::Null => {}
            Value::Int(number) => known.push(Value::Int(number))?,
            Value::Text(text) => known.push(Value::Text(text))?,
        }
    }
    Ok(known)
}

/// The values, each as a row of its own.
fn single_rows(alloc: Global, values: Items<Value>) -> Result<Rows, AllocError>
    ensures { IfOk result (λ rows. rows ≡ map (λ x. x ∷ []) values) }
{
    let mut rows = Items::new(alloc);
    for value in values.into_vec() {
        let mut row = Items::new(alloc);
        row.push(value)?;
        rows.push(row)?;
    }
    Ok(rows)
}

/// The first value of each row; null where a row has none.
fn first_values(alloc: Global, rows: Rows) -> Result<Items<Value>, AllocError>
    ensures { IfOk result (λ found. found ≡ map (λ row. cell row 0) rows) }
{
    let mut found = Items::new(alloc);
    for row in rows.into_vec() {
        found.push(cell_of(alloc, row.as_slice(), 0)?)?;
    }
    Ok(found)
}

/// One of each alike values, the first.
fn distinct_values(alloc: Global, values: Items<Value>) -> Result<Items<Value>, AllocError>
    ensures { IfOk result (λ found. found ≡ distinct_by is_alike values) }
{
    let rows = single_rows(alloc, values)?;
    let rows = distinct_rows(alloc, rows)?;
    first_values(alloc, rows)
}

/// The values that a set function takes: those that are not null, and with DISTINCT one of each
/// alike ones.
pub fn taken_values(
    alloc: Global,
    distinct: bool,
    values: Items<Value>,
) -> Result<Items<Value>, AllocError>
    ensures { IfOk result (λ found. found ≡ taken distinct values) }
{
    let known = known_values(alloc, values)?;
    if distinct {
        distinct_values(alloc, known)
    } else {
        Ok(known)
    }
}
