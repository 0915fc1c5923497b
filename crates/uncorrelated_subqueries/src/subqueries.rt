//! Subqueries, or what stands in their place.

ghost use Rattle.std.specs.Prelude.{◌≡◌, Bool, List, Option, IfOk, option_and_then};
ghost use Rattle.std.specs.Option.{option_map};
ghost use Rattle.sqlval.specs.declared.value.Value.{Value as Held};
ghost use Rattle.sqlval.specs.Value.{Row as ValueRow};
ghost use Rattle.algebra.specs.declared.tree.Expression.{Expression as Operand};
ghost use Rattle.algebra.specs.declared.tree.Tree.{Tree as Subquery};
ghost use Rattle.denote.specs.Condition.{first_column};
ghost use Rattle.denote.specs.Expression.{cell};
ghost use Rattle.uncorrelated_subqueries.specs.Kept.{constant_truth, exists_or_truth, has_rows, kept_exists, kept_in, kept_scalar, lasting_rows, query_or_list, scalar_or_value, value_of_rows};

use crate::lasting::lasting_rows;
use crate::parts::{both, three};
use algebra::{Condition, Expression, Tree};
use denote::{Row, Rows, Tables};
use items::{Boxed, Items};
use sqlval::Value;
use std::alloc::{AllocError, Global};

// ---- scalar subqueries

/// A scalar subquery, or its value where that lasts.
pub fn scalar_of<S: Tables>(
    alloc: Global,
    tables: &S,
    tree: Result<Boxed<Tree>, AllocError>,
) -> Result<Expression, AllocError>
    ensures { (x : Subquery) → IfOk tree (λ a. a ≡ x)
        → IfOk result (λ made. made ≡ kept_scalar (lasting_rows (S.rows_of tables.now) x) x) }
{
    let value = lasting_value(alloc, tables, &tree);
    scalar_or_value(value, tree)
}

fn scalar_or_value(
    value: Result<Option<Value>, AllocError>,
    tree: Result<Boxed<Tree>, AllocError>,
) -> Result<Expression, AllocError>
    ensures { (v : Option Held) (x : Subquery) → IfOk value (λ a. a ≡ v) → IfOk tree (λ b. b ≡ x)
        → IfOk result (λ made. made ≡ scalar_or_value v x) }
{
    let (value, tree) = both(value, tree)?;
    match value {
        None => Ok(Expression::Scalar(tree)),
        Some(value) => Ok(Expression::Constant(value)),
    }
}

fn lasting_value<S: Tables>(
    alloc: Global,
    tables: &S,
    tree: &Result<Boxed<Tree>, AllocError>,
) -> Result<Option<Value>, AllocError>
    ensures { (x : Subquery) → IfOk tree.now (λ a. a ≡ x)
        → IfOk result (λ value. value ≡ option_and_then value_of_rows (lasting_rows (S.rows_of tables.now) x)) }
{
    match tree {
        Err(_) => Err(AllocError),
        Ok(tree) => value_of_found(alloc, lasting_rows(alloc, tables, tree.get())),
    }
}

fn value_of_found(
    alloc: Global,
    rows: Result<Option<Rows>, AllocError>,
) -> Result<Option<Value>, AllocError>
    ensures { (found : Option (List ValueRow)) → IfOk rows (λ a. a ≡ found)
        → IfOk result (λ value. value ≡ option_and_then value_of_rows found) }
{
    match rows {
        Err(_) => Err(AllocError),
        Ok(None) => Ok(None),
        Ok(Some(rows)) => value_of_rows(alloc, rows.as_slice()),
    }
}

fn value_of_rows(alloc: Global, rows: &[Row]) -> Result<Option<Value>, AllocError>
    ensures { IfOk result (λ value. value ≡ value_of_rows rows.now) }
{
    match rows {
        [] => Ok(Some(Value::Null)),
        [row] => Ok(Some(first_cell(alloc, row.as_slice())?)),
        _ => Ok(None),
    }
}

/// The first value of a row; null where it has none.
fn first_cell(alloc: Global, row: &[Value]) -> Result<Value, AllocError>
    ensures { IfOk result (λ value. value ≡ cell row.now 0) }
{
    match row.get(0) {
        Some(value) => value.copy(alloc),
        None => Ok(Value::Null),
    }
}

// ---- IN

/// IN over a subquery, or over its values where they last.
pub fn in_of<S: Tables>(
    alloc: Global,
    tables: &S,
    operand: Result<Boxed<Expression>, AllocError>,
    tree: Result<Boxed<Tree>, AllocError>,
) -> Result<Condition, AllocError>
    ensures { (x : Operand) (y : Subquery) → IfOk operand (λ a. a ≡ x) → IfOk tree (λ b. b ≡ y)
        → IfOk result (λ made. made ≡ kept_in (lasting_rows (S.rows_of tables.now) y) x y) }
{
    let values = lasting_values(alloc, tables, &tree);
    query_or_list(values, operand, tree)
}

fn query_or_list(
    values: Result<Option<Items<Value>>, AllocError>,
    operand: Result<Boxed<Expression>, AllocError>,
    tree: Result<Boxed<Tree>, AllocError>,
) -> Result<Condition, AllocError>
    ensures { (vs : Option (List Held)) (x : Operand) (y : Subquery) → IfOk values (λ a. a ≡ vs)
        → IfOk operand (λ b. b ≡ x) → IfOk tree (λ d. d ≡ y) → IfOk result (λ made. made ≡ query_or_list vs x y) }
{
    let (values, operand, tree) = three(values, operand, tree)?;
    match values {
        None => Ok(Condition::InQuery(operand, tree)),
        Some(values) => Ok(Condition::InList(operand, values)),
    }
}

fn lasting_values<S: Tables>(
    alloc: Global,
    tables: &S,
    tree: &Result<Boxed<Tree>, AllocError>,
) -> Result<Option<Items<Value>>, AllocError>
    ensures { (x : Subquery) → IfOk tree.now (λ a. a ≡ x)
        → IfOk result (λ values. values ≡ option_map first_column (lasting_rows (S.rows_of tables.now) x)) }
{
    match tree {
        Err(_) => Err(AllocError),
        Ok(tree) => values_of_found(alloc, lasting_rows(alloc, tables, tree.get())),
    }
}

fn values_of_found(
    alloc: Global,
    rows: Result<Option<Rows>, AllocError>,
) -> Result<Option<Items<Value>>, AllocError>
    ensures { (found : Option (List ValueRow)) → IfOk rows (λ a. a ≡ found)
        → IfOk result (λ values. values ≡ option_map first_column found) }
{
    match rows {
        Err(_) => Err(AllocError),
        Ok(None) => Ok(None),
        Ok(Some(rows)) => Ok(Some(first_cells(alloc, rows.as_slice())?)),
    }
}

/// The first value of each row.
fn first_cells(alloc: Global, rows: &[Row]) -> Result<Items<Value>, AllocError>
    ensures { IfOk result (λ values. values ≡ first_column rows.now) }
{
    let mut values = Items::with_capacity(alloc, rows.len())?;
    for row in rows {
        values.push(first_cell(alloc, row.as_slice())?)?;
    }
    Ok(values)
}

// ---- EXISTS

/// EXISTS, or its truth value where that lasts.
pub fn exists_of<S: Tables>(
    alloc: Global,
    tables: &S,
    tree: Result<Boxed<Tree>, AllocError>,
) -> Result<Condition, AllocError>
    ensures { (x : Subquery) → IfOk tree (λ a. a ≡ x)
        → IfOk result (λ made. made ≡ kept_exists (lasting_rows (S.rows_of tables.now) x) x) }
{
    let truth = lasting_truth(alloc, tables, &tree);
    exists_or_truth(alloc, truth, tree)
}

fn exists_or_truth(
    alloc: Global,
    truth: Result<Option<bool>, AllocError>,
    tree: Result<Boxed<Tree>, AllocError>,
) -> Result<Condition, AllocError>
    ensures { (t : Option Bool) (x : Subquery) → IfOk truth (λ a. a ≡ t) → IfOk tree (λ b. b ≡ x)
        → IfOk result (λ made. made ≡ exists_or_truth t x) }
{
    let (truth, tree) = both(truth, tree)?;
    match truth {
        None => Ok(Condition::Exists(tree)),
        Some(truth) => Ok(constant_truth(alloc, truth)),
    }
}

fn constant_truth(alloc: Global, truth: bool) -> Condition
    ensures { result ≡ constant_truth truth }
{
    if truth {
        Condition::And(Items::new(alloc))
    } else {
        Condition::Or(Items::new(alloc))
    }
}

fn lasting_truth<S: Tables>(
    alloc: Global,
    tables: &S,
    tree: &Result<Boxed<Tree>, AllocError>,
) -> Result<Option<bool>, AllocError>
    ensures { (x : Subquery) → IfOk tree.now (λ a. a ≡ x)
        → IfOk result (λ truth. truth ≡ option_map has_rows (lasting_rows (S.rows_of tables.now) x)) }
{
    match tree {
        Err(_) => Err(AllocError),
        Ok(tree) => truth_of_found(lasting_rows(alloc, tables, tree.get())),
    }
}

fn truth_of_found(rows: Result<Option<Rows>, AllocError>) -> Result<Option<bool>, AllocError>
    ensures { (found : Option (List ValueRow)) → IfOk rows (λ a. a ≡ found)
        → IfOk result (λ truth. truth ≡ option_map has_rows found) }
{
    match rows {
        Err(_) => Err(AllocError),
        Ok(None) => Ok(None),
        Ok(Some(rows)) => Ok(Some(has_rows(rows.as_slice()))),
    }
}

fn has_rows(rows: &[Row]) -> bool
    ensures { result ≡ has_rows rows.now }
{
    match rows {
        [] => false,
        _ => true,
    }
}
