//! INSERT.

ghost use Rattle.std.specs.Prelude.{◌≡◌, List, length, map, Ok, IfOk};
ghost use Rattle.std.specs.List.{zip};
ghost use Rattle.std.specs.Cmp.Lexicographic.{pointwise};
ghost use Rattle.typing.specs.Finding.{Finding, each};
ghost use Rattle.typing.specs.Finds.{Finds};
ghost use Rattle.typing.specs.Insert.{Target, insert_found, row_stored, rows_stored, values_stored};
ghost use Rattle.typing.specs.Known.{known};
ghost use Rattle.typing.specs.SetOperator.{agreeing, same_type, types_of};
ghost use Rattle.change_types.specs.Parts.{agreed_on, insert_of, inserted, of_query, of_values, source_for, target_types};

use crate::names::distinct_names;
use crate::sources::{stored, typed_source};
use crate::targets::targets_in;
use ast::{InsertRows, StoredSource};
use items::Items;
use lexer::Name;
use query_types::typed_query_expression;
use refusals::{Reason, Refusal};
use scopes::Scope;
use sqlval::{Schema, ValueType};
use std::alloc::{AllocError, Global};
use type_rules::both;
use typing::{Expression, Insert, InsertSource, Query, ResultColumn, TypedQuery};

/// What an INSERT stands for over a schema.
///
/// Refused by a reason of names or types, or a limit, that holds of it; where several hold, by any
/// of these. Refuses for want of memory too.
pub fn typed_insert(alloc: Global, tree: &ast::Insert, schema: &Schema) -> Result<Insert, Refusal>
    ensures { Finds result (insert_found (known schema.now) tree.now) }
{
    let columns = tree.columns.as_slice();
    let targets = targets_in(alloc, schema, &tree.table, columns);
    let rows = rows_stored(alloc, schema, targets, &tree.rows);
    insert_of(
        alloc,
        &tree.table,
        both(distinct_names(alloc, columns), rows),
    )
}

fn insert_of(
    alloc: Global,
    table: &Name,
    parts: Result<((), (Items<(usize, ValueType)>, InsertSource)), Refusal>,
) -> Result<Insert, Refusal>
    ensures { (x : Finding (Unit {0} × (List Target × InsertSource))) → Finds parts x
        → Finds result (insert_of table.now x) }
{
    let (_, (targets, source)) = parts?;
    inserted(alloc, table, targets.as_slice(), source)
}

fn inserted(
    alloc: Global,
    table: &Name,
    targets: &[(usize, ValueType)],
    source: InsertSource,
) -> Result<Insert, Refusal>
    ensures { Finds result (Ok (inserted table.now targets.now source)) }
{
    let columns = places_of(alloc, targets)?;
    Ok(Insert {
        table: table.as_text().copy(alloc)?,
        columns,
        source,
    })
}

fn places_of(alloc: Global, targets: &[(usize, ValueType)]) -> Result<Items<usize>, AllocError>
    ensures { IfOk result (λ places. places ≡ map (λ target. target.0) targets.now) }
{
    let mut places = Items::with_capacity(alloc, targets.len())?;
    for (place, _) in targets {
        places.push(*place)?;
    }
    Ok(places)
}

/// The rows, with the columns that they are for.
fn rows_stored(
    alloc: Global,
    schema: &Schema,
    targets: Result<Items<(usize, ValueType)>, Refusal>,
    rows: &InsertRows,
) -> Result<(Items<(usize, ValueType)>, InsertSource), Refusal>
    ensures { (x : Finding (List Target)) → Finds targets x → Finds result (rows_stored (known schema.now) x rows.now) }
{
    match rows {
        InsertRows::Values(values) => values_stored(alloc, schema, targets, values.as_slice()),
        InsertRows::Query(query) => {
            let query = typed_query_expression(alloc, schema, query, &Scope::Outermost);
            of_query(both(targets, query))
        }
    }
}

// ---- VALUES

fn values_stored(
    alloc: Global,
    schema: &Schema,
    targets: Result<Items<(usize, ValueType)>, Refusal>,
    values: &[Items<StoredSource>],
) -> Result<(Items<(usize, ValueType)>, InsertSource), Refusal>
    ensures { (x : Finding (List Target)) → Finds targets x
        → Finds result (values_stored (known schema.now) x values.now) }
{
    let targets = targets?;
    let rows = typed_rows(alloc, schema, targets.as_slice(), values);
    of_values(targets, rows)
}

#[tactic(auto, using(type_rules::proofs::FindsLemmas::part_steps))]
fn of_values(
    targets: Items<(usize, ValueType)>,
    rows: Result<Items<Items<Expression>>, Refusal>,
) -> Result<(Items<(usize, ValueType)>, InsertSource), Refusal>
    ensures { (x : Finding (List (List Expression))) → Finds rows x → Finds result (of_values targets x) }
{
    let rows = rows?;
    Ok((targets, InsertSource::Values(rows)))
}

fn typed_rows(
    alloc: Global,
    schema: &Schema,
    targets: &[(usize, ValueType)],
    rows: &[Items<StoredSource>],
) -> Result<Items<Items<Expression>>, Refusal>
    ensures { Finds result (each (map (row_stored (known schema.now) targets.now) rows.now)) }
{
    let mut typed = Items::new(alloc);
    for row in rows {
        typed.push(typed_row(alloc, schema, targets, row.as_slice())?)?;
    }
    Ok(typed)
}

#[tactic(auto, using(crate::proofs::Rows::row_steps))]
fn typed_row(
    alloc: Global,
    schema: &Schema,
    targets: &[(usize, ValueType)],
    sources: &[StoredSource],
) -> Result<Items<Expression>, Refusal>
    ensures { Finds result (row_stored (known schema.now) targets.now sources.now) }
{
    if targets.len() != sources.len() {
        return Err(Refusal::Invalid(Reason::Columns));
    }
    typed_sources(alloc, schema, targets, sources)
}

#[tactic(auto, using(crate::proofs::Rows::zip_steps))]
fn typed_sources(
    alloc: Global,
    schema: &Schema,
    targets: &[(usize, ValueType)],
    sources: &[StoredSource],
) -> Result<Items<Expression>, Refusal>
    requires same_length { length targets.now ≡ length sources.now }
    ensures { Finds result (each (map (source_for (known schema.now)) (zip targets.now sources.now))) }
{
    let mut row = Items::new(alloc);
    for (at, source) in sources.iter().enumerate() {
        let (_, wanted) = targets[at];
        let source = typed_source(alloc, schema, source, &Scope::Outermost);
        row.push(stored(wanted, source)?)?;
    }
    Ok(row)
}

// ---- a query

fn of_query(
    parts: Result<(Items<(usize, ValueType)>, TypedQuery), Refusal>,
) -> Result<(Items<(usize, ValueType)>, InsertSource), Refusal>
    ensures { (x : Finding (List Target × TypedQuery)) → Finds parts x → Finds result (of_query x) }
{
    let (targets, TypedQuery { query, columns }) = parts?;
    let agreed = agreeing(targets.as_slice(), columns.as_slice());
    agreed_on(targets, query, agreed)
}

#[tactic(auto, using(type_rules::proofs::FindsLemmas::part_steps))]
fn agreed_on(
    targets: Items<(usize, ValueType)>,
    query: Query,
    agreed: Result<(), Refusal>,
) -> Result<(Items<(usize, ValueType)>, InsertSource), Refusal>
    ensures { (x : Finding (Unit {0})) → Finds agreed x → Finds result (agreed_on targets query x) }
{
    agreed?;
    Ok((targets, InsertSource::Query(query)))
}

/// As many columns as targets, of their types.
fn agreeing(targets: &[(usize, ValueType)], columns: &[ResultColumn]) -> Result<(), Refusal>
    ensures { Finds result (agreeing (target_types targets.now) (types_of columns.now)) }
{
    if targets.len() != columns.len() {
        return Err(Refusal::Invalid(Reason::Columns));
    }
    if !have_same_types(targets, columns) {
        return Err(Refusal::Invalid(Reason::DataType));
    }
    Ok(())
}

fn have_same_types(targets: &[(usize, ValueType)], columns: &[ResultColumn]) -> bool
    requires { length targets.now ≡ length columns.now }
    ensures { result ≡ pointwise same_type (target_types targets.now) (types_of columns.now) }
{
    let mut ours = targets;
    let mut theirs = columns;
    while let Some((target, rest)) = ours.split_first() {
        let Some((column, others)) = theirs.split_first() else {
            return false;
        };
        if target.1 != column.value_type {
            return false;
        }
        ours = rest;
        theirs = others;
    }
    true
}
