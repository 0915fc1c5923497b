//! The rows of groups: their keys and the values of their set functions.

ghost use Rattle.std.specs.Prelude.{◌≡◌, [], List, IfOk, Ok, map};
ghost use Rattle.sqlval.specs.Matching.{key_of};
ghost use Rattle.algebra.specs.Listing.{groups_listed};
ghost use Rattle.algebra.specs.Meaning.{MeantFunction};
ghost use Rattle.denote.specs.Evaluation.{Env, together};
ghost use Rattle.kernels.specs.Aggregates.{GivesFirst, GivesRows, argument_values, groups_in, kind_of, row_of, rows_of, value_over, values_over};
ghost use Rattle.kernels.specs.Groups.{places_from};

use crate::aggregate::{Aggregate, member_values, taken_values};
use crate::grouping::grouped_places;
use crate::groups::Group;
use crate::rows::key_rows;
use crate::totals::{aggregate_values, in_range};
use denote::{Fault, Row, Rows, Stop};
use items::Items;
use sqlval::Value;
use std::alloc::{AllocError, Global};

/// The greatest integer: no group may have more rows.
const GREATEST_COUNT: usize = 9223372036854775807;

/// The value of a set function over the rows of a group. `number` is its place among the functions.
fn group_value(
    alloc: Global,
    arguments: &[Row],
    places: &[usize],
    aggregate: Aggregate,
    number: usize,
) -> Result<Value, Stop>
    ensures { GivesFirst result (value_over arguments.now places.now aggregate number) }
{
    match aggregate {
        Aggregate::CountRows => Ok(in_range(places.len() as i128)?),
        Aggregate::Over { function, distinct } => {
            if GREATEST_COUNT < places.len() {
                return Err(Stop::Fault(Fault::OutOfRange));
            }
            let values = member_values(alloc, arguments, number, places)?;
            let taken = taken_values(alloc, distinct, values)?;
            Ok(aggregate_values(alloc, function, taken.as_slice())?)
        }
    }
}

/// The values of all set functions over the rows of a group.
fn group_values(
    alloc: Global,
    arguments: &[Row],
    places: &[usize],
    aggregates: &[Aggregate],
) -> Result<Row, Stop>
    ensures { GivesFirst result (together (values_over arguments.now places.now aggregates.now 0)) }
{
    let mut values = Items::new(alloc);
    for (number, aggregate) in aggregates.iter().enumerate() {
        values.push(group_value(alloc, arguments, places, *aggregate, number)?)?;
    }
    Ok(values)
}

/// A group's row: its key and then the values of its set functions.
fn group_row(
    alloc: Global,
    arguments: &[Row],
    aggregates: &[Aggregate],
    group: Group,
) -> Result<Row, Stop>
    ensures { GivesFirst result (row_of arguments.now aggregates.now group) }
{
    let Group { key, places } = group;
    let values = group_values(alloc, arguments, places.as_slice(), aggregates)?;
    let mut row = key;
    row.append(values)?;
    Ok(row)
}

/// The rows of groups, up to the first that has a fault.
fn rows_of_groups(
    alloc: Global,
    arguments: &[Row],
    aggregates: &[Aggregate],
    groups: Items<Group>,
) -> Result<Rows, Stop>
    ensures { GivesFirst result (rows_of arguments.now aggregates.now groups) }
{
    let mut rows = Items::new(alloc);
    for group in groups.into_vec() {
        rows.push(group_row(alloc, arguments, aggregates, group)?)?;
    }
    Ok(rows)
}

/// The places of all rows.
fn all_places(alloc: Global, rows: &[Row]) -> Result<Items<usize>, AllocError>
    ensures { IfOk result (λ places. places ≡ places_from [] 0 (map (key_of []) rows.now)) }
{
    let mut places = Items::with_capacity(alloc, rows.len())?;
    for (place, _row) in rows.iter().enumerate() {
        places.push(place)?;
    }
    Ok(places)
}

/// The groups of rows by these columns, by their first rows; without columns there is one, even
/// over no rows.
fn groups_of(
    alloc: Global,
    columns: &Option<Items<usize>>,
    rows: &[Row],
) -> Result<Items<Group>, AllocError>
    ensures { IfOk result (λ groups. groups ≡ groups_in columns.now rows.now) }
{
    match columns {
        Some(columns) => {
            let keys = key_rows(alloc, columns.as_slice(), rows)?;
            grouped_places(alloc, keys.as_slice())
        }
        None => {
            let mut groups = Items::new(alloc);
            let places = all_places(alloc, rows)?;
            groups.push(Group {
                key: Items::new(alloc),
                places,
            })?;
            Ok(groups)
        }
    }
}

/// A row for each group: its key and then the values of its set functions, by the groups' first
/// rows. Without `columns` all rows are one group, even where there are none. `arguments` has for
/// each row the values of the functions' arguments there (null for COUNT(*)). Refuses with the
/// first fault of a set function, by groups and then functions: a value outside signed 64 bits;
/// else for want of memory alone.
pub fn group_rows(
    alloc: Global,
    columns: &Option<Items<usize>>,
    aggregates: &[Aggregate],
    rows: &[Row],
    arguments: &[Row],
) -> Result<Rows, Stop>
    ensures { (functions : List MeantFunction) (env : Env) → aggregates.now ≡ map kind_of functions
        → together (map (argument_values functions env) rows.now) ≡ Ok arguments.now
        → GivesRows result (groups_listed columns.now functions env rows.now) }
{
    let groups = groups_of(alloc, columns, rows)?;
    rows_of_groups(alloc, arguments, aggregates, groups)
}
