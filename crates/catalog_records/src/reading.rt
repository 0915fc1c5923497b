//! A table's parts from its records, one behind another.
ghost use Rattle.std.specs.Prelude.{◌≡◌, ◌++◌, ℕ, List, IfOk};
ghost use Rattle.std.specs.List.{AllByRecursion};
ghost use Rattle.sqlval.specs.declared.schema.Column.{Column as AnyColumn};
ghost use Rattle.sqlval.specs.declared.schema.Constraint.{Constraint as AnyConstraint};
ghost use Rattle.sqlval.specs.declared.schema.Index.{Index as AnyIndex};
ghost use Rattle.catalog_records.specs.declared.record.Record.{Record as AnyRecord};
ghost use Rattle.catalog_records.specs.Records.{key_of, column_records, constraint_records, index_records};
ghost use Rattle.catalog_records.specs.Given.{GivesFront};
ghost use Rattle.catalog_records.specs.Keepable.{IsColumn, IsConstraint, IsIndex};
ghost use Rattle.catalog_records.specs.Rows.{EndsAt};

use crate::key::is_key;
use crate::parts::{column_in, constraint_in, index_in};
use crate::read_error::ReadError;
use crate::record::Record;
use items::{Items, Text};
use sqlval::{Column, Constraint, Index};
use std::alloc::Global;

/// The columns whose records stand first, and the records behind them.
pub(crate) fn columns_first<'a>(
    alloc: Global,
    name: &Text,
    records: &'a [Record],
) -> Result<(Items<Column>, &'a [Record]), ReadError>
    ensures sound { IfOk result (λ given. column_records name.now 0 given.0 ++ given.1.now ≡ records.now) }
    ensures kept { IfOk result (λ given. AllByRecursion IsColumn given.0) }
    ensures again { (all : List AnyColumn) (more : List AnyRecord) → AllByRecursion IsColumn all
        → EndsAt (key_of name.now 1) more
        → column_records name.now 0 all ++ more ≡ records.now → GivesFront result all more }
{
    let mut columns = Items::new(alloc);
    for (place, record) in records.iter().enumerate() {
        if !is_key(record.key.as_slice(), name, 1, place) {
            let (_, others) = records.split_at(place);
            return Ok((columns, others));
        }
        let column = column_in(alloc, record.row.as_slice())?;
        columns.push(column)?;
    }
    Ok((columns, &[]))
}

/// The constraints whose records stand first, and the records behind them.
pub(crate) fn constraints_first<'a>(
    alloc: Global,
    name: &Text,
    records: &'a [Record],
) -> Result<(Items<Constraint>, &'a [Record]), ReadError>
    ensures sound { IfOk result (λ given. constraint_records name.now 1 given.0 ++ given.1.now ≡ records.now) }
    ensures kept { IfOk result (λ given. AllByRecursion IsConstraint given.0) }
    ensures again { (all : List AnyConstraint) (more : List AnyRecord) → AllByRecursion IsConstraint all
        → EndsAt (key_of name.now 2) more
        → constraint_records name.now 1 all ++ more ≡ records.now → GivesFront result all more }
{
    let mut constraints = Items::new(alloc);
    for (place, record) in records.iter().enumerate() {
        if !is_key(record.key.as_slice(), name, 2, place + 1) {
            let (_, others) = records.split_at(place);
            return Ok((constraints, others));
        }
        let constraint = constraint_in(alloc, record.row.as_slice())?;
        constraints.push(constraint)?;
    }
    Ok((constraints, &[]))
}

/// The indexes whose records stand first, and the records behind them.
pub(crate) fn indexes_first<'a>(
    alloc: Global,
    name: &Text,
    records: &'a [Record],
) -> Result<(Items<Index>, &'a [Record]), ReadError>
    ensures sound { IfOk result (λ given. index_records name.now 1 given.0 ++ given.1.now ≡ records.now) }
    ensures kept { IfOk result (λ given. AllByRecursion IsIndex given.0) }
    ensures again { (all : List AnyIndex) (more : List AnyRecord) → AllByRecursion IsIndex all
        → EndsAt (key_of name.now 3) more
        → index_records name.now 1 all ++ more ≡ records.now → GivesFront result all more }
{
    let mut indexes = Items::new(alloc);
    for (place, record) in records.iter().enumerate() {
        if !is_key(record.key.as_slice(), name, 3, place + 1) {
            let (_, others) = records.split_at(place);
            return Ok((indexes, others));
        }
        let index = index_in(alloc, record.row.as_slice())?;
        indexes.push(index)?;
    }
    Ok((indexes, &[]))
}
