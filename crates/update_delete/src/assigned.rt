//! A row after its assignments.
ghost use Rattle.std.specs.Prelude.{◌≡◌, ◌==◌, IfOk, Ok, map, position};
ghost use Rattle.std.specs.Option.{option_copied};
ghost use Rattle.sqlval.specs.declared.value.Value.{Value as Held};
ghost use Rattle.sqlval.specs.Storing.{stored};
ghost use Rattle.denote.specs.Evaluation.{given};
ghost use Rattle.denote.specs.Expression.{cell};
ghost use Rattle.denote.specs.Stop.{Gives};
ghost use Rattle.denote.specs.StoredRow.{given_for, value_for, row_with};
ghost use Rattle.query_answers.specs.Lent.{rows_lent};
ghost use Rattle.update_delete.specs.Given.{value_at};

use crate::change::RowUpdate;
use algebra::Expression;
use denote::{Row, Stop};
use executor::{Env, expression_value};
use items::Items;
use query_answers::LentTables;
use sqlval::{Column, ColumnType, Value, store_as};
use std::alloc::{AllocError, Global};

/// A row with the values of the sources, as their columns hold them, and its old values in the
/// other columns; or one of the faults of all columns.
pub(crate) fn assigned_row(
    alloc: Global,
    lent: &LentTables,
    columns: &[Column],
    update: &RowUpdate,
    row: &[Value],
) -> Result<Row, Stop>
    ensures { Gives result (row_with columns.now update.now.columns (map (value_at (rows_lent lent.now.tables) row.now) update.now.sources) row.now) }
{
    let mut new = Items::new(alloc);
    for (place, column) in columns.iter().enumerate() {
        new.push(column_value(alloc, lent, place, column, update, row)?)?;
    }
    Ok(new)
}

/// The value that a column gets.
fn column_value(
    alloc: Global,
    lent: &LentTables,
    place: usize,
    column: &Column,
    update: &RowUpdate,
    row: &[Value],
) -> Result<Value, Stop>
    ensures { Gives result (value_for (given_for place update.now.columns (map (value_at (rows_lent lent.now.tables) row.now) update.now.sources)) column.now (cell row.now place)) }
{
    match source_for(place, update.columns.as_slice(), update.sources.as_slice()) {
        None => kept_value(copied_cell(alloc, row, place)),
        Some(source) => {
            let value = source_value(alloc, lent, source, row)?;
            store(value, column.column_type)
        }
    }
}

/// A value that was copied.
fn kept_value(copied: Result<Value, AllocError>) -> Result<Value, Stop>
    ensures { (value : Held) → IfOk copied (λ x. x ≡ value) → Gives result (Ok value) }
{
    match copied {
        Ok(value) => Ok(value),
        Err(_) => Err(Stop::Memory),
    }
}

/// The source for the column at a place.
fn source_for<'a>(
    place: usize,
    columns: &[usize],
    sources: &'a [Expression],
) -> Option<&'a Expression>
    ensures { option_copied result ≡ given_for place columns.now sources.now }
{
    match position_of(place, columns) {
        None => None,
        Some(at) => sources.get(at),
    }
}

/// Where a place stands among these columns first.
fn position_of(place: usize, columns: &[usize]) -> Option<usize>
    ensures { result ≡ position (λ column. column == place) columns.now }
{
    columns.iter().position(|column| *column == place)
}

/// The value of a source, which sees the row before the statement.
fn source_value(
    alloc: Global,
    lent: &LentTables,
    source: &Expression,
    row: &[Value],
) -> Result<Value, Stop>
    ensures { Gives result (value_at (rows_lent lent.now.tables) row.now source.now) }
{
    let env = Env::Inside(row, &Env::Outermost);
    expression_value(alloc, lent, &env, source)
}

/// A value as a column of this type holds it.
fn store(value: Value, column_type: ColumnType) -> Result<Value, Stop>
    ensures { Gives result (given (stored value column_type)) }
{
    Ok(store_as(value, column_type)?)
}

/// The value at a place; null past the end.
fn copied_cell(alloc: Global, row: &[Value], place: usize) -> Result<Value, AllocError>
    ensures { IfOk result (λ value. value ≡ cell row.now place) }
{
    match row.get(place) {
        Some(value) => value.copy(alloc),
        None => Ok(Value::Null),
    }
}
