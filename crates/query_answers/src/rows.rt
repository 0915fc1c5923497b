//! The rows that VALUES give for a table.
ghost use Rattle.std.specs.Prelude.{◌≡◌, ◌≢◌, ◌==◌, position, [], ◌∷◌, IfOk, IfErr, map, flat_map};
ghost use Rattle.std.specs.Option.{option_copied};
ghost use Rattle.refusals.specs.declared.refusal.Refusal.TheVariants.{Disk};
ghost use Rattle.sqlval.specs.Matching.{key_of};
ghost use Rattle.sqlval.specs.Storing.{stored};
ghost use Rattle.denote.specs.Database.{table_of};
ghost use Rattle.denote.specs.Evaluation.{given};
ghost use Rattle.denote.specs.Stop.{Gives, Passes};
ghost use Rattle.denote.specs.StoredRow.{given_for, value_for, row_with, key_faults};
ghost use Rattle.transactions.specs.Refused.{TellsNoLimit};
ghost use Rattle.query_answers.specs.Gives.{OfValues, RefusesRows, Stores};
ghost use Rattle.query_answers.specs.Lent.{rows_lent};
ghost use Rattle.query_answers.specs.Sources.{source_value, check_truth, check_faults, faults_at, row_given, rows_given};

use crate::fault::refusal_of_fault;
use crate::lent::{LentTables, NoTables};
use algebra::{Condition, Expression};
use algebra_laws::evaluation_keeps_the_meaning;
use denote::{Fault, Row, Rows, Stop};
use executor::{Env, condition_truth, expression_value};
use items::Items;
use refusals::Refusal;
use sqlval::{
    Column, ColumnType, Index, Table, Truth, Value, coded_index_key_length, coded_row_length,
    store_as,
};
use std::alloc::{AllocError, Global};
use tree_tables::values_read_their_tables;

/// The most bytes that a row takes, coded.
const LONGEST_RECORD: usize = 1_000;

/// The most bytes that a key takes, coded with its row number.
const LONGEST_KEY: usize = 600;

/// Where a place stands among these columns first.
fn position_of(place: usize, columns: &[usize]) -> Option<usize>
    ensures { result ≡ position (λ column. column == place) columns.now }
{
    columns.iter().position(|column| *column == place)
}

/// The source for the column at a place.
fn source_for<'a>(
    place: usize,
    columns: &[usize],
    sources: &'a [Expression],
) -> Option<&'a Expression>
    ensures { option_copied result ≡ given_for place columns.now sources.now }
{
    match position_of(place, columns) {
        None => None,
        Some(at) => sources.get(at),
    }
}

fn store(value: Value, column_type: ColumnType) -> Result<Value, Stop>
    ensures { Gives result (given (stored value column_type)) }
{
    Ok(store_as(value, column_type)?)
}

/// The value of a source, which sees no row.
fn source_value(alloc: Global, lent: &LentTables, source: &Expression) -> Result<Value, Stop>
    ensures { Gives result (source_value (rows_lent lent.now.tables) source.now) }
{
    expression_value(alloc, lent, &Env::Outermost, source)
}

/// A CHECK at a row, which is all that it sees.
fn check_truth(alloc: Global, row: &[Value], check: &Condition) -> Result<Truth, Stop>
    ensures { Gives result (check_truth row.now check.now) }
{
    let env = Env::Inside(row, &Env::Outermost);
    condition_truth(alloc, &NoTables, &env, check)
}

/// The value that a column gets: its source's, as the column holds it, or null.
fn column_value(
    alloc: Global,
    lent: &LentTables,
    place: usize,
    column: &Column,
    columns: &[usize],
    sources: &[Expression],
) -> Result<Value, Stop>
    ensures { Gives result (value_for (given_for place columns.now (map (source_value (rows_lent lent.now.tables)) sources.now)) column.now Value.Null) }
{
    match source_for(place, columns, sources) {
        None => Ok(Value::Null),
        Some(source) => {
            let value = source_value(alloc, lent, source)?;
            store(value, column.column_type)
        }
    }
}

/// The row of these sources.
fn source_row(
    alloc: Global,
    lent: &LentTables,
    table_columns: &[Column],
    columns: &[usize],
    sources: &[Expression],
) -> Result<Row, Stop>
    ensures { Gives result (row_with table_columns.now columns.now (map (source_value (rows_lent lent.now.tables)) sources.now) []) }
{
    let mut row = Items::new(alloc);
    for (place, column) in table_columns.iter().enumerate() {
        row.push(column_value(alloc, lent, place, column, columns, sources)?)?;
    }
    Ok(row)
}

/// Whether each CHECK can be evaluated at a row.
fn evaluate_checks(alloc: Global, checks: &[Condition], row: &[Value]) -> Result<(), Stop>
    ensures { Passes result (check_faults checks.now row.now) }
{
    for check in checks {
        check_truth(alloc, row, check)?;
    }
    Ok(())
}

fn copied_key(alloc: Global, columns: &[usize], row: &[Value]) -> Result<Row, AllocError>
    ensures { IfOk result (λ key. key ≡ key_of columns.now row.now) }
{
    let mut key = Items::new(alloc);
    for column in columns {
        match row.get(*column) {
            Some(value) => key.push(value.copy(alloc)?)?,
            None => key.push(Value::Null)?,
        }
    }
    Ok(key)
}

/// Whether the keys of a row are short enough for the indexes.
fn measure_keys(alloc: Global, indexes: &[Index], row: &[Value]) -> Result<(), Stop>
    ensures { Passes result (flat_map (λ index. key_faults row.now index.columns) indexes.now) }
{
    for index in indexes {
        let key = copied_key(alloc, index.columns.as_slice(), row)?;
        if coded_index_key_length(key.as_slice()) > LONGEST_KEY {
            return Err(Stop::Fault(Fault::Key));
        }
    }
    Ok(())
}

/// Whether a table may hold a row, but for its constraints.
fn admit(alloc: Global, table: &Table, checks: &[Condition], row: &[Value]) -> Result<(), Stop>
    ensures { Passes result (faults_at checks.now (table_of table.now []) row.now) }
{
    evaluate_checks(alloc, checks, row)?;
    if coded_row_length(row) > LONGEST_RECORD {
        return Err(Stop::Fault(Fault::Record));
    }
    measure_keys(alloc, table.indexes.as_slice(), row)
}

fn row_to_insert(
    alloc: Global,
    lent: &LentTables,
    table: &Table,
    checks: &[Condition],
    columns: &[usize],
    sources: &[Expression],
) -> Result<Row, Stop>
    ensures { Gives result (row_given (rows_lent lent.now.tables) checks.now (table_of table.now []) columns.now sources.now) }
{
    let row = source_row(alloc, lent, table.columns.as_slice(), columns, sources)?;
    admit(alloc, table, checks, row.as_slice())?;
    Ok(row)
}

fn all_rows(
    alloc: Global,
    lent: &LentTables,
    table: &Table,
    checks: &[Condition],
    columns: &[usize],
    trees: &[Items<Expression>],
) -> Result<Rows, Stop>
    ensures { Gives result (rows_given (rows_lent lent.now.tables) checks.now (table_of table.now []) columns.now trees.now) }
{
    let mut added = Items::new(alloc);
    for sources in trees {
        added.push(row_to_insert(alloc, lent, table, checks, columns, sources.as_slice())?)?;
    }
    Ok(added)
}

/// The rows that an INSERT of VALUES adds to a table: the n-th source of each row goes to the
/// column at the n-th place of `columns`, as that column holds it, and the other columns get null.
/// `trees` mean what the sources do, and `checks` are the trees of the conditions of the table's
/// CHECKs. Constraints are not looked at.
///
/// Else it is refused by a fault: of a source, of storing, of a CHECK that cannot be evaluated, or
/// `record` or `key` of a row; or for want of memory.
pub fn rows_to_insert(
    alloc: Global,
    lent: &LentTables,
    table: &Table,
    checks: &[Condition],
    columns: &[usize],
    trees: &[Items<Expression>],
) -> Result<Rows, Refusal>
    ensures gives { IfOk result (λ stored. OfValues (rows_lent lent.now.tables) checks.now (table_of table.now []) columns.now trees.now (Stores stored)) }
    ensures refused { IfErr result (λ refusal. OfValues (rows_lent lent.now.tables) checks.now (table_of table.now []) columns.now trees.now (RefusesRows refusal)) }
    ensures limits { IfErr result TellsNoLimit }
    ensures device { IfErr result (λ refusal. refusal ≢ Disk) }
{
    evaluation_keeps_the_meaning();
    values_read_their_tables();
    match all_rows(alloc, lent, table, checks, columns, trees) {
        Ok(stored) => Ok(stored),
        Err(Stop::Memory) => Err(Refusal::Memory),
        Err(Stop::Fault(fault)) => Err(refusal_of_fault(fault)),
    }
}
