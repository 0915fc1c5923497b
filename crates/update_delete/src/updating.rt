//! The rows that an UPDATE touches become new ones.
ghost use Rattle.std.specs.Prelude.{◌≡◌, Bool, false, Ok, IfOk, [], List, filter, length, map};
ghost use Rattle.sqlval.specs.Value.{Row as AnyRow};
ghost use Rattle.typing.specs.declared.statement.Update.{Update};
ghost use Rattle.typing.specs.declared.typed.Condition.{Condition as Asked};
ghost use Rattle.denote.specs.Change.{updated_rows};
ghost use Rattle.denote.specs.Database.{table_of};
ghost use Rattle.denote.specs.Evaluation.{together};
ghost use Rattle.denote.specs.Meaning.{Tables};
ghost use Rattle.denote.specs.Stop.{Gives};
ghost use Rattle.tree_tables.specs.TablesRead.{Agree};
ghost use Rattle.query_answers.specs.Lent.{rows_lent};
ghost use Rattle.query_answers.specs.Sources.{AreChecksOf};
ghost use Rattle.update_delete.specs.Given.{assigned_given, touched_given, update_given};
ghost use Rattle.update_delete.specs.RowChanges.{AreUpdates, GivesChanges, spread};
ghost use Rattle.update_delete.specs.Statements.{IsUpdateOf, tables_in_update};

use crate::assigned::assigned_row;
use crate::change::{RowChange, RowUpdate};
use crate::held::may_hold;
use crate::listed::kept_update;
use crate::touched::is_touched;
use algebra::Condition;
use algebra_laws::evaluation_keeps_the_meaning;
use denote::{Row, Stop};
use items::Items;
use query_answers::LentTables;
use sqlval::{Table, Value};
use std::alloc::Global;
use tree_tables::{listings_read_their_tables, values_read_their_tables};
use uncorrelated_subqueries::kept_trees_mean_the_same;

/// What becomes of each of these rows by an UPDATE: they are the rows of a table that pass a test,
/// at no other of which the condition is true or raises a fault, so that the others stay; or one of
/// the faults of all rows: of the condition, of a source, of storing, of a CHECK that cannot be
/// evaluated at the new row, or of the length of that row or of a key of it. Each row is seen as it
/// was. `update` has the trees of the statement, `lent` the tables that these name, and `checks`
/// the trees of the conditions of the table's CHECKs. There are as many as rows.
pub fn updates(
    alloc: Global,
    lent: &LentTables,
    table: &Table,
    checks: &[Condition],
    update: &RowUpdate,
    rows: &[Row],
) -> Result<Items<RowChange>, Stop>
    ensures gives { (tables : Tables) (conditions : List Asked) (u : Update) (whole : List AnyRow) (test : AnyRow → Bool)
        → rows.now ≡ filter test whole
        → ((row : AnyRow) → test row ≡ false
        → touched_given (rows_lent lent.now.tables) update.now.filter row ≡ Ok false)
        → Agree (rows_lent lent.now.tables) tables (tables_in_update update.now)
        → IsUpdateOf tables u update.now → AreChecksOf conditions checks.now
        → GivesChanges (λ changes found. AreUpdates (table_of table.now whole) (spread test whole changes) found) result (updated_rows conditions tables (table_of table.now whole) u) }
    ensures as_many { IfOk result (λ changes. length changes ≡ length rows.now) }
{
    evaluation_keeps_the_meaning();
    listings_read_their_tables();
    values_read_their_tables();
    kept_trees_mean_the_same();
    match kept_update(alloc, lent, update) {
        Ok(kept) => all_updates(alloc, lent, table, checks, &kept, rows),
        Err(_) => Err(Stop::Memory),
    }
}

fn all_updates(
    alloc: Global,
    lent: &LentTables,
    table: &Table,
    checks: &[Condition],
    update: &RowUpdate,
    rows: &[Row],
) -> Result<Items<RowChange>, Stop>
    ensures { Gives result (together (map (update_given (rows_lent lent.now.tables) checks.now (table_of table.now []) update.now) rows.now)) }
{
    let mut changes = Items::new(alloc);
    for row in rows {
        changes.push(row_update(alloc, lent, table, checks, update, row.as_slice())?)?;
    }
    Ok(changes)
}

fn row_update(
    alloc: Global,
    lent: &LentTables,
    table: &Table,
    checks: &[Condition],
    update: &RowUpdate,
    row: &[Value],
) -> Result<RowChange, Stop>
    ensures { Gives result (update_given (rows_lent lent.now.tables) checks.now (table_of table.now []) update.now row.now) }
{
    match is_touched(alloc, lent, &update.filter, row) {
        Ok(true) => match new_row(alloc, lent, table, checks, update, row) {
            Ok(new) => Ok(RowChange::Becomes(new)),
            Err(stop) => Err(stop),
        },
        Ok(false) => Ok(RowChange::Stays),
        Err(stop) => Err(stop),
    }
}

/// A row after its assignments, which the table may hold.
fn new_row(
    alloc: Global,
    lent: &LentTables,
    table: &Table,
    checks: &[Condition],
    update: &RowUpdate,
    row: &[Value],
) -> Result<Row, Stop>
    ensures { Gives result (assigned_given (rows_lent lent.now.tables) checks.now (table_of table.now []) update.now row.now) }
{
    let new = assigned_row(alloc, lent, table.columns.as_slice(), update, row)?;
    may_hold(alloc, table, checks, new.as_slice())?;
    Ok(new)
}
