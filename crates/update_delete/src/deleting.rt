//! The rows that a DELETE touches go.
ghost use Rattle.std.specs.Prelude.{◌≡◌, Bool, false, [], Ok, IfOk, length, map};
ghost use Rattle.std.specs.Prelude.{filter as list_filter};
ghost use Rattle.sqlval.specs.Value.{Row as AnyRow};
ghost use Rattle.typing.specs.declared.statement.Delete.{Delete};
ghost use Rattle.denote.specs.Change.{deleted_rows};
ghost use Rattle.denote.specs.Database.{Table};
ghost use Rattle.denote.specs.Evaluation.{together};
ghost use Rattle.denote.specs.Meaning.{Tables};
ghost use Rattle.denote.specs.Stop.{Gives};
ghost use Rattle.tree_tables.specs.TablesRead.{Agree};
ghost use Rattle.query_answers.specs.Lent.{rows_lent};
ghost use Rattle.update_delete.specs.Given.{deletion_given, touched_given};
ghost use Rattle.update_delete.specs.RowChanges.{AreDeletions, GivesChanges, rows_new, spread};
ghost use Rattle.update_delete.specs.Statements.{IsFilterOf, tables_in_filter};

use crate::change::RowChange;
use crate::listed::kept_filter;
use crate::touched::is_touched;
use algebra::Condition;
use denote::{Row, Stop};
use items::Items;
use query_answers::LentTables;
use sqlval::Value;
use std::alloc::Global;
use tree_tables::{listings_read_their_tables, values_read_their_tables};
use uncorrelated_subqueries::kept_trees_mean_the_same;

/// What becomes of each of these rows by a DELETE: they are the rows of a table that pass a test,
/// at no other of which the condition is true or raises a fault, so that the others stay; or one of
/// the faults of its condition at all rows. `filter` is the tree of the condition, and `lent` the
/// tables that it names.
pub fn deletions(
    alloc: Global,
    lent: &LentTables,
    filter: &Option<Condition>,
    rows: &[Row],
) -> Result<Items<RowChange>, Stop>
    ensures gives { (tables : Tables) (table : Table) (d : Delete) (test : AnyRow → Bool)
        → rows.now ≡ list_filter test table.rows
        → ((row : AnyRow) → test row ≡ false → touched_given (rows_lent lent.now.tables) filter.now row ≡ Ok false)
        → Agree (rows_lent lent.now.tables) tables (tables_in_filter filter.now)
        → IsFilterOf tables d.filter filter.now
        → GivesChanges (λ changes found. AreDeletions table (spread test table.rows changes) found) result (deleted_rows tables table d) }
    ensures spares { IfOk result (λ changes. rows_new changes ≡ []) }
    ensures as_many { IfOk result (λ changes. length changes ≡ length rows.now) }
{
    listings_read_their_tables();
    values_read_their_tables();
    kept_trees_mean_the_same();
    match kept_filter(alloc, lent, filter) {
        Ok(kept) => all_deletions(alloc, lent, &kept, rows),
        Err(_) => Err(Stop::Memory),
    }
}

fn all_deletions(
    alloc: Global,
    lent: &LentTables,
    filter: &Option<Condition>,
    rows: &[Row],
) -> Result<Items<RowChange>, Stop>
    ensures { Gives result (together (map (deletion_given (rows_lent lent.now.tables) filter.now) rows.now)) }
{
    let mut changes = Items::new(alloc);
    for row in rows {
        changes.push(deletion(alloc, lent, filter, row.as_slice())?)?;
    }
    Ok(changes)
}

fn deletion(
    alloc: Global,
    lent: &LentTables,
    filter: &Option<Condition>,
    row: &[Value],
) -> Result<RowChange, Stop>
    ensures { Gives result (deletion_given (rows_lent lent.now.tables) filter.now row.now) }
{
    match is_touched(alloc, lent, filter, row) {
        Ok(true) => Ok(RowChange::Goes),
        Ok(false) => Ok(RowChange::Stays),
        Err(stop) => Err(stop),
    }
}
