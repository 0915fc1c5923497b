//! The rows of an INSERT of VALUES.
ghost use Rattle.std.specs.Prelude.{◌≡◌, ◌≢◌, List, Some, IfOk, IfErr};
ghost use Rattle.std.specs.FinMap.{get};
ghost use Rattle.refusals.specs.declared.refusal.Refusal.TheVariants.{Disk};
ghost use Rattle.session_definitions.specs.Refusals.{IsReserved};
ghost use Rattle.typing.specs.declared.statement.Change.TheVariants as does;
ghost use Rattle.typing.specs.declared.statement.InsertSource.TheVariants as from;
ghost use Rattle.typing.specs.declared.typed.Expression.{Expression as Typed};
ghost use Rattle.denote.specs.Database.{CheckReading, Database, IsGood, Table, checks_of, rows_in};
ghost use Rattle.denote.specs.SchemaOf.{IsSchemaOf};
ghost use Rattle.tree_tables.specs.TablesRead.{Agree};
ghost use Rattle.query_answers.specs.Gives.{RefusesRows, Stores};
ghost use Rattle.query_answers.specs.Lent.{rows_lent};
ghost use Rattle.query_answers.specs.Sources.{AreChecksOf, AreTreesOf, tables_in_rows};
ghost use Rattle.store.specs.Contents.{database_of};
ghost use Rattle.store.specs.Errors.{HasRisen};
ghost use Rattle.store.specs.Going.{Going};
ghost use Rattle.transactions.specs.Refused.{TellsNoLimit};
ghost use Rattle.constraints.specs.Changed.{RefusesChange};
ghost use Rattle.table_changes.specs.Given.{AreGiven, into};
ghost use Rattle.change.specs.Sources.{stored_of};

use algebra::Expression;
use check_constraints::TableChecks;
use constraints::table_named;
use denote::Rows;
use items::{Items, Text};
use query_answers::{LentTables, rows_to_insert, source_trees, tables_for_sources};
use refusals::Refusal;
use sqlval::Schema;
use std::alloc::Global;
use store::{Seen, Store, View};
use typing::Insert;

/// The rows of VALUES as the table is to hold them, their subqueries by plans. The tables that the
/// sources name are read, and the store is left as it was.
pub(crate) fn value_rows<S: Store>(
    alloc: Global,
    store: &mut S,
    insert: &Insert,
    values: &[Items<typing::Expression>],
    checks: &TableChecks,
) -> Result<Rows, Refusal>
    ensures gives { IfOk result (λ rows. (reading : CheckReading) (table : Table) → S.is_sound store.old
        → IsSchemaOf (S.prepared store.old) (database_of (S.shows store.old).working)
        → IsGood reading (database_of (S.shows store.old).working)
        → get (database_of (S.shows store.old).working) insert.now.table ≡ Some table
        → AreChecksOf (checks_of reading insert.now.table table) checks.now.conditions
        → insert.now.source ≡ from.Values values.now
        → AreGiven reading (database_of (S.shows store.old).working) insert.now rows) }
    ensures refused { IfErr result (λ refusal. (reading : CheckReading) (table : Table) → S.is_sound store.old
        → IsSchemaOf (S.prepared store.old) (database_of (S.shows store.old).working)
        → IsGood reading (database_of (S.shows store.old).working)
        → get (database_of (S.shows store.old).working) insert.now.table ≡ Some table
        → AreChecksOf (checks_of reading insert.now.table table) checks.now.conditions
        → insert.now.source ≡ from.Values values.now
        → RefusesChange reading (database_of (S.shows store.old).working) (does.Insert insert.now) refusal) }
    ensures limits { IfErr result TellsNoLimit }
    ensures device { IfErr result (λ refusal. refusal ≡ Disk → HasRisen (S.refused store.old) (S.refused store.new)) }
    ensures shows { S.shows store.new ≡ S.shows store.old }
    ensures goes { S.goes_on store.old store.new Going.reads }
{
    let trees = match source_trees(alloc, store.schema(), values) {
        Ok(trees) => trees,
        Err(_) => return Err(Refusal::Memory),
    };
    match tables_named(alloc, store, trees.as_slice()) {
        Ok(lent) => stored_rows(
            alloc,
            store.schema(),
            &insert.table,
            &insert.columns,
            checks,
            &lent,
            trees.as_slice(),
        ),
        Err(refusal) => Err(refusal),
    }
}

/// The tables that sources name, as they stand in the newest version.
fn tables_named<S: Store>(
    alloc: Global,
    store: &mut S,
    trees: &[Items<Expression>],
) -> Result<LentTables, Refusal>
    ensures lent { S.is_sound store.old
        → IfOk result (λ lent. Agree (rows_lent lent.tables) (rows_in (database_of (S.shows store.old).working)) (tables_in_rows trees.now)) }
    ensures refused { IfErr result (λ refusal. S.is_sound store.old → IsReserved refusal) }
    ensures limits { IfErr result TellsNoLimit }
    ensures device { IfErr result (λ refusal. refusal ≡ Disk → HasRisen (S.refused store.old) (S.refused store.new)) }
    ensures prepared { S.prepared store.new ≡ S.prepared store.old }
    ensures shows { S.shows store.new ≡ S.shows store.old }
    ensures goes { S.goes_on store.old store.new Going.reads }
{
    let mut seen = Seen {
        store,
        view: View::Working,
    };
    tables_for_sources(alloc, &mut seen, trees)
}

/// The rows of sources, of which these are trees, as the table is to hold them; or one of the
/// faults.
pub(crate) fn stored_rows(
    alloc: Global,
    schema: &Schema,
    name: &Text,
    columns: &Items<usize>,
    checks: &TableChecks,
    lent: &LentTables,
    trees: &[Items<Expression>],
) -> Result<Rows, Refusal>
    ensures gives { IfOk result (λ rows. (reading : CheckReading) (db : Database) (table : Table) (values : List (List Typed))
        → IsSchemaOf schema.now db → get db name.now ≡ Some table
        → AreChecksOf (checks_of reading name.now table) checks.now.conditions → AreTreesOf (rows_in db) values trees.now
        → Agree (rows_lent lent.now.tables) (rows_in db) (tables_in_rows trees.now)
        → Stores rows (stored_of reading db (into name.now columns.now (from.Values values)) table (from.Values values))) }
    ensures refused { IfErr result (λ refusal. (reading : CheckReading) (db : Database) (table : Table) (values : List (List Typed))
        → IsSchemaOf schema.now db → get db name.now ≡ Some table
        → AreChecksOf (checks_of reading name.now table) checks.now.conditions → AreTreesOf (rows_in db) values trees.now
        → Agree (rows_lent lent.now.tables) (rows_in db) (tables_in_rows trees.now)
        → RefusesRows refusal (stored_of reading db (into name.now columns.now (from.Values values)) table (from.Values values))) }
    ensures limits { IfErr result TellsNoLimit }
    ensures device { IfErr result (λ refusal. refusal ≢ Disk) }
{
    match table_named(schema, name) {
        Some(table) => rows_to_insert(
            alloc,
            lent,
            table,
            checks.conditions.as_slice(),
            columns.as_slice(),
            trees,
        ),
        None => Err(Refusal::Memory),
    }
}
