//! The sources of VALUES, as trees, and the tables that they name.
ghost use Rattle.std.specs.Prelude.{◌≡◌, ◌≤◌, ◌+◌, IfOk, IfErr, map};
ghost use Rattle.refusals.specs.declared.refusal.Refusal.TheVariants.{Disk};
ghost use Rattle.session_definitions.specs.Refusals.{IsReserved};
ghost use Rattle.store.specs.Errors.{HasRisen};
ghost use Rattle.algebra.specs.Described.{described_in};
ghost use Rattle.algebra.specs.Translated.{tree_of_expression};
ghost use Rattle.denote.specs.Database.{CheckReading, Database, IsGood, rows_in};
ghost use Rattle.denote.specs.SchemaOf.{IsSchemaOf};
ghost use Rattle.operator_laws.specs.Same.{Each};
ghost use Rattle.rules.specs.Same.{KeepsExpression};
ghost use Rattle.tree_tables.specs.TablesRead.{Agree};
ghost use Rattle.transactions.specs.Refused.{TellsNoLimit};
ghost use Rattle.query_answers.specs.Answered.{rows_found};
ghost use Rattle.query_answers.specs.Lent.{rows_lent, rows_under};
ghost use Rattle.query_answers.specs.Sources.{AreTreesOf, tables_in_row, tables_in_rows};

use crate::lent::{LentTables, lent_tables};
use algebra::Expression;
use items::{Items, Text};
use known_tables::described_tables_are_known;
use planned_subqueries::{planned_expressions, planned_trees_mean_the_same};
use refusals::Refusal;
use sqlval::Schema;
use std::alloc::{AllocError, Global};
use store::Reading;
use translation::translate_expression;
use tree_tables::tables_in_expression;

/// The trees of the sources of VALUES that were typed over this schema, row by row, their
/// subqueries as those of plans. They mean what the sources do over every good database of the
/// schema, and name no table that these do not. Refuses for want of memory alone.
pub fn source_trees(
    alloc: Global,
    schema: &Schema,
    rows: &[Items<typing::Expression>],
) -> Result<Items<Items<Expression>>, AllocError>
    ensures trees { (reading : CheckReading) (db : Database) → IsGood reading db → IsSchemaOf schema.now db
        → IfOk result (λ trees. AreTreesOf (rows_in db) rows.now trees) }
    ensures known { IfOk result (λ trees.
        Each (Each KeepsExpression) trees (map (map (tree_of_expression (described_in schema.now))) rows.now)) }
{
    described_tables_are_known();
    planned_trees_mean_the_same();
    planned_rows(alloc, schema, rows)
}

fn planned_rows(
    alloc: Global,
    schema: &Schema,
    rows: &[Items<typing::Expression>],
) -> Result<Items<Items<Expression>>, AllocError>
    ensures { IfOk result (λ trees.
        Each (Each KeepsExpression) trees (map (map (tree_of_expression (described_in schema.now))) rows.now)) }
{
    let mut trees = Items::new(alloc);
    for row in rows {
        trees.push(planned_row(alloc, schema, row.as_slice())?)?;
    }
    Ok(trees)
}

fn planned_row(
    alloc: Global,
    schema: &Schema,
    sources: &[typing::Expression],
) -> Result<Items<Expression>, AllocError>
    ensures { IfOk result (λ trees.
        Each KeepsExpression trees (map (tree_of_expression (described_in schema.now)) sources.now)) }
{
    let translated = row_trees(alloc, schema, sources)?;
    planned_expressions(alloc, translated)
}

fn row_trees(
    alloc: Global,
    schema: &Schema,
    sources: &[typing::Expression],
) -> Result<Items<Expression>, AllocError>
    ensures { IfOk result (λ trees. trees ≡ map (tree_of_expression (described_in schema.now)) sources.now) }
{
    let mut trees = Items::new(alloc);
    for source in sources {
        trees.push(translate_expression(alloc, schema, source)?)?;
    }
    Ok(trees)
}

fn names_in_row(alloc: Global, sources: &[Expression]) -> Result<Items<Text>, AllocError>
    ensures { IfOk result (λ names. names ≡ tables_in_row sources.now) }
{
    let mut names = Items::new(alloc);
    for source in sources {
        names.append(tables_in_expression(alloc, source)?)?;
    }
    Ok(names)
}

fn names_in_rows(alloc: Global, rows: &[Items<Expression>]) -> Result<Items<Text>, AllocError>
    ensures { IfOk result (λ names. names ≡ tables_in_rows rows.now) }
{
    let mut names = Items::new(alloc);
    for sources in rows {
        names.append(names_in_row(alloc, sources.as_slice())?)?;
    }
    Ok(names)
}

/// The tables that sources name, each read once. It is refused for what the store is refused for.
pub fn tables_for_sources<R: Reading>(
    alloc: Global,
    reading: &mut R,
    trees: &[Items<Expression>],
) -> Result<LentTables, Refusal>
    ensures lent { R.is_sound reading.old
        → IfOk result (λ lent. Agree (rows_lent lent.tables) (rows_found (R.shows reading.old).contents) (tables_in_rows trees.now)) }
    ensures read { R.is_sound reading.old
        → IfOk result (λ _. (R.shows reading.new).read ≤ (R.shows reading.old).read + rows_under (rows_found (R.shows reading.old).contents) (tables_in_rows trees.now)) }
    ensures refused { IfErr result (λ refusal. R.is_sound reading.old → IsReserved refusal) }
    ensures limits { IfErr result TellsNoLimit }
    ensures counts { IfErr result (λ refusal. refusal ≡ Disk
        → HasRisen (R.shows reading.old).refused (R.shows reading.new).refused) }
    ensures follows { R.follows reading.old reading.new }
{
    let names = match names_in_rows(alloc, trees) {
        Ok(names) => names,
        Err(_) => return Err(Refusal::Memory),
    };
    lent_tables(alloc, reading, names.as_slice())
}
