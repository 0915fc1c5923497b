//! The trees of an UPDATE and of a DELETE, and the tables that they name.
ghost use Rattle.std.specs.Prelude.{◌≡◌, ◌≤◌, ◌+◌, IfOk, IfErr, map};
ghost use Rattle.std.specs.Option.{option_map};
ghost use Rattle.refusals.specs.declared.refusal.Refusal.TheVariants.{Disk};
ghost use Rattle.session_definitions.specs.Refusals.{IsReserved};
ghost use Rattle.store.specs.Errors.{HasRisen};
ghost use Rattle.algebra.specs.Described.{described_in};
ghost use Rattle.algebra.specs.Translated.{tree_of_condition, tree_of_expression};
ghost use Rattle.denote.specs.Database.{CheckReading, Database, IsGood, rows_in};
ghost use Rattle.denote.specs.SchemaOf.{IsSchemaOf};
ghost use Rattle.operator_laws.specs.Same.{Each, IfBoth};
ghost use Rattle.rules.specs.Same.{KeepsCondition, KeepsExpression};
ghost use Rattle.tree_tables.specs.TablesRead.{Agree};
ghost use Rattle.transactions.specs.Refused.{TellsNoLimit};
ghost use Rattle.query_answers.specs.Answered.{rows_found};
ghost use Rattle.query_answers.specs.Lent.{rows_lent, rows_under};
ghost use Rattle.query_answers.specs.Sources.{tables_in_row};
ghost use Rattle.update_delete.specs.Statements.{IsFilterOf, IsUpdateOf, tables_in_filter, tables_in_update};

use crate::change::RowUpdate;
use algebra::{Condition, Expression};
use items::{Items, Text};
use known_tables::described_tables_are_known;
use planned_subqueries::{planned_expressions, planned_filter, planned_trees_mean_the_same};
use query_answers::{LentTables, lent_tables};
use refusals::Refusal;
use sqlval::Schema;
use std::alloc::{AllocError, Global};
use store::Reading;
use translation::{translate_condition, translate_expression};
use tree_tables::{tables_in_condition, tables_in_expression};
use typing::{Assignment, Update};

/// The tree of the condition of an UPDATE or a DELETE that was typed over this schema, its
/// subqueries as those of plans. It means what the condition does over every good database of the
/// schema. Refuses for want of memory alone.
pub fn filter_tree(
    alloc: Global,
    schema: &Schema,
    filter: &Option<typing::Condition>,
) -> Result<Option<Condition>, AllocError>
    ensures tree { (reading : CheckReading) (db : Database) → IsGood reading db → IsSchemaOf schema.now db
        → IfOk result (λ tree. IsFilterOf (rows_in db) filter.now tree) }
{
    described_tables_are_known();
    planned_trees_mean_the_same();
    filter_planned(alloc, schema, filter)
}

fn filter_planned(
    alloc: Global,
    schema: &Schema,
    filter: &Option<typing::Condition>,
) -> Result<Option<Condition>, AllocError>
    ensures { IfOk result (λ tree.
        IfBoth KeepsCondition tree (option_map (tree_of_condition (described_in schema.now)) filter.now)) }
{
    let translated = translated_filter(alloc, schema, filter)?;
    planned_filter(alloc, translated)
}

fn translated_filter(
    alloc: Global,
    schema: &Schema,
    filter: &Option<typing::Condition>,
) -> Result<Option<Condition>, AllocError>
    ensures { IfOk result (λ tree. tree ≡ option_map (tree_of_condition (described_in schema.now)) filter.now) }
{
    match filter {
        None => Ok(None),
        Some(condition) => match translate_condition(alloc, schema, condition) {
            Ok(tree) => Ok(Some(tree)),
            Err(refused) => Err(refused),
        },
    }
}

/// The trees of an UPDATE that was typed over this schema, their subqueries as those of plans. They
/// mean what it says over every good database of the schema. Refuses for want of memory alone.
pub fn update_trees(
    alloc: Global,
    schema: &Schema,
    update: &Update,
) -> Result<RowUpdate, AllocError>
    ensures trees { (reading : CheckReading) (db : Database) → IsGood reading db → IsSchemaOf schema.now db
        → IfOk result (λ made. IsUpdateOf (rows_in db) update.now made) }
{
    described_tables_are_known();
    planned_trees_mean_the_same();
    let columns = columns_of(alloc, update.assignments.as_slice())?;
    let sources = sources_planned(alloc, schema, update.assignments.as_slice())?;
    let filter = filter_planned(alloc, schema, &update.filter)?;
    Ok(RowUpdate {
        filter,
        columns,
        sources,
    })
}

fn columns_of(alloc: Global, assignments: &[Assignment]) -> Result<Items<usize>, AllocError>
    ensures { IfOk result (λ columns. columns ≡ map (λ a. a.column) assignments.now) }
{
    let mut columns = Items::new(alloc);
    for assignment in assignments {
        columns.push(assignment.column)?;
    }
    Ok(columns)
}

fn sources_planned(
    alloc: Global,
    schema: &Schema,
    assignments: &[Assignment],
) -> Result<Items<Expression>, AllocError>
    ensures { IfOk result (λ trees.
        Each KeepsExpression trees (map (λ a. tree_of_expression (described_in schema.now) a.source) assignments.now)) }
{
    let translated = sources_of(alloc, schema, assignments)?;
    planned_expressions(alloc, translated)
}

fn sources_of(
    alloc: Global,
    schema: &Schema,
    assignments: &[Assignment],
) -> Result<Items<Expression>, AllocError>
    ensures { IfOk result (λ sources. sources ≡ map (λ a. tree_of_expression (described_in schema.now) a.source) assignments.now) }
{
    let mut sources = Items::new(alloc);
    for assignment in assignments {
        sources.push(translate_expression(alloc, schema, &assignment.source)?)?;
    }
    Ok(sources)
}

fn names_in_filter(alloc: Global, filter: &Option<Condition>) -> Result<Items<Text>, AllocError>
    ensures { IfOk result (λ names. names ≡ tables_in_filter filter.now) }
{
    match filter {
        None => Ok(Items::new(alloc)),
        Some(condition) => tables_in_condition(alloc, condition),
    }
}

fn names_in_sources(alloc: Global, sources: &[Expression]) -> Result<Items<Text>, AllocError>
    ensures { IfOk result (λ names. names ≡ tables_in_row sources.now) }
{
    let mut names = Items::new(alloc);
    for source in sources {
        names.append(tables_in_expression(alloc, source)?)?;
    }
    Ok(names)
}

fn names_in_update(alloc: Global, update: &RowUpdate) -> Result<Items<Text>, AllocError>
    ensures { IfOk result (λ names. names ≡ tables_in_update update.now) }
{
    let mut names = names_in_filter(alloc, &update.filter)?;
    names.append(names_in_sources(alloc, update.sources.as_slice())?)?;
    Ok(names)
}

/// The tables that a condition names, each read once. It is refused for what the store is refused
/// for.
pub fn tables_for_filter<R: Reading>(
    alloc: Global,
    reading: &mut R,
    filter: &Option<Condition>,
) -> Result<LentTables, Refusal>
    ensures lent { R.is_sound reading.old
        → IfOk result (λ lent. Agree (rows_lent lent.tables) (rows_found (R.shows reading.old).contents) (tables_in_filter filter.now)) }
    ensures read { R.is_sound reading.old
        → IfOk result (λ _. (R.shows reading.new).read ≤ (R.shows reading.old).read + rows_under (rows_found (R.shows reading.old).contents) (tables_in_filter filter.now)) }
    ensures refused { IfErr result (λ refusal. R.is_sound reading.old → IsReserved refusal) }
    ensures limits { IfErr result TellsNoLimit }
    ensures counts { IfErr result (λ refusal. refusal ≡ Disk
        → HasRisen (R.shows reading.old).refused (R.shows reading.new).refused) }
    ensures follows { R.follows reading.old reading.new }
{
    let names = match names_in_filter(alloc, filter) {
        Ok(names) => names,
        Err(_) => return Err(Refusal::Memory),
    };
    lent_tables(alloc, reading, names.as_slice())
}

/// The tables that the trees of an UPDATE name, each read once. It is refused for what the store is
/// refused for.
pub fn tables_for_update<R: Reading>(
    alloc: Global,
    reading: &mut R,
    update: &RowUpdate,
) -> Result<LentTables, Refusal>
    ensures lent { R.is_sound reading.old
        → IfOk result (λ lent. Agree (rows_lent lent.tables) (rows_found (R.shows reading.old).contents) (tables_in_update update.now)) }
    ensures read { R.is_sound reading.old
        → IfOk result (λ _. (R.shows reading.new).read ≤ (R.shows reading.old).read + rows_under (rows_found (R.shows reading.old).contents) (tables_in_update update.now)) }
    ensures refused { IfErr result (λ refusal. R.is_sound reading.old → IsReserved refusal) }
    ensures limits { IfErr result TellsNoLimit }
    ensures counts { IfErr result (λ refusal. refusal ≡ Disk
        → HasRisen (R.shows reading.old).refused (R.shows reading.new).refused) }
    ensures follows { R.follows reading.old reading.new }
{
    let names = match names_in_update(alloc, update) {
        Ok(names) => names,
        Err(_) => return Err(Refusal::Memory),
    };
    lent_tables(alloc, reading, names.as_slice())
}
