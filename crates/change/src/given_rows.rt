//! INSERT of rows that are given.
ghost use Rattle.std.specs.Prelude.{◌≡◌, ◌≢◌, ◌⊎◌, map, Some, Ok, IfOk, IfErr, IfSome, IfNone, OnErr};
ghost use Rattle.std.specs.FinMap.{get};
ghost use Rattle.refusals.specs.declared.reason.Reason.{Reason as Why};
ghost use Rattle.refusals.specs.declared.reason.Reason.TheVariants.{Name};
ghost use Rattle.refusals.specs.declared.refusal.Refusal.TheVariants.{Disk, Invalid, Memory};
ghost use Rattle.typing.specs.Check.{IsCheckReading};
ghost use Rattle.typing.specs.declared.statement.Change.TheVariants as does;
ghost use Rattle.typing.specs.declared.statement.InsertSource.TheVariants as from;
ghost use Rattle.typing.specs.Finding.{invalid, reasons_in};
ghost use Rattle.typing.specs.Finds.{IsReasonOf};
ghost use Rattle.typing.specs.Insert.{targets_from};
ghost use Rattle.typing.specs.Known.{known, known_table};
ghost use Rattle.typing.specs.Table.{table_found};
ghost use Rattle.denote.specs.Database.{CheckReading, Database, IsGood, Table as Kept, checks_of};
ghost use Rattle.denote.specs.SchemaOf.{IsSchemaOf};
ghost use Rattle.query_answers.specs.Sources.{AreChecksOf};
ghost use Rattle.transactions.specs.Refused.{IfRefused, TellsNoLimit, TellsReached};
ghost use Rattle.store.specs.Contents.{database_of};
ghost use Rattle.store.specs.Errors.{HasRisen};
ghost use Rattle.store.specs.Going.{Going};
ghost use Rattle.store.specs.Stored.{SameButMark};
ghost use Rattle.constraints.specs.Changed.{RefusesChange};
ghost use Rattle.table_changes.specs.Given.{AreGiven, HasAccepted, into};
ghost use Rattle.change.specs.Given.{GivenReaches, InsertsGiven, RefusesGiven, given_found};
ghost use Rattle.change.specs.Listed.{typed_rows};
ghost use Rattle.change.specs.Reached.{ChangeReaches};

use crate::fitting::first_fault;
use crate::named_checks::named_checks;
use crate::query_rows::constants;
use crate::value_rows::stored_rows;
use check_constraints::TableChecks;
use denote::{Row, Rows};
use items::{Items, Text};
use query_answers::LentTables;
use refusals::{Reason, Refusal};
use replies::Reply;
use sqlval::{Column, Schema, Table};
use std::alloc::{AllocError, Global};
use store::Store;
use table_changes::insert_rows;

/// INSERT of these rows into all columns of the table of this name, in order, in the newest
/// version, whose schema is the one that is ready and whose database is good. Where no table has
/// that name it is refused by `name`; where a row has another number of values than there are
/// columns, by `columns`; and where a value has another type than its column, by `type`. It sets
/// the mark, and a refusal leaves all as it was, but for the mark.
pub fn insert_given<S: Store>(
    alloc: Global,
    store: &mut S,
    name: &Text,
    rows: Rows,
) -> Result<Reply, Refusal>
    ensures changes { IfOk result (λ reply. (reading : CheckReading) → IsCheckReading reading → S.is_sound store.old
        → IsSchemaOf (S.prepared store.old) (database_of (S.shows store.old).working)
        → IsGood reading (database_of (S.shows store.old).working)
        → InsertsGiven reading (S.prepared store.old) (S.shows store.old) name.now rows reply (S.shows store.new)) }
    ensures refused { IfErr result (λ refusal. (reading : CheckReading) → IsCheckReading reading → S.is_sound store.old
        → IsSchemaOf (S.prepared store.old) (database_of (S.shows store.old).working)
        → IsGood reading (database_of (S.shows store.old).working)
        → RefusesGiven reading (S.prepared store.old) (database_of (S.shows store.old).working) name.now rows refusal) }
    ensures accepted { IfOk result (λ reply. IfRefused reply (λ refusal. ⊥)) }
    ensures limits { IfErr result (TellsReached (GivenReaches (S.counted store.new) (S.is_sound store.old) (S.prepared store.old) (S.shows store.old).working name.now rows)) }
    ensures device { IfErr result (λ refusal. refusal ≡ Disk → HasRisen (S.refused store.old) (S.refused store.new)) }
    ensures same { OnErr result (SameButMark (S.shows store.old) (S.shows store.new)) }
    ensures goes { S.goes_on store.old store.new Going.changes }
{
    match columns_for(alloc, store.schema(), name, rows.as_slice()) {
        Ok(columns) => insert_fitting(alloc, store, name, &columns, rows),
        Err(refusal) => Err(refusal),
    }
}

/// The places of the columns into which these rows go: all of the table's, in order.
fn columns_for(
    alloc: Global,
    schema: &Schema,
    name: &Text,
    rows: &[Row],
) -> Result<Items<usize>, Refusal>
    ensures found { IfOk result (λ columns. given_found schema.now name.now rows.now ≡ Ok (into name.now columns (from.Values (typed_rows rows.now)))) }
    ensures refused { IfErr result (IsReasonOf (reasons_in (given_found schema.now name.now rows.now))) }
    ensures causes { IfErr result (λ refusal. (refusal ≡ Memory) ⊎ ((why : Why) × (refusal ≡ Invalid why))) }
{
    let Some(table) = known_table(schema, name) else {
        return Err(Refusal::Invalid(Reason::Name));
    };
    if let Some(reason) = first_fault(table.columns.as_slice(), rows) {
        return Err(Refusal::Invalid(reason));
    }
    match all_places(alloc, table.columns.as_slice()) {
        Ok(places) => Ok(places),
        Err(_) => Err(Refusal::Memory),
    }
}

/// The table that a name means.
fn known_table<'a>(schema: &'a Schema, name: &Text) -> Option<&'a Table>
    ensures there { IfSome result (λ table. table_found (known schema.now) name.now ≡ Ok (known_table table.now)) }
    ensures none { IfNone result (table_found (known schema.now) name.now ≡ invalid Name) }
{
    let place = schema.find_table(name.as_slice())?;
    schema.tables.get(place)
}

/// The places of all columns, in order.
fn all_places(alloc: Global, columns: &[Column]) -> Result<Items<usize>, AllocError>
    ensures { IfOk result (λ places. places ≡ map (λ target. target.0) (targets_from 0 columns.now)) }
{
    let mut places = Items::with_capacity(alloc, columns.len())?;
    for (place, _column) in columns.iter().enumerate() {
        places.push(place)?;
    }
    Ok(places)
}

/// INSERT of these rows into these columns. All are evaluated before the first is stored. A name
/// that does not stand, which the rules of names exclude, is refused as for want of memory; a CHECK
/// whose text cannot be read is `Damaged`.
fn insert_fitting<S: Store>(
    alloc: Global,
    store: &mut S,
    name: &Text,
    columns: &Items<usize>,
    rows: Rows,
) -> Result<Reply, Refusal>
    ensures changes { IfOk result (λ reply. (reading : CheckReading) → IsCheckReading reading → S.is_sound store.old
        → IsSchemaOf (S.prepared store.old) (database_of (S.shows store.old).working)
        → IsGood reading (database_of (S.shows store.old).working)
        → HasAccepted reading (S.shows store.old) (does.Insert (into name.now columns.now (from.Values (typed_rows rows)))) reply (S.shows store.new)) }
    ensures refused { IfErr result (λ refusal. (reading : CheckReading) → IsCheckReading reading → S.is_sound store.old
        → IsSchemaOf (S.prepared store.old) (database_of (S.shows store.old).working)
        → IsGood reading (database_of (S.shows store.old).working)
        → RefusesChange reading (database_of (S.shows store.old).working) (does.Insert (into name.now columns.now (from.Values (typed_rows rows)))) refusal) }
    ensures accepted { IfOk result (λ reply. IfRefused reply (λ refusal. ⊥)) }
    ensures limits { IfErr result (TellsReached (ChangeReaches (S.counted store.new) (S.is_sound store.old) (S.prepared store.old) (S.shows store.old).working (does.Insert (into name.now columns.now (from.Values (typed_rows rows)))))) }
    ensures device { IfErr result (λ refusal. refusal ≡ Disk → HasRisen (S.refused store.old) (S.refused store.new)) }
    ensures same { OnErr result (SameButMark (S.shows store.old) (S.shows store.new)) }
    ensures goes { S.goes_on store.old store.new Going.changes }
{
    let checks = match named_checks(alloc, store.schema(), name) {
        Ok(checks) => checks,
        Err(refusal) => return Err(refusal),
    };
    match rows_given(alloc, store.schema(), name, columns, rows, &checks) {
        Ok(stored) => insert_rows(alloc, store, name, stored, &checks),
        Err(refusal) => Err(refusal),
    }
}

/// These rows as the table is to hold them.
fn rows_given(
    alloc: Global,
    schema: &Schema,
    name: &Text,
    columns: &Items<usize>,
    rows: Rows,
    checks: &TableChecks,
) -> Result<Rows, Refusal>
    ensures gives { IfOk result (λ stored. (reading : CheckReading) (db : Database) (table : Kept)
        → IsSchemaOf schema.now db
        → get db name.now ≡ Some table
        → AreChecksOf (checks_of reading name.now table) checks.now.conditions
        → AreGiven reading db (into name.now columns.now (from.Values (typed_rows rows))) stored) }
    ensures refused { IfErr result (λ refusal. (reading : CheckReading) (db : Database) (table : Kept)
        → IsSchemaOf schema.now db
        → get db name.now ≡ Some table
        → AreChecksOf (checks_of reading name.now table) checks.now.conditions
        → RefusesChange reading db (does.Insert (into name.now columns.now (from.Values (typed_rows rows)))) refusal) }
    ensures limits { IfErr result TellsNoLimit }
    ensures device { IfErr result (λ refusal. refusal ≢ Disk) }
{
    let sources = match constants(alloc, rows) {
        Ok(sources) => sources,
        Err(_) => return Err(Refusal::Memory),
    };
    let nothing = LentTables {
        tables: Items::new(alloc),
    };
    stored_rows(
        alloc,
        schema,
        name,
        columns,
        checks,
        &nothing,
        sources.as_slice(),
    )
}
