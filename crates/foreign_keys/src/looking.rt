//! Whether foreign keys are violated by rows that came to a table, or for want of rows that went.
ghost use Rattle.std.specs.Prelude.{◌≡◌, true, false, not, ◌&&◌, All, IfOk, IfErr, IfSome, IfNone, Contains, Some};
ghost use Rattle.std.specs.FinMap.{get};
ghost use Rattle.std.specs.List.{list_any};
ghost use Rattle.refusals.specs.declared.refusal.Refusal.TheVariants.{Disk};
ghost use Rattle.sqlval.specs.declared.schema.Schema.{Schema};
ghost use Rattle.sqlval.specs.Schema.{same_name};
ghost use Rattle.sqlval.specs.Value.{Row as AnyRow};
ghost use Rattle.denote.specs.Database.{CheckReading, Table as TableOf, has_unmatched, is_matched, violated_in};
ghost use Rattle.denote.specs.SchemaOf.{IsSchemaOf};
ghost use Rattle.denote_laws.specs.Difference.{AreMatched, MayGo, may_go};
ghost use Rattle.session_definitions.specs.Refusals.{IsReserved};
ghost use Rattle.store.specs.Contents.{database_of};
ghost use Rattle.store.specs.Errors.{HasRisen};
ghost use Rattle.store.specs.View.{table_named};
ghost use Rattle.transactions.specs.Refused.{TellsNoLimit};
ghost use Rattle.foreign_keys.specs.declared.asked.Asked.{Asked as AnyAsked};
ghost use Rattle.foreign_keys.specs.Asked.{AreAsked};
ghost use Rattle.foreign_keys.specs.Sources.{IsSource, Leads, LeadsAt, has_missed, is_violated_by, rows_shown};

use crate::asked::{Asked, is_named};
use crate::keys::has_null;
use crate::sources::{Source, is_in, source_of};
use denote::Row;
use items::{Items, Text};
use refusals::Refusal;
use std::alloc::Global;
use store::Reading;

/// The name of a foreign key that is violated, of those with the table of this name at one of their
/// ends: by one of the rows that came to it, which are some of its own, or for want of one of those
/// that went from it. Where there is none, the rows that came are matched, and those that went may
/// go. It is refused for want of memory or by the device.
pub fn first_unmatched<R: Reading>(
    alloc: Global,
    reading: &mut R,
    asked: Items<Asked>,
    name: &Text,
    came: &[Row],
    gone: &[Row],
) -> Result<Option<Text>, Refusal>
    ensures none { IfOk result (λ found. IfNone found ((schema : Schema) → R.is_sound reading.old
        → IsSchemaOf schema (database_of (R.shows reading.old).contents) → AreAsked schema name.now asked
        → AreMatched (database_of (R.shows reading.old).contents) name.now came.now
        × MayGo (database_of (R.shows reading.old).contents) name.now gone.now)) }
    ensures some { IfOk result (λ found. IfSome found (λ constraint. (schema : Schema) (check : CheckReading)
        → R.is_sound reading.old
        → IsSchemaOf schema (database_of (R.shows reading.old).contents) → AreAsked schema name.now asked
        → ((table : TableOf) → get (database_of (R.shows reading.old).contents) name.now ≡ Some table
        → (row : AnyRow) → Contains came.now row → Contains table.rows row)
        → Contains (violated_in check (database_of (R.shows reading.old).contents)) constraint)) }
    ensures refused { IfErr result (λ refusal. R.is_sound reading.old → IsReserved refusal) }
    ensures limits { IfErr result TellsNoLimit }
    ensures counts { IfErr result (λ refusal. refusal ≡ Disk
        → HasRisen (R.shows reading.old).refused (R.shows reading.new).refused) }
    ensures follows { R.follows reading.old reading.new }
{
    first_violated(alloc, reading, asked, name, came, gone)
}

/// The name of the first of these foreign keys that is violated.
fn first_violated<R: Reading>(
    alloc: Global,
    reading: &mut R,
    asked: Items<Asked>,
    name: &Text,
    came: &[Row],
    gone: &[Row],
) -> Result<Option<Text>, Refusal>
    ensures none { IfOk result (λ found. IfNone found (R.is_sound reading.old → All (Leads (R.shows reading.old)) asked
        → list_any (is_violated_by (R.shows reading.old) name.now came.now gone.now) asked ≡ false)) }
    ensures some { IfOk result (λ found. IfSome found (λ constraint. R.is_sound reading.old
        → All (Leads (R.shows reading.old)) asked
        → (one : AnyAsked) × Contains asked one × (one.constraint ≡ constraint)
        × (is_violated_by (R.shows reading.old) name.now came.now gone.now one ≡ true))) }
    ensures refused { IfErr result (λ refusal. R.is_sound reading.old → IsReserved refusal) }
    ensures limits { IfErr result TellsNoLimit }
    ensures counts { IfErr result (λ refusal. refusal ≡ Disk
        → HasRisen (R.shows reading.old).refused (R.shows reading.new).refused) }
    ensures follows { R.follows reading.old reading.new }
{
    for one in asked.into_vec() {
        match is_violated(alloc, reading, &one, name, came, gone) {
            Ok(true) => return Ok(Some(one.constraint)),
            Ok(false) => {}
            Err(refusal) => return Err(refusal),
        }
    }
    Ok(None)
}

fn is_violated<R: Reading>(
    alloc: Global,
    reading: &mut R,
    asked: &Asked,
    name: &Text,
    came: &[Row],
    gone: &[Row],
) -> Result<bool, Refusal>
    ensures found { IfOk result (λ found. R.is_sound reading.old → Leads (R.shows reading.old) asked.now
        → found ≡ is_violated_by (R.shows reading.old) name.now came.now gone.now asked.now) }
    ensures refused { IfErr result (λ refusal. R.is_sound reading.old → IsReserved refusal) }
    ensures limits { IfErr result TellsNoLimit }
    ensures counts { IfErr result (λ refusal. refusal ≡ Disk
        → HasRisen (R.shows reading.old).refused (R.shows reading.new).refused) }
    ensures follows { R.follows reading.old reading.new }
{
    match comes_unmatched(alloc, reading, asked, name, came) {
        Ok(true) => Ok(true),
        Ok(false) => goes_missed(alloc, reading, asked, name, gone),
        Err(refusal) => Err(refusal),
    }
}

/// Whether one of the rows that came is not matched, where they came to the table that references.
fn comes_unmatched<R: Reading>(
    alloc: Global,
    reading: &mut R,
    asked: &Asked,
    name: &Text,
    came: &[Row],
) -> Result<bool, Refusal>
    ensures found { IfOk result (λ found. R.is_sound reading.old → Leads (R.shows reading.old) asked.now
        → found ≡ (same_name asked.now.table name.now && has_unmatched asked.now.reference (rows_shown (R.shows reading.old) asked.now.reference.table) came.now)) }
    ensures refused { IfErr result (λ refusal. R.is_sound reading.old → IsReserved refusal) }
    ensures limits { IfErr result TellsNoLimit }
    ensures counts { IfErr result (λ refusal. refusal ≡ Disk
        → HasRisen (R.shows reading.old).refused (R.shows reading.new).refused) }
    ensures follows { R.follows reading.old reading.new }
{
    if !is_named(&asked.table, name) {
        return Ok(false);
    }
    any_unmatched(alloc, reading, asked, came)
}

/// Whether one of the rows that went may not go, where they went from the table that is referenced.
fn goes_missed<R: Reading>(
    alloc: Global,
    reading: &mut R,
    asked: &Asked,
    name: &Text,
    gone: &[Row],
) -> Result<bool, Refusal>
    ensures found { IfOk result (λ found. R.is_sound reading.old → Leads (R.shows reading.old) asked.now
        → found ≡ (same_name asked.now.reference.table name.now && has_missed asked.now.reference (rows_shown (R.shows reading.old) asked.now.reference.table) (rows_shown (R.shows reading.old) asked.now.table) gone.now)) }
    ensures refused { IfErr result (λ refusal. R.is_sound reading.old → IsReserved refusal) }
    ensures limits { IfErr result TellsNoLimit }
    ensures counts { IfErr result (λ refusal. refusal ≡ Disk
        → HasRisen (R.shows reading.old).refused (R.shows reading.new).refused) }
    ensures follows { R.follows reading.old reading.new }
{
    if !is_named(&asked.reference.table, name) {
        return Ok(false);
    }
    any_missed(alloc, reading, asked, gone)
}

/// Whether one of these rows is not matched.
fn any_unmatched<R: Reading>(
    alloc: Global,
    reading: &mut R,
    asked: &Asked,
    rows: &[Row],
) -> Result<bool, Refusal>
    ensures found { IfOk result (λ found. R.is_sound reading.old → Leads (R.shows reading.old) asked.now
        → found ≡ has_unmatched asked.now.reference (rows_shown (R.shows reading.old) asked.now.reference.table) rows.now) }
    ensures refused { IfErr result (λ refusal. R.is_sound reading.old → IsReserved refusal) }
    ensures limits { IfErr result TellsNoLimit }
    ensures counts { IfErr result (λ refusal. refusal ≡ Disk
        → HasRisen (R.shows reading.old).refused (R.shows reading.new).refused) }
    ensures follows { R.follows reading.old reading.new }
{
    if rows.is_empty() {
        return Ok(false);
    }
    match source_of(alloc, reading, &asked.reference.table, &asked.matches) {
        Ok(source) => any_unmatched_in(alloc, reading, asked, &source, rows),
        Err(refusal) => Err(refusal),
    }
}

/// The same, where matches are looked for there.
fn any_unmatched_in<R: Reading>(
    alloc: Global,
    reading: &mut R,
    asked: &Asked,
    source: &Source<'_>,
    rows: &[Row],
) -> Result<bool, Refusal>
    ensures found { IfOk result (λ found. R.is_sound reading.old
        → IsSource (table_named (R.shows reading.old) asked.now.reference.table) asked.now.reference.columns asked.now.reference.referenced source.now
        → found ≡ has_unmatched asked.now.reference (rows_shown (R.shows reading.old) asked.now.reference.table) rows.now) }
    ensures refused { IfErr result (λ refusal. R.is_sound reading.old → IsReserved refusal) }
    ensures limits { IfErr result TellsNoLimit }
    ensures counts { IfErr result (λ refusal. refusal ≡ Disk
        → HasRisen (R.shows reading.old).refused (R.shows reading.new).refused) }
    ensures follows { R.follows reading.old reading.new }
{
    for row in rows {
        match is_unmatched(alloc, reading, asked, source, row) {
            Ok(true) => return Ok(true),
            Ok(false) => {}
            Err(refusal) => return Err(refusal),
        }
    }
    Ok(false)
}

fn is_unmatched<R: Reading>(
    alloc: Global,
    reading: &mut R,
    asked: &Asked,
    source: &Source<'_>,
    row: &Row,
) -> Result<bool, Refusal>
    ensures found { IfOk result (λ found. R.is_sound reading.old
        → IsSource (table_named (R.shows reading.old) asked.now.reference.table) asked.now.reference.columns asked.now.reference.referenced source.now
        → found ≡ not (is_matched asked.now.reference (rows_shown (R.shows reading.old) asked.now.reference.table) row.now)) }
    ensures refused { IfErr result (λ refusal. R.is_sound reading.old → IsReserved refusal) }
    ensures limits { IfErr result TellsNoLimit }
    ensures counts { IfErr result (λ refusal. refusal ≡ Disk
        → HasRisen (R.shows reading.old).refused (R.shows reading.new).refused) }
    ensures follows { R.follows reading.old reading.new }
{
    let own = asked.reference.columns.as_slice();
    let referenced = asked.reference.referenced.as_slice();
    if has_null(own, row.as_slice()) {
        return Ok(false);
    }
    match is_in(
        alloc,
        reading,
        &asked.reference.table,
        source,
        own,
        referenced,
        row.as_slice(),
    ) {
        Ok(found) => Ok(!found),
        Err(refusal) => Err(refusal),
    }
}

/// Whether one of these rows may not go: its key is in no row of its table, and in one that
/// references it.
fn any_missed<R: Reading>(
    alloc: Global,
    reading: &mut R,
    asked: &Asked,
    rows: &[Row],
) -> Result<bool, Refusal>
    ensures found { IfOk result (λ found. R.is_sound reading.old → Leads (R.shows reading.old) asked.now
        → found ≡ has_missed asked.now.reference (rows_shown (R.shows reading.old) asked.now.reference.table) (rows_shown (R.shows reading.old) asked.now.table) rows.now) }
    ensures refused { IfErr result (λ refusal. R.is_sound reading.old → IsReserved refusal) }
    ensures limits { IfErr result TellsNoLimit }
    ensures counts { IfErr result (λ refusal. refusal ≡ Disk
        → HasRisen (R.shows reading.old).refused (R.shows reading.new).refused) }
    ensures follows { R.follows reading.old reading.new }
{
    if rows.is_empty() {
        return Ok(false);
    }
    match source_of(alloc, reading, &asked.reference.table, &asked.again) {
        Ok(others) => any_missed_among(alloc, reading, asked, &others, rows),
        Err(refusal) => Err(refusal),
    }
}

/// The same, where keys are looked for there among the rows of its table.
fn any_missed_among<R: Reading>(
    alloc: Global,
    reading: &mut R,
    asked: &Asked,
    others: &Source<'_>,
    rows: &[Row],
) -> Result<bool, Refusal>
    ensures found { IfOk result (λ found. R.is_sound reading.old
        → IsSource (table_named (R.shows reading.old) asked.now.reference.table) asked.now.reference.referenced asked.now.reference.referenced others.now
        → IfSome asked.now.referencing (LeadsAt (table_named (R.shows reading.old) asked.now.table) asked.now.reference.referenced asked.now.reference.columns)
        → found ≡ has_missed asked.now.reference (rows_shown (R.shows reading.old) asked.now.reference.table) (rows_shown (R.shows reading.old) asked.now.table) rows.now) }
    ensures refused { IfErr result (λ refusal. R.is_sound reading.old → IsReserved refusal) }
    ensures limits { IfErr result TellsNoLimit }
    ensures counts { IfErr result (λ refusal. refusal ≡ Disk
        → HasRisen (R.shows reading.old).refused (R.shows reading.new).refused) }
    ensures follows { R.follows reading.old reading.new }
{
    match source_of(alloc, reading, &asked.table, &asked.referencing) {
        Ok(referencing) => any_missed_in(alloc, reading, asked, others, &referencing, rows),
        Err(refusal) => Err(refusal),
    }
}

/// The same, where keys are looked for there among rows of its table and among those that reference
/// it.
fn any_missed_in<R: Reading>(
    alloc: Global,
    reading: &mut R,
    asked: &Asked,
    others: &Source<'_>,
    referencing: &Source<'_>,
    rows: &[Row],
) -> Result<bool, Refusal>
    ensures found { IfOk result (λ found. R.is_sound reading.old
        → IsSource (table_named (R.shows reading.old) asked.now.reference.table) asked.now.reference.referenced asked.now.reference.referenced others.now
        → IsSource (table_named (R.shows reading.old) asked.now.table) asked.now.reference.referenced asked.now.reference.columns referencing.now
        → found ≡ has_missed asked.now.reference (rows_shown (R.shows reading.old) asked.now.reference.table) (rows_shown (R.shows reading.old) asked.now.table) rows.now) }
    ensures refused { IfErr result (λ refusal. R.is_sound reading.old → IsReserved refusal) }
    ensures limits { IfErr result TellsNoLimit }
    ensures counts { IfErr result (λ refusal. refusal ≡ Disk
        → HasRisen (R.shows reading.old).refused (R.shows reading.new).refused) }
    ensures follows { R.follows reading.old reading.new }
{
    for row in rows {
        match is_missed(alloc, reading, asked, others, referencing, row) {
            Ok(true) => return Ok(true),
            Ok(false) => {}
            Err(refusal) => return Err(refusal),
        }
    }
    Ok(false)
}

fn is_missed<R: Reading>(
    alloc: Global,
    reading: &mut R,
    asked: &Asked,
    others: &Source<'_>,
    referencing: &Source<'_>,
    row: &Row,
) -> Result<bool, Refusal>
    ensures found { IfOk result (λ found. R.is_sound reading.old
        → IsSource (table_named (R.shows reading.old) asked.now.reference.table) asked.now.reference.referenced asked.now.reference.referenced others.now
        → IsSource (table_named (R.shows reading.old) asked.now.table) asked.now.reference.referenced asked.now.reference.columns referencing.now
        → found ≡ not (may_go asked.now.reference (rows_shown (R.shows reading.old) asked.now.reference.table) (rows_shown (R.shows reading.old) asked.now.table) row.now)) }
    ensures refused { IfErr result (λ refusal. R.is_sound reading.old → IsReserved refusal) }
    ensures limits { IfErr result TellsNoLimit }
    ensures counts { IfErr result (λ refusal. refusal ≡ Disk
        → HasRisen (R.shows reading.old).refused (R.shows reading.new).refused) }
    ensures follows { R.follows reading.old reading.new }
{
    let own = asked.reference.columns.as_slice();
    let referenced = asked.reference.referenced.as_slice();
    match is_in(
        alloc,
        reading,
        &asked.reference.table,
        others,
        referenced,
        referenced,
        row.as_slice(),
    ) {
        Ok(true) => Ok(false),
        Ok(false) => is_in(
            alloc,
            reading,
            &asked.table,
            referencing,
            referenced,
            own,
            row.as_slice(),
        ),
        Err(refusal) => Err(refusal),
    }
}
