//! The foreign keys of all tables, asked behind a change of one.
ghost use Rattle.std.specs.Prelude.{◌≡◌, false, List, [], IfOk, IfErr, IfSome, IfNone, OnOk, OnErr, Contains, Some};
ghost use Rattle.std.specs.FinMap.{get};
ghost use Rattle.std.specs.List.{list_any};
ghost use Rattle.refusals.specs.declared.refusal.Refusal.TheVariants.{Disk};
ghost use Rattle.sqlval.specs.declared.schema.Schema.{Schema as AnySchema};
ghost use Rattle.sqlval.specs.Value.{Row as AnyRow};
ghost use Rattle.denote.specs.Database.{Database, CheckReading, Table as TableOf, IsGood, violated_in};
ghost use Rattle.denote.specs.SchemaOf.{IsSchemaOf};
ghost use Rattle.denote_laws.specs.Difference.{AreMatched, Differs, MayGo};
ghost use Rattle.foreign_keys.specs.Asked.{AreAsked};
ghost use Rattle.session_definitions.specs.Refusals.{IsReserved};
ghost use Rattle.store.specs.Contents.{database_of};
ghost use Rattle.store.specs.Errors.{HasRisen};
ghost use Rattle.store.specs.Going.{Going};
ghost use Rattle.store.specs.Stored.{undone};
ghost use Rattle.transactions.specs.Refused.{TellsNoLimit};
ghost use Rattle.constraints.specs.Matched.{AllHold, BreaksAny, CameAll, IsAtNoEnd, MovedAll, has_foreign_keys, is_end, is_foreign_key};
ghost use Rattle.constraints.specs.Settled.{AreAmong, Holds};

use crate::tables::table_named;
use denote::{Row, Rows};
use denote_laws::what_comes_and_goes_decides;
use foreign_keys::{Asked, asked_of, first_unmatched};
use items::{Items, Text};
use refusals::Refusal;
use sqlval::{Constraint, Rule, Schema, Value};
use std::alloc::{AllocError, Global};
use store::{Seen, Store, View};
use transactions::refusal_of;

/// The rows that came to a table, and those that went from it.
#[derive(Drop)]
pub struct Moved {
    pub came: Rows,
    pub gone: Rows,
}

/// Whether a foreign key of any table has the table of this name at one of its ends. The store is
/// left as it was.
pub fn is_at_end<S: Store>(store: &mut S, name: &Text) -> Result<bool, Refusal>
    ensures none { IfOk result (λ some. S.is_sound store.old → some ≡ false
        → IsAtNoEnd (database_of (S.shows store.old).working) name.now) }
    ensures refused { IfErr result (λ refusal. S.is_sound store.old → IsReserved refusal) }
    ensures limits { IfErr result TellsNoLimit }
    ensures device { IfErr result (λ refusal. refusal ≡ Disk → HasRisen (S.refused store.old) (S.refused store.new)) }
    ensures shows { S.shows store.new ≡ S.shows store.old }
    ensures goes { S.goes_on store.old store.new Going.keeps }
{
    if let Err(error) = store.prepare(View::Working) {
        return Err(refusal_of(error));
    }
    Ok(has_end(store.schema(), name))
}

fn has_end(schema: &Schema, name: &Text) -> bool
    ensures { result ≡ list_any (λ table. list_any (λ c. is_end name.now table.name c.rule) table.constraints) schema.now.tables }
{
    for table in schema.tables.as_slice() {
        if have_end(name, &table.name, table.constraints.as_slice()) {
            return true;
        }
    }
    false
}

fn have_end(name: &Text, other: &Text, constraints: &[Constraint]) -> bool
    ensures { result ≡ list_any (λ c. is_end name.now other.now c.rule) constraints.now }
{
    for constraint in constraints {
        if is_end(name, other, &constraint.rule) {
            return true;
        }
    }
    false
}

fn is_end(name: &Text, other: &Text, rule: &Rule) -> bool
    ensures { result ≡ is_end name.now other.now rule.now }
{
    match rule {
        Rule::NotNull(_) => false,
        Rule::PrimaryKey(_) => false,
        Rule::Unique(_) => false,
        Rule::Check(_) => false,
        Rule::ForeignKey(reference) => {
            other.as_slice() == name.as_slice() || reference.table.as_slice() == name.as_slice()
        }
    }
}

/// Copies of rows that are to come to the table of this name, where it has a foreign key by which
/// they will be asked; else nothing. The store is left as it was.
pub fn rows_to_match<S: Store>(
    alloc: Global,
    store: &mut S,
    name: &Text,
    rows: &[Row],
) -> Result<Option<Rows>, Refusal>
    ensures some { IfOk result (λ found. IfSome found (λ copies. copies ≡ rows.now)) }
    ensures none { IfOk result (λ found. IfNone found ((table : TableOf) → S.is_sound store.old
        → get (database_of (S.shows store.old).working) name.now ≡ Some table
        → has_foreign_keys table.constraints ≡ false)) }
    ensures refused { IfErr result (λ refusal. S.is_sound store.old → IsReserved refusal) }
    ensures limits { IfErr result TellsNoLimit }
    ensures device { IfErr result (λ refusal. refusal ≡ Disk → HasRisen (S.refused store.old) (S.refused store.new)) }
    ensures shows { S.shows store.new ≡ S.shows store.old }
    ensures goes { S.goes_on store.old store.new Going.keeps }
{
    if let Err(error) = store.prepare(View::Working) {
        return Err(refusal_of(error));
    }
    let Some(table) = table_named(store.schema(), name) else {
        return Ok(None);
    };
    if !has_foreign_keys(table.constraints.as_slice()) {
        return Ok(None);
    }
    match copied_rows(alloc, rows) {
        Ok(copies) => Ok(Some(copies)),
        Err(_) => Err(Refusal::Memory),
    }
}

/// Whether one of these constraints is a foreign key.
pub fn has_foreign_keys(constraints: &[Constraint]) -> bool
    ensures { result ≡ has_foreign_keys constraints.now }
{
    constraints
        .iter()
        .any(|constraint| is_foreign_key(&constraint.rule))
}

fn is_foreign_key(rule: &Rule) -> bool
    ensures { result ≡ is_foreign_key rule.now }
{
    match rule {
        Rule::NotNull(_) => false,
        Rule::PrimaryKey(_) => false,
        Rule::Unique(_) => false,
        Rule::Check(_) => false,
        Rule::ForeignKey(_) => true,
    }
}

fn copied_rows(alloc: Global, rows: &[Row]) -> Result<Rows, AllocError>
    ensures { IfOk result (λ copies. copies ≡ rows.now) }
{
    let mut copies = Items::with_capacity(alloc, rows.len())?;
    for row in rows {
        copies.push(copied_row(alloc, row.as_slice())?)?;
    }
    Ok(copies)
}

fn copied_row(alloc: Global, row: &[Value]) -> Result<Row, AllocError>
    ensures { IfOk result (λ copied. copied ≡ row.now) }
{
    let mut copied = Items::with_capacity(alloc, row.len())?;
    for value in row {
        copied.push(value.copy(alloc)?)?;
    }
    Ok(copied)
}

/// Keeps what was changed since the mark, where all foreign keys hold now; else goes back to the
/// mark. The table of this name was changed alone: these rows came to it, and those went from it.
/// It is refused by a foreign key that is violated (23000), for want of memory or by the device.
pub fn settle_matches<S: Store>(
    alloc: Global,
    store: &mut S,
    name: &Text,
    came: &[Row],
    gone: &[Row],
) -> Result<(), Refusal>
    ensures kept { OnOk result (S.shows store.new ≡ S.shows store.old) }
    ensures holds { OnOk result ((reading : CheckReading) (old : Database) → S.is_sound store.old → IsGood reading old
        → Differs old (database_of (S.shows store.old).working) name.now came.now gone.now
        → Holds reading (database_of (S.shows store.old).working) name.now
        → AllHold reading (database_of (S.shows store.old).working)) }
    ensures undone { OnErr result (S.shows store.new ≡ undone (S.shows store.old)) }
    ensures refused { IfErr result (λ refusal. (reading : CheckReading) → S.is_sound store.old
        → AreAmong (database_of (S.shows store.old).working) name.now came.now
        → BreaksAny reading (database_of (S.shows store.old).working) refusal) }
    ensures limits { IfErr result TellsNoLimit }
    ensures device { IfErr result (λ refusal. refusal ≡ Disk → HasRisen (S.refused store.old) (S.refused store.new)) }
    ensures goes { S.goes_on store.old store.new Going.keeps }
{
    what_comes_and_goes_decides();
    match unmatched(alloc, store, name, came, gone) {
        Ok(None) => Ok(()),
        Ok(Some(constraint)) => {
            store.undo();
            Err(Refusal::Violated(constraint))
        }
        Err(refusal) => {
            store.undo();
            Err(refusal)
        }
    }
}

/// Keeps what was changed since the mark, where all foreign keys hold now; else goes back to the
/// mark. Rows came to the table of this name, and none went from it: these, where the table has a
/// foreign key. It is refused by a foreign key that is violated (23000), for want of memory or by
/// the device.
pub fn settle_came<S: Store>(
    alloc: Global,
    store: &mut S,
    name: &Text,
    came: &Option<Rows>,
) -> Result<(), Refusal>
    ensures kept { OnOk result (S.shows store.new ≡ S.shows store.old) }
    ensures holds { OnOk result ((reading : CheckReading) (old : Database) (rows : List AnyRow) → S.is_sound store.old
        → IsGood reading old → Differs old (database_of (S.shows store.old).working) name.now rows []
        → CameAll (database_of (S.shows store.old).working) name.now rows came.now
        → Holds reading (database_of (S.shows store.old).working) name.now
        → AllHold reading (database_of (S.shows store.old).working)) }
    ensures undone { OnErr result (S.shows store.new ≡ undone (S.shows store.old)) }
    ensures refused { IfErr result (λ refusal. (reading : CheckReading) → S.is_sound store.old
        → IfSome came.now (AreAmong (database_of (S.shows store.old).working) name.now)
        → BreaksAny reading (database_of (S.shows store.old).working) refusal) }
    ensures limits { IfErr result TellsNoLimit }
    ensures device { IfErr result (λ refusal. refusal ≡ Disk → HasRisen (S.refused store.old) (S.refused store.new)) }
    ensures goes { S.goes_on store.old store.new Going.keeps }
{
    what_comes_and_goes_decides();
    match came {
        Some(came) => settle_matches(alloc, store, name, came.as_slice(), &[]),
        None => Ok(()),
    }
}

/// Keeps what was changed since the mark, where all foreign keys hold now; else goes back to the
/// mark. Rows came to the table of this name and others went from it: these, where a foreign key
/// has it at an end. It is refused by a foreign key that is violated (23000), for want of memory or
/// by the device.
pub fn settle_moved<S: Store>(
    alloc: Global,
    store: &mut S,
    name: &Text,
    moved: &Option<Moved>,
) -> Result<(), Refusal>
    ensures kept { OnOk result (S.shows store.new ≡ S.shows store.old) }
    ensures holds { OnOk result ((reading : CheckReading) (old : Database) (came gone : List AnyRow)
        → S.is_sound store.old → IsGood reading old
        → Differs old (database_of (S.shows store.old).working) name.now came gone
        → MovedAll (database_of (S.shows store.old).working) name.now came gone moved.now
        → Holds reading (database_of (S.shows store.old).working) name.now
        → AllHold reading (database_of (S.shows store.old).working)) }
    ensures undone { OnErr result (S.shows store.new ≡ undone (S.shows store.old)) }
    ensures refused { IfErr result (λ refusal. (reading : CheckReading) → S.is_sound store.old
        → IfSome moved.now (λ m. AreAmong (database_of (S.shows store.old).working) name.now m.came)
        → BreaksAny reading (database_of (S.shows store.old).working) refusal) }
    ensures limits { IfErr result TellsNoLimit }
    ensures device { IfErr result (λ refusal. refusal ≡ Disk → HasRisen (S.refused store.old) (S.refused store.new)) }
    ensures goes { S.goes_on store.old store.new Going.keeps }
{
    what_comes_and_goes_decides();
    match moved {
        Some(moved) => {
            settle_matches(
                alloc,
                store,
                name,
                moved.came.as_slice(),
                moved.gone.as_slice(),
            )
        }
        None => Ok(()),
    }
}

/// The name of a foreign key that is violated in the newest version with its changes.
fn unmatched<S: Store>(
    alloc: Global,
    store: &mut S,
    name: &Text,
    came: &[Row],
    gone: &[Row],
) -> Result<Option<Text>, Refusal>
    ensures none { IfOk result (λ found. IfNone found (S.is_sound store.old
        → AreMatched (database_of (S.shows store.old).working) name.now came.now
        × MayGo (database_of (S.shows store.old).working) name.now gone.now)) }
    ensures some { IfOk result (λ found. IfSome found (λ constraint. (reading : CheckReading) → S.is_sound store.old
        → AreAmong (database_of (S.shows store.old).working) name.now came.now
        → Contains (violated_in reading (database_of (S.shows store.old).working)) constraint)) }
    ensures shows { S.shows store.new ≡ S.shows store.old }
    ensures refused { IfErr result (λ refusal. S.is_sound store.old → IsReserved refusal) }
    ensures limits { IfErr result TellsNoLimit }
    ensures device { IfErr result (λ refusal. refusal ≡ Disk → HasRisen (S.refused store.old) (S.refused store.new)) }
    ensures goes { S.goes_on store.old store.new Going.keeps }
{
    if let Err(error) = store.prepare(View::Working) {
        return Err(refusal_of(error));
    }
    match asked_of(alloc, store.schema(), name) {
        Ok(asked) => unmatched_of(alloc, store, asked, name, came, gone),
        Err(_) => Err(Refusal::Memory),
    }
}

/// The name of one of these foreign keys that is violated.
fn unmatched_of<S: Store>(
    alloc: Global,
    store: &mut S,
    asked: Items<Asked>,
    name: &Text,
    came: &[Row],
    gone: &[Row],
) -> Result<Option<Text>, Refusal>
    ensures none { IfOk result (λ found. IfNone found ((schema : AnySchema) → S.is_sound store.old
        → IsSchemaOf schema (database_of (S.shows store.old).working) → AreAsked schema name.now asked
        → AreMatched (database_of (S.shows store.old).working) name.now came.now
        × MayGo (database_of (S.shows store.old).working) name.now gone.now)) }
    ensures some { IfOk result (λ found. IfSome found (λ constraint. (schema : AnySchema) (reading : CheckReading)
        → S.is_sound store.old
        → IsSchemaOf schema (database_of (S.shows store.old).working) → AreAsked schema name.now asked
        → ((table : TableOf) → get (database_of (S.shows store.old).working) name.now ≡ Some table
        → (row : AnyRow) → Contains came.now row → Contains table.rows row)
        → Contains (violated_in reading (database_of (S.shows store.old).working)) constraint)) }
    ensures shows { S.shows store.new ≡ S.shows store.old }
    ensures refused { IfErr result (λ refusal. S.is_sound store.old → IsReserved refusal) }
    ensures limits { IfErr result TellsNoLimit }
    ensures device { IfErr result (λ refusal. refusal ≡ Disk → HasRisen (S.refused store.old) (S.refused store.new)) }
    ensures goes { S.goes_on store.old store.new Going.reads }
{
    let mut seen = Seen {
        store,
        view: View::Working,
    };
    first_unmatched(alloc, &mut seen, asked, name, came, gone)
}
