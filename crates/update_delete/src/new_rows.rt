//! The new rows of a change, and their look-up once they have come.
ghost use Rattle.std.specs.Prelude.{◌≡◌, true, false, IfOk, IfErr, IfSome, IfNone, OnOk, OnErr};
ghost use Rattle.std.specs.Option.{option_copied};
ghost use Rattle.refusals.specs.declared.refusal.Refusal.TheVariants.{Disk};
ghost use Rattle.denote.specs.Database.{CheckReading};
ghost use Rattle.session_definitions.specs.Refusals.{IsReserved};
ghost use Rattle.store.specs.Contents.{database_of};
ghost use Rattle.store.specs.Errors.{HasRisen};
ghost use Rattle.store.specs.Going.{Going};
ghost use Rattle.store.specs.Stored.{undone};
ghost use Rattle.transactions.specs.Refused.{TellsNoLimit};
ghost use Rattle.constraints.specs.Matched.{IsAtNoEnd};
ghost use Rattle.constraints.specs.Settled.{AreAmong, Breaks, Decided, Holds, OthersHold};
ghost use Rattle.update_delete.specs.RowChanges.{new_of, rows_new};

use crate::change::RowChange;
use constraints::{Checks, Moved, are_few, is_at_end, settle_rows, settle_unless};
use denote::{Row, Rows};
use items::{Items, Text};
use refusals::Refusal;
use sqlval::Value;
use std::alloc::{AllocError, Global};
use store::Store;

/// Copies of the new rows of these changes, where the table has to be decided on and they are few
/// beside its rows; else nothing. The store is left as it was.
pub(crate) fn rows_to_look_up<S: Store>(
    alloc: Global,
    store: &mut S,
    name: &Text,
    harmless: bool,
    count: usize,
    changes: &[RowChange],
) -> Result<Option<Rows>, Refusal>
    ensures new { IfOk result (λ found. IfSome found (λ rows. (rows ≡ rows_new changes.now) × (harmless ≡ false))) }
    ensures refused { IfErr result (λ refusal. S.is_sound store.old → IsReserved refusal) }
    ensures limits { IfErr result TellsNoLimit }
    ensures device { IfErr result (λ refusal. refusal ≡ Disk → HasRisen (S.refused store.old) (S.refused store.new)) }
    ensures shows { S.shows store.new ≡ S.shows store.old }
    ensures goes { S.goes_on store.old store.new Going.reads }
{
    if harmless {
        return Ok(None);
    }
    match are_few(alloc, store, name, count) {
        Ok(true) => match new_rows(alloc, changes) {
            Ok(rows) => Ok(Some(rows)),
            Err(_) => Err(Refusal::Memory),
        },
        Ok(false) => Ok(None),
        Err(refusal) => Err(refusal),
    }
}

/// The rows that these changes bring and those that are there no more, where a foreign key has the
/// table at one of its ends; else nothing. The store is left as it was.
pub(crate) fn rows_moved<S: Store>(
    alloc: Global,
    store: &mut S,
    name: &Text,
    changes: &[RowChange],
    gone: Rows,
) -> Result<Option<Moved>, Refusal>
    ensures some { IfOk result (λ found. IfSome found (λ moved. (moved.came ≡ rows_new changes.now)
        × (moved.gone ≡ gone))) }
    ensures none { IfOk result (λ found. IfNone found (S.is_sound store.old
        → IsAtNoEnd (database_of (S.shows store.old).working) name.now)) }
    ensures refused { IfErr result (λ refusal. S.is_sound store.old → IsReserved refusal) }
    ensures limits { IfErr result TellsNoLimit }
    ensures device { IfErr result (λ refusal. refusal ≡ Disk → HasRisen (S.refused store.old) (S.refused store.new)) }
    ensures shows { S.shows store.new ≡ S.shows store.old }
    ensures goes { S.goes_on store.old store.new Going.keeps }
{
    match is_at_end(store, name) {
        Ok(true) => match new_rows(alloc, changes) {
            Ok(came) => Ok(Some(Moved { came, gone })),
            Err(_) => Err(Refusal::Memory),
        },
        Ok(false) => Ok(None),
        Err(refusal) => Err(refusal),
    }
}

fn new_rows(alloc: Global, changes: &[RowChange]) -> Result<Rows, AllocError>
    ensures { IfOk result (λ rows. rows ≡ rows_new changes.now) }
{
    let mut rows = Items::new(alloc);
    for change in changes {
        if let Some(row) = new_row(change) {
            rows.push(copied_row(alloc, row.as_slice())?)?;
        }
    }
    Ok(rows)
}

fn copied_row(alloc: Global, row: &[Value]) -> Result<Row, AllocError>
    ensures { IfOk result (λ copied. copied ≡ row.now) }
{
    let mut copied = Items::with_capacity(alloc, row.len())?;
    for value in row {
        copied.push(value.copy(alloc)?)?;
    }
    Ok(copied)
}

fn new_row(change: &RowChange) -> Option<&Row>
    ensures { option_copied result ≡ new_of change.now }
{
    match change {
        RowChange::Stays => None,
        RowChange::Goes => None,
        RowChange::Becomes(row) => Some(row),
    }
}

/// Keeps what was changed since the mark, where the table of this name now violates no constraint;
/// else goes back to the mark. Where there are rows to look up, these are the new ones, and only
/// they are looked at; else the table is looked at unless it is known to violate none.
pub(crate) fn settle_new<S: Store, C: Checks>(
    alloc: Global,
    store: &mut S,
    name: &Text,
    checks: &C,
    known: bool,
    rows: &Option<Rows>,
) -> Result<(), Refusal>
    ensures kept { OnOk result (S.shows store.new ≡ S.shows store.old) }
    ensures holds { OnOk result ((reading : CheckReading) → S.is_sound store.old
        → Decided (C.decides checks.now reading) (database_of (S.shows store.old).working) name.now
        → (known ≡ true → Holds reading (database_of (S.shows store.old).working) name.now)
        → IfSome rows.now (λ new. OthersHold reading (database_of (S.shows store.old).working) name.now new)
        → Holds reading (database_of (S.shows store.old).working) name.now) }
    ensures undone { OnErr result (S.shows store.new ≡ undone (S.shows store.old)) }
    ensures refused { IfErr result (λ refusal. (reading : CheckReading) → S.is_sound store.old
        → Decided (C.decides checks.now reading) (database_of (S.shows store.old).working) name.now
        → IfSome rows.now (λ new. AreAmong (database_of (S.shows store.old).working) name.now new)
        → Breaks reading (database_of (S.shows store.old).working) name.now refusal) }
    ensures limits { IfErr result TellsNoLimit }
    ensures device { IfErr result (λ refusal. refusal ≡ Disk → HasRisen (S.refused store.old) (S.refused store.new)) }
    ensures goes { S.goes_on store.old store.new Going.keeps }
{
    match rows {
        Some(rows) => match settle_rows(alloc, store, name, rows.as_slice(), checks) {
            Ok(()) => Ok(()),
            Err(refusal) => Err(refusal),
        },
        None => match settle_unless(alloc, store, name, checks, known) {
            Ok(()) => Ok(()),
            Err(refusal) => Err(refusal),
        },
    }
}
