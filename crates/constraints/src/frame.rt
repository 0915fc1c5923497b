//! The frame of a change: the mark before it, and the constraints of its table after it.
ghost use Rattle.std.specs.Prelude.{◌≡◌, true, [], Some, IfOk, IfErr, OnOk, OnErr, MatchOption, Contains};
ghost use Rattle.std.specs.FinMap.{get};
ghost use Rattle.refusals.specs.declared.refusal.Refusal.TheVariants.{Memory, Disk};
ghost use Rattle.denote.specs.Database.{Name, Table as TableOf, CheckReading, table_of, violated_by};
ghost use Rattle.session_definitions.specs.Refusals.{IsReserved};
ghost use Rattle.store.specs.Contents.{database_of};
ghost use Rattle.store.specs.Errors.{HasRisen};
ghost use Rattle.store.specs.Going.{Going};
ghost use Rattle.store.specs.Stored.{SameButMark, marked_now, undone};
ghost use Rattle.transactions.specs.Refused.{TellsNoLimit};
ghost use Rattle.constraints.specs.Settled.{Decided, Holds, Breaks};

use crate::checks::Checks;
use crate::constraints::violated_constraint;
use crate::tables::table_named;
use denote::Row;
use items::Text;
use refusals::Refusal;
use sqlval::Table;
use std::alloc::Global;
use store::{Store, View};
use transactions::refusal_of;

/// Sets the mark, to which goes back whatever is refused from now on. It is refused for want of
/// memory or by the device; all is then as it was, but for the mark.
pub fn begin<S: Store>(store: &mut S) -> Result<(), Refusal>
    ensures shows { OnOk result (S.shows store.new ≡ marked_now (S.shows store.old)) }
    ensures same { OnErr result (SameButMark (S.shows store.old) (S.shows store.new)) }
    ensures prepared { S.prepared store.new ≡ S.prepared store.old }
    ensures refused { IfErr result (λ refusal. S.is_sound store.old → IsReserved refusal) }
    ensures limits { IfErr result TellsNoLimit }
    ensures device { IfErr result (λ refusal. refusal ≡ Disk → HasRisen (S.refused store.old) (S.refused store.new)) }
    ensures goes { S.goes_on store.old store.new Going.keeps }
{
    match store.mark() {
        Ok(()) => Ok(()),
        Err(error) => Err(refusal_of(error)),
    }
}

/// Keeps what was changed since the mark, where the table of this name now violates no constraint;
/// else goes back to the mark. It is refused by a constraint that the table violates (23000), for
/// want of memory or by the device. CHECKs are decided by what is given for them.
pub fn settle<S: Store, C: Checks>(
    alloc: Global,
    store: &mut S,
    name: &Text,
    checks: &C,
) -> Result<(), Refusal>
    ensures kept { OnOk result (S.shows store.new ≡ S.shows store.old) }
    ensures holds { OnOk result ((reading : CheckReading) → S.is_sound store.old
        → Decided (C.decides checks.now reading) (database_of (S.shows store.old).working) name.now
        → Holds reading (database_of (S.shows store.old).working) name.now) }
    ensures undone { OnErr result (S.shows store.new ≡ undone (S.shows store.old)) }
    ensures refused { IfErr result (λ refusal. (reading : CheckReading) → S.is_sound store.old
        → Decided (C.decides checks.now reading) (database_of (S.shows store.old).working) name.now
        → Breaks reading (database_of (S.shows store.old).working) name.now refusal) }
    ensures limits { IfErr result TellsNoLimit }
    ensures device { IfErr result (λ refusal. refusal ≡ Disk → HasRisen (S.refused store.old) (S.refused store.new)) }
    ensures goes { S.goes_on store.old store.new Going.keeps }
{
    match violation(alloc, store, name, checks) {
        Ok(None) => Ok(()),
        Ok(Some(constraint)) => {
            store.undo();
            Err(Refusal::Violated(constraint))
        }
        Err(refusal) => {
            store.undo();
            Err(refusal)
        }
    }
}

/// Keeps what was changed since the mark, where the table of this name now violates no constraint;
/// else goes back to the mark. The table is looked at unless it is known to violate none. It is
/// refused by a constraint that the table violates (23000), for want of memory or by the device.
pub fn settle_unless<S: Store, C: Checks>(
    alloc: Global,
    store: &mut S,
    name: &Text,
    checks: &C,
    known: bool,
) -> Result<(), Refusal>
    ensures kept { OnOk result (S.shows store.new ≡ S.shows store.old) }
    ensures holds { OnOk result ((reading : CheckReading) → S.is_sound store.old
        → Decided (C.decides checks.now reading) (database_of (S.shows store.old).working) name.now
        → (known ≡ true → Holds reading (database_of (S.shows store.old).working) name.now)
        → Holds reading (database_of (S.shows store.old).working) name.now) }
    ensures undone { OnErr result (S.shows store.new ≡ undone (S.shows store.old)) }
    ensures refused { IfErr result (λ refusal. (reading : CheckReading) → S.is_sound store.old
        → Decided (C.decides checks.now reading) (database_of (S.shows store.old).working) name.now
        → Breaks reading (database_of (S.shows store.old).working) name.now refusal) }
    ensures limits { IfErr result TellsNoLimit }
    ensures device { IfErr result (λ refusal. refusal ≡ Disk → HasRisen (S.refused store.old) (S.refused store.new)) }
    ensures goes { S.goes_on store.old store.new Going.keeps }
{
    if known {
        return Ok(());
    }
    match settle(alloc, store, name, checks) {
        Ok(()) => Ok(()),
        Err(refusal) => Err(refusal),
    }
}

/// The name of a constraint that the table of this name violates in the newest version with its
/// changes.
fn violation<S: Store, C: Checks>(
    alloc: Global,
    store: &mut S,
    name: &Text,
    checks: &C,
) -> Result<Option<Text>, Refusal>
    ensures found { IfOk result (λ found. (reading : CheckReading) → S.is_sound store.old
        → Decided (C.decides checks.now reading) (database_of (S.shows store.old).working) name.now
        → MatchOption found (Holds reading (database_of (S.shows store.old).working) name.now)
        (λ constraint. (table : TableOf) × (get (database_of (S.shows store.old).working) name.now ≡ Some table)
        × Contains (violated_by reading name.now table) constraint)) }
    ensures shows { S.shows store.new ≡ S.shows store.old }
    ensures refused { IfErr result (λ refusal. S.is_sound store.old → IsReserved refusal) }
    ensures limits { IfErr result TellsNoLimit }
    ensures device { IfErr result (λ refusal. refusal ≡ Disk → HasRisen (S.refused store.old) (S.refused store.new)) }
    ensures goes { S.goes_on store.old store.new Going.keeps }
{
    let found = match store.scan(alloc, View::Working, name) {
        Ok(found) => found,
        Err(error) => return Err(refusal_of(error)),
    };
    if let Err(error) = store.prepare(View::Working) {
        return Err(refusal_of(error));
    }
    match table_named(store.schema(), name) {
        None => Ok(None),
        Some(table) => violation_in(alloc, table, found.rows.as_slice(), checks),
    }
}

/// The name of a constraint that a table with these rows violates. It is refused for want of memory
/// alone.
pub fn violation_in<C: Checks>(
    alloc: Global,
    table: &Table,
    rows: &[Row],
    checks: &C,
) -> Result<Option<Text>, Refusal>
    ensures found { IfOk result (λ found. (reading : CheckReading) (name : Name)
        → C.decides checks.now reading name table.now.columns table.now.constraints
        → MatchOption found (violated_by reading name (table_of table.now rows.now) ≡ []) (λ constraint. Contains (violated_by reading name (table_of table.now rows.now)) constraint)) }
    ensures refused { IfErr result (λ refusal. refusal ≡ Memory) }
{
    match violated_constraint(alloc, table, rows) {
        Ok(Some(name)) => match name.copy(alloc) {
            Ok(name) => Ok(Some(name)),
            Err(_) => Err(Refusal::Memory),
        },
        Ok(None) => checks.violated(alloc, table, rows),
        Err(_) => Err(Refusal::Memory),
    }
}
