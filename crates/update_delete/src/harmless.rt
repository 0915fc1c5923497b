//! Whether changes of rows leave the constraints of their table as they are.
ghost use Rattle.std.specs.Prelude.{◌≡◌, true, List, IfOk, IfErr};
ghost use Rattle.sqlval.specs.Value.{Row as AnyRow};
ghost use Rattle.refusals.specs.declared.refusal.Refusal.TheVariants.{Memory};
ghost use Rattle.denote.specs.Database.{Name, CheckReading, table_of};
ghost use Rattle.update_delete.specs.Kept.{Keeps, KeepAll, KeepsBy, keep_keys, keeps_key};

use crate::change::RowChange;
use constraints::{Checks, compare_keys, key_columns, violation_in};
use denote::{Row, Rows};
use items::Items;
use refusals::Refusal;
use sqlval::{Constraint, Rule, Table, Value};
use std::alloc::Global;
use std::slice::from_ref;

/// Whether it is sure that a table which violates no constraint violates none after these changes
/// of some of its rows, the n-th of the n-th: each row that becomes another keeps its keys, and the
/// new one violates no constraint alone.
pub(crate) fn are_harmless<C: Checks>(
    alloc: Global,
    table: &Table,
    checks: &C,
    rows: &Rows,
    changes: &Items<RowChange>,
) -> Result<bool, Refusal>
    ensures sure { IfOk result (λ sure. (reading : CheckReading) (name : Name) (whole : List AnyRow)
        → C.decides checks.now reading name table.now.columns table.now.constraints → sure ≡ true
        → KeepAll (Keeps reading name (table_of table.now whole) table.now.constraints) rows.now changes.now) }
    ensures refused { IfErr result (λ refusal. refusal ≡ Memory) }
{
    let mut left = changes.as_slice();
    for row in rows.as_slice() {
        let Some((change, others)) = left.split_first() else {
            return Ok(true);
        };
        match is_harmless(alloc, table, checks, row.as_slice(), change) {
            Ok(true) => {}
            Ok(false) => return Ok(false),
            Err(refusal) => return Err(refusal),
        }
        left = others;
    }
    Ok(true)
}

fn is_harmless<C: Checks>(
    alloc: Global,
    table: &Table,
    checks: &C,
    row: &[Value],
    change: &RowChange,
) -> Result<bool, Refusal>
    ensures sure { IfOk result (λ sure. (reading : CheckReading) (name : Name) (whole : List AnyRow)
        → C.decides checks.now reading name table.now.columns table.now.constraints → sure ≡ true
        → KeepsBy (Keeps reading name (table_of table.now whole) table.now.constraints) row.now change.now) }
    ensures refused { IfErr result (λ refusal. refusal ≡ Memory) }
{
    match change {
        RowChange::Stays => Ok(true),
        RowChange::Goes => Ok(true),
        RowChange::Becomes(new) => may_replace(alloc, table, checks, row, new),
    }
}

/// Whether it is sure that a row may become this one.
fn may_replace<C: Checks>(
    alloc: Global,
    table: &Table,
    checks: &C,
    row: &[Value],
    new: &Row,
) -> Result<bool, Refusal>
    ensures sure { IfOk result (λ sure. (reading : CheckReading) (name : Name) (whole : List AnyRow)
        → C.decides checks.now reading name table.now.columns table.now.constraints → sure ≡ true
        → Keeps reading name (table_of table.now whole) table.now.constraints row.now new.now) }
    ensures refused { IfErr result (λ refusal. refusal ≡ Memory) }
{
    if keep_keys(table.constraints.as_slice(), row, new.as_slice()) {
        match violation_in(alloc, table, from_ref(new), checks) {
            Ok(None) => Ok(true),
            Ok(Some(_)) => Ok(false),
            Err(refusal) => Err(refusal),
        }
    } else {
        Ok(false)
    }
}

/// Whether two rows have the same keys, as these constraints ask for them.
fn keep_keys(constraints: &[Constraint], row: &[Value], new: &[Value]) -> bool
    ensures { result ≡ keep_keys constraints.now row.now new.now }
{
    for constraint in constraints {
        if !keeps_key(&constraint.rule, row, new) {
            return false;
        }
    }
    true
}

fn keeps_key(rule: &Rule, row: &[Value], new: &[Value]) -> bool
    ensures { result ≡ keeps_key rule.now row.now new.now }
{
    match key_columns(rule) {
        None => true,
        Some(columns) => compare_keys(columns, row, new).is_eq(),
    }
}
