//! Which constraint a table violates.
ghost use Rattle.std.specs.Prelude.{◌≡◌, IfOk, IfSome, IfNone, Contains, []};
ghost use Rattle.std.specs.List.{list_any};
ghost use Rattle.sqlval.specs.Matching.{key_of};
ghost use Rattle.sqlval.specs.Value.{is_null};
ghost use Rattle.denote.specs.Database.{Name, CheckReading, table_of, has_null, violated_by};
ghost use Rattle.denote.specs.Expression.{cell};
ghost use Rattle.constraints.specs.Rules.{breaks_rule, broken, is_check_rule, has_checks, broken_checks};

use crate::twins::any_twins;
use denote::Row;
use items::Text;
use sqlval::{Constraint, Rule, Table, Value};
use std::alloc::{AllocError, Global};

/// The name of a constraint that a table with these rows violates: of a NOT NULL, a PRIMARY KEY or
/// a UNIQUE. CHECKs are not looked at. Keys are sorted, which takes memory.
pub fn violated_constraint<'a>(
    alloc: Global,
    table: &'a Table,
    rows: &[Row],
) -> Result<Option<&'a Text>, AllocError>
    ensures found { IfOk result (λ found. IfSome found (λ constraint. (reading : CheckReading) (name : Name)
        → Contains (violated_by reading name (table_of table.now rows.now)) constraint.now)) }
    ensures none { IfOk result (λ found. IfNone found ((reading : CheckReading) (name : Name)
        → broken_checks reading name (table_of table.now rows.now) ≡ []
        → violated_by reading name (table_of table.now rows.now) ≡ [])) }
{
    broken_constraint(alloc, table, rows)
}

/// Whether one of these constraints is a CHECK.
pub fn has_check(constraints: &[Constraint]) -> bool
    ensures { result ≡ has_checks constraints.now }
{
    constraints
        .iter()
        .any(|constraint| is_check(&constraint.rule))
}

fn is_check(rule: &Rule) -> bool
    ensures { result ≡ is_check_rule rule.now }
{
    match rule {
        Rule::NotNull(_) => false,
        Rule::PrimaryKey(_) => false,
        Rule::Unique(_) => false,
        Rule::Check(_) => true,
        Rule::ForeignKey(_) => false,
    }
}

fn broken_constraint<'a>(
    alloc: Global,
    table: &'a Table,
    rows: &[Row],
) -> Result<Option<&'a Text>, AllocError>
    ensures found { IfOk result (λ found. IfSome found (λ name. Contains (broken table.now.constraints rows.now) name.now)) }
    ensures none { IfOk result (λ found. IfNone found (broken table.now.constraints rows.now ≡ [])) }
{
    for constraint in table.constraints.as_slice() {
        if is_broken(alloc, &constraint.rule, rows)? {
            return Ok(Some(&constraint.name));
        }
    }
    Ok(None)
}

fn is_broken(alloc: Global, rule: &Rule, rows: &[Row]) -> Result<bool, AllocError>
    ensures { IfOk result (λ broken. broken ≡ breaks_rule rows.now rule.now) }
{
    match rule {
        Rule::NotNull(column) => Ok(any_null(&[*column], rows)),
        Rule::PrimaryKey(columns) => {
            if any_null(columns.as_slice(), rows) {
                return Ok(true);
            }
            any_twins(alloc, columns.as_slice(), rows)
        }
        Rule::Unique(columns) => any_twins(alloc, columns.as_slice(), rows),
        Rule::Check(_) => Ok(false),
        Rule::ForeignKey(_) => Ok(false),
    }
}

/// Whether a row has null in some of these columns.
fn any_null(columns: &[usize], rows: &[Row]) -> bool
    ensures { result ≡ has_null columns.now rows.now }
{
    for row in rows {
        if has_null_in(columns, row.as_slice()) {
            return true;
        }
    }
    false
}

fn has_null_in(columns: &[usize], row: &[Value]) -> bool
    ensures { result ≡ list_any is_null (key_of columns.now row.now) }
{
    for column in columns {
        if is_null_at(*column, row) {
            return true;
        }
    }
    false
}

fn is_null_at(column: usize, row: &[Value]) -> bool
    ensures { result ≡ is_null (cell row.now column) }
{
    match row.get(column) {
        None => true,
        Some(value) => match value {
            Value::Null => true,
            _ => false,
        },
    }
}
