//! Which tables a catalogue can keep.
ghost use Rattle.std.specs.Prelude.{◌≡◌, ◌<◌, ◌^◌, IsTrue};
ghost use Rattle.std.specs.List.{AllByRecursion};
ghost use Rattle.catalog_records.specs.Keepable.{ArePlaces, IsColumn, IsRule, IsConstraint, IsIndex, IsTable};

use catalog_records::{are_constraints_over, are_indexes_over};
use sqlval::{Column, ColumnType, Constraint, Index, Rule, Table};

/// Places are numbers of 64 bits.
pub(crate) fn are_places(places: &[usize])
    ensures { ArePlaces places.now }
{
    for place in places {
        let _place = *place;
    }
}

/// Whether a column is not of VARCHAR(0).
fn is_column(column: &Column) -> bool
    ensures { IsTrue result → IsColumn column.now }
{
    match column.column_type {
        ColumnType::Integer => true,
        ColumnType::Varchar(limit) => limit > 0,
    }
}

/// Whether no column is of VARCHAR(0).
fn are_columns(columns: &[Column]) -> bool
    ensures { IsTrue result → AllByRecursion IsColumn columns.now }
{
    for column in columns {
        if !is_column(column) {
            return false;
        }
    }
    true
}

fn is_rule(rule: &Rule)
    ensures { IsRule rule.now }
{
    match rule {
        Rule::NotNull(column) => {
            let _column = *column;
        }
        Rule::PrimaryKey(columns) => are_places(columns.as_slice()),
        Rule::Unique(columns) => are_places(columns.as_slice()),
        Rule::Check(_) => {}
        Rule::ForeignKey(reference) => {
            are_places(reference.columns.as_slice());
            are_places(reference.referenced.as_slice());
        }
    }
}

fn are_constraints(constraints: &[Constraint])
    ensures { AllByRecursion IsConstraint constraints.now }
{
    for constraint in constraints {
        is_rule(&constraint.rule);
    }
}

fn are_indexes(indexes: &[Index])
    ensures { AllByRecursion IsIndex indexes.now }
{
    for index in indexes {
        let _root = index.root;
        are_places(index.columns.as_slice());
    }
}

/// Whether no index has a tree yet.
fn are_new(indexes: &[Index]) -> bool
    ensures { IsTrue result → AllByRecursion (λ index. index.root ≡ 0) indexes.now }
{
    for index in indexes {
        if index.root != 0 {
            return false;
        }
    }
    true
}

/// Whether a table can be kept: no column is VARCHAR(0), its constraints and indexes name only
/// places of its columns, and no index has a tree yet. No text declares another one. All else is of
/// a table by its types.
pub(crate) fn is_kept(table: &Table) -> bool
    ensures kept { IsTrue result → IsTable table.now }
    ensures new { IsTrue result → AllByRecursion (λ index. index.root ≡ 0) table.now.indexes }
{
    let _root = table.root;
    are_constraints(table.constraints.as_slice());
    are_indexes(table.indexes.as_slice());
    if !are_constraints_over(table.columns.len(), table.constraints.as_slice()) {
        return false;
    }
    if !are_indexes_over(table.columns.len(), table.indexes.as_slice()) {
        return false;
    }
    if !are_new(table.indexes.as_slice()) {
        return false;
    }
    are_columns(table.columns.as_slice())
}
