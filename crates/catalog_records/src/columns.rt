//! Whether the places of constraints and indexes are those of columns.
ghost use Rattle.std.specs.Prelude.{◌≡◌, ◌↔◌, IsTrue};
ghost use Rattle.std.specs.List.{AllByRecursion};
ghost use Rattle.catalog_records.specs.Keepable.{AreAmong, IsConstraintOver, IsIndexOver, IsRuleOver};

use sqlval::{Constraint, Index, Rule};

/// Whether each of these places is one of so many columns.
pub fn are_among(count: usize, places: &[usize]) -> bool
    ensures { IsTrue result ↔ AreAmong count places.now }
{
    for place in places {
        if *place >= count {
            return false;
        }
    }
    true
}

/// Whether a rule names only places of so many columns, where it speaks of its own table.
fn is_rule_over(count: usize, rule: &Rule) -> bool
    ensures { IsTrue result ↔ IsRuleOver count rule.now }
{
    match rule {
        Rule::NotNull(column) => *column < count,
        Rule::PrimaryKey(columns) => are_among(count, columns.as_slice()),
        Rule::Unique(columns) => are_among(count, columns.as_slice()),
        Rule::Check(_) => true,
        Rule::ForeignKey(reference) => are_among(count, reference.columns.as_slice()),
    }
}

/// Whether constraints name only places of so many columns, where they speak of their own table.
pub fn are_constraints_over(count: usize, constraints: &[Constraint]) -> bool
    ensures { IsTrue result ↔ AllByRecursion (IsConstraintOver count) constraints.now }
{
    for constraint in constraints {
        if !is_rule_over(count, &constraint.rule) {
            return false;
        }
    }
    true
}

/// Whether indexes name only places of so many columns.
pub fn are_indexes_over(count: usize, indexes: &[Index]) -> bool
    ensures { IsTrue result ↔ AllByRecursion (IsIndexOver count) indexes.now }
{
    for index in indexes {
        if !are_among(count, index.columns.as_slice()) {
            return false;
        }
    }
    true
}
