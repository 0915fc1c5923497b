//! What foreign keys reference, among the tables of a schema.
ghost use Rattle.std.specs.Prelude.{◌≡◌, ◌∷◌, not, ◌&&◌, length, nat_eq};
ghost use Rattle.std.specs.List.{list_any};
ghost use Rattle.sqlval.specs.Schema.{same_name};
ghost use Rattle.catalog_records.specs.References as kept;

use items::Text;
use sqlval::{Constraint, Reference, Rule, Table};

/// Whether the foreign keys of all these tables reference columns of one of them, as many as they
/// have themselves.
pub fn are_references_over(tables: &[Table]) -> bool
    ensures { result ≡ kept.are_references_among tables.now tables.now }
{
    for table in tables {
        if !are_rules_among(tables, table.constraints.as_slice()) {
            return false;
        }
    }
    true
}

/// Whether the foreign keys of a table reference columns of it or of one of these tables, as many as
/// they have themselves.
pub fn are_references_with(table: &Table, tables: &[Table]) -> bool
    ensures { result ≡ kept.are_rules_among (table.now ∷ tables.now) table.now.constraints }
{
    are_rules_with(table, tables, table.constraints.as_slice())
}

/// Whether a foreign key of a table of another name references the table of this name.
pub fn is_referenced(name: &Text, tables: &[Table]) -> bool
    ensures { result ≡ kept.is_referenced name.now tables.now }
{
    for table in tables {
        if is_other_to(name, table) {
            return true;
        }
    }
    false
}

fn is_other_to(name: &Text, table: &Table) -> bool
    ensures { result ≡ (not (same_name table.now.name name.now) && kept.references name.now table.now.constraints) }
{
    if table.name.as_slice() == name.as_slice() {
        return false;
    }
    references(name, table.constraints.as_slice())
}

fn references(name: &Text, constraints: &[Constraint]) -> bool
    ensures { result ≡ kept.references name.now constraints.now }
{
    for constraint in constraints {
        if is_reference_to(name, &constraint.rule) {
            return true;
        }
    }
    false
}

fn is_reference_to(name: &Text, rule: &Rule) -> bool
    ensures { result ≡ kept.is_reference_to name.now rule.now }
{
    match rule {
        Rule::NotNull(_) => false,
        Rule::PrimaryKey(_) => false,
        Rule::Unique(_) => false,
        Rule::Check(_) => false,
        Rule::ForeignKey(reference) => reference.table.as_slice() == name.as_slice(),
    }
}

fn are_rules_with(table: &Table, tables: &[Table], constraints: &[Constraint]) -> bool
    ensures { result ≡ kept.are_rules_among (table.now ∷ tables.now) constraints.now }
{
    for constraint in constraints {
        if !is_rule_with(table, tables, &constraint.rule) {
            return false;
        }
    }
    true
}

fn is_rule_with(table: &Table, tables: &[Table], rule: &Rule) -> bool
    ensures { result ≡ kept.is_rule_among (table.now ∷ tables.now) rule.now }
{
    match rule {
        Rule::NotNull(_) => true,
        Rule::PrimaryKey(_) => true,
        Rule::Unique(_) => true,
        Rule::Check(_) => true,
        Rule::ForeignKey(reference) => is_with(table, tables, reference),
    }
}

fn is_with(table: &Table, tables: &[Table], reference: &Reference) -> bool
    ensures { result ≡ kept.is_among (table.now ∷ tables.now) reference.now }
{
    if !is_counted(reference) {
        return false;
    }
    if is_meant_by(reference, table) {
        return true;
    }
    is_any_meant(tables, reference)
}

fn are_rules_among(tables: &[Table], constraints: &[Constraint]) -> bool
    ensures { result ≡ kept.are_rules_among tables.now constraints.now }
{
    for constraint in constraints {
        if !is_rule_among(tables, &constraint.rule) {
            return false;
        }
    }
    true
}

fn is_rule_among(tables: &[Table], rule: &Rule) -> bool
    ensures { result ≡ kept.is_rule_among tables.now rule.now }
{
    match rule {
        Rule::NotNull(_) => true,
        Rule::PrimaryKey(_) => true,
        Rule::Unique(_) => true,
        Rule::Check(_) => true,
        Rule::ForeignKey(reference) => is_among(tables, reference),
    }
}

fn is_among(tables: &[Table], reference: &Reference) -> bool
    ensures { result ≡ kept.is_among tables.now reference.now }
{
    if !is_counted(reference) {
        return false;
    }
    is_any_meant(tables, reference)
}

/// Whether as many columns are referenced as there are own ones.
fn is_counted(reference: &Reference) -> bool
    ensures { result ≡ nat_eq (length reference.now.columns) (length reference.now.referenced) }
{
    reference.columns.len() == reference.referenced.len()
}

fn is_any_meant(tables: &[Table], reference: &Reference) -> bool
    ensures { result ≡ list_any (kept.is_meant_by reference.now) tables.now }
{
    for table in tables {
        if is_meant_by(reference, table) {
            return true;
        }
    }
    false
}

fn is_meant_by(reference: &Reference, table: &Table) -> bool
    ensures { result ≡ kept.is_meant_by reference.now table.now }
{
    if table.name.as_slice() != reference.table.as_slice() {
        return false;
    }
    are_within(table.columns.len(), reference.referenced.as_slice())
}

fn are_within(count: usize, places: &[usize]) -> bool
    ensures { result ≡ kept.are_within count places.now }
{
    for place in places {
        if *place >= count {
            return false;
        }
    }
    true
}
