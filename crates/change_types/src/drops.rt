//! DROP TABLE and DROP INDEX.

ghost use Rattle.std.specs.Prelude.{◌≡◌};
ghost use Rattle.typing.specs.Finds.{Finds};
ghost use Rattle.typing.specs.Index.{dropped_index, dropped_table, unreferenced};
ghost use Rattle.typing.specs.Known.{has_index, is_reference_to, is_referenced, known, references};
ghost use Rattle.change_types.specs.Parts.{is_referring};

use items::Text;
use lexer::Name;
use refusals::{Reason, Refusal};
use sqlval::{Constraint, Rule, Schema, Table};
use std::alloc::Global;
use type_rules::table_named;

/// The table that a DROP TABLE names.
///
/// `Name` where no table has the name, `Reference` where another table references it. Refuses for
/// want of memory too.
pub fn typed_drop_table(alloc: Global, name: &Name, schema: &Schema) -> Result<Text, Refusal>
    ensures { Finds result (dropped_table (known schema.now) name.now) }
{
    table_named(schema, name.as_text())?;
    unreferenced(alloc, name, schema)
}

fn unreferenced(alloc: Global, name: &Name, schema: &Schema) -> Result<Text, Refusal>
    ensures { Finds result (unreferenced (known schema.now) name.now) }
{
    if is_referenced(schema, name.as_text()) {
        return Err(Refusal::Invalid(Reason::Reference));
    }
    Ok(name.as_text().copy(alloc)?)
}

/// Whether a foreign key of another table references the table of this name.
fn is_referenced(schema: &Schema, name: &Text) -> bool
    ensures { result ≡ is_referenced schema.now name.now }
{
    schema
        .tables
        .as_slice()
        .iter()
        .any(|table| is_referring(table, name))
}

fn is_referring(table: &Table, name: &Text) -> bool
    ensures { result ≡ is_referring name.now table.now }
{
    if table.name.as_slice() == name.as_slice() {
        return false;
    }
    references(table.constraints.as_slice(), name)
}

fn references(constraints: &[Constraint], name: &Text) -> bool
    ensures { result ≡ references name.now constraints.now }
{
    constraints
        .iter()
        .any(|constraint| is_reference_to(&constraint.rule, name))
}

fn is_reference_to(rule: &Rule, name: &Text) -> bool
    ensures { result ≡ is_reference_to name.now rule.now }
{
    match rule {
        Rule::NotNull(_) => false,
        Rule::PrimaryKey(_) => false,
        Rule::Unique(_) => false,
        Rule::Check(_) => false,
        Rule::ForeignKey(reference) => reference.table.as_slice() == name.as_slice(),
    }
}

/// The index that a DROP INDEX names.
///
/// `Name` where no index has the name. Refuses for want of memory too.
pub fn typed_drop_index(alloc: Global, name: &Name, schema: &Schema) -> Result<Text, Refusal>
    ensures { Finds result (dropped_index (known schema.now) name.now) }
{
    if !has_index(schema, name.as_text()) {
        return Err(Refusal::Invalid(Reason::Name));
    }
    Ok(name.as_text().copy(alloc)?)
}

/// Whether an index has this name.
pub fn has_index(schema: &Schema, name: &Text) -> bool
    ensures { result ≡ has_index schema.now name.now }
{
    schema.find_index(name.as_slice()).is_some()
}
