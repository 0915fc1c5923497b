//! The foreign keys that are to be asked when rows come to a table or go from it.
ghost use Rattle.std.specs.Prelude.{◌≡◌, ◌++◌, List, All, Contains, IfOk, IfSome, OnOk, map};
ghost use Rattle.std.specs.List.{cons_option};
ghost use Rattle.sqlval.specs.Schema.{same_name};
ghost use Rattle.foreign_keys.specs.Asked as asking;
ghost use Rattle.foreign_keys.specs.Asked.{Question};

use crate::ways::{Way, way_over};
use items::{Items, Text};
use sqlval::{Constraint, Reference, Rule, Schema, Table};
use std::alloc::{AllocError, Global};

/// A foreign key: its name, the table whose rows reference, what they reference, and the indexes by
/// which rows are looked up. Of the table that is referenced, one for the key of a row that
/// references it, and one for the key of a row of its own; of the table that references, one for
/// the key of a row that is referenced. Where there is none, all rows of the table are read.
#[derive(Drop)]
pub struct Asked {
    pub(crate) constraint: Text,
    pub(crate) table: Text,
    pub(crate) reference: Reference,
    pub(crate) matches: Option<Way>,
    pub(crate) again: Option<Way>,
    pub(crate) referencing: Option<Way>,
}

/// The foreign keys of a schema that have the table of this name at one of their ends.
pub fn asked_of(alloc: Global, schema: &Schema, name: &Text) -> Result<Items<Asked>, AllocError>
    ensures { IfOk result (asking.AreAsked schema.now name.now) }
{
    let mut asked = Items::new(alloc);
    for table in schema.tables.as_slice() {
        put_questions(alloc, &mut asked, schema, table, name)?;
    }
    Ok(asked)
}

/// With the foreign keys of one table behind them.
fn put_questions(
    alloc: Global,
    asked: &mut Items<Asked>,
    schema: &Schema,
    table: &Table,
    name: &Text,
) -> Result<(), AllocError>
    ensures questions { OnOk result (map asking.question_of asked.new
        ≡ map asking.question_of asked.old ++ asking.questions_of name.now table.now.name table.now.constraints) }
    ensures ways { Contains schema.now.tables table.now → All (asking.HasWays schema.now) asked.old
        → OnOk result (All (asking.HasWays schema.now) asked.new) }
{
    for constraint in table.constraints.as_slice() {
        put_question(alloc, asked, schema, table, constraint, name)?;
    }
    Ok(())
}

/// With a constraint of a table behind them, where it is such a foreign key.
fn put_question(
    alloc: Global,
    asked: &mut Items<Asked>,
    schema: &Schema,
    table: &Table,
    constraint: &Constraint,
    name: &Text,
) -> Result<(), AllocError>
    ensures question { (rest : List Question) → OnOk result (map asking.question_of asked.new ++ rest
        ≡ map asking.question_of asked.old
        ++ cons_option (asking.question_at name.now table.now.name constraint.now.name constraint.now.rule) rest) }
    ensures ways { Contains schema.now.tables table.now → All (asking.HasWays schema.now) asked.old
        → OnOk result (All (asking.HasWays schema.now) asked.new) }
{
    match &constraint.rule {
        Rule::NotNull(_) => Ok(()),
        Rule::PrimaryKey(_) => Ok(()),
        Rule::Unique(_) => Ok(()),
        Rule::Check(_) => Ok(()),
        Rule::ForeignKey(reference) => {
            if !is_at_end(name, &table.name, reference) {
                return Ok(());
            }
            asked.push(question(alloc, schema, table, constraint, reference)?)
        }
    }
}

fn is_at_end(name: &Text, table: &Text, reference: &Reference) -> bool
    ensures { result ≡ asking.is_at_end name.now table.now reference.now }
{
    is_named(table, name) || is_named(&reference.table, name)
}

pub(crate) fn is_named(table: &Text, name: &Text) -> bool
    ensures { result ≡ same_name table.now name.now }
{
    table.as_slice() == name.as_slice()
}

/// A foreign key of a table of the schema, with the indexes that serve it.
fn question(
    alloc: Global,
    schema: &Schema,
    table: &Table,
    constraint: &Constraint,
    reference: &Reference,
) -> Result<Asked, AllocError>
    ensures is { IfOk result (λ asked. asking.question_of asked
        ≡ record { constraint = constraint.now.name; table = table.now.name; reference = reference.now }) }
    ensures ways { IfOk result (λ asked. Contains schema.now.tables table.now → asking.HasWays schema.now asked) }
{
    let columns = reference.columns.as_slice();
    let referenced = reference.referenced.as_slice();
    let matches = way_in(alloc, schema, &reference.table, columns, referenced)?;
    let again = way_in(alloc, schema, &reference.table, referenced, referenced)?;
    let referencing = way_over(alloc, table.indexes.as_slice(), referenced, columns)?;
    let constraint = constraint.name.copy(alloc)?;
    let table = table.name.copy(alloc)?;
    Ok(Asked {
        constraint,
        table,
        reference: copied(alloc, reference)?,
        matches,
        again,
        referencing,
    })
}

/// An index of the table of this name.
fn way_in(
    alloc: Global,
    schema: &Schema,
    name: &Text,
    from: &[usize],
    to: &[usize],
) -> Result<Option<Way>, AllocError>
    ensures { IfOk result (λ found. IfSome found (asking.LeadsIn schema.now name.now from.now to.now)) }
{
    match table_named(schema, name) {
        Some(table) => way_over(alloc, table.indexes.as_slice(), from, to),
        None => Ok(None),
    }
}

fn table_named<'a>(schema: &'a Schema, name: &Text) -> Option<&'a Table>
    ensures there { IfSome result (λ table. Contains schema.now.tables table.now) }
    ensures named { IfSome result (λ table. table.now.name ≡ name.now) }
{
    for table in schema.tables.as_slice() {
        if table.name.as_slice() == name.as_slice() {
            return Some(table);
        }
    }
    None
}

fn copied(alloc: Global, reference: &Reference) -> Result<Reference, AllocError>
    ensures { IfOk result (λ copy. copy ≡ reference.now) }
{
    let columns = Items::from_slice(alloc, reference.columns.as_slice())?;
    let table = reference.table.copy(alloc)?;
    let referenced = Items::from_slice(alloc, reference.referenced.as_slice())?;
    Ok(Reference {
        columns,
        table,
        referenced,
    })
}
