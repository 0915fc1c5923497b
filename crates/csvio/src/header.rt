//! The first record as names of columns.
ghost use Rattle.std.specs.Prelude.{◌≡◌, ◌≢◌, ◌⊎◌, List, ℕ, true, false, IfOk, IfErr};
ghost use Rattle.std.specs.List.{list_all, list_any};
ghost use Rattle.sqlval.specs.Schema.{same_name};
ghost use Rattle.csv.specs.Records.{fields_of};
ghost use Rattle.csv_rows.specs.Paired.{ArePaired};
ghost use Rattle.refusals.specs.declared.refusal.Refusal.TheVariants.{Invalid, Memory};
ghost use Rattle.refusals.specs.declared.reason.Reason.TheVariants as reason;
ghost use Rattle.csvio.specs.TableName.{IsNameIn};
ghost use Rattle.csvio.specs.Forms.{NamesColumns, RefusesHeader, are_distinct, is_column};

use crate::table_name::table_name;
use csv::ByteRecord;
use items::{Items, Text};
use refusals::{Reason, Refusal};
use sqlval::Column;
use std::alloc::Global;

/// The names that a record has, each that of a column and none twice. What is no single name, and a
/// name that no column has, is refused by `name`; else one that stands twice by `duplicate`.
/// Refuses for want of memory too.
pub(crate) fn header_of(
    alloc: Global,
    columns: &[Column],
    fields: &ByteRecord,
) -> Result<Items<Text>, Refusal>
    ensures names { IfOk result (λ names. NamesColumns columns.now (fields_of fields.now) names
        × (are_distinct names ≡ true)) }
    ensures only { IfOk result (λ names. (others : List (List ℕ))
        → NamesColumns columns.now (fields_of fields.now) others → others ≡ names) }
    ensures refused { IfErr result (RefusesHeader columns.now (fields_of fields.now)) }
{
    match names_of(alloc, fields) {
        Ok(names) => of_columns(columns, names),
        Err(refusal) => Err(refusal),
    }
}

/// These names, each that of a column and none twice.
fn of_columns(columns: &[Column], names: Items<Text>) -> Result<Items<Text>, Refusal>
    ensures names { IfOk result (λ found. (found ≡ names) × (list_all (is_column columns.now) names ≡ true)
        × (are_distinct names ≡ true)) }
    ensures refused { IfErr result (λ refusal. ((refusal ≡ Invalid reason.Name)
        × (list_all (is_column columns.now) names ≡ false))
        ⊎ ((refusal ≡ Invalid reason.Duplicate) × (list_all (is_column columns.now) names ≡ true)
        × (are_distinct names ≡ false))) }
{
    if !are_columns(columns, names.as_slice()) {
        return Err(Refusal::Invalid(Reason::Name));
    }
    if !are_distinct(names.as_slice()) {
        return Err(Refusal::Invalid(Reason::Duplicate));
    }
    Ok(names)
}

/// The name that each field of a record is.
fn names_of(alloc: Global, fields: &ByteRecord) -> Result<Items<Text>, Refusal>
    ensures names { IfOk result (ArePaired IsNameIn (fields_of fields.now)) }
    ensures only { IfOk result (λ names. (others : List (List ℕ)) → ArePaired IsNameIn (fields_of fields.now) others
        → others ≡ names) }
    ensures refused { IfErr result (λ refusal. refusal ≢ Memory → (refusal ≡ Invalid reason.Name)
        × ((names : List (List ℕ)) → ArePaired IsNameIn (fields_of fields.now) names → ⊥)) }
{
    let mut names = Items::new(alloc);
    for field in fields {
        match table_name(alloc, field) {
            Ok(name) => names.push(name)?,
            Err(refusal) => return Err(refusal),
        }
    }
    Ok(names)
}

/// Whether each of these names is that of a column.
fn are_columns(columns: &[Column], names: &[Text]) -> bool
    ensures { result ≡ list_all (is_column columns.now) names.now }
{
    for name in names {
        if !is_column(columns, name) {
            return false;
        }
    }
    true
}

/// Whether a column has this name.
fn is_column(columns: &[Column], name: &Text) -> bool
    ensures { result ≡ is_column columns.now name.now }
{
    for column in columns {
        if column.name.as_slice() == name.as_slice() {
            return true;
        }
    }
    false
}

/// Whether no name stands twice.
fn are_distinct(names: &[Text]) -> bool
    ensures { result ≡ are_distinct names.now }
{
    let mut left = names;
    while let Some((name, rest)) = left.split_first() {
        if is_among(rest, name) {
            return false;
        }
        left = rest;
    }
    true
}

/// Whether a name stands among these.
fn is_among(names: &[Text], name: &Text) -> bool
    ensures { result ≡ list_any (λ other. same_name other name.now) names.now }
{
    for other in names {
        if other.as_slice() == name.as_slice() {
            return true;
        }
    }
    false
}
