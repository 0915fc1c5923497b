//! The parts of a table, each read from the row of its record.
ghost use Rattle.std.specs.Prelude.{◌≡◌, [], ◌∷◌, ◌<◌, ◌^◌, ℕ, List, Option, IfOk, IsOk};
ghost use Rattle.sqlval.specs.declared.value.Value.{Value as AnyValue};
ghost use Rattle.sqlval.specs.declared.storing.ColumnType.{ColumnType as AnyType};
ghost use Rattle.sqlval.specs.declared.schema.Column.{Column as AnyColumn};
ghost use Rattle.sqlval.specs.declared.schema.Reference.{Reference as AnyReference};
ghost use Rattle.sqlval.specs.declared.schema.Rule.{Rule as AnyRule};
ghost use Rattle.sqlval.specs.declared.schema.Constraint.{Constraint as AnyConstraint};
ghost use Rattle.sqlval.specs.declared.schema.Index.{Index as AnyIndex};
ghost use Rattle.catalog_records.specs.Records.{width_of, sort_of, detail_of, others_of, referenced_values, owner_number, name_value};
ghost use Rattle.catalog_records.specs.Given.{Gives, GivesFront};
ghost use Rattle.catalog_records.specs.Places.{places_text};
ghost use Rattle.catalog_records.specs.Keepable.{IsType, IsColumn, IsReference, IsRule, IsConstraint, IsIndex};
ghost use Rattle.catalog_records.specs.Rows.{column_row, constraint_row, index_row};

use crate::read_error::ReadError;
use crate::read_places::places_of_text;
use crate::values::{nothing_left, number_first, text_first};
use items::Text;
use sqlval::{Column, ColumnType, Constraint, Index, Reference, Rule, Value};
use std::alloc::Global;

/// The type of a column: 0 is INTEGER, any other number up to 255 the n of VARCHAR(n).
fn type_of_width(width: usize) -> Result<ColumnType, ReadError>
    ensures sound { IfOk result (λ made. width_of made ≡ width) }
    ensures kept { IfOk result IsType }
    ensures again { (made : AnyType) → IsType made → width_of made ≡ width → Gives result made }
{
    if width == 0 {
        return Ok(ColumnType::Integer);
    }
    match u8::try_from(width) {
        Ok(most) => Ok(ColumnType::Varchar(most)),
        Err(_) => Err(ReadError::Damaged),
    }
}

/// The column of a row.
///
/// Refused for want of memory, and as damaged just where it is the row of no column.
pub(crate) fn column_in(alloc: Global, row: &[Value]) -> Result<Column, ReadError>
    ensures sound { IfOk result (λ column. column_row column ≡ row.now) }
    ensures kept { IfOk result IsColumn }
    ensures again { (column : AnyColumn) → IsColumn column → column_row column ≡ row.now → Gives result column }
{
    let (name, rest) = text_first(row)?;
    let (width, rest) = number_first(rest)?;
    nothing_left(rest)?;
    let column_type = type_of_width(width)?;
    let name = name.copy(alloc)?;
    Ok(Column { name, column_type })
}

/// The rule of this sort, with this text of its columns or its condition, and these values behind
/// it.
#[tactic(auto, using(crate::proofs::RuleLemmas::no_others))]
fn rule_in(alloc: Global, sort: usize, detail: &Text, others: &[Value]) -> Result<Rule, ReadError>
    ensures sort { IfOk result (λ rule. sort_of rule ≡ sort) }
    ensures detail { IfOk result (λ rule. detail_of rule ≡ detail.now) }
    ensures others { IfOk result (λ rule. others_of rule ≡ others.now) }
    ensures kept { IfOk result IsRule }
    ensures again { (rule : AnyRule) → IsRule rule → sort_of rule ≡ sort → detail_of rule ≡ detail.now
        → others_of rule ≡ others.now → Gives result rule }
{
    if sort == 5 {
        return foreign_key_in(alloc, detail, others);
    }
    nothing_left(others)?;
    own_rule_in(alloc, sort, detail)
}

/// The foreign key with this text of its columns, and these values behind it.
fn foreign_key_in(alloc: Global, detail: &Text, others: &[Value]) -> Result<Rule, ReadError>
    ensures sort { IfOk result (λ rule. sort_of rule ≡ 5) }
    ensures detail { IfOk result (λ rule. detail_of rule ≡ detail.now) }
    ensures others { IfOk result (λ rule. others_of rule ≡ others.now) }
    ensures kept { IfOk result IsRule }
    ensures again { (reference : AnyReference) → IsReference reference → places_text reference.columns ≡ detail.now
        → referenced_values reference ≡ others.now
        → Gives result (AnyRule.ForeignKey reference) }
{
    let reference = reference_in(alloc, detail, others)?;
    Ok(Rule::ForeignKey(reference))
}

/// What a foreign key with this text of its own columns references, by the values behind it: the
/// name of a table, and the places of that table's columns.
fn reference_in(alloc: Global, detail: &Text, others: &[Value]) -> Result<Reference, ReadError>
    ensures detail { IfOk result (λ reference. places_text reference.columns ≡ detail.now) }
    ensures others { IfOk result (λ reference. referenced_values reference ≡ others.now) }
    ensures kept { IfOk result IsReference }
    ensures again { (reference : AnyReference) → IsReference reference → places_text reference.columns ≡ detail.now
        → referenced_values reference ≡ others.now → Gives result reference }
{
    let (table, rest) = text_first(others)?;
    let (places, rest) = text_first(rest)?;
    nothing_left(rest)?;
    let columns = places_of_text(alloc, detail.as_slice())?;
    let referenced = places_of_text(alloc, places.as_slice())?;
    let table = table.copy(alloc)?;
    Ok(Reference {
        columns,
        table,
        referenced,
    })
}

/// The rule of this sort, behind whose text of its columns or its condition nothing stands.
fn own_rule_in(alloc: Global, sort: usize, detail: &Text) -> Result<Rule, ReadError>
    ensures sort { IfOk result (λ rule. sort_of rule ≡ sort) }
    ensures detail { IfOk result (λ rule. detail_of rule ≡ detail.now) }
    ensures others { IfOk result (λ rule. others_of rule ≡ []) }
    ensures kept { IfOk result IsRule }
    ensures again { (rule : AnyRule) → IsRule rule → sort_of rule ≡ sort → detail_of rule ≡ detail.now
        → others_of rule ≡ [] → Gives result rule }
{
    match sort {
        1 => not_null_in(alloc, detail),
        2 => {
            let columns = places_of_text(alloc, detail.as_slice())?;
            Ok(Rule::PrimaryKey(columns))
        }
        3 => {
            let columns = places_of_text(alloc, detail.as_slice())?;
            Ok(Rule::Unique(columns))
        }
        4 => {
            let text = detail.copy(alloc)?;
            Ok(Rule::Check(text))
        }
        _ => Err(ReadError::Damaged),
    }
}

/// The rule NOT NULL of the one column that a text names.
fn not_null_in(alloc: Global, detail: &Text) -> Result<Rule, ReadError>
    ensures sort { IfOk result (λ rule. sort_of rule ≡ 1) }
    ensures detail { IfOk result (λ rule. detail_of rule ≡ detail.now) }
    ensures others { IfOk result (λ rule. others_of rule ≡ []) }
    ensures kept { IfOk result IsRule }
    ensures again { (rule : AnyRule) → IsRule rule → sort_of rule ≡ 1 → detail_of rule ≡ detail.now
        → Gives result rule }
{
    let places = places_of_text(alloc, detail.as_slice())?;
    if places.len() != 1 {
        return Err(ReadError::Damaged);
    }
    Ok(Rule::NotNull(places.as_slice()[0]))
}

/// The constraint of a row.
///
/// Refused for want of memory, and as damaged just where it is the row of no constraint.
pub(crate) fn constraint_in(alloc: Global, row: &[Value]) -> Result<Constraint, ReadError>
    ensures sound { IfOk result (λ constraint. constraint_row constraint ≡ row.now) }
    ensures kept { IfOk result IsConstraint }
    ensures again { (constraint : AnyConstraint) → IsConstraint constraint → constraint_row constraint ≡ row.now
        → Gives result constraint }
{
    let (name, rest) = text_first(row)?;
    let (sort, rest) = number_first(rest)?;
    let (detail, others) = text_first(rest)?;
    let rule = rule_in(alloc, sort, detail, others)?;
    let name = name.copy(alloc)?;
    Ok(Constraint { name, rule })
}

/// The name that stands first, null where there is none, and the values behind it.
fn name_first(alloc: Global, values: &[Value]) -> Result<(Option<Text>, &[Value]), ReadError>
    ensures sound { IfOk result (λ given. name_value given.0 ∷ given.1.now ≡ values.now) }
    ensures again { (name : Option (List ℕ)) (rest : List AnyValue) → name_value name ∷ rest ≡ values.now
        → GivesFront result name rest }
{
    match values.split_first() {
        Some((Value::Null, rest)) => Ok((None, rest)),
        Some((Value::Text(name), rest)) => {
            let name = name.copy(alloc)?;
            Ok((Some(name), rest))
        }
        _ => Err(ReadError::Damaged),
    }
}

/// The place of the constraint of this number; none of 0.
fn owner_of(number: usize) -> Option<usize>
    ensures sound { owner_number result ≡ number }
    ensures again { (owner : Option ℕ) → owner_number owner ≡ number → result ≡ owner }
{
    if number == 0 { None } else { Some(number - 1) }
}

/// A page's number.
pub(crate) fn page_of(number: usize) -> Result<u32, ReadError>
    ensures sound { IfOk result (λ page. (page ≡ number) × (page < 2 ^ 32)) }
    ensures again { number < 2 ^ 32 → IsOk result }
{
    match u32::try_from(number) {
        Ok(page) => Ok(page),
        Err(_) => Err(ReadError::Damaged),
    }
}

/// The index of a row.
///
/// Refused for want of memory, and as damaged just where it is the row of no index.
pub(crate) fn index_in(alloc: Global, row: &[Value]) -> Result<Index, ReadError>
    ensures sound { IfOk result (λ index. index_row index ≡ row.now) }
    ensures kept { IfOk result IsIndex }
    ensures again { (index : AnyIndex) → IsIndex index → index_row index ≡ row.now → Gives result index }
{
    let (name, rest) = name_first(alloc, row)?;
    let (owner, rest) = number_first(rest)?;
    let (root, rest) = number_first(rest)?;
    let (places, rest) = text_first(rest)?;
    nothing_left(rest)?;
    let root = page_of(root)?;
    let columns = places_of_text(alloc, places.as_slice())?;
    let owner = owner_of(owner);
    Ok(Index {
        name,
        columns,
        owner,
        root,
    })
}
