//! What the foreign keys of a CREATE TABLE reference.

ghost use Rattle.std.specs.Prelude.{◌≡◌, ◌∷◌, ℕ, List, IfErr, IfOk, nat_eq, slice_get};
ghost use Rattle.std.specs.List.{list_all, list_any};
ghost use Rattle.typing.specs.Finding.{Finding, reasons_in};
ghost use Rattle.typing.specs.Finds.{Finds, IsReasonOf};
ghost use Rattle.typing.specs.Known.{known};
ghost use Rattle.typing.specs.References.{are_same_places, columns_referenced, count_matches, is_same_column, is_same_type, key_listed, matched, meant_by, primary_columns, referenced_table, type_matches, types_match};
ghost use Rattle.typing.specs.Table.{as_found, places_named};
ghost use Rattle.typing.specs.Known.{place_in};
ghost use Rattle.typing.specs.declared.known.KnownTable.{KnownTable as AnyTable};
ghost use Rattle.typing.specs.declared.known.Meant.{Meant as AnyMeant};
ghost use Rattle.table_types.specs.ForeignKeys.{done, foreign_key_of, listed_columns, meant_of, own_table_of, referencing_of, rule_made};

use crate::columns::Definition;
use crate::known_tables::{copied_places, own_table, stored_table};
use crate::names::distinct_names;
use ast::{CreateTable, References};
use items::{Items, Text};
use lexer::Name;
use refusals::{Reason, Refusal};
use sqlval::{Column, Reference, Rule, Schema, ValueType};
use std::alloc::Global;
use type_rules::{both, second, value_type_of};
use typing::{KnownKey, KnownTable, Meant};

/// The foreign key of columns at these places of the table that a CREATE TABLE makes.
///
/// Nothing is said of it where these, or the columns and keys of the table, are refused.
pub(crate) fn reference_rule(
    alloc: Global,
    schema: &Schema,
    tree: &CreateTable,
    definitions: &[Definition],
    places: Result<Items<usize>, Refusal>,
    references: &References,
) -> Result<Rule, Refusal>
    ensures { (x : Finding (List ℕ)) → Finds places x
        → Finds result (referencing_of (known schema.now) tree.now definitions.now x references.now) }
{
    let own = own_table(alloc, definitions, tree.elements.as_slice());
    let table = referenced_table(alloc, schema, tree, definitions, references.table.as_text());
    let meant = meant_by(alloc, table, references.columns.as_slice());
    foreign_key(alloc, &references.table, both(both(own, places), meant))
}

/// The table of a name: the one that is being made, where it is that one's.
fn referenced_table(
    alloc: Global,
    schema: &Schema,
    tree: &CreateTable,
    definitions: &[Definition],
    name: &Text,
) -> Result<KnownTable, Refusal>
    ensures { Finds result (referenced_table (known schema.now) tree.now.table (own_table_of definitions.now tree.now.elements) name.now) }
{
    if name.as_slice() == tree.table.as_text().as_slice() {
        return own_table(alloc, definitions, tree.elements.as_slice());
    }
    stored_table(alloc, schema, name)
}

// ---- the columns that are referenced

#[tactic(auto, using(type_rules::proofs::FindsLemmas::part_steps))]
fn meant_by(
    alloc: Global,
    table: Result<KnownTable, Refusal>,
    names: &[Name],
) -> Result<Meant, Refusal>
    ensures { (x : Finding AnyTable) → Finds table x → Finds result (meant_by x names.now) }
{
    let table = table?;
    let columns = columns_referenced(alloc, &table, names);
    meant_of(table, columns)
}

#[tactic(auto, using(type_rules::proofs::FindsLemmas::part_steps))]
fn meant_of(table: KnownTable, columns: Result<Items<usize>, Refusal>) -> Result<Meant, Refusal>
    ensures { (x : Finding (List ℕ)) → Finds columns x → Finds result (meant_of table x) }
{
    let columns = columns?;
    Ok(Meant { table, columns })
}

/// The columns that are listed, no column twice; without a list the PRIMARY KEY.
fn columns_referenced(
    alloc: Global,
    table: &KnownTable,
    names: &[Name],
) -> Result<Items<usize>, Refusal>
    ensures { Finds result (columns_referenced table.now names.now) }
{
    if names.is_empty() {
        primary_columns(alloc, table.keys.as_slice())
    } else {
        listed_columns(alloc, table.columns.as_slice(), names)
    }
}

fn listed_columns(
    alloc: Global,
    columns: &[Column],
    names: &[Name],
) -> Result<Items<usize>, Refusal>
    ensures { Finds result (listed_columns columns.now names.now) }
{
    let places = places_named(alloc, columns, names);
    second(both(distinct_names(alloc, names), places))
}

fn primary_columns(alloc: Global, keys: &[KnownKey]) -> Result<Items<usize>, Refusal>
    ensures { Finds result (primary_columns keys.now) }
{
    for key in keys {
        if key.is_primary {
            return Ok(copied_places(alloc, &key.columns)?);
        }
    }
    Err(Refusal::Invalid(Reason::Reference))
}

fn places_named(alloc: Global, columns: &[Column], names: &[Name]) -> Result<Items<usize>, Refusal>
    ensures { Finds result (places_named columns.now names.now) }
{
    let mut places = Items::new(alloc);
    for name in names {
        places.push(place_named(columns, name.as_text())?)?;
    }
    Ok(places)
}

fn place_named(columns: &[Column], name: &Text) -> Result<usize, Refusal>
    ensures { Finds result (as_found (place_in columns.now name.now)) }
{
    match place_in(columns, name) {
        Some(place) => Ok(place),
        None => Err(Refusal::Invalid(Reason::Name)),
    }
}

fn place_in(columns: &[Column], name: &Text) -> Option<usize>
    ensures { result ≡ place_in columns.now name.now }
{
    for (at, column) in columns.iter().enumerate() {
        if column.name.as_slice() == name.as_slice() {
            return Some(at);
        }
    }
    None
}

// ---- what they are beside the columns of the foreign key

fn foreign_key(
    alloc: Global,
    table: &Name,
    parts: Result<((KnownTable, Items<usize>), Meant), Refusal>,
) -> Result<Rule, Refusal>
    ensures { (x : Finding ((AnyTable × List ℕ) × AnyMeant)) → Finds parts x
        → Finds result (foreign_key_of table.now x) }
{
    let ((own, columns), meant) = parts?;
    let found = matched(own.columns.as_slice(), columns.as_slice(), &meant);
    rule_made(alloc, table, columns, meant.columns, found)
}

#[tactic(auto, using(type_rules::proofs::FindsLemmas::part_steps))]
fn rule_made(
    alloc: Global,
    table: &Name,
    columns: Items<usize>,
    referenced: Items<usize>,
    found: Result<(), Refusal>,
) -> Result<Rule, Refusal>
    ensures { (x : Finding (Unit {0})) → Finds found x → Finds result (rule_made table.now columns referenced x) }
{
    found?;
    let table = table.as_text().copy(alloc)?;
    Ok(Rule::ForeignKey(Reference {
        columns,
        table,
        referenced,
    }))
}

/// A key, of as many columns as there are own ones, each of the type of its own one.
fn matched(columns: &[Column], places: &[usize], meant: &Meant) -> Result<(), Refusal>
    ensures { Finds result (matched columns.now places.now meant.now.table meant.now.columns) }
{
    let others = meant.columns.as_slice();
    let key = key_listed(meant.table.keys.as_slice(), others);
    let count = count_matches(places, others);
    let types = types_match(columns, meant.table.columns.as_slice(), places, others);
    done(both(key, both(count, types)))
}

#[tactic(auto, using(type_rules::proofs::FindsLemmas::part_steps))]
fn done(parts: Result<((), ((), ())), Refusal>) -> Result<(), Refusal>
    ensures { (x : Finding (Unit {0} × (Unit {0} × Unit {0}))) → Finds parts x → Finds result (done x) }
{
    parts?;
    Ok(())
}

/// All columns of one PRIMARY KEY or UNIQUE, in any order.
fn key_listed(keys: &[KnownKey], places: &[usize]) -> Result<(), Refusal>
    ensures { Finds result (key_listed keys.now places.now) }
{
    if !is_key(keys, places) {
        return Err(Refusal::Invalid(Reason::Reference));
    }
    Ok(())
}

fn is_key(keys: &[KnownKey], places: &[usize]) -> bool
    ensures { result ≡ list_any (λ key. are_same_places key.columns places.now) keys.now }
{
    keys.iter()
        .any(|key| are_same_places(key.columns.as_slice(), places))
}

fn are_same_places(one: &[usize], other: &[usize]) -> bool
    ensures { result ≡ are_same_places one.now other.now }
{
    if one.len() != other.len() {
        return false;
    }
    are_among(other, one)
}

fn are_among(places: &[usize], some: &[usize]) -> bool
    ensures { result ≡ list_all (λ place. list_any (nat_eq place) places.now) some.now }
{
    some.iter().all(|place| has_place(places, *place))
}

fn has_place(places: &[usize], place: usize) -> bool
    ensures { result ≡ list_any (nat_eq place) places.now }
{
    places.iter().any(|other| place == *other)
}

fn count_matches(places: &[usize], others: &[usize]) -> Result<(), Refusal>
    ensures { Finds result (count_matches places.now others.now) }
{
    if places.len() != others.len() {
        return Err(Refusal::Invalid(Reason::Columns));
    }
    Ok(())
}

/// Each of these columns beside the one that it references.
fn types_match(
    columns: &[Column],
    others: &[Column],
    places: &[usize],
    referenced: &[usize],
) -> Result<(), Refusal>
    ensures { Finds result (types_match columns.now others.now places.now referenced.now) }
{
    let mut left = referenced;
    for place in places {
        left = behind_match(columns, others, *place, left)?;
    }
    Ok(())
}

/// Those behind the first of these columns, which is to be of the type of this one; none where
/// there is none.
#[tactic(auto, using(crate::proofs::TypePairs::pair_steps))]
fn behind_match<'a>(
    columns: &[Column],
    others: &[Column],
    one: usize,
    left: &'a [usize],
) -> Result<&'a [usize], Refusal>
    ensures ok { IfOk result (λ rest. (more : List ℕ) → types_match columns.now others.now (one ∷ more) left.now
        ≡ types_match columns.now others.now more rest.now) }
    ensures err { IfErr result (λ refusal. (more : List ℕ)
        → IsReasonOf (reasons_in (types_match columns.now others.now (one ∷ more) left.now)) refusal) }
{
    match left.split_first() {
        Some((other, rest)) => match type_matches(columns, others, one, *other) {
            Ok(()) => Ok(rest),
            Err(refusal) => Err(refusal),
        },
        None => Ok(left),
    }
}

/// Integers reference integers and texts texts, whatever the lengths.
fn type_matches(
    columns: &[Column],
    others: &[Column],
    one: usize,
    other: usize,
) -> Result<(), Refusal>
    ensures { Finds result (type_matches columns.now others.now one other) }
{
    if !is_same_column(columns, others, one, other) {
        return Err(Refusal::Invalid(Reason::DataType));
    }
    Ok(())
}

fn is_same_column(columns: &[Column], others: &[Column], one: usize, other: usize) -> bool
    ensures { result ≡ is_same_column (slice_get columns.now one) (slice_get others.now other) }
{
    match columns.get(one) {
        None => true,
        Some(column) => match others.get(other) {
            None => true,
            Some(referenced) => {
                let value_type = value_type_of(referenced.column_type);
                is_same_type(value_type_of(column.column_type), value_type)
            }
        },
    }
}

fn is_same_type(one: ValueType, other: ValueType) -> bool
    ensures { result ≡ is_same_type one other }
{
    match one {
        ValueType::Integer => match other {
            ValueType::Integer => true,
            ValueType::Text => false,
        },
        ValueType::Text => match other {
            ValueType::Integer => false,
            ValueType::Text => true,
        },
    }
}
