//! What is known of the constraints of a CREATE TABLE before their rules are looked at, and their
//! names.

ghost use Rattle.std.specs.Prelude.{◌≡◌, ◌≤◌, ◌<◌, ◌∷◌, ◌++◌, Ok, length, filter, map, if◌then◌else◌, IfOk, OnOk};
ghost use Rattle.std.specs.Fmt.{decimal};
ghost use Rattle.refusals.specs.declared.limit.Limit.TheVariants as limit;
ghost use Rattle.typing.specs.Constraint.{constraint_name};
ghost use Rattle.typing.specs.Finding.{Finding};
ghost use Rattle.typing.specs.Finds.{Finds};
ghost use Rattle.typing.specs.Table.{at_most};
ghost use Rattle.table_types.specs.Tables.{Counts, column_heading, element_headings, headed, headings_from, names_allowed, names_found, names_of, one_at_most, table_heading};

use crate::names::distinct_texts;
use ast::{ColumnConstraint, ColumnRule, TableElement, TableRule};
use items::{Items, Text};
use lexer::Name;
use refusals::{Limit, Reason, Refusal};
use std::alloc::{AllocError, Global};
use type_rules::both;

/// The greatest number of constraints of a table.
const MAXIMUM_CONSTRAINTS: usize = 32;

/// The greatest number of indexes of a table.
const MAXIMUM_INDEXES: usize = 8;

/// What is known of a constraint before its rule is looked at: its name where one is written,
/// whether it is a PRIMARY KEY, and whether it owns an index.
#[derive(Drop)]
pub struct Heading {
    pub name: Option<Text>,
    pub is_primary_key: bool,
    pub owns_index: bool,
}

/// The names of the constraints: the name given, or `#n` for the n-th of all.
///
/// At most 32 constraints, no two of one name, at most 8 that own an index, and at most one PRIMARY
/// KEY.
pub fn names_in(alloc: Global, elements: &[TableElement]) -> Result<Items<Text>, Refusal>
    ensures { Finds result (names_found (headings_from elements.now)) }
{
    let headings = headings_in(alloc, elements)?;
    names_found(alloc, headings.as_slice())
}

// ---- headings

fn headings_in(alloc: Global, elements: &[TableElement]) -> Result<Items<Heading>, AllocError>
    ensures { IfOk result (λ headings. headings ≡ headings_from elements.now) }
{
    let mut headings = Items::new(alloc);
    for element in elements {
        add_headings(alloc, &mut headings, element)?;
    }
    Ok(headings)
}

fn add_headings(
    alloc: Global,
    headings: &mut Items<Heading>,
    element: &TableElement,
) -> Result<(), AllocError>
    ensures { OnOk result (headings.new ≡ headings.old ++ element_headings element.now) }
{
    match element {
        TableElement::Column(column) => {
            add_column_headings(alloc, headings, column.constraints.as_slice())
        }
        TableElement::Constraint(constraint) => {
            let name = copied_name(alloc, &constraint.name)?;
            headings.push(table_heading(name, &constraint.rule))
        }
    }
}

fn add_column_headings(
    alloc: Global,
    headings: &mut Items<Heading>,
    constraints: &[ColumnConstraint],
) -> Result<(), AllocError>
    ensures { OnOk result (headings.new ≡ headings.old ++ map (λ c. column_heading c.name c.rule) constraints.now) }
{
    for constraint in constraints {
        let name = copied_name(alloc, &constraint.name)?;
        headings.push(column_heading(name, &constraint.rule))?;
    }
    Ok(())
}

fn column_heading(name: Option<Text>, rule: &ColumnRule) -> Heading
    ensures { result ≡ column_heading name rule.now }
{
    match rule {
        ColumnRule::NotNull => headed(name, false, false),
        ColumnRule::PrimaryKey => headed(name, true, true),
        ColumnRule::Unique => headed(name, false, true),
        ColumnRule::Check(_) => headed(name, false, false),
        ColumnRule::References(_) => headed(name, false, false),
    }
}

fn table_heading(name: Option<Text>, rule: &TableRule) -> Heading
    ensures { result ≡ table_heading name rule.now }
{
    match rule {
        TableRule::PrimaryKey(_) => headed(name, true, true),
        TableRule::Unique(_) => headed(name, false, true),
        TableRule::Check(_) => headed(name, false, false),
        TableRule::ForeignKey(_) => headed(name, false, false),
    }
}

fn headed(name: Option<Text>, is_primary_key: bool, owns_index: bool) -> Heading
    ensures { result ≡ headed name is_primary_key owns_index }
{
    Heading {
        name,
        is_primary_key,
        owns_index,
    }
}

fn copied_name(alloc: Global, name: &Option<Name>) -> Result<Option<Text>, AllocError>
    ensures { IfOk result (λ copy. copy ≡ name.now) }
{
    match name {
        Some(name) => Ok(Some(name.as_text().copy(alloc)?)),
        None => Ok(None),
    }
}

// ---- names

#[tactic(auto, using(crate::proofs::HeadingNames::name_steps))]
fn names_found(alloc: Global, headings: &[Heading]) -> Result<Items<Text>, Refusal>
    ensures { Finds result (names_found headings.now) }
{
    if headings.len() > MAXIMUM_CONSTRAINTS {
        return Err(Refusal::Exceeded(Limit::Constraints));
    }
    let names = names_of(alloc, headings)?;
    let indexes = few_indexes(index_count(headings));
    let keys = both(indexes, one_primary_key(primary_key_count(headings)));
    let allowed = both(distinct_texts(names.as_slice()), keys);
    names_allowed(names, allowed)
}

#[tactic(auto, using(type_rules::proofs::FindsLemmas::part_steps))]
fn names_allowed(
    names: Items<Text>,
    allowed: Result<((), ((), ())), Refusal>,
) -> Result<Items<Text>, Refusal>
    ensures { (x : Finding Counts) → Finds allowed x → Finds result (names_allowed names x) }
{
    allowed?;
    Ok(names)
}

fn few_indexes(count: usize) -> Result<(), Refusal>
    ensures { Finds result (at_most 8 limit.Indexes count) }
{
    if count > MAXIMUM_INDEXES {
        return Err(Refusal::Exceeded(Limit::Indexes));
    }
    Ok(())
}

fn one_primary_key(count: usize) -> Result<(), Refusal>
    ensures { Finds result (one_at_most count) }
{
    if count > 1 {
        return Err(Refusal::Invalid(Reason::Duplicate));
    }
    Ok(())
}

fn index_count(headings: &[Heading]) -> usize
    ensures { result ≡ length (filter (λ h. h.owns_index) headings.now) }
{
    let mut count = 0;
    for heading in headings {
        let more = one_if(heading.owns_index);
        count += more;
    }
    count
}

fn primary_key_count(headings: &[Heading]) -> usize
    ensures { result ≡ length (filter (λ h. h.is_primary_key) headings.now) }
{
    let mut count = 0;
    for heading in headings {
        let more = one_if(heading.is_primary_key);
        count += more;
    }
    count
}

fn one_if(test: bool) -> usize
    ensures count { result ≡ (if test then 1 else 0) }
    ensures few { result ≤ 1 }
{
    if test { 1 } else { 0 }
}

fn names_of(alloc: Global, headings: &[Heading]) -> Result<Items<Text>, Refusal>
    requires few { length headings.now ≤ 32 }
    ensures { Finds result (Ok (names_of 1 headings.now)) }
{
    let mut names = Items::with_capacity(alloc, headings.len())?;
    for (at, heading) in headings.iter().enumerate() {
        names.push(constraint_name(alloc, &heading.name, at + 1)?)?;
    }
    Ok(names)
}

/// The name given, or `#n` for the n-th constraint.
fn constraint_name(alloc: Global, given: &Option<Text>, number: usize) -> Result<Text, Refusal>
    requires small { number < 100 }
    ensures { Finds result (Ok (constraint_name number given.now)) }
{
    match given {
        Some(name) => Ok(name.copy(alloc)?),
        None => {
            match Text::from_items(number_codes(alloc, number)?) {
                Some(name) => Ok(name),
                None => Err(Refusal::Memory),
            }
        }
    }
}

/// `#` and a number of at most two digits.
#[tactic(auto, using(crate::proofs::HeadingNames::digit_steps))]
fn number_codes(alloc: Global, number: usize) -> Result<Items<u8>, AllocError>
    requires small { number < 100 }
    ensures { IfOk result (λ codes. codes ≡ 35 ∷ decimal number) }
{
    let mut codes = Items::with_capacity(alloc, 3)?;
    codes.push(b'#')?;
    if number >= 10 {
        codes.push(b'0' + (number / 10) as u8)?;
    }
    codes.push(b'0' + (number % 10) as u8)?;
    Ok(codes)
}
