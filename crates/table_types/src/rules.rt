//! What each constraint of a CREATE TABLE asks.

ghost use Rattle.std.specs.Prelude.{◌≡◌, ◌∷◌, ◌+◌, ◌<◌, ◌^◌, ℕ, List, [], Ok, length, map, IfOk};
ghost use Rattle.refusals.specs.declared.limit.Limit.TheVariants as limit;
ghost use Rattle.typing.specs.declared.typed.Condition.{Condition as Typed};
ghost use Rattle.typing.specs.Check.{check_rule};
ghost use Rattle.typing.specs.Finding.{Finding, each};
ghost use Rattle.typing.specs.Finds.{Finds};
ghost use Rattle.typing.specs.Known.{known};
ghost use Rattle.typing.specs.Table.{as_found, at_most};
ghost use Rattle.table_types.specs.Checks.{without_key};
ghost use Rattle.table_types.specs.ForeignKeys.{referencing_of};
ghost use Rattle.table_types.specs.Tables.{alone_of, column_rule_of, element_rules, kept, key_of, next_place, place_of, primary_key_of, rules_from, table_rule_of, unique_of};

use crate::checks::typed_check;
use crate::columns::Definition;
use crate::names::distinct_names;
use crate::references::reference_rule;
use ast::{ColumnConstraint, ColumnRule, CreateTable, TableElement, TableRule};
use condition_printer::text_of_condition;
use items::{Items, Text};
use lexer::Name;
use refusals::{Limit, Reason, Refusal};
use sqlval::{Rule, Schema};
use std::alloc::{AllocError, Global};
use type_rules::{both, second};
use typing::{Condition, Frame};

/// The greatest number of columns of a key.
const MAXIMUM_KEY_COLUMNS: usize = 4;

/// The greatest length of a CHECK's kept text.
const MAXIMUM_CHECK_LENGTH: usize = 800;

/// The rules of the constraints, in the order of the text. `frame` is what a CHECK sees.
pub fn rules_in(
    alloc: Global,
    schema: &Schema,
    tree: &CreateTable,
    frame: &Frame,
    definitions: &[Definition],
) -> Result<Items<Rule>, Refusal>
    ensures { Finds result (each (rules_from (without_key frame.now) (referencing_of (known schema.now) tree.now definitions.now) definitions.now 0 tree.now.elements)) }
{
    let mut rules = Items::new(alloc);
    let mut place = 0;
    for element in tree.elements.as_slice() {
        rules.append(element_rules(alloc, schema, tree, frame, definitions, place, element)?)?;
        place = next_place(place, element);
    }
    Ok(rules)
}

/// The place of the next column, after an element before which the next one had this place.
pub(crate) fn next_place(place: usize, element: &TableElement) -> usize
    requires small { place + 1 < 2 ^ 64 }
    ensures { result ≡ next_place place element.now }
{
    match element {
        TableElement::Column(_) => place + 1,
        TableElement::Constraint(_) => place,
    }
}

fn element_rules(
    alloc: Global,
    schema: &Schema,
    tree: &CreateTable,
    frame: &Frame,
    definitions: &[Definition],
    place: usize,
    element: &TableElement,
) -> Result<Items<Rule>, Refusal>
    ensures { Finds result (each (element_rules (without_key frame.now) (referencing_of (known schema.now) tree.now definitions.now) definitions.now place element.now)) }
{
    match element {
        TableElement::Column(column) => {
            let constraints = column.constraints.as_slice();
            column_rules(alloc, schema, tree, frame, definitions, place, constraints)
        }
        TableElement::Constraint(constraint) => {
            let rule = &constraint.rule;
            alone(
                alloc,
                table_rule(alloc, schema, tree, frame, definitions, rule),
            )
        }
    }
}

#[tactic(auto, using(type_rules::proofs::FindsLemmas::part_steps))]
fn alone(alloc: Global, rule: Result<Rule, Refusal>) -> Result<Items<Rule>, Refusal>
    ensures { (x : Finding Rule) → Finds rule x → Finds result (alone_of x) }
{
    let rule = rule?;
    Ok(only(alloc, rule)?)
}

fn column_rules(
    alloc: Global,
    schema: &Schema,
    tree: &CreateTable,
    frame: &Frame,
    definitions: &[Definition],
    place: usize,
    constraints: &[ColumnConstraint],
) -> Result<Items<Rule>, Refusal>
    ensures { Finds result (each (map (λ c. column_rule_of (without_key frame.now) (referencing_of (known schema.now) tree.now definitions.now) place c.rule) constraints.now)) }
{
    let mut rules = Items::new(alloc);
    for constraint in constraints {
        let rule = &constraint.rule;
        rules.push(column_rule(alloc, schema, tree, frame, definitions, place, rule)?)?;
    }
    Ok(rules)
}

fn column_rule(
    alloc: Global,
    schema: &Schema,
    tree: &CreateTable,
    frame: &Frame,
    definitions: &[Definition],
    place: usize,
    rule: &ColumnRule,
) -> Result<Rule, Refusal>
    ensures { Finds result (column_rule_of (without_key frame.now) (referencing_of (known schema.now) tree.now definitions.now) place rule.now) }
{
    match rule {
        ColumnRule::NotNull => Ok(Rule::NotNull(place)),
        ColumnRule::PrimaryKey => Ok(Rule::PrimaryKey(only(alloc, place)?)),
        ColumnRule::Unique => Ok(Rule::Unique(only(alloc, place)?)),
        ColumnRule::Check(condition) => check_rule(alloc, frame, condition),
        ColumnRule::References(references) => {
            let own = lone(alloc, place);
            reference_rule(alloc, schema, tree, definitions, own, references)
        }
    }
}

/// One place, as a list of places is found.
fn lone(alloc: Global, place: usize) -> Result<Items<usize>, Refusal>
    ensures { Finds result (Ok (place ∷ [])) }
{
    Ok(only(alloc, place)?)
}

pub(crate) fn only<T: Drop>(alloc: Global, item: T) -> Result<Items<T>, AllocError>
    ensures { IfOk result (λ items. items ≡ item ∷ []) }
{
    let mut items = Items::with_capacity(alloc, 1)?;
    items.push(item)?;
    Ok(items)
}

fn table_rule(
    alloc: Global,
    schema: &Schema,
    tree: &CreateTable,
    frame: &Frame,
    definitions: &[Definition],
    rule: &TableRule,
) -> Result<Rule, Refusal>
    ensures { Finds result (table_rule_of (without_key frame.now) (referencing_of (known schema.now) tree.now definitions.now) definitions.now rule.now) }
{
    match rule {
        TableRule::PrimaryKey(names) => primary_key(key_of(alloc, definitions, names.as_slice())),
        TableRule::Unique(names) => unique(key_of(alloc, definitions, names.as_slice())),
        TableRule::Check(condition) => check_rule(alloc, frame, condition),
        TableRule::ForeignKey(key) => {
            let own = key_of(alloc, definitions, key.columns.as_slice());
            reference_rule(alloc, schema, tree, definitions, own, &key.references)
        }
    }
}

#[tactic(auto, using(type_rules::proofs::FindsLemmas::part_steps))]
fn primary_key(key: Result<Items<usize>, Refusal>) -> Result<Rule, Refusal>
    ensures { (x : Finding (List ℕ)) → Finds key x → Finds result (primary_key_of x) }
{
    Ok(Rule::PrimaryKey(key?))
}

#[tactic(auto, using(type_rules::proofs::FindsLemmas::part_steps))]
fn unique(key: Result<Items<usize>, Refusal>) -> Result<Rule, Refusal>
    ensures { (x : Finding (List ℕ)) → Finds key x → Finds result (unique_of x) }
{
    Ok(Rule::Unique(key?))
}

// ---- keys

/// The places of a key's columns: at most 4, and no column twice.
pub(crate) fn key_of(
    alloc: Global,
    definitions: &[Definition],
    names: &[Name],
) -> Result<Items<usize>, Refusal>
    ensures { Finds result (key_of definitions.now names.now) }
{
    let list = both(few_columns(names), distinct_names(alloc, names));
    second(both(list, places_of(alloc, definitions, names)))
}

fn few_columns(names: &[Name]) -> Result<(), Refusal>
    ensures { Finds result (at_most 4 limit.KeyColumns (length names.now)) }
{
    if names.len() > MAXIMUM_KEY_COLUMNS {
        return Err(Refusal::Exceeded(Limit::KeyColumns));
    }
    Ok(())
}

fn places_of(
    alloc: Global,
    definitions: &[Definition],
    names: &[Name],
) -> Result<Items<usize>, Refusal>
    ensures { Finds result (each (map (λ name. as_found (place_of definitions.now name)) names.now)) }
{
    let mut places = Items::new(alloc);
    for name in names {
        places.push(place_named(definitions, name.as_text())?)?;
    }
    Ok(places)
}

fn place_named(definitions: &[Definition], name: &Text) -> Result<usize, Refusal>
    ensures { Finds result (as_found (place_of definitions.now name.now)) }
{
    match place_of(definitions, name) {
        Some(place) => Ok(place),
        None => Err(Refusal::Invalid(Reason::Name)),
    }
}

fn place_of(definitions: &[Definition], name: &Text) -> Option<usize>
    ensures { result ≡ place_of definitions.now name.now }
{
    for (at, definition) in definitions.iter().enumerate() {
        if definition.name.as_slice() == name.as_slice() {
            return Some(at);
        }
    }
    None
}

// ---- CHECK

/// The text that is kept of a CHECK, of at most 800 characters.
fn check_rule(alloc: Global, frame: &Frame, condition: &ast::Condition) -> Result<Rule, Refusal>
    ensures { Finds result (check_rule (without_key frame.now) condition.now) }
{
    let text = text_of_condition(alloc, condition)?;
    let found = both(
        few_characters(text.as_slice()),
        typed_check(alloc, frame, condition),
    );
    kept(text, found)
}

fn few_characters(text: &[u8]) -> Result<(), Refusal>
    ensures { Finds result (at_most 800 limit.Check (length text.now)) }
{
    if text.len() > MAXIMUM_CHECK_LENGTH {
        return Err(Refusal::Exceeded(Limit::Check));
    }
    Ok(())
}

fn kept(text: Items<u8>, found: Result<((), Condition), Refusal>) -> Result<Rule, Refusal>
    ensures { (x : Finding (Unit {0} × Typed)) → Finds found x → Finds result (kept text x) }
{
    found?;
    match Text::from_items(text) {
        Some(text) => Ok(Rule::Check(text)),
        None => Err(Refusal::Memory),
    }
}
