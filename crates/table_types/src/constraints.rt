//! The constraints of a CREATE TABLE, with their names.

ghost use Rattle.std.specs.Prelude.{◌≡◌, ℕ, List, IfOk};
ghost use Rattle.sqlval.specs.declared.schema.Rule.{Rule};
ghost use Rattle.typing.specs.Finding.{Finding};
ghost use Rattle.typing.specs.Finds.{Finds};
ghost use Rattle.typing.specs.Known.{known};
ghost use Rattle.table_types.specs.ForeignKeys.{referencing_of};
ghost use Rattle.table_types.specs.Tables.{constraints_in, constraints_of, defined, named_by};

use crate::columns::{Definition, defined_frame};
use crate::headings::names_in;
use crate::rules::rules_in;
use items::{Items, Text};
use refusals::Refusal;
use sqlval::{Constraint, Rule, Schema};
use std::alloc::{AllocError, Global};
use type_rules::both;

/// The constraints that are written in a CREATE TABLE with these columns, in the order of the text.
pub fn typed_constraints(
    alloc: Global,
    schema: &Schema,
    tree: &ast::CreateTable,
    definitions: &[Definition],
) -> Result<Items<Constraint>, Refusal>
    requires defined { definitions.now ≡ defined tree.now.elements }
    ensures { Finds result (constraints_in (referencing_of (known schema.now) tree.now definitions.now) tree.now) }
{
    let frame = defined_frame(alloc, tree.table.as_text(), definitions)?;
    let rules = rules_in(alloc, schema, tree, &frame, definitions);
    let names = names_in(alloc, tree.elements.as_slice());
    constraints_of(alloc, both(names, rules))
}

fn constraints_of(
    alloc: Global,
    parts: Result<(Items<Text>, Items<Rule>), Refusal>,
) -> Result<Items<Constraint>, Refusal>
    ensures { (x : Finding (List (List ℕ) × List Rule)) → Finds parts x → Finds result (constraints_of x) }
{
    let (names, rules) = parts?;
    Ok(named_rules(alloc, names.as_slice(), rules)?)
}

fn named_rules(
    alloc: Global,
    names: &[Text],
    rules: Items<Rule>,
) -> Result<Items<Constraint>, AllocError>
    ensures { IfOk result (λ constraints. constraints ≡ named_by names.now rules) }
{
    let mut constraints = Items::new(alloc);
    let mut left = names;
    for rule in rules.into_vec() {
        if let Some((name, others)) = left.split_first() {
            let name = name.copy(alloc)?;
            constraints.push(Constraint { name, rule })?;
            left = others;
        }
    }
    Ok(constraints)
}
