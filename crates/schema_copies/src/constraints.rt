//! Copies of the constraints of a table.
ghost use Rattle.std.specs.Prelude.{◌≡◌, IfOk};

use crate::indexes::copied_places;
use items::Items;
use sqlval::{Constraint, Reference, Rule};
use std::alloc::{AllocError, Global};

pub(crate) fn copied_constraints(
    alloc: Global,
    constraints: &[Constraint],
) -> Result<Items<Constraint>, AllocError>
    ensures { IfOk result (λ copied. copied ≡ constraints.now) }
{
    let mut copied = Items::new(alloc);
    for constraint in constraints {
        copied.push(copied_constraint(alloc, constraint)?)?;
    }
    Ok(copied)
}

fn copied_constraint(alloc: Global, constraint: &Constraint) -> Result<Constraint, AllocError>
    ensures { IfOk result (λ copied. copied ≡ constraint.now) }
{
    Ok(Constraint {
        name: constraint.name.copy(alloc)?,
        rule: copied_rule(alloc, &constraint.rule)?,
    })
}

fn copied_rule(alloc: Global, rule: &Rule) -> Result<Rule, AllocError>
    ensures { IfOk result (λ copied. copied ≡ rule.now) }
{
    match rule {
        Rule::NotNull(column) => Ok(Rule::NotNull(*column)),
        Rule::PrimaryKey(columns) => Ok(Rule::PrimaryKey(copied_places(alloc, columns)?)),
        Rule::Unique(columns) => Ok(Rule::Unique(copied_places(alloc, columns)?)),
        Rule::Check(text) => Ok(Rule::Check(text.copy(alloc)?)),
        Rule::ForeignKey(reference) => Ok(Rule::ForeignKey(copied_reference(alloc, reference)?)),
    }
}

fn copied_reference(alloc: Global, reference: &Reference) -> Result<Reference, AllocError>
    ensures { IfOk result (λ copied. copied ≡ reference.now) }
{
    let columns = copied_places(alloc, &reference.columns)?;
    let table = reference.table.copy(alloc)?;
    Ok(Reference {
        columns,
        table,
        referenced: copied_places(alloc, &reference.referenced)?,
    })
}
