//! Conditions.

ghost use Rattle.std.specs.Prelude.{◌≡◌, map, IfOk};
ghost use Rattle.algebra.specs.Described.{described_in};
ghost use Rattle.algebra.specs.Translated.{tree_of_condition};

use crate::expressions::boxed_expression;
use crate::parts::{both, boxed, pushed, three};
use crate::queries::boxed_query;
use algebra::Condition;
use items::{Boxed, Items};
use sqlval::{Schema, Value};
use std::alloc::{AllocError, Global};

/// The condition with trees in place of queries. Refuses for want of memory alone.
#[cycle(translations)]
#[tactic(auto, using(crate::proofs::TreeNodes::tree_nodes))]
pub fn translate_condition(
    alloc: Global,
    schema: &Schema,
    condition: &typing::Condition,
) -> Result<Condition, AllocError>
    ensures translated { IfOk result (λ made. made ≡ tree_of_condition (described_in schema.now) condition.now) }
{
    match condition {
        typing::Condition::Or(operands) => {
            Ok(Condition::Or(conditions(alloc, schema, operands)?))
        }
        typing::Condition::And(operands) => {
            Ok(Condition::And(conditions(alloc, schema, operands)?))
        }
        typing::Condition::Not(operand) => {
            Ok(Condition::Not(boxed_condition(alloc, schema, operand)?))
        }
        typing::Condition::IsTruth(operand, truth) => {
            let operand = boxed_condition(alloc, schema, operand)?;
            Ok(Condition::IsTruth(operand, *truth))
        }
        typing::Condition::Compare(operator, left, right) => {
            let left = boxed_expression(alloc, schema, left);
            let (left, right) = both(left, boxed_expression(alloc, schema, right))?;
            Ok(Condition::Compare(*operator, left, right))
        }
        typing::Condition::Between(operand, low, high) => {
            let (operand, low, high) = three(
                boxed_expression(alloc, schema, operand),
                boxed_expression(alloc, schema, low),
                boxed_expression(alloc, schema, high),
            )?;
            Ok(Condition::Between(operand, low, high))
        }
        typing::Condition::InList(operand, values) => {
            let operand = boxed_expression(alloc, schema, operand);
            let (operand, values) = both(operand, copied_values(alloc, values.as_slice()))?;
            Ok(Condition::InList(operand, values))
        }
        typing::Condition::InQuery(operand, query) => {
            let operand = boxed_expression(alloc, schema, operand);
            let (operand, query) = both(operand, boxed_query(alloc, schema, query))?;
            Ok(Condition::InQuery(operand, query))
        }
        typing::Condition::Like(operand, pattern) => {
            let operand = boxed_expression(alloc, schema, operand);
            let (operand, pattern) = both(operand, boxed_expression(alloc, schema, pattern))?;
            Ok(Condition::Like(operand, pattern))
        }
        typing::Condition::IsNull(operand) => {
            Ok(Condition::IsNull(boxed_expression(alloc, schema, operand)?))
        }
        typing::Condition::Exists(query) => {
            Ok(Condition::Exists(boxed_query(alloc, schema, query)?))
        }
    }
}

#[cycle(translations)]
#[tactic(auto, using(crate::proofs::TreeNodes::tree_nodes))]
fn boxed_condition(
    alloc: Global,
    schema: &Schema,
    condition: &Boxed<typing::Condition>,
) -> Result<Boxed<Condition>, AllocError>
    ensures { IfOk result (λ made. made ≡ tree_of_condition (described_in schema.now) condition.now) }
{
    boxed(alloc, translate_condition(alloc, schema, condition.get()))
}

#[cycle(translations)]
#[tactic(auto, using(crate::proofs::TreeNodes::tree_nodes))]
fn conditions(
    alloc: Global,
    schema: &Schema,
    operands: &Items<typing::Condition>,
) -> Result<Items<Condition>, AllocError>
    ensures { IfOk result (λ made. made ≡ map (tree_of_condition (described_in schema.now)) operands.now) }
{
    let mut made = Items::new(alloc);
    for operand in operands.as_slice() {
        made = pushed(made, translate_condition(alloc, schema, operand))?;
    }
    Ok(made)
}

fn copied_values(alloc: Global, values: &[Value]) -> Result<Items<Value>, AllocError>
    ensures { IfOk result (λ copied. copied ≡ values.now) }
{
    let mut copied = Items::new(alloc);
    for value in values {
        copied = pushed(copied, value.copy(alloc))?;
    }
    Ok(copied)
}
