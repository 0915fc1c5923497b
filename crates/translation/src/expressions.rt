//! Expressions, and the lists in them.

ghost use Rattle.std.specs.Prelude.{◌≡◌, map, IfOk};
ghost use Rattle.algebra.specs.Described.{described_in};
ghost use Rattle.algebra.specs.Translated.{tree_of_expression, tree_of_function, tree_of_item};

use crate::parts::{both, boxed, pushed, with};
use crate::queries::boxed_query;
use algebra::{Expression, SetFunction};
use items::{Boxed, Items};
use sqlval::Schema;
use std::alloc::{AllocError, Global};
use typing::{Arithmetic, Item};

/// The expression with trees in place of queries. Refuses for want of memory alone.
#[cycle(translations)]
#[tactic(auto, using(crate::proofs::TreeNodes::tree_nodes))]
pub fn translate_expression(
    alloc: Global,
    schema: &Schema,
    expression: &typing::Expression,
) -> Result<Expression, AllocError>
    ensures translated { IfOk result (λ made. made ≡ tree_of_expression (described_in schema.now) expression.now) }
{
    match expression {
        typing::Expression::Constant(value) => Ok(Expression::Constant(value.copy(alloc)?)),
        typing::Expression::Column { depth, place } => Ok(Expression::Column {
            depth: *depth,
            place: *place,
        }),
        typing::Expression::Calculation(first, others) => {
            let first = boxed_expression(alloc, schema, first);
            let (first, others) = both(first, operands(alloc, schema, others))?;
            Ok(Expression::Calculation(first, others))
        }
        typing::Expression::Concatenation(first, others) => {
            let first = boxed_expression(alloc, schema, first);
            let (first, others) = both(first, expressions(alloc, schema, others))?;
            Ok(Expression::Concatenation(first, others))
        }
        typing::Expression::Negation(operand) => {
            Ok(Expression::Negation(boxed_expression(alloc, schema, operand)?))
        }
        typing::Expression::Scalar(query) => {
            Ok(Expression::Scalar(boxed_query(alloc, schema, query)?))
        }
    }
}

#[cycle(translations)]
#[tactic(auto, using(crate::proofs::TreeNodes::tree_nodes))]
pub fn boxed_expression(
    alloc: Global,
    schema: &Schema,
    expression: &Boxed<typing::Expression>,
) -> Result<Boxed<Expression>, AllocError>
    ensures { IfOk result (λ made. made ≡ tree_of_expression (described_in schema.now) expression.now) }
{
    boxed(alloc, translate_expression(alloc, schema, expression.get()))
}

#[cycle(translations)]
#[tactic(auto, using(crate::proofs::TreeNodes::tree_nodes))]
fn operands(
    alloc: Global,
    schema: &Schema,
    others: &Items<(Arithmetic, typing::Expression)>,
) -> Result<Items<(Arithmetic, Expression)>, AllocError>
    ensures { IfOk result (λ made. made ≡ map (λ other. (other.0, tree_of_expression (described_in schema.now) other.1)) others.now) }
{
    let mut made = Items::new(alloc);
    for (operator, operand) in others.as_slice() {
        made = pushed(
            made,
            with(*operator, translate_expression(alloc, schema, operand)),
        )?;
    }
    Ok(made)
}

#[cycle(translations)]
#[tactic(auto, using(crate::proofs::TreeNodes::tree_nodes))]
fn expressions(
    alloc: Global,
    schema: &Schema,
    others: &Items<typing::Expression>,
) -> Result<Items<Expression>, AllocError>
    ensures { IfOk result (λ made. made ≡ map (tree_of_expression (described_in schema.now)) others.now) }
{
    let mut made = Items::new(alloc);
    for operand in others.as_slice() {
        made = pushed(made, translate_expression(alloc, schema, operand))?;
    }
    Ok(made)
}

/// The items of a select list. Their names are no part of the tree.
#[cycle(translations)]
#[tactic(auto, using(crate::proofs::TreeNodes::tree_nodes))]
pub fn select_list(
    alloc: Global,
    schema: &Schema,
    items: &Items<Item>,
) -> Result<Items<Expression>, AllocError>
    ensures { IfOk result (λ made. made ≡ map (tree_of_item (described_in schema.now)) items.now) }
{
    let mut made = Items::new(alloc);
    for item in items.as_slice() {
        made = pushed(made, translate_expression(alloc, schema, &item.expression))?;
    }
    Ok(made)
}

#[cycle(translations)]
#[tactic(auto, using(crate::proofs::TreeNodes::tree_nodes))]
fn set_function(
    alloc: Global,
    schema: &Schema,
    function: &typing::SetFunction,
) -> Result<SetFunction, AllocError>
    ensures { IfOk result (λ made. made ≡ tree_of_function (described_in schema.now) function.now) }
{
    match function {
        typing::SetFunction::CountRows => Ok(SetFunction::CountRows),
        typing::SetFunction::Over {
            function,
            distinct,
            argument,
        } => {
            let argument = translate_expression(alloc, schema, argument)?;
            Ok(SetFunction::Over {
                function: *function,
                distinct: *distinct,
                argument,
            })
        }
    }
}

#[cycle(translations)]
#[tactic(auto, using(crate::proofs::TreeNodes::tree_nodes))]
pub fn set_functions(
    alloc: Global,
    schema: &Schema,
    functions: &Items<typing::SetFunction>,
) -> Result<Items<SetFunction>, AllocError>
    ensures { IfOk result (λ made. made ≡ map (tree_of_function (described_in schema.now)) functions.now) }
{
    let mut made = Items::new(alloc);
    for function in functions.as_slice() {
        made = pushed(made, set_function(alloc, schema, function))?;
    }
    Ok(made)
}
