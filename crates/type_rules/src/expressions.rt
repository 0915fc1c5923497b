//! The types of expressions.

ghost use Rattle.std.specs.Prelude.{◌≡◌, List};
ghost use Rattle.typing.specs.Expression.{calculation, concatenation, leading_operator, must_concatenate, product_operand, product_operator, signed_number, sum_operand, sum_operator, text, text_operand};
ghost use Rattle.typing.specs.Finding.{Finding};
ghost use Rattle.typing.specs.Finds.{Finds};
ghost use Rattle.type_rules.specs.Parts.{after_sign, calculation_of, concatenation_of, number_of, of_type};

use crate::findings::{both, boxed, second};
use ast::{AddOperator, MultiplyOperator, Sign, Term};
use items::{Boxed, Items, Text};
use lexer::Number;
use refusals::{Reason, Refusal};
use sqlval::{Value, ValueType, negate};
use std::alloc::Global;
use typing::{Arithmetic, Expression, TypedExpression};

/// A chain of `+` and `-`, or of `*` and `/`, of integers.
pub fn calculation(
    alloc: Global,
    first: Result<TypedExpression, Refusal>,
    others: Result<Items<(Arithmetic, Expression)>, Refusal>,
) -> Result<TypedExpression, Refusal>
    ensures { (x : Finding TypedExpression) (y : Finding (List (Arithmetic × Expression))) → Finds first x
        → Finds others y → Finds result (calculation x y) }
{
    let first = boxed(alloc, of_type(first, ValueType::Integer));
    calculated(both(first, others))
}

/// A chain of `||`, of texts.
pub fn concatenation(
    alloc: Global,
    first: Result<TypedExpression, Refusal>,
    others: Result<Items<Expression>, Refusal>,
) -> Result<TypedExpression, Refusal>
    ensures { (x : Finding TypedExpression) (y : Finding (List Expression)) → Finds first x → Finds others y
        → Finds result (concatenation x y) }
{
    let first = boxed(alloc, of_type(first, ValueType::Text));
    concatenated(both(first, others))
}

/// An operand of `+` or `-` after the first.
pub fn summand(
    operator: AddOperator,
    operand: Result<TypedExpression, Refusal>,
) -> Result<(Arithmetic, Expression), Refusal>
    ensures { (x : Finding TypedExpression) → Finds operand x → Finds result (sum_operand (operator, x)) }
{
    both(
        operator_in_sum(operator),
        of_type(operand, ValueType::Integer),
    )
}

/// An operand of `||` after the first.
pub fn joined_text(
    operator: AddOperator,
    operand: Result<TypedExpression, Refusal>,
) -> Result<Expression, Refusal>
    ensures { (x : Finding TypedExpression) → Finds operand x → Finds result (text_operand (operator, x)) }
{
    second(both(
        only_concatenation(operator),
        of_type(operand, ValueType::Text),
    ))
}

/// An operand of `*` or `/` after the first.
#[tactic(auto, using(crate::proofs::FindsLemmas::part_steps))]
pub fn multiplier(
    operator: MultiplyOperator,
    operand: Result<TypedExpression, Refusal>,
) -> Result<(Arithmetic, Expression), Refusal>
    ensures { (x : Finding TypedExpression) → Finds operand x → Finds result (product_operand (operator, x)) }
{
    let operand = of_type(operand, ValueType::Integer)?;
    Ok((operator_in_product(operator), operand))
}

/// The expression, if its type is the one asked for.
#[tactic(auto, using(crate::proofs::FindsLemmas::part_steps))]
pub fn of_type(
    typed: Result<TypedExpression, Refusal>,
    wanted: ValueType,
) -> Result<Expression, Refusal>
    ensures { (x : Finding TypedExpression) → Finds typed x → Finds result (of_type wanted x) }
{
    let typed = typed?;
    if typed.value_type != wanted {
        return Err(Refusal::Invalid(Reason::DataType));
    }
    Ok(typed.expression)
}

#[tactic(auto, using(crate::proofs::FindsLemmas::part_steps))]
pub fn number_constant(number: Result<Value, Refusal>) -> Result<TypedExpression, Refusal>
    ensures { (x : Finding Value) → Finds number x → Finds result (number_of x) }
{
    Ok(TypedExpression {
        expression: Expression::Constant(number?),
        value_type: ValueType::Integer,
    })
}

pub fn text_constant(alloc: Global, codes: &Text) -> Result<TypedExpression, Refusal>
    ensures { Finds result (Ok (text (Expression.Constant (Value.Text codes.now)))) }
{
    Ok(TypedExpression {
        expression: Expression::Constant(Value::Text(codes.copy(alloc)?)),
        value_type: ValueType::Text,
    })
}

/// A number with the sign directly before it.
pub fn with_sign(sign: Option<Sign>, number: Number) -> Result<Value, Refusal>
    ensures { Finds result (signed_number sign number) }
{
    match sign {
        Some(Sign::Minus) => match negate(&Value::Int(number.value())) {
            Ok(value) => Ok(value),
            Err(_) => Err(Refusal::Invalid(Reason::Number)),
        },
        _ => Ok(Value::Int(number.value())),
    }
}

#[tactic(auto, using(crate::proofs::FindsLemmas::part_steps))]
pub fn after_sign(
    alloc: Global,
    sign: Option<Sign>,
    typed: Result<TypedExpression, Refusal>,
) -> Result<TypedExpression, Refusal>
    ensures { (x : Finding TypedExpression) → Finds typed x → Finds result (after_sign sign x) }
{
    match sign {
        None => typed,
        Some(Sign::Plus) => Ok(TypedExpression {
            expression: of_type(typed, ValueType::Integer)?,
            value_type: ValueType::Integer,
        }),
        Some(Sign::Minus) => {
            let operand = boxed(alloc, of_type(typed, ValueType::Integer))?;
            Ok(TypedExpression {
                expression: Expression::Negation(operand),
                value_type: ValueType::Integer,
            })
        }
    }
}

#[tactic(auto, using(crate::proofs::FindsLemmas::part_steps))]
fn calculated(
    parts: Result<(Boxed<Expression>, Items<(Arithmetic, Expression)>), Refusal>,
) -> Result<TypedExpression, Refusal>
    ensures { (x : Finding (Expression × List (Arithmetic × Expression))) → Finds parts x
        → Finds result (calculation_of x) }
{
    let (first, operands) = parts?;
    Ok(TypedExpression {
        expression: Expression::Calculation(first, operands),
        value_type: ValueType::Integer,
    })
}

#[tactic(auto, using(crate::proofs::FindsLemmas::part_steps))]
fn concatenated(
    parts: Result<(Boxed<Expression>, Items<Expression>), Refusal>,
) -> Result<TypedExpression, Refusal>
    ensures { (x : Finding (Expression × List Expression)) → Finds parts x → Finds result (concatenation_of x) }
{
    let (first, operands) = parts?;
    Ok(TypedExpression {
        expression: Expression::Concatenation(first, operands),
        value_type: ValueType::Text,
    })
}

fn operator_in_sum(operator: AddOperator) -> Result<Arithmetic, Refusal>
    ensures { Finds result (sum_operator operator) }
{
    match operator {
        AddOperator::Plus => Ok(Arithmetic::Add),
        AddOperator::Minus => Ok(Arithmetic::Subtract),
        AddOperator::Concatenate => Err(Refusal::Invalid(Reason::DataType)),
    }
}

/// The operator of a chain that says whether it is a sum or a concatenation; `None` where there is
/// no chain.
pub fn first_operator(others: &[(AddOperator, Term)]) -> Option<AddOperator>
    ensures { result ≡ leading_operator others.now }
{
    match others.first() {
        Some((operator, _)) => Some(*operator),
        None => None,
    }
}

fn only_concatenation(operator: AddOperator) -> Result<AddOperator, Refusal>
    ensures { Finds result (must_concatenate operator) }
{
    match operator {
        AddOperator::Concatenate => Ok(operator),
        _ => Err(Refusal::Invalid(Reason::DataType)),
    }
}

fn operator_in_product(operator: MultiplyOperator) -> Arithmetic
    ensures { result ≡ product_operator operator }
{
    match operator {
        MultiplyOperator::Times => Arithmetic::Multiply,
        MultiplyOperator::Divide => Arithmetic::Divide,
    }
}
