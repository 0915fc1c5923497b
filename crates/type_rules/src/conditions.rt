//! The types of conditions.

ghost use Rattle.std.specs.Prelude.{◌≡◌, ◌++◌, List, map, Ok, OnOk};
ghost use Rattle.typing.specs.Condition.{and_of, between, compared, conjuncts, disjuncts, in_list, like, literal_of, negated, null_test, operator_of, or_of, tested, truth_asked};
ghost use Rattle.typing.specs.Finding.{Finding, each};
ghost use Rattle.typing.specs.Finds.{Finds};
ghost use Rattle.typing.specs.SetOperator.{exists, in_query};
ghost use Rattle.type_rules.specs.Parts.{between_of, compare_of, like_of, list_of, queried, query_of};

use crate::expressions::{of_type, with_sign};
use crate::findings::{both, boxed};
use ast::{Comparison, Literal, TruthTest, TruthValue};
use items::{Boxed, Items};
use refusals::{Reason, Refusal};
use sqlval::{CompOp, Truth, Value, ValueType};
use std::alloc::{AllocError, Global};
use typing::{Condition, Expression, Query, TypedExpression, TypedQuery};

/// A comparison.
pub fn compared(
    alloc: Global,
    operator: Comparison,
    x: Result<TypedExpression, Refusal>,
    y: Result<TypedExpression, Refusal>,
) -> Result<Condition, Refusal>
    ensures { (a b : Finding TypedExpression) → Finds x a → Finds y b → Finds result (compared operator a b) }
{
    let x = x?;
    let y = boxed(alloc, of_type(y, x.value_type));
    compare_of(operator, both(boxed(alloc, Ok(x.expression)), y))
}

#[tactic(auto, using(crate::proofs::FindsLemmas::part_steps))]
fn compare_of(
    operator: Comparison,
    operands: Result<(Boxed<Expression>, Boxed<Expression>), Refusal>,
) -> Result<Condition, Refusal>
    ensures { (p : Finding (Expression × Expression)) → Finds operands p → Finds result (compare_of operator p) }
{
    let (x, y) = operands?;
    Ok(Condition::Compare(operator_of(operator), x, y))
}

/// BETWEEN: the operand, and the lower and the upper bound.
pub fn between(
    alloc: Global,
    is_negated: bool,
    x: Result<TypedExpression, Refusal>,
    low: Result<TypedExpression, Refusal>,
    high: Result<TypedExpression, Refusal>,
) -> Result<Condition, Refusal>
    ensures { (a b d : Finding TypedExpression) → Finds x a → Finds low b → Finds high d
        → Finds result (between is_negated a b d) }
{
    let x = x?;
    let low = boxed(alloc, of_type(low, x.value_type));
    let high = boxed(alloc, of_type(high, x.value_type));
    between_of(
        alloc,
        is_negated,
        both(boxed(alloc, Ok(x.expression)), both(low, high)),
    )
}

#[tactic(auto, using(crate::proofs::FindsLemmas::part_steps))]
fn between_of(
    alloc: Global,
    is_negated: bool,
    operands: Result<(Boxed<Expression>, (Boxed<Expression>, Boxed<Expression>)), Refusal>,
) -> Result<Condition, Refusal>
    ensures { (p : Finding (Expression × (Expression × Expression))) → Finds operands p
        → Finds result (between_of is_negated p) }
{
    let (x, (low, high)) = operands?;
    negated(alloc, is_negated, Condition::Between(x, low, high))
}

/// IN over literals.
pub fn in_list(
    alloc: Global,
    is_negated: bool,
    x: Result<TypedExpression, Refusal>,
    literals: &[Literal],
) -> Result<Condition, Refusal>
    ensures { (a : Finding TypedExpression) → Finds x a → Finds result (in_list is_negated a literals.now) }
{
    let x = x?;
    let values = literals_of(alloc, x.value_type, literals);
    list_of(
        alloc,
        is_negated,
        both(boxed(alloc, Ok(x.expression)), values),
    )
}

#[tactic(auto, using(crate::proofs::FindsLemmas::part_steps))]
fn list_of(
    alloc: Global,
    is_negated: bool,
    parts: Result<(Boxed<Expression>, Items<Value>), Refusal>,
) -> Result<Condition, Refusal>
    ensures { (p : Finding (Expression × List Value)) → Finds parts p → Finds result (list_of is_negated p) }
{
    let (x, values) = parts?;
    negated(alloc, is_negated, Condition::InList(x, values))
}

/// IN over a query of one column.
pub fn in_query(
    alloc: Global,
    is_negated: bool,
    x: Result<TypedExpression, Refusal>,
    query: Result<(Query, ValueType), Refusal>,
) -> Result<Condition, Refusal>
    ensures { (a : Finding TypedExpression) (q : Finding (Query × ValueType)) → Finds x a → Finds query q
        → Finds result (in_query is_negated a q) }
{
    query_of(alloc, is_negated, both(x, query))
}

fn query_of(
    alloc: Global,
    is_negated: bool,
    parts: Result<(TypedExpression, (Query, ValueType)), Refusal>,
) -> Result<Condition, Refusal>
    ensures { (p : Finding (TypedExpression × (Query × ValueType))) → Finds parts p
        → Finds result (query_of is_negated p) }
{
    let (x, (query, value_type)) = parts?;
    queried(alloc, is_negated, of_type(Ok(x), value_type), query)
}

#[tactic(auto, using(crate::proofs::FindsLemmas::part_steps))]
fn queried(
    alloc: Global,
    is_negated: bool,
    operand: Result<Expression, Refusal>,
    query: Query,
) -> Result<Condition, Refusal>
    ensures { (x : Finding Expression) → Finds operand x → Finds result (queried is_negated query x) }
{
    let operand = Boxed::new(alloc, operand?)?;
    let query = Boxed::new(alloc, query)?;
    negated(alloc, is_negated, Condition::InQuery(operand, query))
}

/// LIKE: the text and the pattern.
pub fn like(
    alloc: Global,
    is_negated: bool,
    x: Result<TypedExpression, Refusal>,
    pattern: Result<TypedExpression, Refusal>,
) -> Result<Condition, Refusal>
    ensures { (a b : Finding TypedExpression) → Finds x a → Finds pattern b → Finds result (like is_negated a b) }
{
    let x = boxed(alloc, of_type(x, ValueType::Text));
    let pattern = boxed(alloc, of_type(pattern, ValueType::Text));
    like_of(alloc, is_negated, both(x, pattern))
}

#[tactic(auto, using(crate::proofs::FindsLemmas::part_steps))]
fn like_of(
    alloc: Global,
    is_negated: bool,
    operands: Result<(Boxed<Expression>, Boxed<Expression>), Refusal>,
) -> Result<Condition, Refusal>
    ensures { (p : Finding (Expression × Expression)) → Finds operands p → Finds result (like_of is_negated p) }
{
    let (x, pattern) = operands?;
    negated(alloc, is_negated, Condition::Like(x, pattern))
}

/// IS NULL.
pub fn null_test(
    alloc: Global,
    is_negated: bool,
    x: Result<TypedExpression, Refusal>,
) -> Result<Condition, Refusal>
    ensures { (a : Finding TypedExpression) → Finds x a → Finds result (null_test is_negated a) }
{
    let x = x?;
    let condition = Condition::IsNull(Boxed::new(alloc, x.expression)?);
    negated(alloc, is_negated, condition)
}

/// EXISTS.
pub fn exists(alloc: Global, query: Result<TypedQuery, Refusal>) -> Result<Condition, Refusal>
    ensures { (q : Finding TypedQuery) → Finds query q → Finds result (exists q) }
{
    let query = query?;
    Ok(Condition::Exists(Boxed::new(alloc, query.query)?))
}

/// Literals, all of the type asked for.
fn literals_of(
    alloc: Global,
    wanted: ValueType,
    literals: &[Literal],
) -> Result<Items<Value>, Refusal>
    ensures { Finds result (each (map (literal_of wanted) literals.now)) }
{
    let mut values = Items::new(alloc);
    for literal in literals {
        values.push(literal_of(alloc, wanted, literal)?)?;
    }
    Ok(values)
}

/// A literal of the type asked for.
fn literal_of(alloc: Global, wanted: ValueType, literal: &Literal) -> Result<Value, Refusal>
    ensures { Finds result (literal_of wanted literal.now) }
{
    match (wanted, literal) {
        (ValueType::Integer, Literal::Number(sign, number)) => with_sign(*sign, *number),
        (ValueType::Text, Literal::Text(text)) => Ok(Value::Text(text.copy(alloc)?)),
        _ => Err(Refusal::Invalid(Reason::DataType)),
    }
}

/// Parentheses round an OR inside an OR change nothing: its parts are disjuncts of the whole.
pub fn add_disjunct(operands: &mut Items<Condition>, condition: Condition) -> Result<(), AllocError>
    ensures { OnOk result (operands.new ≡ operands.old ++ disjuncts condition) }
{
    match condition {
        Condition::Or(parts) => operands.append(parts),
        other => operands.push(other),
    }
}

pub fn add_conjunct(operands: &mut Items<Condition>, condition: Condition) -> Result<(), AllocError>
    ensures { OnOk result (operands.new ≡ operands.old ++ conjuncts condition) }
{
    match condition {
        Condition::And(parts) => operands.append(parts),
        other => operands.push(other),
    }
}

pub fn or_of(operands: Items<Condition>) -> Condition
    ensures { result ≡ or_of operands }
{
    let mut operands = operands;
    if operands.len() == 1 {
        if let Some(only) = operands.pop() {
            return only;
        }
    }
    Condition::Or(operands)
}

pub fn and_of(operands: Items<Condition>) -> Condition
    ensures { result ≡ and_of operands }
{
    let mut operands = operands;
    if operands.len() == 1 {
        if let Some(only) = operands.pop() {
            return only;
        }
    }
    Condition::And(operands)
}

/// NOT, where it is written.
pub fn negated(alloc: Global, is_negated: bool, condition: Condition) -> Result<Condition, Refusal>
    ensures { Finds result (Ok (negated is_negated condition)) }
{
    if is_negated {
        Ok(Condition::Not(Boxed::new(alloc, condition)?))
    } else {
        Ok(condition)
    }
}

/// IS [NOT] and a truth value, where it is written.
pub fn tested(
    alloc: Global,
    test: Option<TruthTest>,
    condition: Condition,
) -> Result<Condition, Refusal>
    ensures { Finds result (Ok (tested test condition)) }
{
    match test {
        None => Ok(condition),
        Some(test) => {
            let condition = Boxed::new(alloc, condition)?;
            let condition = Condition::IsTruth(condition, truth_asked(test.value));
            negated(alloc, test.is_negated, condition)
        }
    }
}

fn truth_asked(value: TruthValue) -> Truth
    ensures { result ≡ truth_asked value }
{
    match value {
        TruthValue::True => Truth::True,
        TruthValue::False => Truth::False,
        TruthValue::Unknown => Truth::Unknown,
    }
}

fn operator_of(operator: Comparison) -> CompOp
    ensures { result ≡ operator_of operator }
{
    match operator {
        Comparison::Equal => CompOp::Equal,
        Comparison::NotEqual => CompOp::NotEqual,
        Comparison::Less => CompOp::Less,
        Comparison::Greater => CompOp::Greater,
        Comparison::LessOrEqual => CompOp::LessOrEqual,
        Comparison::GreaterOrEqual => CompOp::GreaterOrEqual,
    }
}
