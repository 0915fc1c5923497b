//! Conditions and their parts.

ghost use Rattle.std.specs.Prelude.{◌≡◌, IfOk};

use crate::expressions::copy_expression;
use crate::parts::{Part, both, boxed, pushed, three};
use crate::queries::copy_boxed_query;
use ast::{Condition, Conjunction, Negation, Predicate, Test};
use items::{Boxed, Items};
use std::alloc::{AllocError, Global};

/// A copy of a condition. Refuses for want of memory alone.
#[cycle(copies)]
pub fn copy_condition(condition: &Condition, alloc: Global) -> Result<Condition, AllocError>
    ensures copied { IfOk result (λ copied. copied ≡ condition.now) }
{
    let first = copy_conjunction(&condition.first, alloc);
    let (first, others) = both(first, copy_conjunctions(&condition.others, alloc))?;
    Ok(Condition { first, others })
}

#[cycle(copies)]
fn copy_conjunctions(
    others: &Items<Conjunction>,
    alloc: Global,
) -> Result<Items<Conjunction>, AllocError>
    ensures { IfOk result (λ copied. copied ≡ others.now) }
{
    let mut copied = Items::new(alloc);
    for conjunction in others.as_slice() {
        copied = pushed(copied, copy_conjunction(conjunction, alloc))?;
    }
    Ok(copied)
}

#[cycle(copies)]
fn copy_conjunction(conjunction: &Conjunction, alloc: Global) -> Result<Conjunction, AllocError>
    ensures { IfOk result (λ copied. copied ≡ conjunction.now) }
{
    let first = copy_negation(&conjunction.first, alloc);
    let (first, others) = both(first, copy_negations(&conjunction.others, alloc))?;
    Ok(Conjunction { first, others })
}

#[cycle(copies)]
fn copy_negations(others: &Items<Negation>, alloc: Global) -> Result<Items<Negation>, AllocError>
    ensures { IfOk result (λ copied. copied ≡ others.now) }
{
    let mut copied = Items::new(alloc);
    for negation in others.as_slice() {
        copied = pushed(copied, copy_negation(negation, alloc))?;
    }
    Ok(copied)
}

#[cycle(copies)]
fn copy_negation(negation: &Negation, alloc: Global) -> Result<Negation, AllocError>
    ensures { IfOk result (λ copied. copied ≡ negation.now) }
{
    let test = copy_test(&negation.test, alloc)?;
    Ok(Negation {
        is_negated: negation.is_negated,
        test,
    })
}

#[cycle(copies)]
fn copy_test(test: &Test, alloc: Global) -> Result<Test, AllocError>
    ensures { IfOk result (λ copied. copied ≡ test.now) }
{
    let predicate = copy_predicate(&test.predicate, alloc)?;
    Ok(Test {
        predicate,
        truth: test.truth,
    })
}

#[cycle(copies)]
fn copy_predicate(predicate: &Predicate, alloc: Global) -> Result<Predicate, AllocError>
    ensures { IfOk result (λ copied. copied ≡ predicate.now) }
{
    match predicate {
        Predicate::Nested(condition) => {
            Ok(Predicate::Nested(copy_boxed_condition(condition, alloc)?))
        }
        Predicate::Compare(left, comparison, right) => {
            let left = copy_expression(left, alloc);
            let (left, right) = both(left, copy_expression(right, alloc))?;
            Ok(Predicate::Compare(left, *comparison, right))
        }
        Predicate::Between(operand, is_negated, low, high) => {
            let (operand, low, high) = three(
                copy_expression(operand, alloc),
                copy_expression(low, alloc),
                copy_expression(high, alloc),
            )?;
            Ok(Predicate::Between(operand, *is_negated, low, high))
        }
        Predicate::InList(operand, is_negated, literals) => {
            let operand = copy_expression(operand, alloc);
            let (operand, literals) = both(operand, literals.copy(alloc))?;
            Ok(Predicate::InList(operand, *is_negated, literals))
        }
        Predicate::InQuery(operand, is_negated, query) => {
            let operand = copy_expression(operand, alloc);
            let (operand, query) = both(operand, copy_boxed_query(query, alloc))?;
            Ok(Predicate::InQuery(operand, *is_negated, query))
        }
        Predicate::Like(operand, is_negated, pattern) => {
            let operand = copy_expression(operand, alloc);
            let (operand, pattern) = both(operand, copy_expression(pattern, alloc))?;
            Ok(Predicate::Like(operand, *is_negated, pattern))
        }
        Predicate::IsNull(operand, is_negated) => {
            Ok(Predicate::IsNull(copy_expression(operand, alloc)?, *is_negated))
        }
        Predicate::Exists(query) => Ok(Predicate::Exists(copy_boxed_query(query, alloc)?)),
    }
}

#[cycle(copies)]
pub fn copy_boxed_condition(
    condition: &Boxed<Condition>,
    alloc: Global,
) -> Result<Boxed<Condition>, AllocError>
    ensures { IfOk result (λ copied. copied ≡ condition.now) }
{
    boxed(alloc, copy_condition(condition.get(), alloc))
}
