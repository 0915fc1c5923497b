//! What is told of values that were found. Each function takes its parts as they came, a value or
//! what stopped it.

ghost use Rattle.std.specs.Prelude.{◌≡◌, true};
ghost use Rattle.denote.specs.Condition.{exists};
ghost use Rattle.denote.specs.Evaluation.{Evaluation};
ghost use Rattle.denote.specs.Outcome.{Outcome};
ghost use Rattle.sqlval.specs.declared.comparison.CompOp.TheVariants as by;
ghost use Rattle.sqlval.specs.declared.truth.Truth.{Truth as Told};
ghost use Rattle.sqlval.specs.declared.value.Value.{Value as Meant};
ghost use Rattle.executor.specs.Found.{GivesFound, asked_after, both_after, compared_after, in_list_after, like_after, not_after, null_after};
ghost use Rattle.executor.specs.Halves.{among_after};
ghost use Rattle.executor.specs.Reply.{Gives, Lists};

use crate::found::Found;
use crate::listed::Listed;
use crate::subqueries::{exists_in, is_in, is_listed, null_truth};
use denote::Stop;
use sqlval::{CompOp, Truth, Value, compare, like};

/// A comparison.
pub fn compared_truth(
    op: CompOp,
    x: Result<Found<'_>, Stop>,
    y: Result<Found<'_>, Stop>,
) -> Result<Truth, Stop>
    ensures gives { (one other : Evaluation Meant) → GivesFound x.entry one → GivesFound y.entry other
        → Gives result (compared_after op one other) }
{
    match x {
        Err(stop) => Err(stop),
        Ok(x) => match y {
            Err(stop) => Err(stop),
            Ok(y) => Ok(compare(op, x.value(), y.value())),
        },
    }
}

/// LIKE.
pub fn like_truth(x: Result<Found<'_>, Stop>, y: Result<Found<'_>, Stop>) -> Result<Truth, Stop>
    ensures gives { (one other : Evaluation Meant) → GivesFound x.entry one → GivesFound y.entry other
        → Gives result (like_after one other) }
{
    match x {
        Err(stop) => Err(stop),
        Ok(x) => match y {
            Err(stop) => Err(stop),
            Ok(y) => Ok(like(x.value(), y.value())),
        },
    }
}

/// IN a list that is written out.
pub fn list_truth(x: Result<Found<'_>, Stop>, values: &[Value]) -> Result<Truth, Stop>
    ensures gives { (one : Evaluation Meant) → GivesFound x.entry one → Gives result (in_list_after one values.now) }
{
    match x {
        Err(stop) => Err(stop),
        Ok(x) => Ok(is_in(x.value(), values)),
    }
}

/// IN the rows of a subquery.
pub fn query_truth(x: Result<Found<'_>, Stop>, listed: Result<Listed, Stop>) -> Result<Truth, Stop>
    ensures gives { (one : Evaluation Meant) (rows : Outcome) → GivesFound x.entry one → Lists listed rows
        → Gives result (among_after one rows) }
{
    match x {
        Err(stop) => Err(stop),
        Ok(x) => match listed {
            Err(stop) => Err(stop),
            Ok(listed) => is_listed(x.value(), &listed),
        },
    }
}

/// IS NULL.
pub fn null_test(x: Result<Found<'_>, Stop>) -> Result<Truth, Stop>
    ensures gives { (one : Evaluation Meant) → GivesFound x.entry one → Gives result (null_after one) }
{
    match x {
        Err(stop) => Err(stop),
        Ok(x) => Ok(null_truth(x.value())),
    }
}

/// EXISTS.
pub fn exists_truth(listed: Result<Listed, Stop>) -> Result<Truth, Stop>
    ensures gives { (rows : Outcome) → Lists listed rows → Gives result (exists rows) }
{
    match listed {
        Err(stop) => Err(stop),
        Ok(listed) => exists_in(&listed),
    }
}

/// NOT.
pub fn negated_truth(found: Result<Truth, Stop>) -> Result<Truth, Stop>
    ensures gives { (meant : Evaluation Told) → Gives found meant → Gives result (not_after meant) }
{
    match found {
        Err(stop) => Err(stop),
        Ok(truth) => Ok(truth.not()),
    }
}

/// IS TRUE, IS FALSE, IS UNKNOWN.
pub fn asked_truth(found: Result<Truth, Stop>, asked: Truth) -> Result<Truth, Stop>
    ensures gives { (meant : Evaluation Told) → Gives found meant → Gives result (asked_after meant asked) }
{
    match found {
        Err(stop) => Err(stop),
        Ok(truth) => Ok(truth.is(asked)),
    }
}

/// Whether a value is not below a bound.
pub fn above_truth(x: &Result<Found<'_>, Stop>, low: Result<Found<'_>, Stop>) -> Result<Truth, Stop>
    ensures gives { (one other : Evaluation Meant) → GivesFound x.now one → GivesFound low.entry other
        → Gives result (compared_after by.GreaterOrEqual one other) }
{
    match x {
        Err(stop) => Err(*stop),
        Ok(x) => match low {
            Err(stop) => Err(stop),
            Ok(low) => Ok(compare(CompOp::GreaterOrEqual, x.value(), low.value())),
        },
    }
}

/// Whether the first part of an AND settles it: it is false, or stopped.
pub fn is_settled(first: &Result<Truth, Stop>) -> bool
    ensures settled { result ≡ true → (meant others : Evaluation Told) → Gives first.now meant
        → Gives first.now (both_after meant others) }
{
    match first {
        Err(_) => true,
        Ok(truth) => match truth {
            Truth::False => true,
            Truth::Unknown => false,
            Truth::True => false,
        },
    }
}

/// An AND of two.
pub fn both_truths(first: Result<Truth, Stop>, second: Result<Truth, Stop>) -> Result<Truth, Stop>
    ensures gives { (one other : Evaluation Told) → Gives first one → Gives second other
        → Gives result (both_after one other) }
{
    match first {
        Err(stop) => Err(stop),
        Ok(truth) => match truth {
            Truth::False => Ok(Truth::False),
            Truth::True => second,
            Truth::Unknown => match second {
                Err(stop) => Err(stop),
                Ok(other) => Ok(Truth::Unknown.and(other)),
            },
        },
    }
}
