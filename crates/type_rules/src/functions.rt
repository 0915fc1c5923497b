//! Set functions.

ghost use Rattle.std.specs.Prelude.{◌≡◌};
ghost use Rattle.typing.specs.Finding.{Finding};
ghost use Rattle.typing.specs.Finds.{Finds};
ghost use Rattle.typing.specs.SetFunction.{Aggregate, is_distinct, value_seen};
ghost use Rattle.scopes.specs.Seen.{clause_in};
ghost use Rattle.type_rules.specs.Parts.{aggregate_over, counted, over_either, over_integer, over_integers, value_at};

use crate::expressions::of_type;
use ast::Quantifier;
use refusals::{Reason, Refusal};
use scopes::Clause;
use sqlval::ValueType;
use typing::{Expression, SetFunction, SetFunctionType, TypedExpression};

/// A set function over its argument, and its type.
pub fn aggregate_of(
    function: ast::SetFunction,
    is_distinct: bool,
    argument: Result<TypedExpression, Refusal>,
) -> Result<(SetFunction, ValueType), Refusal>
    ensures { (x : Finding TypedExpression) → Finds argument x → Finds result (aggregate_over function is_distinct x) }
{
    match function {
        ast::SetFunction::Count => counted(is_distinct, argument),
        ast::SetFunction::Sum => over_integers(SetFunctionType::Sum, is_distinct, argument),
        ast::SetFunction::Avg => over_integers(SetFunctionType::Avg, is_distinct, argument),
        ast::SetFunction::Min => over_either(SetFunctionType::Min, is_distinct, argument),
        ast::SetFunction::Max => over_either(SetFunctionType::Max, is_distinct, argument),
    }
}

#[tactic(auto, using(crate::proofs::FindsLemmas::part_steps))]
fn counted(
    is_distinct: bool,
    argument: Result<TypedExpression, Refusal>,
) -> Result<(SetFunction, ValueType), Refusal>
    ensures { (x : Finding TypedExpression) → Finds argument x → Finds result (counted is_distinct x) }
{
    let argument = argument?;
    let function = SetFunction::Over {
        function: SetFunctionType::Count,
        distinct: is_distinct,
        argument: argument.expression,
    };
    Ok((function, ValueType::Integer))
}

fn over_integers(
    function: SetFunctionType,
    is_distinct: bool,
    argument: Result<TypedExpression, Refusal>,
) -> Result<(SetFunction, ValueType), Refusal>
    ensures { (x : Finding TypedExpression) → Finds argument x → Finds result (over_integers function is_distinct x) }
{
    over_integer(function, is_distinct, of_type(argument, ValueType::Integer))
}

#[tactic(auto, using(crate::proofs::FindsLemmas::part_steps))]
fn over_integer(
    function: SetFunctionType,
    is_distinct: bool,
    argument: Result<Expression, Refusal>,
) -> Result<(SetFunction, ValueType), Refusal>
    ensures { (x : Finding Expression) → Finds argument x → Finds result (over_integer function is_distinct x) }
{
    let function = SetFunction::Over {
        function,
        distinct: is_distinct,
        argument: argument?,
    };
    Ok((function, ValueType::Integer))
}

#[tactic(auto, using(crate::proofs::FindsLemmas::part_steps))]
fn over_either(
    function: SetFunctionType,
    is_distinct: bool,
    argument: Result<TypedExpression, Refusal>,
) -> Result<(SetFunction, ValueType), Refusal>
    ensures { (x : Finding TypedExpression) → Finds argument x → Finds result (over_either function is_distinct x) }
{
    let argument = argument?;
    let function = SetFunction::Over {
        function,
        distinct: is_distinct,
        argument: argument.expression,
    };
    Ok((function, argument.value_type))
}

/// Whether DISTINCT is written.
pub fn is_distinct(quantifier: Option<Quantifier>) -> bool
    ensures { result ≡ is_distinct quantifier }
{
    match quantifier {
        None => false,
        Some(Quantifier::All) => false,
        Some(Quantifier::Distinct) => true,
    }
}

/// What a set function stands for where it is written: its value in the row of the group. It may
/// stand in a select list and HAVING alone.
pub fn value_seen(
    clause: Clause,
    aggregate: Result<(SetFunction, ValueType), Refusal>,
) -> Result<TypedExpression, Refusal>
    ensures { (x : Finding Aggregate) → Finds aggregate x → Finds result (value_seen (clause_in clause) x) }
{
    match clause {
        Clause::Shown(first) => value_at(first, aggregate),
        Clause::Plain => Err(Refusal::Invalid(Reason::Grouping)),
        Clause::Argument => Err(Refusal::Invalid(Reason::Grouping)),
        Clause::Checked => Err(Refusal::Invalid(Reason::Check)),
    }
}

#[tactic(auto, using(crate::proofs::FindsLemmas::part_steps))]
fn value_at(
    place: usize,
    aggregate: Result<(SetFunction, ValueType), Refusal>,
) -> Result<TypedExpression, Refusal>
    ensures { (x : Finding Aggregate) → Finds aggregate x → Finds result (value_at place x) }
{
    let (_, value_type) = aggregate?;
    Ok(TypedExpression {
        expression: Expression::Column { depth: 0, place },
        value_type,
    })
}
