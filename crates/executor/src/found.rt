//! Values that are looked at where they stand: columns and constants are compared, and not copied.

ghost use Rattle.std.specs.Prelude.{◌≡◌, IfSome};
ghost use Rattle.algebra.specs.Listing.{value_listing};
ghost use Rattle.denote.specs.Evaluation.{Evaluation};
ghost use Rattle.denote.specs.Expression.{column};
ghost use Rattle.denote.specs.Meaning.{Tables};
ghost use Rattle.sqlval.specs.declared.value.Value.{Value as Meant};
ghost use Rattle.executor.specs.Found.{GivesFound, value_of};
ghost use Rattle.executor.specs.Reply.{Gives, env_of};

use crate::listed::Env;
use algebra::Expression;
use denote::Stop;
use sqlval::Value;

/// A value that is looked at: one that stands somewhere, or one that was made.
#[derive(Drop)]
pub enum Found<'a> {
    Lent(&'a Value),
    Made(Value),
}

impl Found<'_> {
    pub fn value(&self) -> &Value
        ensures { result.now ≡ value_of self.now }
    {
        match self {
            Found::Lent(value) => value,
            Found::Made(value) => value,
        }
    }
}

/// The value of a column where it stands, if there is such a column.
fn lent_column<'a>(env: &'a Env<'a>, depth: usize, place: usize) -> Option<&'a Value>
    ensures { IfSome result (λ value. value.now ≡ column (env_of env.now) depth place) }
{
    match env {
        Env::Outermost => None,
        Env::Inside(row, outer) => {
            if depth > 0 {
                return lent_column(outer, depth - 1, place);
            }
            row.get(place)
        }
        Env::Pair(left, right, outer) => {
            if depth > 0 {
                return lent_column(outer, depth - 1, place);
            }
            if place < left.len() {
                left.get(place)
            } else {
                right.get(place - left.len())
            }
        }
    }
}

/// The value of a constant or of a column where it stands.
#[tactic(auto, using(crate::proofs::Nodes::value_nodes))]
pub fn lent_value<'a>(env: &'a Env<'a>, expression: &'a Expression) -> Option<&'a Value>
    ensures { (tables : Tables)
        → IfSome result (λ value. value_listing tables expression.now (env_of env.now) ≡ Ok value.now) }
{
    match expression {
        Expression::Constant(value) => Some(value),
        Expression::Column { depth, place } => lent_column(env, *depth, *place),
        _ => None,
    }
}

/// A value that was made, or what stopped it.
pub fn made<'a>(value: Result<Value, Stop>) -> Result<Found<'a>, Stop>
    ensures gives { (meant : Evaluation Meant) → Gives value meant → GivesFound result meant }
{
    match value {
        Ok(value) => Ok(Found::Made(value)),
        Err(stop) => Err(stop),
    }
}
