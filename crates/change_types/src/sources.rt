//! What is stored, and the conditions of UPDATE and DELETE.

ghost use Rattle.std.specs.Prelude.{Option};
ghost use Rattle.typing.specs.Finding.{Finding};
ghost use Rattle.typing.specs.Finds.{Finds};
ghost use Rattle.typing.specs.Insert.{source_found};
ghost use Rattle.typing.specs.Known.{known};
ghost use Rattle.typing.specs.Update.{filter_found};
ghost use Rattle.scopes.specs.Seen.{frames};
ghost use Rattle.change_types.specs.Parts.{stored, written};

use ast::StoredSource;
use query_types::{typed_condition, typed_expression};
use refusals::Refusal;
use scopes::{Clause, Scope, View};
use sqlval::{Schema, Value, ValueType};
use std::alloc::Global;
use type_rules::of_type;
use typing::{Condition, Expression, TypedExpression};

/// A source, where it sees these columns; NULL is none.
pub fn typed_source(
    alloc: Global,
    schema: &Schema,
    source: &StoredSource,
    scope: &Scope,
) -> Result<Option<TypedExpression>, Refusal>
    ensures { Finds result (source_found (known schema.now) (frames scope.now) source.now) }
{
    match source {
        StoredSource::Null => Ok(None),
        StoredSource::Value(tree) => {
            let clause = Clause::Plain;
            written(typed_expression(alloc, schema, tree, &View { scope, clause }))
        }
    }
}

/// The condition after WHERE, where it is written.
pub fn typed_filter(
    alloc: Global,
    schema: &Schema,
    filter: &Option<ast::Condition>,
    scope: &Scope,
) -> Result<Option<Condition>, Refusal>
    ensures { Finds result (filter_found (known schema.now) (frames scope.now) filter.now) }
{
    match filter {
        None => Ok(None),
        Some(tree) => {
            let clause = Clause::Plain;
            written(typed_condition(alloc, schema, tree, &View { scope, clause }))
        }
    }
}

#[tactic(auto, using(type_rules::proofs::FindsLemmas::part_steps))]
fn written<T: Drop>(part: Result<T, Refusal>) -> Result<Option<T>, Refusal>
    ensures { (x : Finding T) → Finds part x → Finds result (written x) }
{
    Ok(Some(part?))
}

/// A source for a column of this type: NULL fits every column.
pub fn stored(
    wanted: ValueType,
    source: Result<Option<TypedExpression>, Refusal>,
) -> Result<Expression, Refusal>
    ensures { (x : Finding (Option TypedExpression)) → Finds source x → Finds result (stored wanted x) }
{
    let typed = source?;
    match typed {
        Some(typed) => of_type(Ok(typed), wanted),
        None => Ok(Expression::Constant(Value::Null)),
    }
}
