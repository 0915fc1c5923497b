//! Names and types of a CHECK.

ghost use Rattle.typing.specs.Check.{check_found};
ghost use Rattle.typing.specs.Finds.{Finds};
ghost use Rattle.typing.specs.Known.{known};
ghost use Rattle.scopes.specs.Seen.{frames};
ghost use Rattle.table_types.specs.Checks.{condition_in, without_key};

use items::Items;
use query_types::typed_condition;
use refusals::Refusal;
use scopes::{Clause, Scope, View};
use sqlval::Schema;
use std::alloc::Global;
use typing::{Condition, Frame};

/// What the condition of a CHECK stands for. It sees the columns of its own table alone, which
/// `frame` has, and no other table. Grouping columns of `frame` are not looked at.
///
/// Refused by a reason of names or types that holds of it; where several hold, by any of these.
/// Refuses for want of memory too.
pub fn typed_check(
    alloc: Global,
    frame: &Frame,
    tree: &ast::Condition,
) -> Result<Condition, Refusal>
    ensures { Finds result (check_found (without_key frame.now) tree.now) }
{
    let nothing = Schema {
        tables: Items::new(alloc),
    };
    let outer = Scope::Outermost;
    checked_in(alloc, &nothing, tree, &Scope::Inside(frame, None, &outer))
}

fn checked_in(
    alloc: Global,
    schema: &Schema,
    tree: &ast::Condition,
    scope: &Scope,
) -> Result<Condition, Refusal>
    ensures { Finds result (condition_in (known schema.now) (frames scope.now) tree.now) }
{
    let clause = Clause::Checked;
    typed_condition(alloc, schema, tree, &View { scope, clause })
}
