//! The rows that a subquery gives wherever it is asked.

ghost use Rattle.std.specs.Prelude.{◌≡◌, IfOk};
ghost use Rattle.denote.specs.Outcome.{Outcome};
ghost use Rattle.executor.specs.Reply.{Lists};
ghost use Rattle.uncorrelated_subqueries.specs.Kept.{lasting_rows, unfaulted};

use algebra::Tree;
use closed_trees::is_closed;
use denote::{Rows, Stop, Tables};
use executor::{Env, Listed, tree_listed};
use std::alloc::{AllocError, Global};

/// The rows that a subquery gives at every row, listed once; `None` where it names a column outside
/// itself, or a fault ends its list. Refuses for want of memory alone.
pub fn lasting_rows<S: Tables>(
    alloc: Global,
    tables: &S,
    tree: &Tree,
) -> Result<Option<Rows>, AllocError>
    ensures { IfOk result (λ rows. rows ≡ lasting_rows (S.rows_of tables.now) tree.now) }
{
    if is_closed(alloc, tree)? {
        unfaulted_rows(tree_listed(alloc, tables, &Env::Outermost, tree))
    } else {
        Ok(None)
    }
}

/// The rows of a list, if no fault ends it.
fn unfaulted_rows(listed: Result<Listed, Stop>) -> Result<Option<Rows>, AllocError>
    ensures { (meant : Outcome) → Lists listed meant → IfOk result (λ rows. rows ≡ unfaulted meant) }
{
    match listed {
        Err(_) => Err(AllocError),
        Ok(listed) => match listed.fault {
            None => Ok(Some(listed.rows)),
            Some(_) => Ok(None),
        },
    }
}
