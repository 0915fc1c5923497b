//! The trees of a change with the subqueries that name no column outside themselves as what they
//! give.
ghost use Rattle.std.specs.Prelude.{◌≡◌, IfOk, map};
ghost use Rattle.uncorrelated_subqueries.specs.Kept.{kept_expression};
ghost use Rattle.query_answers.specs.Lent.{rows_lent};
ghost use Rattle.update_delete.specs.KeptChanges.{filter_kept, update_kept};

use crate::change::RowUpdate;
use algebra::{Condition, Expression};
use items::Items;
use query_answers::LentTables;
use std::alloc::{AllocError, Global};
use uncorrelated_subqueries::{kept_condition, kept_expression};

/// A condition whose subqueries are listed once for all rows. Refuses for want of memory alone.
pub(crate) fn kept_filter(
    alloc: Global,
    lent: &LentTables,
    filter: &Option<Condition>,
) -> Result<Option<Condition>, AllocError>
    ensures { IfOk result (λ made. made ≡ filter_kept (rows_lent lent.now.tables) filter.now) }
{
    match filter {
        None => Ok(None),
        Some(condition) => match kept_condition(alloc, lent, condition) {
            Ok(kept) => Ok(Some(kept)),
            Err(refused) => Err(refused),
        },
    }
}

fn kept_sources(
    alloc: Global,
    lent: &LentTables,
    sources: &[Expression],
) -> Result<Items<Expression>, AllocError>
    ensures { IfOk result (λ made. made ≡ map (kept_expression (rows_lent lent.now.tables)) sources.now) }
{
    let mut made = Items::new(alloc);
    for source in sources {
        made.push(kept_expression(alloc, lent, source)?)?;
    }
    Ok(made)
}

/// The trees of an UPDATE whose subqueries are listed once for all rows. Refuses for want of memory
/// alone.
pub(crate) fn kept_update(
    alloc: Global,
    lent: &LentTables,
    update: &RowUpdate,
) -> Result<RowUpdate, AllocError>
    ensures { IfOk result (λ made. made ≡ update_kept (rows_lent lent.now.tables) update.now) }
{
    let columns = Items::from_slice(alloc, update.columns.as_slice())?;
    let sources = kept_sources(alloc, lent, update.sources.as_slice())?;
    let filter = kept_filter(alloc, lent, &update.filter)?;
    Ok(RowUpdate {
        filter,
        columns,
        sources,
    })
}
