//! What is to be made of the rows of a table.
ghost use Rattle.std.specs.Prelude.{◌≡◌, ◌++◌, IfErr, IfOk, OnOk};
ghost use Rattle.refusals.specs.declared.refusal.Refusal.TheVariants.{Memory};
ghost use Rattle.update_delete.specs.Planned.{IsPlannedFor};
ghost use Rattle.update_delete.specs.RowChanges.{gone_of, rows_gone};

use crate::change::RowChange;
use denote::{Row, Rows};
use items::Items;
use refusals::Refusal;
use std::alloc::{AllocError, Global};

/// Rows of a table by their numbers, and at the same place in another list what becomes of each;
/// the others stay.
#[derive(Drop)]
pub struct Planned {
    pub numbers: Items<u64>,
    pub changes: Items<RowChange>,
    /// Those that are there no more: they go, or others come in their place.
    pub gone: Rows,
    /// Whether it is sure that a table which violates no constraint violates none after them by its
    /// own rows.
    pub harmless: bool,
}

/// What is planned for rows of these numbers, the n-th of which becomes what the n-th change says.
/// It is refused for want of memory alone.
pub(crate) fn planned_for(
    alloc: Global,
    numbers: Items<u64>,
    rows: Rows,
    changes: Items<RowChange>,
    harmless: bool,
) -> Result<Option<Planned>, Refusal>
    ensures is { IfOk result (λ planned. IsPlannedFor numbers rows changes harmless planned) }
    ensures refused { IfErr result (λ refusal. refusal ≡ Memory) }
{
    match rows_gone(alloc, rows, changes.as_slice()) {
        Ok(gone) => Ok(Some(Planned {
            numbers,
            changes,
            gone,
            harmless,
        })),
        Err(_) => Err(Refusal::Memory),
    }
}

/// The rows that are there no more.
fn rows_gone(alloc: Global, rows: Rows, changes: &[RowChange]) -> Result<Rows, AllocError>
    ensures { IfOk result (λ gone. gone ≡ rows_gone rows changes.now) }
{
    let mut gone = Items::new(alloc);
    let mut left = changes;
    for row in rows.into_vec() {
        let Some((change, others)) = left.split_first() else {
            return Ok(gone);
        };
        put_gone(&mut gone, row, change)?;
        left = others;
    }
    Ok(gone)
}

fn put_gone(gone: &mut Rows, row: Row, change: &RowChange) -> Result<(), AllocError>
    ensures { OnOk result (gone.new ≡ gone.old ++ gone_of row change.now) }
{
    match change {
        RowChange::Stays => Ok(()),
        RowChange::Goes => gone.push(row),
        RowChange::Becomes(_) => gone.push(row),
    }
}
