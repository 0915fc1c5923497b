//! Marks beside rows: which of them are kept.

ghost use Rattle.std.specs.Prelude.{◌≡◌, IfOk};
ghost use Rattle.kernels.specs.Marks.{marked};

use denote::Rows;
use items::Items;
use std::alloc::{AllocError, Global};

/// The marked rows, moved; what has no mark is not kept.
pub fn marked_rows(alloc: Global, marks: &[bool], rows: Rows) -> Result<Rows, AllocError>
    ensures { IfOk result (λ kept. kept ≡ marked marks.now rows) }
{
    let mut kept = Items::new(alloc);
    let mut left = marks;
    for row in rows.into_vec() {
        if let Some((mark, others)) = left.split_first() {
            left = others;
            if *mark {
                kept.push(row)?;
            }
        }
    }
    Ok(kept)
}
