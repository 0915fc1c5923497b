//! Rows in batches.
ghost use Rattle.std.specs.Prelude.{◌≡◌, ◌≢◌, ◌≤◌, [], ◌∷◌, ◌++◌, length, IfOk, OnOk};
ghost use Rattle.csvio.specs.Batches.{AreBatches, rows_in};

use denote::{Row, Rows};
use items::Items;
use std::alloc::{AllocError, Global};
use std::mem;

/// Rows in batches of so many, the last perhaps of fewer. Refuses for want of memory alone.
pub(crate) fn cut(alloc: Global, rows: Rows, most: usize) -> Result<Items<Rows>, AllocError>
    ensures batches { 1 ≤ most → IfOk result (λ batches. AreBatches most rows batches) }
    ensures count { IfOk result (λ batches. rows_in batches ≡ length rows) }
{
    let mut batches = Items::new(alloc);
    let mut batch = Items::new(alloc);
    for row in rows.into_vec() {
        put_behind(alloc, &mut batches, &mut batch, row, most)?;
    }
    batches.push(batch)?;
    Ok(batches)
}

/// Puts a row behind those of the last batch, or where that is full into a new one.
fn put_behind(
    alloc: Global,
    batches: &mut Items<Rows>,
    batch: &mut Rows,
    row: Row,
    most: usize,
) -> Result<(), AllocError>
    ensures full { length batch.old ≡ most
        → OnOk result ((batches.new ≡ batches.old ++ batch.old ∷ []) × (batch.new ≡ row ∷ [])) }
    ensures room { length batch.old ≢ most
        → OnOk result ((batches.new ≡ batches.old) × (batch.new ≡ batch.old ++ row ∷ [])) }
{
    if batch.len() == most {
        batches.push(mem::replace(batch, Items::new(alloc)))?;
    }
    batch.push(row)
}
