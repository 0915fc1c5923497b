//! Cells of pages.

ghost use Rattle.std.specs.Prelude.{◌≡◌, ◌+◌, ◌<◌, ◌↔◌, length, IfOk, IsTrue};
ghost use Rattle.sqlrecord.specs.Page.{AreCells};
ghost use Rattle.sqlrecord.specs.Build.{lent};
ghost use Rattle.sqlrecord.specs.Cell.{IsLeafCell, IsInnerCell};

use crate::PageKind;
use crate::sound::{is_cell, key_in, precedes};
use items::Items;
use std::alloc::{AllocError, Global};

/// The cell of a leaf's entry. Refused for want of memory.
pub fn leaf_cell(alloc: Global, key: &[u8], value: &[u8]) -> Result<Items<u8>, AllocError>
    requires { length key.now < 65536 }
    ensures { IfOk result (λ cell. IsLeafCell cell key.now value.now) }
{
    let mut cell = Vec::with_capacity(alloc, 2)?;
    cell.extend_from_slice(&[(key.len() / 256) as u8, (key.len() % 256) as u8])?;
    cell.extend_from_slice(key)?;
    cell.extend_from_slice(value)?;
    Ok(Items::from_vec(cell))
}

/// The cell of an inner page's branch. Refused for want of memory.
pub fn inner_cell(alloc: Global, key: &[u8], child: u32) -> Result<Items<u8>, AllocError>
    requires { length key.now < 65536 }
    ensures { IfOk result (λ cell. IsInnerCell cell key.now child) }
{
    leaf_cell(alloc, key, &child.to_be_bytes())
}

/// Whether these are cells of this kind, with their keys strictly rising.
pub fn are_cells(kind: PageKind, cells: &[&[u8]]) -> bool
    ensures { IsTrue result ↔ AreCells kind (lent cells.now) }
{
    for i in 0..cells.len() {
        let cell = cells[i];
        if !is_cell(cell, kind) {
            return false;
        }
        if i > 0 && !precedes(key_in(cells[i - 1]), key_in(cell)) {
            return false;
        }
    }
    true
}
