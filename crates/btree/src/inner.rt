//! A branch put into an inner page.

ghost use Rattle.std.specs.Prelude.{◌≡◌, ◌≤◌, ◌++◌, ◌∷◌, map, length, take, drop, IsSome, IfSome, IfOk, IfErr, OnOk};
ghost use Rattle.page_space.specs.Space.{ChangeRefused};
ghost use Rattle.sqlrecord.specs.declared.kind.PageKind.TheVariants.{Inner};
ghost use Rattle.sqlrecord.specs.Build.{lent, Fits};
ghost use Rattle.sqlrecord.specs.Page.{AreCells, IsCell};
ghost use Rattle.btree_read.specs.Nodes.{Key, InnerNode, branch_of, IsStocked, IsSmallBranch};
ghost use Rattle.btree.specs.Grow.{InnerWritten};
ghost use Rattle.btree.specs.Overfull.{size_of, RisesBehind};

use crate::cells::{cell_child, cell_key, cells_with, cut_of};
use crate::page::write_page;
use btree_read::Branch;
use items::Items;
use page_space::{PageSpace, SpaceError};
use sqlrecord::{MAXIMUM_KEY, PageKind, SlotPage, are_cells, fits};
use std::alloc::Global;

/// Writes an inner page of these cells, in two pages where they are too many for one; a branch in
/// the answer is to the second one. Refused for memory, where the device refuses a call, at a limit
/// where the space is at it, and as damaged only where the page is not in use, the list of free
/// pages is none, a key has more than 600 bytes, or the cells are too many for two pages.
pub fn write_inner<S: PageSpace>(
    space: &mut S,
    alloc: Global,
    page: u32,
    first: u32,
    cells: &[&[u8]],
    is_last: bool,
) -> Result<Option<Branch>, SpaceError>
    requires { AreCells Inner (lent cells.now) }
    ensures written { IsSome (S.pages space.old page) → IsStocked (InnerNode first (map branch_of (lent cells.now)))
        → IfOk result (InnerWritten (S.pages space.old) (S.pages space.new) page first (map branch_of (lent cells.now))) }
    ensures small { IfOk result (λ split. IfSome split IsSmallBranch) }
    ensures whole { OnOk result (S.is_whole space.old → S.is_whole space.new) }
    ensures refusal { IfErr result (ChangeRefused (S.at_limit space.new)
        (IsSome (S.pages space.old page) → S.is_whole space.old
        → IsStocked (InnerNode first (map branch_of (lent cells.now))) → size_of (lent cells.now) ≤ 5094
        → ⊥) (S.refused space.old) (S.refused space.new)) }
    ensures rising { S.refused space.old ≤ S.refused space.new }
    ensures follows { S.follows space.old space.new }
{
    if fits(cells) {
        write_page(space, page, PageKind::Inner, first, cells)?;
        return Ok(None);
    }
    let Some(at) = cut_of(cells, is_last, 2) else {
        return Err(SpaceError::Damaged);
    };
    let (left, right) = cells.split_at(at);
    let middle = right[0];
    let divider = cell_key(middle);
    if divider.len() > MAXIMUM_KEY {
        return Err(SpaceError::Damaged);
    }
    let key = Items::from_slice(alloc, divider)?;
    let below = cell_child(middle);
    let child = space.allocate()?;
    write_page(space, page, PageKind::Inner, first, left)?;
    write_page(space, child, PageKind::Inner, below, &right[1..])?;
    Ok(Some(Branch { key, child }))
}

/// Puts a cell into an inner page at a place.
pub(crate) fn put_in_inner<'a, S: PageSpace>(
    space: &mut S,
    alloc: Global,
    page: u32,
    node: &SlotPage<'a>,
    at: usize,
    cell: &'a [u8],
) -> Result<Option<Branch>, SpaceError>
    requires place { at ≤ length node.now.cells }
    requires inner { node.now.kind ≡ Inner }
    requires fits { Fits node.now.cells }
    requires cell { IsCell Inner cell.now }
    ensures written { IsSmallBranch (branch_of cell.now) → IsSome (S.pages space.old page)
        → IsStocked (InnerNode node.now.link (map branch_of node.now.cells))
        → IfOk result (InnerWritten (S.pages space.old) (S.pages space.new) page node.now.link (take at (map branch_of node.now.cells) ++ branch_of cell.now ∷ drop at (map branch_of node.now.cells))) }
    ensures small { IfOk result (λ split. IfSome split IsSmallBranch) }
    ensures whole { OnOk result (S.is_whole space.old → S.is_whole space.new) }
    ensures refusal { IfErr result (ChangeRefused (S.at_limit space.new)
        ((lo : Key) → IsSmallBranch (branch_of cell.now) → IsSome (S.pages space.old page) → S.is_whole space.old
        → IsStocked (InnerNode node.now.link (map branch_of node.now.cells))
        → RisesBehind lo (take at (map branch_of node.now.cells) ++ branch_of cell.now ∷ drop at (map branch_of node.now.cells))
        → ⊥) (S.refused space.old) (S.refused space.new)) }
    ensures rising { S.refused space.old ≤ S.refused space.new }
    ensures follows { S.follows space.old space.new }
{
    let cells = cells_with(alloc, node, at, at, cell)?;
    if !are_cells(PageKind::Inner, cells.as_slice()) {
        return Err(SpaceError::Damaged);
    }
    let is_last = at == node.len();
    write_inner(space, alloc, page, node.link(), cells.as_slice(), is_last)
}
