//! An entry put into a leaf.

ghost use Rattle.std.specs.Prelude.{◌≡◌, ◌≤◌, ℕ, List, map, length, IsSome, IfSome, IfOk, IfErr, OnOk};
ghost use Rattle.page_space.specs.Space.{ChangeRefused};
ghost use Rattle.sqlrecord.specs.declared.kind.PageKind.TheVariants.{Leaf};
ghost use Rattle.sqlrecord.specs.Build.{lent, Fits};
ghost use Rattle.sqlrecord.specs.Page.{key_of, AreCells, IsCell};
ghost use Rattle.btree_read.specs.Nodes.{LeafNode, entry_of, IsStocked, IsSmall, IsSmallBranch};
ghost use Rattle.sqlrecord.specs.Cell.{IsLeafCell};
ghost use Rattle.btree_read.specs.Sorted.{put};
ghost use Rattle.btree.specs.Grow.{LeafWritten};
ghost use Rattle.btree.specs.Overfull.{size_of};

use crate::cells::{cell_key, cells_with, cut_of, place_of};
use crate::page::{write_page, write_sound};
use btree_read::Branch;
use items::Items;
use page_space::{PAGE_SIZE, PageSpace, SpaceError};
use sqlrecord::{MAXIMUM_KEY, PageKind, SlotPage, fits, splice_page};
use std::alloc::Global;

/// Writes a leaf of these cells, in two pages where they are too many for one.
fn write_leaf<S: PageSpace>(
    space: &mut S,
    alloc: Global,
    page: u32,
    next: u32,
    cells: &[&[u8]],
    is_last: bool,
) -> Result<Option<Branch>, SpaceError>
    requires { AreCells Leaf (lent cells.now) }
    ensures written { IsSome (S.pages space.old page) → IsStocked (LeafNode next (map entry_of (lent cells.now)))
        → IfOk result (LeafWritten (S.pages space.old) (S.pages space.new) page next (map entry_of (lent cells.now))) }
    ensures small { IfOk result (λ split. IfSome split IsSmallBranch) }
    ensures whole { OnOk result (S.is_whole space.old → S.is_whole space.new) }
    ensures refusal { IfErr result (ChangeRefused (S.at_limit space.new)
        (IsSome (S.pages space.old page) → S.is_whole space.old
        → IsStocked (LeafNode next (map entry_of (lent cells.now))) → size_of (lent cells.now) ≤ 5094
        → ⊥) (S.refused space.old) (S.refused space.new)) }
    ensures rising { S.refused space.old ≤ S.refused space.new }
    ensures follows { S.follows space.old space.new }
{
    if fits(cells) {
        write_page(space, page, PageKind::Leaf, next, cells)?;
        return Ok(None);
    }
    let Some(at) = cut_of(cells, is_last, 1) else {
        return Err(SpaceError::Damaged);
    };
    let (left, right) = cells.split_at(at);
    let first = cell_key(right[0]);
    if first.len() > MAXIMUM_KEY {
        return Err(SpaceError::Damaged);
    }
    let key = Items::from_slice(alloc, first)?;
    let child = space.allocate()?;
    write_page(space, page, PageKind::Leaf, child, left)?;
    write_page(space, child, PageKind::Leaf, next, right)?;
    Ok(Some(Branch { key, child }))
}

/// Puts a cell into a leaf, in place of the one with its key.
pub(crate) fn put_in_leaf<'a, S: PageSpace>(
    space: &mut S,
    alloc: Global,
    page: u32,
    leaf: &SlotPage<'a>,
    key: &[u8],
    cell: &'a [u8],
) -> Result<Option<Branch>, SpaceError>
    requires leaf { leaf.now.kind ≡ Leaf }
    requires fits { Fits leaf.now.cells }
    requires cell { IsCell Leaf cell.now }
    requires key { key_of cell.now ≡ key.now }
    ensures written { (value : List ℕ) → IsLeafCell cell.now key.now value
        → IsSmall (record { key = key.now; value = value })
        → IsSome (S.pages space.old page) → IsStocked (LeafNode leaf.now.link (map entry_of leaf.now.cells))
        → IfOk result (LeafWritten (S.pages space.old) (S.pages space.new) page leaf.now.link (put key.now value (map entry_of leaf.now.cells))) }
    ensures small { IfOk result (λ split. IfSome split IsSmallBranch) }
    ensures whole { OnOk result (S.is_whole space.old → S.is_whole space.new) }
    ensures refusal { IfErr result (ChangeRefused (S.at_limit space.new)
        ((value : List ℕ) → IsLeafCell cell.now key.now value → IsSmall (record { key = key.now; value = value })
        → IsSome (S.pages space.old page) → S.is_whole space.old
        → IsStocked (LeafNode leaf.now.link (map entry_of leaf.now.cells))
        → ⊥) (S.refused space.old) (S.refused space.new)) }
    ensures rising { S.refused space.old ≤ S.refused space.new }
    ensures follows { S.follows space.old space.new }
{
    let (at, behind) = place_of(leaf, key);
    let link = leaf.link();
    let is_last = at == leaf.len() && link == 0;
    let mut bytes = [0; PAGE_SIZE];
    if splice_page(&mut bytes, link, leaf, at, behind, &[cell]) {
        write_sound(space, page, PageKind::Leaf, &bytes)?;
        return Ok(None);
    }
    let cells = cells_with(alloc, leaf, at, behind, cell)?;
    write_leaf(space, alloc, page, link, cells.as_slice(), is_last)
}
