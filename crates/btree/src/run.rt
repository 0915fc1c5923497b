//! A run of entries put behind all that a tree has, into its last leaf at once.

ghost use Rattle.std.specs.Prelude.{◌≡◌, ◌≢◌, ◌≤◌, ◌++◌, ℕ, List, None, IsSome, true, false, map, length, take, IfOk, IfErr, OnOk};
ghost use Rattle.std.specs.List.{AllByRecursion};
ghost use Rattle.page_space.specs.Space.{ChangeRefused};
ghost use Rattle.sqlrecord.specs.declared.kind.PageKind.TheVariants.{Leaf};
ghost use Rattle.sqlrecord.specs.Build.{lent};
ghost use Rattle.sqlrecord.specs.Page.{AreCells};
ghost use Rattle.btree_read.specs.declared.entry.Entry.{Entry as AnyEntry};
ghost use Rattle.btree_read.specs.Nodes.{LeafNode, entry_of, HasNode, IsSmall, IsStocked};
ghost use Rattle.btree_read.specs.Sorted.{Ascends};
ghost use Rattle.btree_read.specs.Tree.{IsTree};
ghost use Rattle.btree.specs.Grow.{LeafWritten, GrowsAtEnd, AreKept};
ghost use Rattle.btree.specs.Overfull.{HasNoLastTree, IsNoTreeIn};
ghost use Rattle.btree.specs.Written.{IsWritten};

use crate::page::write_page;
use btree_read::{Entry, MAXIMUM_LEVELS, child_at, is_before, read_node};
use items::Items;
use page_space::{PAGE_SIZE, PageSpace, SpaceError};
use sqlrecord::{PageKind, SlotPage, are_cells, fits, leaf_cell};
use std::alloc::{AllocError, Global};

/// Whether the first of these entries goes behind all that a leaf has.
fn goes_behind(leaf: &SlotPage<'_>, entries: &[Entry]) -> bool {
    match entries.first() {
        None => false,
        Some(first) => leaf.is_empty() || is_before(leaf.key(leaf.len() - 1), first.key.as_slice()),
    }
}

/// The bytes that a page has left for cells and their slots.
fn room_in(page: &SlotPage<'_>) -> usize {
    let mut room = PAGE_SIZE - 16;
    for i in 0..page.len() {
        room = room.saturating_sub(4).saturating_sub(page.cell(i).len());
    }
    room
}

/// The cells of the first of these entries, of as many as take so many bytes with their slots.
/// Refused for want of memory.
fn cells_of_first(
    alloc: Global,
    room: usize,
    entries: &[Entry],
) -> Result<Vec<Items<u8>>, AllocError>
    requires { AllByRecursion IsSmall entries.now }
    ensures few { IfOk result (λ cells. length cells.items ≤ length entries.now) }
    ensures cells { IfOk result (λ cells. map entry_of cells.items ≡ take (length cells.items) entries.now) }
{
    let mut cells = Vec::with_capacity(alloc, 0)?;
    let mut left = room;
    for entry in entries {
        let cell = leaf_cell(alloc, entry.key.as_slice(), entry.value.as_slice())?;
        if left < 4 + cell.len() {
            return Ok(cells);
        }
        left -= 4 + cell.len();
        cells.push(cell)?;
    }
    Ok(cells)
}

/// A page's cells with others behind them. Refused for want of memory.
fn cells_behind<'a>(
    alloc: Global,
    page: &SlotPage<'a>,
    more: &'a [Items<u8>],
) -> Result<Vec<&'a [u8]>, AllocError>
    ensures cells { IfOk result (λ cells. lent cells.items ≡ page.now.cells ++ more.now) }
{
    let mut cells = Vec::with_capacity(alloc, page.len().saturating_add(more.len()))?;
    for i in 0..page.len() {
        cells.push(page.cell(i))?;
    }
    for cell in more {
        cells.push(cell.as_slice())?;
    }
    Ok(cells)
}

/// Writes a leaf with more cells behind its own. Answers whether they fit and stand in order there;
/// if not, nothing has changed.
fn put_behind<'a, S: PageSpace>(
    space: &mut S,
    alloc: Global,
    page: u32,
    leaf: &SlotPage<'a>,
    more: &'a [Items<u8>],
) -> Result<bool, SpaceError>
    ensures written { IfOk result (λ put. put ≡ true → IsSome (S.pages space.old page)
        → IsStocked (LeafNode leaf.now.link (map entry_of (leaf.now.cells ++ more.now)))
        → HasNode (S.pages space.new) page (LeafNode leaf.now.link (map entry_of (leaf.now.cells ++ more.now)))) }
    ensures cells { IfOk result (λ put. put ≡ true → AreCells Leaf (leaf.now.cells ++ more.now)) }
    ensures left { IfOk result (λ put. put ≡ false → S.pages space.new ≡ S.pages space.old) }
    ensures others { (n : ℕ) → n ≢ page → S.pages space.new n ≡ S.pages space.old n }
    ensures whole { OnOk result (S.is_whole space.old → S.is_whole space.new) }
    ensures refusal { IfErr result (ChangeRefused (S.at_limit space.new) (S.pages space.old page ≡ None) (S.refused space.old) (S.refused space.new)) }
    ensures rising { S.refused space.old ≤ S.refused space.new }
    ensures follows { S.follows space.old space.new }
{
    let cells = cells_behind(alloc, leaf, more)?;
    if !are_cells(PageKind::Leaf, cells.as_slice()) {
        return Ok(false);
    }
    if !fits(cells.as_slice()) {
        return Ok(false);
    }
    write_page(space, page, PageKind::Leaf, leaf.link(), cells.as_slice())?;
    Ok(true)
}

/// Puts cells behind all that a leaf has, where they fit and stand in order there. Answers how many:
/// all or none.
fn put_run<'a, S: PageSpace>(
    space: &mut S,
    alloc: Global,
    page: u32,
    leaf: &SlotPage<'a>,
    more: &'a [Items<u8>],
) -> Result<usize, SpaceError>
    requires leaf { leaf.now.kind ≡ Leaf }
    requires small { AllByRecursion IsSmall (map entry_of more.now) }
    ensures few { IfOk result (λ count. count ≤ length more.now) }
    ensures written { HasNode (S.pages space.old) page (LeafNode leaf.now.link (map entry_of leaf.now.cells))
        → IfOk result (λ count. LeafWritten (S.pages space.old) (S.pages space.new) page leaf.now.link (map entry_of leaf.now.cells ++ take count (map entry_of more.now)) None) }
    ensures ascends { Ascends (map entry_of leaf.now.cells)
        → IfOk result (λ count. Ascends (map entry_of leaf.now.cells ++ take count (map entry_of more.now))) }
    ensures whole { OnOk result (S.is_whole space.old → S.is_whole space.new) }
    ensures refusal { IfErr result (ChangeRefused (S.at_limit space.new) (S.pages space.old page ≡ None) (S.refused space.old) (S.refused space.new)) }
    ensures rising { S.refused space.old ≤ S.refused space.new }
    ensures follows { S.follows space.old space.new }
{
    if more.is_empty() {
        return Ok(0);
    }
    if put_behind(space, alloc, page, leaf, more)? {
        Ok(more.len())
    } else {
        Ok(0)
    }
}

/// The cells of the first of these entries, of as many as a leaf has room for, where they go behind
/// all that it has. Refused for want of memory.
fn first_cells(
    alloc: Global,
    leaf: &SlotPage<'_>,
    entries: &[Entry],
) -> Result<Vec<Items<u8>>, AllocError>
    requires { AllByRecursion IsSmall entries.now }
    ensures few { IfOk result (λ cells. length cells.items ≤ length entries.now) }
    ensures cells { IfOk result (λ cells. map entry_of cells.items ≡ take (length cells.items) entries.now) }
{
    if !goes_behind(leaf, entries) {
        return Vec::with_capacity(alloc, 0);
    }
    cells_of_first(alloc, room_in(leaf), entries)
}

/// Puts the first of these entries behind all of the tree under a page, as many as its last leaf has
/// room for. Answers how many.
fn append_below<S: PageSpace>(
    space: &mut S,
    alloc: Global,
    page: u32,
    levels: u32,
    entries: &[Entry],
) -> Result<usize, SpaceError>
    requires { AllByRecursion IsSmall entries.now }
    ensures few { IfOk result (λ count. count ≤ length entries.now) }
    ensures grows { GrowsAtEnd (S.pages space.old) (S.pages space.new) page entries.now result }
    ensures whole { OnOk result (S.is_whole space.old → S.is_whole space.new) }
    ensures refusal { IfErr result (ChangeRefused (S.at_limit space.new) (HasNoLastTree (S.pages space.old) page levels (S.is_whole space.old)) (S.refused space.old) (S.refused space.new)) }
    ensures rising { S.refused space.old ≤ S.refused space.new }
    ensures follows { S.follows space.old space.new }
{
    let mut buffer = [0; PAGE_SIZE];
    let node = read_node(space, page, &mut buffer)?;
    match node.kind() {
        PageKind::Leaf => {
            let made = first_cells(alloc, &node, entries)?;
            put_run(space, alloc, page, &node, made.as_slice())
        }
        PageKind::Inner => {
            if levels == 0 {
                return Err(SpaceError::Damaged);
            }
            let child = child_at(&node, node.len());
            append_below(space, alloc, child, levels - 1, entries)
        }
    }
}

/// Puts the first of these entries behind all that the tree at a root has, as many as its last leaf
/// has room for, where they stand in order there. Answers how many: none where the tree has no
/// entries. Refused as `insert` is.
pub(crate) fn append_run<S: PageSpace>(
    space: &mut S,
    alloc: Global,
    root: u32,
    entries: &[Entry],
) -> Result<usize, SpaceError>
    requires { AllByRecursion IsSmall entries.now }
    ensures few { IfOk result (λ count. count ≤ length entries.now) }
    ensures appends { (owned : List ℕ) (held : List AnyEntry) → IsTree (S.pages space.old) root owned held
        → IfOk result (λ count. IsWritten (S.pages space.old) (S.pages space.new) owned (held ++ take count entries.now) root) }
    ensures keeps { (owned : List ℕ) (held : List AnyEntry) → IsTree (S.pages space.old) root owned held
        → IfOk result (λ count. (now_owned : List ℕ) (after : List AnyEntry) → IsTree (S.pages space.new) root now_owned after
        → AreKept (S.pages space.old) (S.pages space.new) owned now_owned) }
    ensures whole { OnOk result (S.is_whole space.old → S.is_whole space.new) }
    ensures refusal { IfErr result (ChangeRefused (S.at_limit space.new) (IsNoTreeIn (S.pages space.old) root (S.is_whole space.old)) (S.refused space.old) (S.refused space.new)) }
    ensures rising { S.refused space.old ≤ S.refused space.new }
    ensures follows { S.follows space.old space.new }
{
    if root == 0 {
        return Ok(0);
    }
    append_below(space, alloc, root, MAXIMUM_LEVELS, entries)
}
