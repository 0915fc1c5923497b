//! The first entries from a key on, at most so many, as they lie in their leaves: one way down, and
//! then from leaf to leaf, the link of each leaf compared with the leaf that follows.

ghost use Rattle.std.specs.Prelude.{◌≡◌, ◌<◌, ◌≤◌, ◌-◌, ◌++◌, ◌∷◌, [], None, Some, true, map, length, IfOk, IfErr, OnOk};
ghost use Rattle.page_space.specs.Space.{ReadRefused};
ghost use Rattle.btree_read.specs.Nodes.{entry_of};
ghost use Rattle.btree_read.specs.Search.{IsNoTree};
ghost use Rattle.btree_read.specs.Sorted.{from_on};
ghost use Rattle.btree_read.specs.Leaves.{Names};
ghost use Rattle.btree_read.specs.Blocks.{Begins, BeginsBelow, HasFirst, HasNoLinkedLeaves, SeesMore};

use crate::leaf::{Walk, see_leaf};
use crate::node::read_node;
use crate::place::{child_at, first_place};
use crate::whole::has_ended;
use crate::{Entries, MAXIMUM_LEVELS, Start};
use page_space::{PAGE_SIZE, PageReader, SpaceError};
use sqlrecord::{PageKind, SlotPage};
use std::alloc::Global;

/// Entries of a tree as they lie in their leaves, from a place on.
#[derive(Drop)]
pub struct Block {
    /// The leaves, each copied whole; the last one may have more entries than were asked for.
    pub leaves: Entries,
    /// How many entries stand before the first one of the block.
    pub first: usize,
}

/// The leaves that a block has so far.
#[derive(Drop)]
pub(crate) struct Seen {
    pub(crate) walk: Walk,
    /// How many entries are wanted yet.
    pub(crate) wanted: usize,
}

/// Puts a leaf behind others. Refused as `see_leaf` is.
fn see_next(
    alloc: Global,
    page: u32,
    leaf: &SlotPage<'_>,
    seen: &mut Seen,
) -> Result<(), SpaceError>
    ensures entries { OnOk result (seen.new.walk.entries ≡ seen.old.walk.entries ++ map entry_of leaf.now.cells) }
    ensures named { OnOk result (Names seen.old.walk.named page) }
    ensures next { OnOk result (seen.new.walk.named ≡ Some leaf.now.link) }
    ensures wanted { OnOk result (seen.new.wanted ≡ seen.old.wanted - length leaf.now.cells) }
    ensures refusal { IfErr result (ReadRefused (Names seen.old.walk.named page → ⊥) 0 0) }
{
    match see_leaf(alloc, page, leaf, &mut seen.walk) {
        Ok(()) => {
            seen.wanted = seen.wanted.saturating_sub(leaf.len());
            Ok(())
        }
        Err(fault) => Err(fault),
    }
}

/// Puts the first leaf of a block into it, and gives the place of the first entry from there on.
fn see_first(
    alloc: Global,
    page: u32,
    leaf: &SlotPage<'_>,
    start: Start,
    key: &[u8],
    seen: &mut Seen,
) -> Result<usize, SpaceError>
    requires entries { seen.old.walk.entries ≡ [] }
    requires named { seen.old.walk.named ≡ None }
    ensures begins { IfOk result (λ first.
        Begins seen.old.wanted (from_on start key.now (map entry_of leaf.now.cells))
        ((page, leaf.now.link) ∷ []) first seen.new) }
    ensures refusal { IfErr result (ReadRefused ⊥ 0 0) }
{
    match see_leaf(alloc, page, leaf, &mut seen.walk) {
        Ok(()) => {
            let first = first_place(leaf, start, key);
            seen.wanted = seen.wanted.saturating_sub(leaf.len() - first);
            Ok(first)
        }
        Err(fault) => Err(fault),
    }
}

/// Sees the leaves of the tree under a page, until there are enough entries.
fn more_below<R: PageReader>(
    space: &mut R,
    alloc: Global,
    page: u32,
    levels: u32,
    seen: &mut Seen,
) -> Result<(), SpaceError>
    ensures sees { SeesMore (R.pages space.old) page seen.old seen.new result }
    ensures same { R.pages space.new ≡ R.pages space.old }
    ensures whole { R.is_whole space.old → R.is_whole space.new }
    ensures refusal { IfErr result (ReadRefused (HasNoLinkedLeaves (R.pages space.old) page levels seen.old.walk.named) (R.refused space.old) (R.refused space.new)) }
    ensures rising { R.refused space.old ≤ R.refused space.new }
    ensures follows { R.follows space.old space.new }
{
    let mut buffer = [0; PAGE_SIZE];
    let node = read_node(space, page, &mut buffer)?;
    match node.kind() {
        PageKind::Leaf => see_next(alloc, page, &node, seen),
        PageKind::Inner => {
            if levels == 0 {
                return Err(SpaceError::Damaged);
            }
            let first = child_at(&node, 0);
            more_below(space, alloc, first, levels - 1, seen)?;
            for i in 0..node.len() {
                if seen.wanted == 0 {
                    return Ok(());
                }
                let child = child_at(&node, i + 1);
                more_below(space, alloc, child, levels - 1, seen)?;
            }
            Ok(())
        }
    }
}

/// Sees the leaves of the tree under a page from there on, until there are enough entries, and
/// gives the place of the first entry in the first leaf.
fn block_below<R: PageReader>(
    space: &mut R,
    alloc: Global,
    page: u32,
    levels: u32,
    start: Start,
    key: &[u8],
    seen: &mut Seen,
) -> Result<usize, SpaceError>
    requires entries { seen.old.walk.entries ≡ [] }
    requires named { seen.old.walk.named ≡ None }
    ensures begins { BeginsBelow (R.pages space.old) page start key.now seen.old.wanted seen.new result }
    ensures same { R.pages space.new ≡ R.pages space.old }
    ensures whole { R.is_whole space.old → R.is_whole space.new }
    ensures refusal { IfErr result (ReadRefused (HasNoLinkedLeaves (R.pages space.old) page levels None) (R.refused space.old) (R.refused space.new)) }
    ensures rising { R.refused space.old ≤ R.refused space.new }
    ensures follows { R.follows space.old space.new }
{
    let mut buffer = [0; PAGE_SIZE];
    let node = read_node(space, page, &mut buffer)?;
    match node.kind() {
        PageKind::Leaf => see_first(alloc, page, &node, start, key, seen),
        PageKind::Inner => {
            if levels == 0 {
                return Err(SpaceError::Damaged);
            }
            let at = first_place(&node, Start::Behind, key);
            let child = child_at(&node, at);
            let first = block_below(space, alloc, child, levels - 1, start, key, seen)?;
            for i in at..node.len() {
                if seen.wanted == 0 {
                    return Ok(first);
                }
                let next = child_at(&node, i + 1);
                more_below(space, alloc, next, levels - 1, seen)?;
            }
            Ok(first)
        }
    }
}

/// Whether more entries are wanted, where the last leaf still names one.
fn is_cut_off(wanted: usize, named: Option<u32>) -> bool
    ensures wanted { result ≡ true → 0 < wanted }
    ensures named { result ≡ true → named ≡ Some 0 → ⊥ }
{
    if wanted == 0 {
        return false;
    }
    !has_ended(named)
}

/// The first entries from there on of the tree at a root, in order, at most so many, as they lie in
/// their leaves; none in root 0, the tree without entries. It reads the pages on one way down, and
/// those of the leaves behind it, until there are enough. Refused as `scan` is: also where a leaf
/// that it sees does not name the next one, or names one where none follows and more are wanted.
pub fn block_from<R: PageReader>(
    space: &mut R,
    alloc: Global,
    root: u32,
    start: Start,
    key: &[u8],
    most: usize,
) -> Result<Block, SpaceError>
    ensures found { HasFirst (R.pages space.old) root start key.now most result }
    ensures same { R.pages space.new ≡ R.pages space.old }
    ensures whole { R.is_whole space.old → R.is_whole space.new }
    ensures refusal { IfErr result (ReadRefused (IsNoTree (R.pages space.old) root) (R.refused space.old) (R.refused space.new)) }
    ensures rising { R.refused space.old ≤ R.refused space.new }
    ensures follows { R.follows space.old space.new }
{
    let entries = Entries::new(alloc);
    if root == 0 {
        return Ok(Block {
            leaves: entries,
            first: 0,
        });
    }
    let walk = Walk {
        entries,
        named: None,
    };
    let mut seen = Seen { walk, wanted: most };
    let first = block_below(space, alloc, root, MAXIMUM_LEVELS, start, key, &mut seen)?;
    let Seen { walk, wanted } = seen;
    if is_cut_off(wanted, walk.named) {
        return Err(SpaceError::Damaged);
    }
    Ok(Block {
        leaves: walk.entries,
        first,
    })
}
