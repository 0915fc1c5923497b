//! Removal: down to the leaf, and a page that keeps too little joins a neighbour on the way up.

ghost use Rattle.std.specs.Prelude.{◌≡◌, ◌≤◌, IfOk, IfErr, OnOk};
ghost use Rattle.page_space.specs.Space.{ChangeRefused};
ghost use Rattle.btree.specs.Overfull.{IsNoTreeIn};
ghost use Rattle.btree_remove.specs.Dropped.{HasNoTreeIn};
ghost use Rattle.btree_read.specs.Nodes.{IsSmallBranch};
ghost use Rattle.btree_remove.specs.Removed.{TakesBelow, IsSmallOutcome, IsRootOver, Removes};

use crate::leaf::take_from_leaf;
use crate::outcome::Removed;
use crate::settling::settle;
use btree::write_page;
use btree_read::{Branch, MAXIMUM_LEVELS, Start, child_at, first_place, read_node};
use page_space::{PAGE_SIZE, PageSpace, SpaceError};
use sqlrecord::{PageKind, inner_cell};
use std::alloc::Global;

/// Takes a key's entry out of the tree under a page.
fn remove_below<S: PageSpace>(
    space: &mut S,
    alloc: Global,
    page: u32,
    levels: u32,
    key: &[u8],
) -> Result<Removed, SpaceError>
    ensures taken { TakesBelow (S.pages space.old) (S.pages space.new) page key.now result }
    ensures small { IfOk result IsSmallOutcome }
    ensures whole { OnOk result (S.is_whole space.old → S.is_whole space.new) }
    ensures refusal { IfErr result (ChangeRefused (S.at_limit space.new) (HasNoTreeIn (S.pages space.old) page levels (S.is_whole space.old)) (S.refused space.old) (S.refused space.new)) }
    ensures rising { S.refused space.old ≤ S.refused space.new }
    ensures follows { S.follows space.old space.new }
{
    let mut buffer = [0; PAGE_SIZE];
    let node = read_node(space, page, &mut buffer)?;
    match node.kind() {
        PageKind::Leaf => take_from_leaf(space, page, &node, key),
        PageKind::Inner => {
            if levels == 0 {
                return Err(SpaceError::Damaged);
            }
            let at = first_place(&node, Start::Behind, key);
            let child = child_at(&node, at);
            let below = remove_below(space, alloc, child, levels - 1, key)?;
            settle(space, alloc, page, &node, at, below)
        }
    }
}

/// A new root over two trees, the second one behind a branch.
fn root_over<S: PageSpace>(
    space: &mut S,
    alloc: Global,
    first: u32,
    branch: &Branch,
) -> Result<u32, SpaceError>
    requires { IsSmallBranch branch.now }
    ensures over { IfOk result (IsRootOver (S.pages space.old) (S.pages space.new) first branch.now) }
    ensures whole { OnOk result (S.is_whole space.old → S.is_whole space.new) }
    ensures refusal { IfErr result (ChangeRefused (S.at_limit space.new) (S.is_whole space.old
        → ⊥) (S.refused space.old) (S.refused space.new)) }
    ensures rising { S.refused space.old ≤ S.refused space.new }
    ensures follows { S.follows space.old space.new }
{
    let cell = inner_cell(alloc, branch.key.as_slice(), branch.child)?;
    let page = space.allocate()?;
    write_page(space, page, PageKind::Inner, first, &[cell.as_slice()])?;
    Ok(page)
}

/// Takes a key's entry out of a tree, and answers the root of the tree without it; `None` where the
/// tree has no entry with this key, and nothing has then changed. Root 0 is the tree without
/// entries. Pages that the tree no longer needs are given back. Refused for memory, where the
/// device refuses a call, at a limit where the space is at it, and as damaged only where no tree is
/// at the root or the list of free pages is none.
pub fn remove<S: PageSpace>(
    space: &mut S,
    alloc: Global,
    root: u32,
    key: &[u8],
) -> Result<Option<u32>, SpaceError>
    ensures removes { Removes (S.pages space.old) (S.pages space.new) root key.now result }
    ensures whole { OnOk result (S.is_whole space.old → S.is_whole space.new) }
    ensures refusal { IfErr result (ChangeRefused (S.at_limit space.new) (IsNoTreeIn (S.pages space.old) root (S.is_whole space.old)) (S.refused space.old) (S.refused space.new)) }
    ensures rising { S.refused space.old ≤ S.refused space.new }
    ensures follows { S.follows space.old space.new }
{
    if root == 0 {
        return Ok(None);
    }
    match remove_below(space, alloc, root, MAXIMUM_LEVELS, key)? {
        Removed::Absent => Ok(None),
        Removed::Done(None) => Ok(Some(root)),
        Removed::Done(Some(branch)) => Ok(Some(root_over(space, alloc, root, &branch)?)),
        Removed::Emptied => {
            space.free(root)?;
            Ok(Some(0))
        }
        Removed::Lone(only) => {
            space.free(root)?;
            Ok(Some(only))
        }
    }
}
