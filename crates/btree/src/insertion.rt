//! Insertion: down to the leaf, and a page that is too full is cut in two on the way up.

ghost use Rattle.std.specs.Prelude.{◌≡◌, ◌≤◌, IfSome, IfOk, IfErr, OnOk};
ghost use Rattle.page_space.specs.Space.{ChangeRefused};
ghost use Rattle.btree_read.specs.Nodes.{IsSmall, IsSmallBranch};
ghost use Rattle.btree.specs.Grow.{GrowsBelow};
ghost use Rattle.btree.specs.Overfull.{HasNoTreeFor, IsNoTreeIn};
ghost use Rattle.btree.specs.Written.{Inserts, KeepsPages};

use crate::inner::put_in_inner;
use crate::leaf::put_in_leaf;
use crate::page::write_page;
use btree_read::{Branch, MAXIMUM_LEVELS, Start, child_at, first_place, read_node};
use page_space::{PAGE_SIZE, PageSpace, SpaceError};
use sqlrecord::{PageKind, inner_cell, leaf_cell};
use std::alloc::Global;

/// Puts an entry into the tree under a page. A branch in the answer is a second tree behind it.
fn insert_below<S: PageSpace>(
    space: &mut S,
    alloc: Global,
    page: u32,
    levels: u32,
    key: &[u8],
    value: &[u8],
) -> Result<Option<Branch>, SpaceError>
    requires { IsSmall (record { key = key.now; value = value.now }) }
    ensures grows { GrowsBelow (S.pages space.old) (S.pages space.new) page key.now value.now result }
    ensures small { IfOk result (λ split. IfSome split IsSmallBranch) }
    ensures whole { OnOk result (S.is_whole space.old → S.is_whole space.new) }
    ensures refusal { IfErr result (ChangeRefused (S.at_limit space.new) (HasNoTreeFor (S.pages space.old) page levels key.now (S.is_whole space.old)) (S.refused space.old) (S.refused space.new)) }
    ensures rising { S.refused space.old ≤ S.refused space.new }
    ensures follows { S.follows space.old space.new }
{
    let mut buffer = [0; PAGE_SIZE];
    let node = read_node(space, page, &mut buffer)?;
    match node.kind() {
        PageKind::Leaf => {
            let cell = leaf_cell(alloc, key, value)?;
            put_in_leaf(space, alloc, page, &node, key, cell.as_slice())
        }
        PageKind::Inner => {
            if levels == 0 {
                return Err(SpaceError::Damaged);
            }
            let at = first_place(&node, Start::Behind, key);
            let child = child_at(&node, at);
            match insert_below(space, alloc, child, levels - 1, key, value)? {
                None => Ok(None),
                Some(branch) => {
                    let cell = inner_cell(alloc, branch.key.as_slice(), branch.child)?;
                    put_in_inner(space, alloc, page, &node, at, cell.as_slice())
                }
            }
        }
    }
}

/// Puts an entry into a tree, in place of one with its key, and answers the root; root 0 is the
/// tree without entries. A key has at most 600 bytes, and an entry takes at most 1,014 bytes of a
/// page. Refused for memory, where the device refuses a call, at a limit where the space is at it,
/// and as damaged only where no tree is at the root or the list of free pages is none.
pub fn insert<S: PageSpace>(
    space: &mut S,
    alloc: Global,
    root: u32,
    key: &[u8],
    value: &[u8],
) -> Result<u32, SpaceError>
    requires { IsSmall (record { key = key.now; value = value.now }) }
    ensures inserts { Inserts (S.pages space.old) (S.pages space.new) root key.now value.now result }
    ensures keeps { KeepsPages (S.pages space.old) (S.pages space.new) root result }
    ensures whole { OnOk result (S.is_whole space.old → S.is_whole space.new) }
    ensures refusal { IfErr result (ChangeRefused (S.at_limit space.new) (IsNoTreeIn (S.pages space.old) root (S.is_whole space.old)) (S.refused space.old) (S.refused space.new)) }
    ensures rising { S.refused space.old ≤ S.refused space.new }
    ensures follows { S.follows space.old space.new }
{
    if root == 0 {
        let cell = leaf_cell(alloc, key, value)?;
        let page = space.allocate()?;
        write_page(space, page, PageKind::Leaf, 0, &[cell.as_slice()])?;
        return Ok(page);
    }
    match insert_below(space, alloc, root, MAXIMUM_LEVELS, key, value)? {
        None => Ok(root),
        Some(branch) => {
            let cell = inner_cell(alloc, branch.key.as_slice(), branch.child)?;
            let page = space.allocate()?;
            write_page(space, page, PageKind::Inner, root, &[cell.as_slice()])?;
            Ok(page)
        }
    }
}
