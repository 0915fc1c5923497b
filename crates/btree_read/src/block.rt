//! Entries from a key on, at most so many: one way down, and then from leaf to leaf.

ghost use Rattle.std.specs.Prelude.{◌≡◌, ◌≤◌, ◌++◌, map, take, length, IfErr, OnOk};
ghost use Rattle.page_space.specs.Space.{ReadRefused};
ghost use Rattle.btree_read.specs.Nodes.{entry_of};
ghost use Rattle.btree_read.specs.Search.{AnswersAt, HasNoTree, IsNoTree, TakesBelow};
ghost use Rattle.btree_read.specs.Sorted.{from_on};

use crate::leaf::entry_at;
use crate::node::read_node;
use crate::place::{child_at, first_place};
use crate::{Entry, MAXIMUM_LEVELS, Start};
use items::Items;
use page_space::{PAGE_SIZE, PageReader, SpaceError};
use sqlrecord::{PageKind, SlotPage};
use std::alloc::{AllocError, Global};

/// Puts the entries of a leaf from there on behind others, until there are so many.
fn take_from(
    alloc: Global,
    leaf: &SlotPage<'_>,
    start: Start,
    key: &[u8],
    most: usize,
    entries: &mut Items<Entry>,
) -> Result<(), AllocError>
    requires { length entries.old ≤ most }
    ensures taken { OnOk result (entries.new ≡ take most (entries.old ++ from_on start key.now (map entry_of leaf.now.cells))) }
    ensures few { OnOk result (length entries.new ≤ most) }
{
    let first = first_place(leaf, start, key);
    for i in first..leaf.len() {
        if entries.len() >= most {
            return Ok(());
        }
        entries.push(entry_at(alloc, leaf, i)?)?;
    }
    Ok(())
}

/// Puts the entries from there on of the tree under a page behind others, until there are so many.
fn some_below<R: PageReader>(
    space: &mut R,
    alloc: Global,
    page: u32,
    levels: u32,
    start: Start,
    key: &[u8],
    most: usize,
    found: &mut Items<Entry>,
) -> Result<(), SpaceError>
    requires { length found.old ≤ most }
    ensures taken { TakesBelow (R.pages space.old) page start key.now most found.old found.new result }
    ensures few { OnOk result (length found.new ≤ most) }
    ensures same { R.pages space.new ≡ R.pages space.old }
    ensures whole { R.is_whole space.old → R.is_whole space.new }
    ensures refusal { IfErr result (ReadRefused (HasNoTree (R.pages space.old) page levels) (R.refused space.old) (R.refused space.new)) }
    ensures rising { R.refused space.old ≤ R.refused space.new }
    ensures follows { R.follows space.old space.new }
{
    let mut buffer = [0; PAGE_SIZE];
    let node = read_node(space, page, &mut buffer)?;
    match node.kind() {
        PageKind::Leaf => Ok(take_from(alloc, &node, start, key, most, found)?),
        PageKind::Inner => {
            if levels == 0 {
                return Err(SpaceError::Damaged);
            }
            let at = first_place(&node, Start::Behind, key);
            let first = child_at(&node, at);
            some_below(space, alloc, first, levels - 1, start, key, most, found)?;
            for i in at..node.len() {
                if found.len() >= most {
                    return Ok(());
                }
                let child = child_at(&node, i + 1);
                some_below(space, alloc, child, levels - 1, start, key, most, found)?;
            }
            Ok(())
        }
    }
}

/// The first entries from there on of the tree at a root, in order, at most so many; none in root
/// 0, the tree without entries. It reads the pages on one way down, and those behind it that have
/// such entries. Refused as `get` is.
pub fn entries_from<R: PageReader>(
    space: &mut R,
    alloc: Global,
    root: u32,
    start: Start,
    key: &[u8],
    most: usize,
) -> Result<Items<Entry>, SpaceError>
    ensures found { AnswersAt (R.pages space.old) root (λ entries. take most (from_on start key.now entries)) result }
    ensures same { R.pages space.new ≡ R.pages space.old }
    ensures whole { R.is_whole space.old → R.is_whole space.new }
    ensures refusal { IfErr result (ReadRefused (IsNoTree (R.pages space.old) root) (R.refused space.old) (R.refused space.new)) }
    ensures rising { R.refused space.old ≤ R.refused space.new }
    ensures follows { R.follows space.old space.new }
{
    let mut found = Items::new(alloc);
    if root == 0 {
        return Ok(found);
    }
    some_below(
        space,
        alloc,
        root,
        MAXIMUM_LEVELS,
        start,
        key,
        most,
        &mut found,
    )?;
    Ok(found)
}
