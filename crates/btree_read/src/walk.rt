//! The first entry from a key on.

ghost use Rattle.std.specs.Prelude.{◌≡◌, ◌<◌, ◌≤◌, ◌+◌, map, length, IfOk, IfErr, MatchOption};
ghost use Rattle.page_space.specs.Space.{ReadRefused};
ghost use Rattle.sqlrecord.specs.declared.kind.PageKind.TheVariants.{Inner};
ghost use Rattle.btree_read.specs.Nodes.{entry_of, branch_of};
ghost use Rattle.btree_read.specs.Sorted.{first_from};
ghost use Rattle.btree_read.specs.Search.{HasNoTree, Answers, AnswersAt, IsNoTree, child_at as child_of};
ghost use Rattle.btree_read.specs.declared.entry.Start.TheVariants.{At, Behind};

use crate::node::read_node;
use crate::place::{child_at, first_place};
use crate::{Entry, MAXIMUM_LEVELS, Start};
use items::Items;
use page_space::{PAGE_SIZE, Page, PageReader, SpaceError};
use sqlrecord::{PageKind, SlotPage};
use std::alloc::{AllocError, Global};

/// The first of a leaf's entries from there on.
fn entry_in(
    alloc: Global,
    leaf: &SlotPage<'_>,
    start: Start,
    key: &[u8],
) -> Result<Option<Entry>, AllocError>
    ensures { IfOk result (λ found. found ≡ first_from start key.now (map entry_of leaf.now.cells)) }
{
    let at = first_place(leaf, start, key);
    if at == leaf.len() {
        return Ok(None);
    }
    let key = Items::from_slice(alloc, leaf.key(at))?;
    let value = Items::from_slice(alloc, leaf.value(at))?;
    Ok(Some(Entry { key, value }))
}

/// The child behind the one at a place, where there is one.
pub(crate) fn sibling_of(page: &SlotPage<'_>, at: usize) -> Option<u32>
    requires inner { page.now.kind ≡ Inner }
    requires place { at ≤ length page.now.cells }
    ensures { MatchOption result (length page.now.cells ≤ at) (λ child. (at < length page.now.cells)
        × (child ≡ child_of page.now.link (map branch_of page.now.cells) (at + 1))) }
{
    if at < page.len() {
        Some(child_at(page, at + 1))
    } else {
        None
    }
}

/// The first entry from there on in the tree under a page.
fn find_below<R: PageReader>(
    space: &mut R,
    alloc: Global,
    page: u32,
    levels: u32,
    start: Start,
    key: &[u8],
    buffer: &mut Page,
) -> Result<Option<Entry>, SpaceError>
    ensures found { Answers (R.pages space.old) page (first_from start key.now) result }
    ensures same { R.pages space.new ≡ R.pages space.old }
    ensures whole { R.is_whole space.old → R.is_whole space.new }
    ensures refusal { IfErr result (ReadRefused (HasNoTree (R.pages space.old) page levels) (R.refused space.old) (R.refused space.new)) }
    ensures rising { R.refused space.old ≤ R.refused space.new }
    ensures follows { R.follows space.old space.new }
{
    let node = read_node(space, page, buffer)?;
    match node.kind() {
        PageKind::Leaf => Ok(entry_in(alloc, &node, start, key)?),
        PageKind::Inner => {
            if levels == 0 {
                return Err(SpaceError::Damaged);
            }
            let at = first_place(&node, Start::Behind, key);
            let child = child_at(&node, at);
            let sibling = sibling_of(&node, at);
            match find_below(space, alloc, child, levels - 1, start, key, buffer)? {
                Some(entry) => Ok(Some(entry)),
                None => match sibling {
                    Some(sibling) => {
                        find_below(space, alloc, sibling, levels - 1, start, key, buffer)
                    }
                    None => Ok(None),
                },
            }
        }
    }
}

/// The first entry from there on in the tree at a root.
fn find<R: PageReader>(
    space: &mut R,
    alloc: Global,
    root: u32,
    start: Start,
    key: &[u8],
) -> Result<Option<Entry>, SpaceError>
    ensures found { AnswersAt (R.pages space.old) root (first_from start key.now) result }
    ensures same { R.pages space.new ≡ R.pages space.old }
    ensures whole { R.is_whole space.old → R.is_whole space.new }
    ensures refusal { IfErr result (ReadRefused (IsNoTree (R.pages space.old) root) (R.refused space.old) (R.refused space.new)) }
    ensures rising { R.refused space.old ≤ R.refused space.new }
    ensures follows { R.follows space.old space.new }
{
    if root == 0 {
        return Ok(None);
    }
    let mut buffer = [0; PAGE_SIZE];
    find_below(space, alloc, root, MAXIMUM_LEVELS, start, key, &mut buffer)
}

/// The first entry of a tree with this key or behind it. Refused as `get` is.
pub fn seek<R: PageReader>(
    space: &mut R,
    alloc: Global,
    root: u32,
    key: &[u8],
) -> Result<Option<Entry>, SpaceError>
    ensures found { AnswersAt (R.pages space.old) root (first_from At key.now) result }
    ensures same { R.pages space.new ≡ R.pages space.old }
    ensures whole { R.is_whole space.old → R.is_whole space.new }
    ensures refusal { IfErr result (ReadRefused (IsNoTree (R.pages space.old) root) (R.refused space.old) (R.refused space.new)) }
    ensures rising { R.refused space.old ≤ R.refused space.new }
    ensures follows { R.follows space.old space.new }
{
    find(space, alloc, root, Start::At, key)
}

/// The first entry of a tree behind a key: a walk keeps the key and no page. Refused as `get` is.
pub fn next<R: PageReader>(
    space: &mut R,
    alloc: Global,
    root: u32,
    after: &[u8],
) -> Result<Option<Entry>, SpaceError>
    ensures found { AnswersAt (R.pages space.old) root (first_from Behind after.now) result }
    ensures same { R.pages space.new ≡ R.pages space.old }
    ensures whole { R.is_whole space.old → R.is_whole space.new }
    ensures refusal { IfErr result (ReadRefused (IsNoTree (R.pages space.old) root) (R.refused space.old) (R.refused space.new)) }
    ensures rising { R.refused space.old ≤ R.refused space.new }
    ensures follows { R.follows space.old space.new }
{
    find(space, alloc, root, Start::Behind, after)
}
