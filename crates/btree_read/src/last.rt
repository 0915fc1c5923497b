//! The last key of a tree.

ghost use Rattle.std.specs.Prelude.{◌≡◌, ◌≤◌, ◌≢◌, [], map, IfOk, IfErr};
ghost use Rattle.page_space.specs.Space.{ReadRefused};
ghost use Rattle.btree_read.specs.Nodes.{entry_of};
ghost use Rattle.btree_read.specs.Sorted.{last_key as last_key_of};
ghost use Rattle.btree_read.specs.Search.{HasNoTree, Answers, AnswersAt, IsNoTree};

use crate::MAXIMUM_LEVELS;
use crate::node::read_node;
use crate::place::child_at;
use items::Items;
use page_space::{PAGE_SIZE, Page, PageReader, SpaceError};
use sqlrecord::{PageKind, SlotPage};
use std::alloc::{AllocError, Global};

/// The last key of a leaf.
fn key_in(alloc: Global, leaf: &SlotPage<'_>) -> Result<Option<Items<u8>>, AllocError>
    requires some { leaf.now.cells ≢ [] }
    ensures { IfOk result (λ found. found ≡ last_key_of (map entry_of leaf.now.cells)) }
{
    let last = Items::from_slice(alloc, leaf.key(leaf.len() - 1))?;
    Ok(Some(last))
}

/// The last key of the tree under a page.
fn last_below<R: PageReader>(
    space: &mut R,
    alloc: Global,
    page: u32,
    levels: u32,
    buffer: &mut Page,
) -> Result<Option<Items<u8>>, SpaceError>
    ensures found { Answers (R.pages space.old) page last_key_of result }
    ensures same { R.pages space.new ≡ R.pages space.old }
    ensures whole { R.is_whole space.old → R.is_whole space.new }
    ensures refusal { IfErr result (ReadRefused (HasNoTree (R.pages space.old) page levels) (R.refused space.old) (R.refused space.new)) }
    ensures rising { R.refused space.old ≤ R.refused space.new }
    ensures follows { R.follows space.old space.new }
{
    let node = read_node(space, page, buffer)?;
    match node.kind() {
        PageKind::Leaf => Ok(key_in(alloc, &node)?),
        PageKind::Inner => {
            if levels == 0 {
                return Err(SpaceError::Damaged);
            }
            let child = child_at(&node, node.len());
            last_below(space, alloc, child, levels - 1, buffer)
        }
    }
}

/// The last key of the tree at a root; none in root 0, the tree without entries. It goes down one
/// way, and is refused as `get` is.
pub fn last_key<R: PageReader>(
    space: &mut R,
    alloc: Global,
    root: u32,
) -> Result<Option<Items<u8>>, SpaceError>
    ensures found { AnswersAt (R.pages space.old) root last_key_of result }
    ensures same { R.pages space.new ≡ R.pages space.old }
    ensures whole { R.is_whole space.old → R.is_whole space.new }
    ensures refusal { IfErr result (ReadRefused (IsNoTree (R.pages space.old) root) (R.refused space.old) (R.refused space.new)) }
    ensures rising { R.refused space.old ≤ R.refused space.new }
    ensures follows { R.follows space.old space.new }
{
    if root == 0 {
        return Ok(None);
    }
    let mut buffer = [0; PAGE_SIZE];
    last_below(space, alloc, root, MAXIMUM_LEVELS, &mut buffer)
}
