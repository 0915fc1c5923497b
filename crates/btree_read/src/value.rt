//! The value of a key.

ghost use Rattle.std.specs.Prelude.{◌≡◌, ◌≤◌, map, IfOk, IfErr};
ghost use Rattle.page_space.specs.Space.{ReadRefused};
ghost use Rattle.btree_read.specs.Nodes.{entry_of};
ghost use Rattle.btree_read.specs.Sorted.{get_of};
ghost use Rattle.btree_read.specs.Search.{HasNoTree, Answers, AnswersAt, IsNoTree};

use crate::node::read_node;
use crate::place::{child_at, first_place, is_before};
use crate::{MAXIMUM_LEVELS, Start};
use items::Items;
use page_space::{PAGE_SIZE, Page, PageReader, SpaceError};
use sqlrecord::{PageKind, SlotPage};
use std::alloc::{AllocError, Global};

/// The value of a key among a leaf's entries.
fn value_in(alloc: Global, leaf: &SlotPage<'_>, key: &[u8]) -> Result<Option<Items<u8>>, AllocError>
    ensures { IfOk result (λ found. found ≡ get_of key.now (map entry_of leaf.now.cells)) }
{
    let at = first_place(leaf, Start::At, key);
    if at == leaf.len() {
        return Ok(None);
    }
    if is_before(key, leaf.key(at)) {
        return Ok(None);
    }
    Ok(Some(Items::from_slice(alloc, leaf.value(at))?))
}

/// The value of a key in the tree under a page.
fn get_below<R: PageReader>(
    space: &mut R,
    alloc: Global,
    page: u32,
    levels: u32,
    key: &[u8],
    buffer: &mut Page,
) -> Result<Option<Items<u8>>, SpaceError>
    ensures found { Answers (R.pages space.old) page (get_of key.now) result }
    ensures same { R.pages space.new ≡ R.pages space.old }
    ensures whole { R.is_whole space.old → R.is_whole space.new }
    ensures refusal { IfErr result (ReadRefused (HasNoTree (R.pages space.old) page levels) (R.refused space.old) (R.refused space.new)) }
    ensures rising { R.refused space.old ≤ R.refused space.new }
    ensures follows { R.follows space.old space.new }
{
    let node = read_node(space, page, buffer)?;
    match node.kind() {
        PageKind::Leaf => Ok(value_in(alloc, &node, key)?),
        PageKind::Inner => {
            if levels == 0 {
                return Err(SpaceError::Damaged);
            }
            let at = first_place(&node, Start::Behind, key);
            let child = child_at(&node, at);
            get_below(space, alloc, child, levels - 1, key, buffer)
        }
    }
}

/// The value of a key in the tree at a root; root 0 is the tree without entries. Refused for
/// memory, where the device refuses a call, and as damaged only where no tree is at the root.
pub fn get<R: PageReader>(
    space: &mut R,
    alloc: Global,
    root: u32,
    key: &[u8],
) -> Result<Option<Items<u8>>, SpaceError>
    ensures found { AnswersAt (R.pages space.old) root (get_of key.now) result }
    ensures same { R.pages space.new ≡ R.pages space.old }
    ensures whole { R.is_whole space.old → R.is_whole space.new }
    ensures refusal { IfErr result (ReadRefused (IsNoTree (R.pages space.old) root) (R.refused space.old) (R.refused space.new)) }
    ensures rising { R.refused space.old ≤ R.refused space.new }
    ensures follows { R.follows space.old space.new }
{
    if root == 0 {
        return Ok(None);
    }
    let mut buffer = [0; PAGE_SIZE];
    get_below(space, alloc, root, MAXIMUM_LEVELS, key, &mut buffer)
}
