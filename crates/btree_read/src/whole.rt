//! All entries of a tree: each page of it is read, and the link of each leaf is compared with the
//! leaf that follows.

ghost use Rattle.std.specs.Prelude.{◌≡◌, ◌≤◌, Some, true, false, IfErr};
ghost use Rattle.page_space.specs.Space.{ReadRefused};
ghost use Rattle.btree_read.specs.Search.{AnswersAt, IsNoTree};
ghost use Rattle.btree_read.specs.Leaves.{SeesBelow, SeesLinks, HasNoLinkedTree};

use crate::leaf::{Walk, see_leaf};
use crate::node::read_node;
use crate::place::child_at;
use crate::{Entries, MAXIMUM_LEVELS};
use page_space::{PAGE_SIZE, PageReader, SpaceError};
use sqlrecord::PageKind;
use std::alloc::Global;

/// Sees the leaves of the tree under a page.
fn scan_below<R: PageReader>(
    space: &mut R,
    alloc: Global,
    page: u32,
    levels: u32,
    walk: &mut Walk,
) -> Result<(), SpaceError>
    ensures sees { SeesBelow (R.pages space.old) page walk.old walk.new result }
    ensures same { R.pages space.new ≡ R.pages space.old }
    ensures whole { R.is_whole space.old → R.is_whole space.new }
    ensures refusal { IfErr result (ReadRefused (HasNoLinkedTree (R.pages space.old) page levels walk.old) (R.refused space.old) (R.refused space.new)) }
    ensures rising { R.refused space.old ≤ R.refused space.new }
    ensures follows { R.follows space.old space.new }
{
    let mut buffer = [0; PAGE_SIZE];
    let node = read_node(space, page, &mut buffer)?;
    match node.kind() {
        PageKind::Leaf => see_leaf(alloc, page, &node, walk),
        PageKind::Inner => {
            if levels == 0 {
                return Err(SpaceError::Damaged);
            }
            let first = child_at(&node, 0);
            scan_below(space, alloc, first, levels - 1, walk)?;
            for i in 0..node.len() {
                let child = child_at(&node, i + 1);
                scan_below(space, alloc, child, levels - 1, walk)?;
            }
            Ok(())
        }
    }
}

/// Whether the last leaf names no leaf behind it.
pub(crate) fn has_ended(named: Option<u32>) -> bool
    ensures yes { result ≡ true → named ≡ Some 0 }
    ensures other { result ≡ false → named ≡ Some 0 → ⊥ }
{
    match named {
        Some(next) => next == 0,
        None => false,
    }
}

/// All entries of the tree at a root, in order; root 0 is the tree without entries. Each page of
/// the tree is read once. Refused for memory, where the device refuses a call, and as damaged only
/// where no tree is at the root; so it is where a leaf does not name the leaf that follows. Returns
/// on any pages.
pub fn scan<R: PageReader>(space: &mut R, alloc: Global, root: u32) -> Result<Entries, SpaceError>
    ensures found { AnswersAt (R.pages space.old) root (λ entries. entries) result }
    ensures links { SeesLinks (R.pages space.old) root result }
    ensures same { R.pages space.new ≡ R.pages space.old }
    ensures whole { R.is_whole space.old → R.is_whole space.new }
    ensures refusal { IfErr result (ReadRefused (IsNoTree (R.pages space.old) root) (R.refused space.old) (R.refused space.new)) }
    ensures rising { R.refused space.old ≤ R.refused space.new }
    ensures follows { R.follows space.old space.new }
{
    if root == 0 {
        return Ok(Entries::new(alloc));
    }
    let entries = Entries::new(alloc);
    let mut walk = Walk {
        entries,
        named: None,
    };
    scan_below(space, alloc, root, MAXIMUM_LEVELS, &mut walk)?;
    let Walk { entries, named } = walk;
    if !has_ended(named) {
        return Err(SpaceError::Damaged);
    }
    Ok(entries)
}
