//! A whole tree taken away.

ghost use Rattle.std.specs.Prelude.{◌≡◌, ◌≤◌, IfErr, OnOk};
ghost use Rattle.page_space.specs.Space.{ChangeRefused};
ghost use Rattle.btree.specs.Overfull.{IsNoTreeIn};
ghost use Rattle.btree_remove.specs.Dropped.{DropsBelow, Drops, DropsLinked, HasNoTreeIn};

use btree_read::{MAXIMUM_LEVELS, child_at, read_node, scan};
use page_space::{PAGE_SIZE, PageSpace, SpaceError};
use sqlrecord::PageKind;
use std::alloc::Global;

/// Gives back all pages of the tree under a page.
fn drop_below<S: PageSpace>(space: &mut S, page: u32, levels: u32) -> Result<(), SpaceError>
    ensures dropped { DropsBelow (S.pages space.old) (S.pages space.new) page result }
    ensures whole { OnOk result (S.is_whole space.old → S.is_whole space.new) }
    ensures refusal { IfErr result (ChangeRefused (S.at_limit space.new) (HasNoTreeIn (S.pages space.old) page levels (S.is_whole space.old)) (S.refused space.old) (S.refused space.new)) }
    ensures rising { S.refused space.old ≤ S.refused space.new }
    ensures follows { S.follows space.old space.new }
{
    let mut buffer = [0; PAGE_SIZE];
    let node = read_node(space, page, &mut buffer)?;
    match node.kind() {
        PageKind::Leaf => space.free(page),
        PageKind::Inner => {
            if levels == 0 {
                return Err(SpaceError::Damaged);
            }
            let first = child_at(&node, 0);
            drop_below(space, first, levels - 1)?;
            for i in 0..node.len() {
                let child = child_at(&node, i + 1);
                drop_below(space, child, levels - 1)?;
            }
            space.free(page)
        }
    }
}

/// Gives back all pages of the tree at a root, and changes no other page; root 0 is the tree
/// without entries, in no page. All of the tree is read before the first page is given back, so a
/// page that another tree owns stays its own: a leaf that the leaf before does not name is damage.
///
/// Refused for memory, where the device refuses a call, at a limit where the space is at it, and as
/// damaged only where no tree is at the root or the list of free pages is none.
pub fn drop_tree<S: PageSpace>(space: &mut S, alloc: Global, root: u32) -> Result<(), SpaceError>
    ensures dropped { Drops (S.pages space.old) (S.pages space.new) root result }
    ensures linked { DropsLinked (S.pages space.old) root result }
    ensures whole { OnOk result (S.is_whole space.old → S.is_whole space.new) }
    ensures refusal { IfErr result (ChangeRefused (S.at_limit space.new) (IsNoTreeIn (S.pages space.old) root (S.is_whole space.old)) (S.refused space.old) (S.refused space.new)) }
    ensures rising { S.refused space.old ≤ S.refused space.new }
    ensures follows { S.follows space.old space.new }
{
    if root == 0 {
        return Ok(());
    }
    scan(space, alloc, root)?;
    drop_below(space, root, MAXIMUM_LEVELS)
}
