//! Two neighbouring children of an inner page.

ghost use Rattle.std.specs.Prelude.{◌≡◌, ◌<◌, ◌≤◌, map, length};
ghost use Rattle.sqlrecord.specs.declared.kind.PageKind.TheVariants.{Inner};
ghost use Rattle.btree_read.specs.Nodes.{branch_of};
ghost use Rattle.btree_remove.specs.Removed.{IsPairAt};

use btree_read::child_at;
use sqlrecord::SlotPage;

/// A child of an inner page that has too little left, and a neighbour of it.
#[derive(Clone, Copy)]
pub(crate) struct Pair {
    /// The place of the first of the two, where the leftmost child is at 0.
    pub place: usize,
    /// The page of the first one.
    pub left: u32,
    /// The page of the second one.
    pub right: u32,
    /// The page of the neighbour.
    pub kept: u32,
}

/// The child at a place with the one before it; with the one behind it where it is the leftmost
/// one.
pub(crate) fn pair_at(node: &SlotPage<'_>, at: usize) -> Pair
    requires inner { node.now.kind ≡ Inner }
    requires some { 0 < length node.now.cells }
    requires place { at ≤ length node.now.cells }
    ensures { IsPairAt node.now.link (map branch_of node.now.cells) at result }
{
    if at == 0 {
        let left = child_at(node, 0);
        let right = child_at(node, 1);
        return Pair {
            place: 0,
            left,
            right,
            kept: right,
        };
    }
    let left = child_at(node, at - 1);
    let right = child_at(node, at);
    Pair {
        place: at - 1,
        left,
        right,
        kept: left,
    }
}
