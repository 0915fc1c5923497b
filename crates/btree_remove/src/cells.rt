//! Cells taken out of a page.

ghost use Rattle.std.specs.Prelude.{◌≡◌, ◌≢◌, ◌≤◌, ◌++◌, ℕ, length, take, drop, IsSome, IfErr, OnOk, None};
ghost use Rattle.page_space.specs.Space.{ChangeRefused};
ghost use Rattle.sqlrecord.specs.Build.{Fits};
ghost use Rattle.btree_read.specs.Nodes.{node_of, IsStocked, HasNode};

use btree::write_sound;
use page_space::{PAGE_SIZE, PageSpace, SpaceError};
use sqlrecord::{SlotPage, splice_page};

/// Writes a page with the cells of one without those from `at` up to `behind`.
pub(crate) fn write_without<S: PageSpace>(
    space: &mut S,
    page: u32,
    link: u32,
    node: &SlotPage<'_>,
    at: usize,
    behind: usize,
) -> Result<(), SpaceError>
    requires order { at ≤ behind }
    requires within { behind ≤ length node.now.cells }
    requires fits { Fits node.now.cells }
    ensures written { IsSome (S.pages space.old page)
        → IsStocked (node_of node.now.kind link (take at node.now.cells ++ drop behind node.now.cells))
        → OnOk result (HasNode (S.pages space.new) page (node_of node.now.kind link (take at node.now.cells ++ drop behind node.now.cells))) }
    ensures others { (n : ℕ) → n ≢ page → S.pages space.new n ≡ S.pages space.old n }
    ensures whole { OnOk result (S.is_whole space.old → S.is_whole space.new) }
    ensures refusal { IfErr result (ChangeRefused (S.at_limit space.new) (S.pages space.old page ≡ None) (S.refused space.old) (S.refused space.new)) }
    ensures rising { S.refused space.old ≤ S.refused space.new }
    ensures follows { S.follows space.old space.new }
{
    let mut bytes = [0; PAGE_SIZE];
    let _count = node.len();
    if !splice_page(&mut bytes, link, node, at, behind, &[]) {
        unreachable!();
    }
    write_sound(space, page, node.kind(), &bytes)
}
