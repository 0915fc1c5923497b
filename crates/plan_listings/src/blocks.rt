//! Plans that are read block by block.
ghost use Rattle.std.specs.Prelude.{◌≡◌};
ghost use Rattle.streams.specs.Reads.{reads_once};

use algebra::Tree;

/// Whether a plan has neither an `IndexLoop` nor a join that reads its right side anew for each
/// left row.
#[tactic(auto, using(crate::proofs::LoopNodes::once_nodes))]
pub(crate) fn goes_by_blocks(tree: &Tree) -> bool
    ensures { result ≡ reads_once tree.now }
{
    match tree {
        Tree::Scan(_) => true,
        Tree::Filter(_, rows) => goes_by_blocks(rows.get()),
        Tree::Product(_, _) => false,
        Tree::Inner(_, _, _) => false,
        Tree::Left { .. } => false,
        Tree::Half(_, _, _) => false,
        Tree::OppositeHalf(_, _, _) => false,
        Tree::Group { rows, .. } => goes_by_blocks(rows.get()),
        Tree::Project(_, rows) => goes_by_blocks(rows.get()),
        Tree::Distinct(rows) => goes_by_blocks(rows.get()),
        Tree::Set(_, left, right) => goes_by_blocks(left.get()) && goes_by_blocks(right.get()),
        Tree::Sort(_, rows) => goes_by_blocks(rows.get()),
        Tree::Seek { .. } => true,
        Tree::Range { .. } => true,
        Tree::IndexLoop { .. } => false,
        Tree::HashJoin { left, right, .. } => {
            goes_by_blocks(left.get()) && goes_by_blocks(right.get())
        }
        Tree::Member { members, rows, .. } => {
            goes_by_blocks(members.get()) && goes_by_blocks(rows.get())
        }
    }
}
