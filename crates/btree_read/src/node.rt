//! One page of a tree.

ghost use Rattle.std.specs.Prelude.{◌≡◌, ◌≢◌, ◌≤◌, [], IfOk, IfErr};
ghost use Rattle.page_space.specs.Space.{ReadRefused};
ghost use Rattle.sqlrecord.specs.Build.{Fits};
ghost use Rattle.btree_read.specs.Nodes.{Node, HasNode};
ghost use Rattle.btree_read.specs.Search.{Sees};

use page_space::{Page, PageReader, SpaceError};
use sqlrecord::SlotPage;

/// Reads a page of a tree into a buffer. Refused where the read is, and as damaged only where the
/// page has no node.
pub fn read_node<'a, R: PageReader>(
    space: &mut R,
    page: u32,
    buffer: &'a mut Page,
) -> Result<SlotPage<'a>, SpaceError>
    ensures node { IfOk result (Sees (R.pages space.old) page) }
    ensures some { IfOk result (λ view. view.cells ≢ []) }
    ensures fits { IfOk result (λ view. Fits view.cells) }
    ensures same { R.pages space.new ≡ R.pages space.old }
    ensures whole { R.is_whole space.old → R.is_whole space.new }
    ensures refusal { IfErr result (ReadRefused ((node : Node) → HasNode (R.pages space.old) page node
        → ⊥) (R.refused space.old) (R.refused space.new)) }
    ensures rising { R.refused space.old ≤ R.refused space.new }
    ensures follows { R.follows space.old space.new }
{
    let known = space.read(page, buffer)?;
    let Some(node) = SlotPage::read_known(buffer, known) else {
        return Err(SpaceError::Damaged);
    };
    if node.is_empty() {
        return Err(SpaceError::Damaged);
    }
    Ok(node)
}
