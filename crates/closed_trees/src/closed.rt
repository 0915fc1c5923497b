ghost use Rattle.std.specs.Prelude.{◌≡◌, ◌↔◌, [], IsTrue, IfOk};
ghost use Rattle.closed_trees.specs.Outside.{depths_in_tree};

use crate::depths::depths_in_tree;
use algebra::Tree;
use std::alloc::{AllocError, Global};

/// Whether a tree names no column outside itself. Refuses for want of memory alone.
pub fn is_closed(alloc: Global, tree: &Tree) -> Result<bool, AllocError>
    ensures { IfOk result (λ closed. IsTrue closed ↔ (depths_in_tree tree.now ≡ [])) }
{
    let depths = depths_in_tree(alloc, tree)?;
    Ok(depths.is_empty())
}
