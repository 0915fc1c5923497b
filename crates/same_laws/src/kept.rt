//! That standing for a tree is handed on.

ghost use Rattle.algebra.specs.declared.tree.Tree.{Tree};
ghost use Rattle.rules.specs.Same.{Keeps};

/// A tree may stand for itself, and what may stand for one that may stand for a third may stand for
/// the third.
pub fn keeping_composes()
    ensures itself { (tree : Tree) → Keeps tree tree }
    ensures through { (new between old : Tree) → Keeps new between → Keeps between old → Keeps new old }
{}
