//! That rows are as wide as is told of their tree.

ghost use Rattle.std.specs.Prelude.{◌≡◌, ℕ, length, Some};
ghost use Rattle.algebra.specs.declared.tree.Tree.{Tree};
ghost use Rattle.algebra.specs.TreeOutcome.{tree_outcome};
ghost use Rattle.denote.specs.Evaluation.{Env};
ghost use Rattle.denote.specs.Meaning.{Tables};
ghost use Rattle.operator_laws.specs.Same.{Every};
ghost use Rattle.rules.specs.Same.{Fits};
ghost use Rattle.rules.specs.Width.{width_of_tree};

/// Where a tree is told to have so many columns, each of its rows has as many, over tables that fit
/// the tree and in whatever rows stand outside it.
pub fn rows_are_as_wide_as_told()
    ensures { (tables : Tables) (tree : Tree) (w : ℕ) → width_of_tree tree ≡ Some w → Fits tables tree → (env : Env)
        → Every (λ row. length row ≡ w) (tree_outcome tables tree env).rows }
{}
