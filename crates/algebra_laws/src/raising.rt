//! What cannot raise a fault.

ghost use Rattle.std.specs.Prelude.{◌≡◌, true, false, []};
ghost use Rattle.algebra.specs.declared.tree.Condition.{Condition};
ghost use Rattle.algebra.specs.declared.tree.Expression.{Expression};
ghost use Rattle.algebra.specs.declared.tree.Tree.{Tree};
ghost use Rattle.algebra.specs.Raising.{condition_may_raise, expression_may_raise, tree_may_raise, is_plain, NeverRaises};
ghost use Rattle.algebra.specs.TreeOutcome.{tree_outcome, tree_truth, tree_value};
ghost use Rattle.denote.specs.Evaluation.{Env};
ghost use Rattle.denote.specs.Meaning.{Tables};

/// What is said not to raise has a value in whatever rows, over whatever tables; a tree that is
/// said not to raise has no fault; and plain conditions are always said not to raise.
pub fn denials_are_certain()
    ensures condition { (tables : Tables) (condition : Condition) → condition_may_raise condition ≡ false → NeverRaises (tree_truth tables condition) }
    ensures expression { (tables : Tables) (expression : Expression) → expression_may_raise expression ≡ false
        → NeverRaises (tree_value tables expression) }
    ensures tree { (tables : Tables) (tree : Tree) → tree_may_raise tree ≡ false → (env : Env)
        → (tree_outcome tables tree env).faults ≡ [] }
    ensures plain { (condition : Condition) → is_plain condition ≡ true → condition_may_raise condition ≡ false }
{}
