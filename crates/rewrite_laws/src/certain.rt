//! Where a rule is sure to be used.

ghost use Rattle.std.specs.Prelude.{◌≡◌, ℕ, List, Some};
ghost use Rattle.algebra.specs.declared.tree.Tree.{Tree};
ghost use Rattle.rules.specs.declared.rule.Rule.{Rule};
ghost use Rattle.rules.specs.Applied.{applied, here};
ghost use Rattle.rules.specs.Certain.{Certain, Certainly};
ghost use Rattle.rules.specs.Paths.{node_at};
ghost use Rattle.rules.specs.Quiet.{conditions_quiet};

use algebra_laws::denials_are_certain;

/// What a rule makes of the node at the end of a path stands there in the new tree.
pub fn rules_answer_at_the_end_of_a_path()
    ensures { (rule : Rule) (path : List ℕ) (tree node made : Tree) → node_at path tree ≡ Some node
        → here (conditions_quiet tree) rule node ≡ Some made
        → (new : Tree) × (applied rule path tree ≡ Some new) × (node_at path new ≡ Some made) }
{}

/// Where a rule is sure to be used at the node at the end of a path, a tree comes back, with the
/// node that is told there.
pub fn rules_answer_where_certain()
    ensures { (rule : Rule) (path : List ℕ) (tree node : Tree) → node_at path tree ≡ Some node → Certain rule tree node
        → Certainly rule path tree node }
{
    denials_are_certain();
}
