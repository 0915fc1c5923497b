//! That what may stand for the tree of a condition means what the condition does.

ghost use Rattle.std.specs.Prelude.{◌≡◌, ℕ, List};
ghost use Rattle.algebra.specs.Translated.{tree_of_condition, tree_of_expression, tree_of_query};
ghost use Rattle.algebra.specs.TreeOutcome.{tree_truth, tree_value};
ghost use Rattle.algebra.specs.declared.tree.Condition.{Condition};
ghost use Rattle.algebra.specs.declared.tree.Expression.{Expression};
ghost use Rattle.algebra.specs.declared.tree.StoredTable.{StoredTable};
ghost use Rattle.denote.specs.Meaning.{Tables, truth_at, value_of};
ghost use Rattle.operator_laws.specs.Same.{Agree};
ghost use Rattle.rules.specs.Same.{Fits, KeepsCondition, KeepsExpression};
ghost use Rattle.typing.specs.declared.typed.Condition.{Condition as Asked};
ghost use Rattle.typing.specs.declared.typed.Expression.{Expression as Source};
ghost use Rattle.typing.specs.declared.typed.Query.{Query};

use algebra_laws::translation_keeps_the_meaning;

/// Over tables that fit the tree of every query, what may stand for the tree of a condition or an
/// expression has its value at each row, or the same set of faults.
pub fn planned_trees_mean_the_same()
    ensures conditions { (described : List ℕ → StoredTable) → ((name : List ℕ) → (described name).name ≡ name)
        → (tables : Tables) → ((query : Query) → Fits tables (tree_of_query described query))
        → (asked : Asked) (new : Condition) → KeepsCondition new (tree_of_condition described asked)
        → Agree (tree_truth tables new) (truth_at tables asked) }
    ensures expressions { (described : List ℕ → StoredTable) → ((name : List ℕ) → (described name).name ≡ name)
        → (tables : Tables) → ((query : Query) → Fits tables (tree_of_query described query))
        → (asked : Source) (new : Expression) → KeepsExpression new (tree_of_expression described asked)
        → Agree (tree_value tables new) (value_of tables asked) }
{
    translation_keeps_the_meaning();
}
