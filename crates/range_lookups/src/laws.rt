//! What a look-up by the bounds of a condition finds. The function does nothing: its contract is
//! the law.

ghost use Rattle.std.specs.Prelude.{◌≡◌, ℕ, Bool, List, true, Some, Ok, ◌∷◌};
ghost use Rattle.sqlval.specs.declared.truth.Truth.{Truth};
ghost use Rattle.sqlval.specs.Value.{Row};
ghost use Rattle.denote.specs.Evaluation.{Env};
ghost use Rattle.denote.specs.Meaning.{Tables};
ghost use Rattle.algebra.specs.declared.tree.Condition.{Condition};
ghost use Rattle.algebra.specs.Bounds.{is_within};
ghost use Rattle.algebra.specs.Raising.{NeverRaises};
ghost use Rattle.algebra.specs.TreeOutcome.{tree_truth};
ghost use Rattle.range_lookups.specs.declared.sought.Limits.{Limits as Found};
ghost use Rattle.range_lookups.specs.Sought.{limits_sought};

use algebra_laws::denials_are_certain;

/// A condition that asks for a range raises no fault, in whatever rows. Each row at which it is
/// true is within the bounds. So a look-up by the bounds in place of a scan misses none of these.
pub fn ranges_miss_no_row()
    ensures quiet { (tables : Tables) (both : Bool) (condition : Condition) (columns : List ℕ) (limits : Found)
        → limits_sought both columns condition ≡ Some limits → NeverRaises (tree_truth tables condition) }
    ensures within { (tables : Tables) (both : Bool) (condition : Condition) (columns : List ℕ) (limits : Found) (row : Row) (outer : Env)
        → limits_sought both columns condition ≡ Some limits
        → tree_truth tables condition (row ∷ outer) ≡ Ok Truth.True
        → is_within columns limits.low limits.high row ≡ true }
{
    denials_are_certain();
}
