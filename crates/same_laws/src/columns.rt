//! That a condition with other columns in the places of its own has the same truth value.

ghost use Rattle.std.specs.Prelude.{◌≡◌, ℕ, Bool, true};
ghost use Rattle.algebra.specs.declared.tree.Condition.{Condition};
ghost use Rattle.algebra.specs.TreeOutcome.{tree_truth};
ghost use Rattle.denote.specs.Evaluation.{Env};
ghost use Rattle.denote.specs.Expression.{column};
ghost use Rattle.denote.specs.Meaning.{Tables};
ghost use Rattle.rules.specs.Columns.{Place, names_only, moved};

/// A plain condition sees the columns that it names and nothing else. Where each of these is, in
/// other rows, the column that takes its place, the condition with these columns has there the
/// truth value, or the faults, that it had.
pub fn moved_conditions_mean_the_same()
    ensures { (tables : Tables) (test : ℕ → ℕ → Bool) (to : ℕ → ℕ → Place) (env other : Env)
        → ((depth place : ℕ) → test depth place ≡ true
        → column other (to depth place).0 (to depth place).1 ≡ column env depth place)
        → (condition : Condition) → names_only test condition ≡ true
        → tree_truth tables (moved to condition) other ≡ tree_truth tables condition env }
{}
