//! What rows that do not match add to a join. The function does nothing: its contract is the law.

ghost use Rattle.std.specs.Prelude.{◌≡◌, ℕ, false, length, List};
ghost use Rattle.algebra.specs.declared.tree.Condition.{Condition};
ghost use Rattle.algebra.specs.Joined.{matching};
ghost use Rattle.algebra.specs.Listing.{truth_listing};
ghost use Rattle.algebra.specs.Raising.{condition_may_raise, NeverRaises};
ghost use Rattle.denote.specs.Evaluation.{Env};
ghost use Rattle.denote.specs.Meaning.{Tables};
ghost use Rattle.join_columns.specs.JoinKeys.{join_pairs, left_places, right_places};
ghost use Rattle.join_columns.specs.Standing.{StandsFor};
ghost use Rattle.sqlval.specs.Value.{Row};

use algebra_laws::denials_are_certain;

/// A condition that is said not to raise has a truth value in whatever rows. Beside a left row as
/// wide as is said the right rows that match by the columns that it equates stand for all: the
/// pairs, the padding and the half joins of these rows are those of all of them.
pub fn matching_rows_suffice()
    ensures quiet { (tables : Tables) (on : Condition) → condition_may_raise on ≡ false
        → NeverRaises (truth_listing tables on) }
    ensures stands { (tables : Tables) (on : Condition) (width : ℕ) (row : Row) (others : List Row) (outer : Env)
        → condition_may_raise on ≡ false → length row ≡ width
        → StandsFor (truth_listing tables on) outer row
        (matching (left_places (join_pairs width on)) (right_places (join_pairs width on)) others row) others }
{
    denials_are_certain();
}
