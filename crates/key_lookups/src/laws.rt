//! What a look-up by the key of a condition finds. The function does nothing: its contract is the
//! law.

ghost use Rattle.std.specs.Prelude.{◌≡◌, ℕ, List, true, Some, Ok, ◌∷◌};
ghost use Rattle.sqlval.specs.declared.value.Value.{Value};
ghost use Rattle.sqlval.specs.declared.truth.Truth.{Truth};
ghost use Rattle.sqlval.specs.Matching.{matches};
ghost use Rattle.sqlval.specs.Value.{Row};
ghost use Rattle.denote.specs.Evaluation.{Env};
ghost use Rattle.denote.specs.Meaning.{Tables};
ghost use Rattle.algebra.specs.declared.tree.Condition.{Condition};
ghost use Rattle.algebra.specs.declared.tree.StoredTable.{StoredTable};
ghost use Rattle.algebra.specs.declared.tree.Tree.TheVariants.{Filter, Scan, Seek};
ghost use Rattle.algebra.specs.Raising.{NeverRaises};
ghost use Rattle.algebra.specs.TreeOutcome.{tree_outcome, tree_truth};
ghost use Rattle.key_lookups.specs.Sought.{key_sought};

use algebra_laws::denials_are_certain;

/// A condition that asks for a key raises no fault, in whatever rows. Each row at which it is true
/// has this key, wholly non-null. So a look-up by the key in place of a scan, and the whole
/// condition on what is found, give the same rows.
pub fn look_ups_miss_no_row()
    ensures quiet { (tables : Tables) (condition : Condition) (columns : List ℕ) (key : List Value)
        → key_sought columns condition ≡ Some key → NeverRaises (tree_truth tables condition) }
    ensures matching { (tables : Tables) (condition : Condition) (columns : List ℕ) (key : List Value) (row : Row) (outer : Env)
        → key_sought columns condition ≡ Some key
        → tree_truth tables condition (row ∷ outer) ≡ Ok Truth.True → matches columns key row ≡ true }
    ensures found { (tables : Tables) (condition : Condition) (columns : List ℕ) (key : List Value) (table : StoredTable) (outer : Env)
        → key_sought columns condition ≡ Some key
        → tree_outcome tables (Filter condition (Seek table columns key)) outer ≡ tree_outcome tables (Filter condition (Scan table)) outer }
{
    denials_are_certain();
}
