//! What follows from the definitions. These functions do nothing: their contracts are the laws.

ghost use Rattle.std.specs.Prelude.{◌≡◌, ◌↔◌, ℕ, List, IsTrue, true, not};
ghost use Rattle.std.specs.List.{list_all};
ghost use Rattle.std.specs.Cmp.{IsTotalOrder};
ghost use Rattle.std.specs.declared.cmp.Ordering.{Ordering};
ghost use Rattle.sqlval.specs.declared.truth.Truth.{Truth};
ghost use Rattle.sqlval.specs.declared.comparison.CompOp.{CompOp};
ghost use Rattle.sqlval.specs.declared.value.Value.{Value};
ghost use Rattle.sqlval.specs.declared.storing.ColumnType.{ColumnType};
ghost use Rattle.sqlval.specs.Truth.{truth_and, truth_or, truth_not};
ghost use Rattle.sqlval.specs.Comparison.{comparison, value_order, opposite};
ghost use Rattle.sqlval.specs.Like.{Fits, is_like, is_wildcard};
ghost use Rattle.sqlval.specs.Storing.{stored, fits_column};

/// AND and OR each commute and associate, NOT undoes itself, and NOT of one connective is the other
/// over NOTs.
pub fn connectives()
    ensures and_commutes { (x y : Truth) → truth_and x y ≡ truth_and y x }
    ensures or_commutes { (x y : Truth) → truth_or x y ≡ truth_or y x }
    ensures and_associates { (x y z : Truth) → truth_and (truth_and x y) z ≡ truth_and x (truth_and y z) }
    ensures or_associates { (x y z : Truth) → truth_or (truth_or x y) z ≡ truth_or x (truth_or y z) }
    ensures not_twice { (x : Truth) → truth_not (truth_not x) ≡ x }
    ensures not_and { (x y : Truth) → truth_not (truth_and x y) ≡ truth_or (truth_not x) (truth_not y) }
    ensures not_or { (x y : Truth) → truth_not (truth_or x y) ≡ truth_and (truth_not x) (truth_not y) }
{}

/// NOT of a comparison is the comparison by the opposite operator: `NOT x < y` is `x >= y`, also at
/// nulls.
pub fn opposite_comparisons()
    ensures { (op : CompOp) (x y : Value) → truth_not (comparison op x y) ≡ comparison (opposite op) x y }
{}

/// The value order is a total order, and only a value itself stands level with it.
pub fn value_order_is_total()
    ensures total { IsTotalOrder value_order }
    ensures level { (x y : Value) → (value_order x y ≡ Ordering.Equal) ↔ (x ≡ y) }
{}

/// The test of a pattern says what the pattern means.
pub fn like_tests_the_meaning()
    ensures { (pattern text : List ℕ) → IsTrue (is_like pattern text) ↔ Fits pattern text }
{}

/// A pattern without `%` and `_` fits itself alone.
pub fn like_without_wildcards_is_equality()
    ensures { (pattern text : List ℕ) → list_all (λ sign. not (is_wildcard sign)) pattern ≡ true
        → (IsTrue (is_like pattern text) ↔ (text ≡ pattern)) }
{}

/// What is stored fits its column, and what fits is stored as it is.
pub fn stored_values_fit()
    ensures fits { (value kept : Value) (column : ColumnType) → stored value column ≡ Ok kept
        → IsTrue (fits_column kept column) }
    ensures kept { (value : Value) (column : ColumnType) → IsTrue (fits_column value column)
        → stored value column ≡ Ok value }
{}
