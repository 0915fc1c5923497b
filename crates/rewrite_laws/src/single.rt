//! Each rule by itself: where its test holds, what it makes may stand for what was there.

ghost use Rattle.std.specs.Prelude.{◌≡◌, ◌+◌, ℕ, Bool, true, false, List, [], ◌∷◌, map, Some, None, Option};
ghost use Rattle.std.specs.List.{list_all, list_any};
ghost use Rattle.algebra.specs.OrderKeys.{column_of, handed_on};
ghost use Rattle.algebra.specs.Sorted.{ascending};
ghost use Rattle.algebra.specs.declared.tree.Bound.{Bound};
ghost use Rattle.algebra.specs.declared.tree.Condition.TheVariants as c;
ghost use Rattle.algebra.specs.declared.tree.Condition.{Condition, out-Condition};
ghost use Rattle.algebra.specs.declared.tree.Expression.{Expression};
ghost use Rattle.algebra.specs.declared.tree.StoredTable.{StoredTable};
ghost use Rattle.algebra.specs.declared.tree.Tree.TheVariants as t;
ghost use Rattle.algebra.specs.declared.tree.Tree.{Tree};
ghost use Rattle.closed_trees.specs.Outside.{depths_in_tree};
ghost use Rattle.key_lookups.specs.Sought.{key_sought};
ghost use Rattle.rules.specs.Bounds.{high_among, low_among};
ghost use Rattle.rules.specs.Columns.{in_half, in_left, moved, names_only, to_half};
ghost use Rattle.rules.specs.Conjuncts.{and_of, conjuncts, quiet};
ghost use Rattle.rules.specs.FilterRules.{left_filtered, not_false, sides_filtered};
ghost use Rattle.rules.specs.JoinKeys.{join_pairs, left_places, right_places};
ghost use Rattle.rules.specs.JoinRules.{fails_on_nulls, places_for, regrouped, right_filtered};
ghost use Rattle.rules.specs.OrderRules.{is_item, keys_begin, source_of};
ghost use Rattle.rules.specs.Same.{Keeps};
ghost use Rattle.rules.specs.SubqueryRules.{half, quiet_item};
ghost use Rattle.rules.specs.Width.{width_of_tree};
ghost use Rattle.sqlval.specs.declared.value.Value.{Value};
ghost use Rattle.typing.specs.declared.typed.OrderKey.{OrderKey};

use algebra_laws::denials_are_certain;
use key_lookups::look_ups_miss_no_row;

/// Q1, Q2, Q3 and Q16. A filter may be parted where what comes behind the first conjunct does not
/// raise, and moved below a product or to the left of a left join where it does not raise, nor ON.
pub fn filters_move_where_nothing_raises()
    ensures parted { (first second : Condition) (rest : List Condition) (rows : Tree)
        → list_all quiet (second ∷ rest) ≡ true → Keeps (t.Filter (and_of (second ∷ rest)) (t.Filter first rows))
        (t.Filter (c.And (first ∷ (second ∷ rest))) rows) }
    ensures below { (conditions : List Condition) (left right : Tree) (w : ℕ) (new : Tree) → width_of_tree left ≡ Some w
        → list_all quiet conditions ≡ true → sides_filtered conditions left right w ≡ Some new
        → Keeps new (t.Filter (c.And conditions) (t.Product left right)) }
    ensures to_the_left { (conditions : List Condition) (on : Condition) (left right : Tree) (width w : ℕ) (new : Tree)
        → width_of_tree left ≡ Some w → list_all quiet conditions ≡ true
        → quiet on ≡ true → left_filtered conditions on left right width w ≡ Some new
        → Keeps new (t.Filter (c.And conditions) (t.Left on left right width)) }
    ensures tried_first { (first : Condition) (rest : List Condition) (rows : Tree) → quiet first ≡ true
        → Keeps (t.Filter (c.And (first ∷ rest)) (t.Filter (not_false first) rows))
        (t.Filter (c.And (first ∷ rest)) rows) }
{
    denials_are_certain();
}

/// Q4 to Q7. A part of ON goes into the right side of a left join where ON does not raise; a filter
/// of a product is an inner join, whatever its condition; inner joins are regrouped where the lower
/// one sees its own two tables alone; and a left join is an inner join below a filter that is true
/// at no padded row and does not raise.
pub fn joins_become_others()
    ensures into_the_right { (on : Condition) (left right : Tree) (width w : ℕ) (new : Tree)
        → width_of_tree left ≡ Some w
        → quiet on ≡ true → right_filtered (conjuncts on) left right width w ≡ Some new
        → Keeps new (t.Left on left right width) }
    ensures inner { (condition : Condition) (left right : Tree)
        → Keeps (t.Inner condition left right) (t.Filter condition (t.Product left right)) }
    ensures regrouped { (above : Condition) (below : List Condition) (first second third : Tree) (w v : ℕ)
        → width_of_tree first ≡ Some w → width_of_tree second ≡ Some v → quiet above ≡ true
        → list_all quiet below ≡ true
        → list_all (names_only (in_left (w + v))) below ≡ true
        → Keeps (regrouped (conjuncts above) below first second third w)
        (t.Inner (c.And (conjuncts above)) (t.Inner (c.And below) first second) third) }
    ensures unpadded { (condition on : Condition) (left right : Tree) (width w : ℕ) → width_of_tree left ≡ Some w
        → quiet condition ≡ true
        → list_any (λ conjunct. fails_on_nulls w (out-Condition conjunct)) (conjuncts condition) ≡ true
        → Keeps (t.Filter condition (t.Inner on left right)) (t.Filter condition (t.Left on left right width)) }
{
    denials_are_certain();
}

/// Q8 to Q11. Rows are looked up in place of a scan, or of all pairs, where the condition, which
/// stays, does not raise.
pub fn look_ups_stand_for_scans()
    ensures sought { (condition : Condition) (table : StoredTable) (columns : List ℕ) (key : List Value)
        → key_sought columns condition ≡ Some key
        → Keeps (t.Filter condition (t.Seek table columns key)) (t.Filter condition (t.Scan table)) }
    ensures within { (condition : Condition) (table : StoredTable) (column : ℕ) (columns : List ℕ)
        (low high : Option Bound)
        → quiet condition ≡ true → low_among column (conjuncts condition) ≡ low
        → high_among column (conjuncts condition) ≡ high
        → Keeps (t.Filter condition (t.Range table (column ∷ columns) low high)) (t.Filter condition (t.Scan table)) }
    ensures hashed { (on : Condition) (left right : Tree) (w : ℕ) → width_of_tree left ≡ Some w
        → quiet on ≡ true → Keeps (t.HashJoin on left right (left_places (join_pairs w on)) (right_places
        (join_pairs w on)))
        (t.Inner on left right) }
    ensures looped { (on : Condition) (left : Tree) (table : StoredTable) (columns places : List ℕ) (w : ℕ)
        → width_of_tree left ≡ Some w
        → quiet on ≡ true → places_for (join_pairs w on) columns ≡ Some places
        → Keeps (t.IndexLoop on left places table columns) (t.Inner on left (t.Scan table)) }
{
    denials_are_certain();
    look_ups_miss_no_row();
}

/// Q12 and Q15. DISTINCT goes where the items have the whole primary key of the table whose rows
/// they are of, and a sort where the order of an index begins as it asks.
pub fn known_tables_spare_work()
    ensures distinct { (items : List Expression) (rows : Tree) (table : StoredTable) (columns : List ℕ)
        → source_of rows ≡ Some table → table.key ≡ Some columns
        → list_all (is_item items) columns ≡ true
        → Keeps (t.Project items rows) (t.Distinct (t.Project items rows)) }
    ensures sorted { (keys : List OrderKey) (items : List Expression) (table : StoredTable) (columns : List ℕ)
        → keys_begin keys (handed_on (map column_of items) (ascending columns)) ≡ true
        → Keeps (t.Project items (t.Range table columns None None)) (t.Sort keys (t.Project items (t.Scan table))) }
{}

/// Q13 and Q14, and their opposites. EXISTS is a half join where nothing in the subquery raises; IN
/// is a member node where the subquery names no column outside itself.
pub fn subqueries_become_joins()
    ensures exists { (condition : Condition) (items : List Expression) (table : StoredTable) (left : Tree) (w : ℕ)
        → width_of_tree left ≡ Some w → names_only (in_half w) condition ≡ true → quiet condition ≡ true
        → list_all quiet_item items ≡ true → Keeps (t.Half (moved (to_half w) condition) left (t.Scan table))
        (t.Filter (c.Exists (t.Project items (t.Filter condition (t.Scan table)))) left) }
    ensures exists_not { (condition : Condition) (items : List Expression) (table : StoredTable) (left : Tree) (w : ℕ)
        → width_of_tree left ≡ Some w → names_only (in_half w) condition ≡ true → quiet condition ≡ true
        → list_all quiet_item items ≡ true → Keeps (t.OppositeHalf (moved (to_half w) condition) left (t.Scan table))
        (t.Filter (c.Not (c.Exists (t.Project items (t.Filter condition (t.Scan table))))) left) }
    ensures member { (operand : Expression) (members rows : Tree)
        → depths_in_tree members ≡ [] → Keeps (t.Member operand false members rows) (t.Filter
        (c.InQuery operand members) rows) }
    ensures member_not { (operand : Expression) (members rows : Tree)
        → depths_in_tree members ≡ [] → Keeps (t.Member operand true members rows) (t.Filter (c.Not
        (c.InQuery operand members)) rows) }
{
    denials_are_certain();
}
