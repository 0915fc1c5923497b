//! That trees mean the same when subqueries stand as what they give.

ghost use Rattle.std.specs.Prelude.{◌≡◌};
ghost use Rattle.algebra.specs.declared.tree.Condition.{Condition};
ghost use Rattle.algebra.specs.declared.tree.Expression.{Expression};
ghost use Rattle.algebra.specs.declared.tree.Tree.{Tree};
ghost use Rattle.algebra.specs.Listing.{tree_listing, truth_listing, value_listing};
ghost use Rattle.denote.specs.Meaning.{Tables};
ghost use Rattle.uncorrelated_subqueries.specs.Kept.{kept_condition, kept_expression, kept_tree};

/// Over the tables at which its subqueries were listed a tree has the same listing, and a condition
/// and an expression the same value, in whatever rows stand outside.
pub fn kept_trees_mean_the_same()
    ensures trees { (tables : Tables) (tree : Tree)
        → tree_listing tables (kept_tree tables tree) ≡ tree_listing tables tree }
    ensures conditions { (tables : Tables) (condition : Condition)
        → truth_listing tables (kept_condition tables condition) ≡ truth_listing tables condition }
    ensures expressions { (tables : Tables) (expression : Expression)
        → value_listing tables (kept_expression tables expression) ≡ value_listing tables expression }
{}
