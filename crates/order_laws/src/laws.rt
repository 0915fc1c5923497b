//! By which columns a listing is sorted.

ghost use Rattle.std.specs.Prelude.{[], IsSorted};
ghost use Rattle.algebra.specs.declared.tree.Tree.{Tree};
ghost use Rattle.algebra.specs.Listing.{tree_listing, reply_of};
ghost use Rattle.algebra.specs.OrderKeys.{order_keys, ordered_outcome};
ghost use Rattle.denote.specs.Answer.{by_keys, Answers};
ghost use Rattle.denote.specs.Evaluation.{Env};
ghost use Rattle.denote.specs.Meaning.{Tables};

/// The rows of a tree's listing are sorted by the tree's order keys, in whatever rows stand outside
/// it. So are those that come before a fault which ends the listing.
pub fn listings_are_sorted()
    ensures { (tables : Tables) (tree : Tree) (env : Env) → IsSorted (by_keys (order_keys tree)) (tree_listing tables tree env).rows }
{}

/// The listing of a whole tree answers its ordered outcome: the rows of the outcome, sorted by the
/// tree's order keys, or one of its faults.
pub fn listings_answer_in_order()
    ensures { (tables : Tables) (tree : Tree) → Answers (reply_of (tree_listing tables tree [])) (ordered_outcome tables tree) }
{}
