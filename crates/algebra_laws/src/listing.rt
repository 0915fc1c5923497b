//! That a listing answers the outcome of its tree.

ghost use Rattle.std.specs.Prelude.{◌≡◌, ℕ, [], List};
ghost use Rattle.typing.specs.declared.typed.OrderedQuery.{OrderedQuery};
ghost use Rattle.algebra.specs.declared.tree.StoredTable.{StoredTable};
ghost use Rattle.algebra.specs.declared.tree.Tree.{Tree};
ghost use Rattle.algebra.specs.Listing.{tree_listing, reply_of};
ghost use Rattle.algebra.specs.Translated.{tree_of_ordered};
ghost use Rattle.algebra.specs.TreeOutcome.{tree_outcome};
ghost use Rattle.denote.specs.Evaluation.{Env};
ghost use Rattle.denote.specs.Meaning.{Tables};
ghost use Rattle.denote.specs.Answer.{Answers};
ghost use Rattle.denote.specs.Database.{Database, rows_in};
ghost use Rattle.denote.specs.Query.{denotes};
ghost use Rattle.algebra_laws.specs.Shown.{Lists};

/// The rows of a listing come no more often than in its tree's outcome, and its fault is one of the
/// outcome's. Without a fault the rows are those of the outcome, which then has none. So it is of
/// every tree, in whatever rows stand outside it.
pub fn listings_answer_outcomes()
    ensures { (tables : Tables) (tree : Tree) (env : Env)
        → Lists (tree_listing tables tree env) (tree_outcome tables tree env) }
{}

/// The listing of a query's tree, over the rows of a database in whatever order, answers the query:
/// its rows, sorted by ORDER BY, or one of its faults.
pub fn listings_answer_queries()
    ensures { (described : List ℕ → StoredTable) → ((name : List ℕ) → (described name).name ≡ name)
        → (db : Database) (ordered : OrderedQuery)
        → Answers (reply_of (tree_listing (rows_in db) (tree_of_ordered described ordered) [])) (denotes db ordered) }
{}
