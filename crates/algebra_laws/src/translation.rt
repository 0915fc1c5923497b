//! That the tree of a query has the query's outcome, and that of an expression its value.

ghost use Rattle.std.specs.Prelude.{◌≡◌, ℕ, List};
ghost use Rattle.typing.specs.declared.typed.Condition.{Condition};
ghost use Rattle.typing.specs.declared.typed.Expression.{Expression};
ghost use Rattle.typing.specs.declared.typed.Query.{Query};
ghost use Rattle.typing.specs.declared.typed.OrderedQuery.{OrderedQuery};
ghost use Rattle.algebra.specs.declared.tree.StoredTable.{StoredTable};
ghost use Rattle.algebra.specs.Listing.{truth_listing, value_listing};
ghost use Rattle.algebra.specs.TreeOutcome.{tree_outcome};
ghost use Rattle.algebra.specs.OrderKeys.{ordered_outcome};
ghost use Rattle.denote.specs.Evaluation.{Env};
ghost use Rattle.denote.specs.Meaning.{Tables, query_outcome, truth_at, value_of};
ghost use Rattle.denote.specs.Database.{Database, rows_in};
ghost use Rattle.denote.specs.Query.{denotes};
ghost use Rattle.algebra.specs.Translated.{tree_of_condition, tree_of_expression, tree_of_query, tree_of_ordered};
ghost use Rattle.algebra_laws.specs.Shown.{ShowsAt};

/// The tree of a query has its outcome, rows and faults in the same order, in whatever rows stand
/// outside it; and with ORDER BY what the query denotes. It asks nothing of what is known of tables
/// but that each has its own name.
pub fn translation_keeps_the_meaning()
    ensures query { (described : List ℕ → StoredTable) → ((name : List ℕ) → (described name).name ≡ name) → (tables : Tables) (query : Query) (env : Env) → tree_outcome tables (tree_of_query described query) env ≡ query_outcome tables query env }
    ensures ordered { (described : List ℕ → StoredTable) → ((name : List ℕ) → (described name).name ≡ name)
        → (db : Database) (ordered : OrderedQuery)
        → ordered_outcome (rows_in db) (tree_of_ordered described ordered) ≡ denotes db ordered }
{}

/// What the tree of an expression is found to be in whatever rows is the expression's value there,
/// or some of its faults; so it is of a condition.
pub fn evaluation_keeps_the_meaning()
    ensures value { (described : List ℕ → StoredTable) → ((name : List ℕ) → (described name).name ≡ name)
        → (tables : Tables) (expression : Expression)
        → ShowsAt (value_listing tables (tree_of_expression described expression)) (value_of tables expression) }
    ensures truth { (described : List ℕ → StoredTable) → ((name : List ℕ) → (described name).name ≡ name)
        → (tables : Tables) (condition : Condition)
        → ShowsAt (truth_listing tables (tree_of_condition described condition)) (truth_at tables condition) }
{}
