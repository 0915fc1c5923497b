//! That a tree's listing depends on the tables that it reads alone.

ghost use Rattle.std.specs.Prelude.{◌≡◌};
ghost use Rattle.algebra.specs.declared.tree.Expression.{Expression};
ghost use Rattle.algebra.specs.declared.tree.Tree.{Tree};
ghost use Rattle.algebra.specs.Listing.{tree_listing, value_listing};
ghost use Rattle.denote.specs.Meaning.{Tables};
ghost use Rattle.tree_tables.specs.TablesRead.{Agree, tables_in_expression, tables_in_tree};

/// Over tables that have the same rows under the names that a tree reads, the tree has the same
/// listing, in whatever rows stand outside it.
pub fn listings_read_their_tables()
    ensures { (tables others : Tables) (tree : Tree) → Agree tables others (tables_in_tree tree)
        → tree_listing tables tree ≡ tree_listing others tree }
{}

/// So it is of an expression: its value depends on no tables but those that it names.
pub fn values_read_their_tables()
    ensures { (tables others : Tables) (expression : Expression) → Agree tables others (tables_in_expression expression)
        → value_listing tables expression ≡ value_listing others expression }
{}
