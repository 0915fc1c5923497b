//! That a tree's listing depends on the rows that it names alone.

ghost use Rattle.std.specs.Prelude.{◌≡◌, []};
ghost use Rattle.algebra.specs.declared.tree.Tree.{Tree};
ghost use Rattle.algebra.specs.Listing.{tree_listing};
ghost use Rattle.denote.specs.Evaluation.{Env};
ghost use Rattle.denote.specs.Meaning.{Tables};
ghost use Rattle.closed_trees.specs.Outside.{SeeAlike, depths_in_tree};

/// In surroundings whose rows are the same at each depth that a tree names, the tree has the same
/// listing, over any tables.
pub fn listings_see_the_rows_they_name()
    ensures { (tables : Tables) (tree : Tree) (env others : Env) → SeeAlike env others (depths_in_tree tree)
        → tree_listing tables tree env ≡ tree_listing tables tree others }
{}

/// A tree that names no column outside itself has the same listing in all surroundings.
pub fn closed_trees_list_alike()
    ensures { (tables : Tables) (tree : Tree) → depths_in_tree tree ≡ [] → (env others : Env)
        → tree_listing tables tree env ≡ tree_listing tables tree others }
{}
