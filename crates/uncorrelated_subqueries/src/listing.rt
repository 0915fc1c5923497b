//! Trees carried out.

ghost use Rattle.std.specs.Prelude.{◌≡◌, []};
ghost use Rattle.algebra.specs.Listing.{tree_listing};
ghost use Rattle.executor.specs.Reply.{Lists};

use crate::keeping::kept_tree;
use crate::laws::kept_trees_mean_the_same;
use algebra::Tree;
use denote::{Stop, Tables};
use executor::{Env, Listed, tree_listed};
use std::alloc::Global;

/// What a tree lists that stands in no other: its rows in order, up to the first fault. A subquery
/// that names no column outside itself is listed once for all rows, before them; one whose list a
/// fault ends is listed again where it is asked, and its fault is raised there alone.
pub fn listed_once<S: Tables>(alloc: Global, tables: &S, tree: &Tree) -> Result<Listed, Stop>
    ensures lists { Lists result (tree_listing (S.rows_of tables.now) tree.now []) }
{
    kept_trees_mean_the_same();
    match kept_tree(alloc, tables, tree) {
        Ok(kept) => tree_listed(alloc, tables, &Env::Outermost, &kept),
        Err(_) => Err(Stop::Memory),
    }
}
