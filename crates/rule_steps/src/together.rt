//! What is made of conditions and trees. They are taken with their refusals: a caller that took
//! them out by `?` would drop, at each, the trees that it owns, and be slow to prove.

ghost use Rattle.std.specs.Prelude.{◌≡◌, List, IfOk};
ghost use Rattle.algebra.specs.declared.tree.Condition.{Condition};
ghost use Rattle.algebra.specs.declared.tree.Tree.{Tree};
ghost use Rattle.algebra.specs.declared.tree.Tree.TheVariants as t;
ghost use Rattle.rules.specs.Conjuncts.{and_of, filtered, joined};

use algebra::{Condition, Tree};
use items::Items;
use moved_conditions::{and_of, both, filter_of, filtered, joined, three};
use std::alloc::{AllocError, Global};

/// The AND of some conditions; one alone is itself.
pub fn and_by(conditions: Result<Items<Condition>, AllocError>) -> Result<Condition, AllocError>
    ensures { (list : List Condition) → IfOk conditions (λ c. c ≡ list) → IfOk result (λ made. made ≡ and_of list) }
{
    Ok(and_of(conditions?))
}

/// A filter by this condition.
pub fn filter_by(
    alloc: Global,
    condition: Result<Condition, AllocError>,
    rows: Result<Tree, AllocError>,
) -> Result<Tree, AllocError>
    ensures { (test : Condition) (below : Tree) → IfOk condition (λ c. c ≡ test) → IfOk rows (λ r. r ≡ below)
        → IfOk result (λ made. made ≡ t.Filter test below) }
{
    match both(condition, rows) {
        Ok((condition, rows)) => filter_of(alloc, condition, rows),
        Err(error) => Err(error),
    }
}

/// A filter by all of these, if there are any.
pub fn filtered_by(
    alloc: Global,
    conditions: Result<Items<Condition>, AllocError>,
    rows: Result<Tree, AllocError>,
) -> Result<Tree, AllocError>
    ensures { (list : List Condition) (below : Tree) → IfOk conditions (λ c. c ≡ list) → IfOk rows (λ r. r ≡ below)
        → IfOk result (λ made. made ≡ filtered list below) }
{
    match both(conditions, rows) {
        Ok((conditions, rows)) => filtered(alloc, conditions, rows),
        Err(error) => Err(error),
    }
}

/// A join by all of these; a product where there are none.
pub fn joined_by(
    alloc: Global,
    conditions: Result<Items<Condition>, AllocError>,
    left: Result<Tree, AllocError>,
    right: Result<Tree, AllocError>,
) -> Result<Tree, AllocError>
    ensures { (list : List Condition) (one other : Tree) → IfOk conditions (λ c. c ≡ list) → IfOk left (λ l. l ≡ one)
        → IfOk right (λ r. r ≡ other) → IfOk result (λ made. made ≡ joined list one other) }
{
    match three(conditions, left, right) {
        Ok((conditions, left, right)) => joined(alloc, conditions, left, right),
        Err(error) => Err(error),
    }
}
