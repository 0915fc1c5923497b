//! What is made of some conditions: their AND, a filter, a join.

ghost use Rattle.std.specs.Prelude.{◌≡◌, IfOk};
ghost use Rattle.algebra.specs.declared.tree.Tree.TheVariants as t;
ghost use Rattle.rules.specs.Conjuncts.{and_of, filtered, joined};

use crate::parts::{both, three};
use algebra::{Condition, Tree};
use items::{Boxed, Items};
use std::alloc::{AllocError, Global};

/// The AND of some conditions; one alone is itself.
pub fn and_of(conditions: Items<Condition>) -> Condition
    ensures { result ≡ and_of conditions }
{
    let mut conditions = conditions;
    if conditions.len() != 1 {
        return Condition::And(conditions);
    }
    match conditions.pop() {
        Some(condition) => condition,
        None => Condition::And(conditions),
    }
}

/// A filter by all of these, if there are any. Refuses for want of memory alone.
pub fn filtered(alloc: Global, conditions: Items<Condition>, rows: Tree) -> Result<Tree, AllocError>
    ensures { IfOk result (λ tree. tree ≡ filtered conditions rows) }
{
    if conditions.is_empty() {
        return Ok(rows);
    }
    filter_of(alloc, and_of(conditions), rows)
}

/// A filter by this condition. Refuses for want of memory alone.
pub fn filter_of(alloc: Global, condition: Condition, rows: Tree) -> Result<Tree, AllocError>
    ensures { IfOk result (λ tree. tree ≡ t.Filter condition rows) }
{
    let (condition, rows) = both(Boxed::new(alloc, condition), Boxed::new(alloc, rows))?;
    Ok(Tree::Filter(condition, rows))
}

/// A join by all of these; a product where there are none. Refuses for want of memory alone.
pub fn joined(
    alloc: Global,
    conditions: Items<Condition>,
    left: Tree,
    right: Tree,
) -> Result<Tree, AllocError>
    ensures { IfOk result (λ tree. tree ≡ joined conditions left right) }
{
    if conditions.is_empty() {
        return product_of(alloc, left, right);
    }
    inner_of(alloc, and_of(conditions), left, right)
}

fn product_of(alloc: Global, left: Tree, right: Tree) -> Result<Tree, AllocError>
    ensures { IfOk result (λ tree. tree ≡ t.Product left right) }
{
    let (left, right) = both(Boxed::new(alloc, left), Boxed::new(alloc, right))?;
    Ok(Tree::Product(left, right))
}

/// A join by this condition. Refuses for want of memory alone.
pub fn inner_of(alloc: Global, on: Condition, left: Tree, right: Tree) -> Result<Tree, AllocError>
    ensures { IfOk result (λ tree. tree ≡ t.Inner on left right) }
{
    let on = Boxed::new(alloc, on);
    let left = Boxed::new(alloc, left);
    let (on, left, right) = three(on, left, Boxed::new(alloc, right))?;
    Ok(Tree::Inner(on, left, right))
}
