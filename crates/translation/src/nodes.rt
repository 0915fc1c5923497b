//! Nodes of trees, made of parts that are taken with their refusals.

ghost use Rattle.std.specs.Prelude.{◌≡◌, ℕ, List, Option, IfOk};
ghost use Rattle.typing.specs.declared.typed.OrderKey.{OrderKey as Key};
ghost use Rattle.algebra.specs.declared.tree.Condition.{Condition as Truth};
ghost use Rattle.algebra.specs.declared.tree.Expression.{Expression as Value};
ghost use Rattle.algebra.specs.declared.tree.SetFunction.{SetFunction as Function};
ghost use Rattle.algebra.specs.declared.tree.Tree.{Tree as Rows};
ghost use Rattle.algebra.specs.declared.tree.Tree.TheVariants as t;
ghost use Rattle.algebra.specs.Translated.{sorted_tree};

use crate::parts::{both, boxed, three};
use algebra::{Condition, Expression, SetFunction, Tree};
use items::Items;
use std::alloc::{AllocError, Global};
use typing::{OrderKey, SetOperation};

pub fn filter(
    alloc: Global,
    condition: Result<Condition, AllocError>,
    tree: Result<Tree, AllocError>,
) -> Result<Tree, AllocError>
    ensures { (c : Truth) (x : Rows) → IfOk condition (λ a. a ≡ c) → IfOk tree (λ b. b ≡ x)
        → IfOk result (λ made. made ≡ t.Filter c x) }
{
    let (condition, tree) = both(boxed(alloc, condition), boxed(alloc, tree))?;
    Ok(Tree::Filter(condition, tree))
}

pub fn product(
    alloc: Global,
    left: Result<Tree, AllocError>,
    right: Result<Tree, AllocError>,
) -> Result<Tree, AllocError>
    ensures { (x y : Rows) → IfOk left (λ a. a ≡ x) → IfOk right (λ b. b ≡ y)
        → IfOk result (λ made. made ≡ t.Product x y) }
{
    let (left, right) = both(boxed(alloc, left), boxed(alloc, right))?;
    Ok(Tree::Product(left, right))
}

pub fn inner(
    alloc: Global,
    on: Result<Condition, AllocError>,
    left: Result<Tree, AllocError>,
    right: Result<Tree, AllocError>,
) -> Result<Tree, AllocError>
    ensures { (c : Truth) (x y : Rows) → IfOk on (λ d. d ≡ c) → IfOk left (λ a. a ≡ x) → IfOk right (λ b. b ≡ y)
        → IfOk result (λ made. made ≡ t.Inner c x y) }
{
    let (on, left, right) = three(boxed(alloc, on), boxed(alloc, left), boxed(alloc, right))?;
    Ok(Tree::Inner(on, left, right))
}

pub fn left_join(
    alloc: Global,
    on: Result<Condition, AllocError>,
    left: Result<Tree, AllocError>,
    right: Result<Tree, AllocError>,
    width: usize,
) -> Result<Tree, AllocError>
    ensures { (c : Truth) (x y : Rows) → IfOk on (λ d. d ≡ c) → IfOk left (λ a. a ≡ x) → IfOk right (λ b. b ≡ y)
        → IfOk result (λ made. made ≡ t.Left c x y width) }
{
    let (on, left, right) = three(boxed(alloc, on), boxed(alloc, left), boxed(alloc, right))?;
    Ok(Tree::Left {
        on,
        left,
        right,
        width,
    })
}

pub fn group(
    alloc: Global,
    columns: Result<Option<Items<usize>>, AllocError>,
    functions: Result<Items<SetFunction>, AllocError>,
    rows: Result<Tree, AllocError>,
) -> Result<Tree, AllocError>
    ensures { (cs : Option (List ℕ)) (fs : List Function) (x : Rows) → IfOk columns (λ a. a ≡ cs)
        → IfOk functions (λ b. b ≡ fs) → IfOk rows (λ d. d ≡ x) → IfOk result (λ made. made ≡ t.Group cs fs x) }
{
    let (columns, functions, rows) = three(columns, functions, boxed(alloc, rows))?;
    Ok(Tree::Group {
        columns,
        functions,
        rows,
    })
}

pub fn project(
    alloc: Global,
    items: Result<Items<Expression>, AllocError>,
    tree: Result<Tree, AllocError>,
) -> Result<Tree, AllocError>
    ensures { (es : List Value) (x : Rows) → IfOk items (λ a. a ≡ es) → IfOk tree (λ b. b ≡ x)
        → IfOk result (λ made. made ≡ t.Project es x) }
{
    let (items, tree) = both(items, boxed(alloc, tree))?;
    Ok(Tree::Project(items, tree))
}

pub fn distinct(alloc: Global, tree: Result<Tree, AllocError>) -> Result<Tree, AllocError>
    ensures { (x : Rows) → IfOk tree (λ a. a ≡ x) → IfOk result (λ made. made ≡ t.Distinct x) }
{
    Ok(Tree::Distinct(boxed(alloc, tree)?))
}

pub fn set(
    alloc: Global,
    operation: SetOperation,
    left: Tree,
    right: Result<Tree, AllocError>,
) -> Result<Tree, AllocError>
    ensures { (y : Rows) → IfOk right (λ b. b ≡ y) → IfOk result (λ made. made ≡ t.Set operation left y) }
{
    let (left, right) = both(boxed(alloc, Ok(left)), boxed(alloc, right))?;
    Ok(Tree::Set(operation, left, right))
}

/// ORDER BY, where there is one.
pub fn sorted(
    alloc: Global,
    keys: Result<Items<OrderKey>, AllocError>,
    tree: Result<Tree, AllocError>,
) -> Result<Tree, AllocError>
    ensures { (ks : List Key) (x : Rows) → IfOk keys (λ a. a ≡ ks) → IfOk tree (λ b. b ≡ x)
        → IfOk result (λ made. made ≡ sorted_tree ks x) }
{
    let (keys, tree) = both(keys, tree)?;
    if keys.is_empty() {
        return Ok(tree);
    }
    let tree = boxed(alloc, Ok(tree))?;
    Ok(Tree::Sort(keys, tree))
}
