//! Nodes over parts to which steps lead. They are taken with their refusals, so that a caller owns
//! nothing over a `?`.

ghost use Rattle.std.specs.Prelude.{◌≡◌, ◌++◌, Bool, ℕ, List, map, IfOk, IsOkAnd};
ghost use Rattle.algebra.specs.declared.tree.StoredTable.{StoredTable};
ghost use Rattle.algebra.specs.declared.tree.Tree.{Tree};
ghost use Rattle.algebra.specs.declared.tree.Tree.TheVariants as t;
ghost use Rattle.rules.specs.declared.rule.Step.{Step};
ghost use Rattle.planner.specs.Joins.{Beside, OneTable};
ghost use Rattle.planner.specs.Led.{IsCalm, Led, LedAt, LedBoth, behind, in_part, with_left, with_steps};

use crate::outline::{Outline, in_part};
use algebra::{Condition, Expression, SetFunction, Tree};
use items::{Boxed, Items};
use rewrite::Step;
use std::alloc::{AllocError, Global};
use typing::{OrderKey, SetOperation};

/// A child of a node, and the steps that lead to it, as steps of the node.
#[derive(Drop)]
pub struct Part {
    pub steps: Items<Step>,
    pub tree: Boxed<Tree>,
}

/// Two children of a node, and the steps that lead to both.
#[derive(Drop)]
pub struct Sides {
    pub steps: Items<Step>,
    pub left: Boxed<Tree>,
    pub right: Boxed<Tree>,
}

/// The child at this place.
pub fn part_at(
    alloc: Global,
    place: usize,
    outline: Result<Outline, AllocError>,
) -> Result<Part, AllocError>
    ensures led { (calm : Bool) (old : Tree) → IfOk outline (λ o. Led calm old o)
        → IfOk result (λ part. LedAt place calm old part) }
    ensures tree { (x : Tree) → IfOk outline (λ o. o.tree ≡ x) → IfOk result (λ part. part.tree ≡ x) }
{
    let Outline { steps, tree } = outline?;
    boxed(alloc, in_part(alloc, place, steps), tree)
}

fn boxed(
    alloc: Global,
    steps: Result<Items<Step>, AllocError>,
    tree: Tree,
) -> Result<Part, AllocError>
    ensures steps { (list : List Step) → IfOk steps (λ s. s ≡ list) → IfOk result (λ part. part.steps ≡ list) }
    ensures tree { IfOk result (λ part. part.tree ≡ tree) }
{
    let tree = Boxed::new(alloc, tree)?;
    Ok(Part {
        steps: steps?,
        tree,
    })
}

/// The left child and the right one.
pub fn side_by_side(
    left: Result<Part, AllocError>,
    right: Result<Part, AllocError>,
) -> Result<Sides, AllocError>
    ensures led { (calm : Bool) (l r : Tree) → IfOk left (λ part. LedAt 0 calm l part)
        → IfOk right (λ part. LedAt 1 calm r part)
        → IfOk result (λ both. LedBoth calm l r both) }
    ensures tables { (one other : StoredTable) → IfOk left (λ part. OneTable one part.tree)
        → IfOk right (λ part. OneTable other part.tree)
        → IfOk result (λ both. OneTable one both.left × OneTable other both.right) }
{
    let Part { steps, tree } = left?;
    with_left(tree, behind(steps, right))
}

fn with_left(left: Boxed<Tree>, right: Result<Part, AllocError>) -> Result<Sides, AllocError>
    ensures { IfOk result (λ both. IsOkAnd right (λ x. both ≡ with_left left x)) }
{
    let Part { steps, tree } = right?;
    Ok(Sides {
        steps,
        left,
        right: tree,
    })
}

/// The right child, with the steps of the left one before its own.
fn behind(steps: Items<Step>, right: Result<Part, AllocError>) -> Result<Part, AllocError>
    ensures { IfOk result (λ part. IsOkAnd right (λ x. part ≡ behind steps x)) }
{
    let Part { steps: more, tree } = right?;
    with_steps(appended(steps, more), tree)
}

fn with_steps(steps: Result<Items<Step>, AllocError>, tree: Boxed<Tree>) -> Result<Part, AllocError>
    ensures { (list : List Step) → IfOk steps (λ s. s ≡ list) → IfOk result (λ part. part ≡ with_steps list tree) }
{
    Ok(Part {
        steps: steps?,
        tree,
    })
}

fn appended(steps: Items<Step>, more: Items<Step>) -> Result<Items<Step>, AllocError>
    ensures { IfOk result (λ all. all ≡ steps ++ more) }
{
    let mut steps = steps;
    steps.append(more)?;
    Ok(steps)
}

pub fn filter_of(
    condition: Boxed<Condition>,
    rows: Result<Part, AllocError>,
) -> Result<Outline, AllocError>
    ensures led { (calm : Bool) (old : Tree) → IsCalm calm (t.Filter condition old)
        → IfOk rows (λ part. LedAt 0 calm old part)
        → IfOk result (λ o. Led calm (t.Filter condition old) o) }
    ensures tree { (x : Tree) → IfOk rows (λ part. part.tree ≡ x) → IfOk result (λ o. o.tree ≡ t.Filter condition x) }
{
    let Part { steps, tree } = rows?;
    Ok(Outline {
        steps,
        tree: Tree::Filter(condition, tree),
    })
}

pub fn group_of(
    columns: Option<Items<usize>>,
    functions: Items<SetFunction>,
    rows: Result<Part, AllocError>,
) -> Result<Outline, AllocError>
    ensures led { (calm : Bool) (old : Tree) → IsCalm calm (t.Group columns functions old)
        → IfOk rows (λ part. LedAt 0 calm old part) → IfOk result (λ o. Led calm (t.Group columns functions old) o) }
    ensures tree { (x : Tree) → IfOk rows (λ part. part.tree ≡ x)
        → IfOk result (λ o. o.tree ≡ t.Group columns functions x) }
{
    let Part { steps, tree } = rows?;
    Ok(Outline {
        steps,
        tree: Tree::Group {
            columns,
            functions,
            rows: tree,
        },
    })
}

pub fn project_of(
    items: Items<Expression>,
    rows: Result<Part, AllocError>,
) -> Result<Outline, AllocError>
    ensures led { (calm : Bool) (old : Tree) → IsCalm calm (t.Project items old)
        → IfOk rows (λ part. LedAt 0 calm old part)
        → IfOk result (λ o. Led calm (t.Project items old) o) }
    ensures tree { (x : Tree) → IfOk rows (λ part. part.tree ≡ x) → IfOk result (λ o. o.tree ≡ t.Project items x) }
{
    let Part { steps, tree } = rows?;
    Ok(Outline {
        steps,
        tree: Tree::Project(items, tree),
    })
}

pub fn distinct_of(rows: Result<Part, AllocError>) -> Result<Outline, AllocError>
    ensures led { (calm : Bool) (old : Tree) → IsCalm calm (t.Distinct old) → IfOk rows (λ part. LedAt 0 calm old part)
        → IfOk result (λ o. Led calm (t.Distinct old) o) }
    ensures tree { (x : Tree) → IfOk rows (λ part. part.tree ≡ x) → IfOk result (λ o. o.tree ≡ t.Distinct x) }
{
    let Part { steps, tree } = rows?;
    Ok(Outline {
        steps,
        tree: Tree::Distinct(tree),
    })
}

pub fn sort_of(keys: Items<OrderKey>, rows: Result<Part, AllocError>) -> Result<Outline, AllocError>
    ensures led { (calm : Bool) (old : Tree) → IsCalm calm (t.Sort keys old) → IfOk rows (λ part. LedAt 0 calm old part)
        → IfOk result (λ o. Led calm (t.Sort keys old) o) }
    ensures tree { (x : Tree) → IfOk rows (λ part. part.tree ≡ x) → IfOk result (λ o. o.tree ≡ t.Sort keys x) }
{
    let Part { steps, tree } = rows?;
    Ok(Outline {
        steps,
        tree: Tree::Sort(keys, tree),
    })
}

pub fn product_of(both: Result<Sides, AllocError>) -> Result<Outline, AllocError>
    ensures led { (calm : Bool) (l r : Tree) → IsCalm calm (t.Product l r) → IfOk both (λ s. LedBoth calm l r s)
        → IfOk result (λ o. Led calm (t.Product l r) o) }
    ensures tables { (one other : StoredTable) → IfOk both (λ s. OneTable one s.left × OneTable other s.right)
        → IfOk result (λ o. Beside one other o.tree) }
{
    let Sides { steps, left, right } = both?;
    Ok(Outline {
        steps,
        tree: Tree::Product(left, right),
    })
}

pub fn inner_of(
    on: Boxed<Condition>,
    both: Result<Sides, AllocError>,
) -> Result<Outline, AllocError>
    ensures { (calm : Bool) (l r : Tree) → IsCalm calm (t.Inner on l r) → IfOk both (λ s. LedBoth calm l r s)
        → IfOk result (λ o. Led calm (t.Inner on l r) o) }
{
    let Sides { steps, left, right } = both?;
    Ok(Outline {
        steps,
        tree: Tree::Inner(on, left, right),
    })
}

pub fn left_join_of(
    on: Boxed<Condition>,
    both: Result<Sides, AllocError>,
    width: usize,
) -> Result<Outline, AllocError>
    ensures { (calm : Bool) (l r : Tree) → IsCalm calm (t.Left on l r width) → IfOk both (λ s. LedBoth calm l r s)
        → IfOk result (λ o. Led calm (t.Left on l r width) o) }
{
    let Sides { steps, left, right } = both?;
    Ok(Outline {
        steps,
        tree: Tree::Left {
            on,
            left,
            right,
            width,
        },
    })
}

pub fn set_of(
    operation: SetOperation,
    both: Result<Sides, AllocError>,
) -> Result<Outline, AllocError>
    ensures { (calm : Bool) (l r : Tree) → IsCalm calm (t.Set operation l r) → IfOk both (λ s. LedBoth calm l r s)
        → IfOk result (λ o. Led calm (t.Set operation l r) o) }
{
    let Sides { steps, left, right } = both?;
    Ok(Outline {
        steps,
        tree: Tree::Set(operation, left, right),
    })
}
