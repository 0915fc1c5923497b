//! Conditions go down: from the root to the leaves, filters go below products and to the left of
//! left joins, left joins become inner ones, and parts of ON go into the right side.

ghost use Rattle.std.specs.Prelude.{◌≡◌, IfOk};
ghost use Rattle.algebra.specs.declared.tree.StoredTable.{StoredTable};
ghost use Rattle.algebra.specs.declared.tree.Tree.{Tree};
ghost use Rattle.algebra.specs.declared.tree.Tree.TheVariants as t;
ghost use Rattle.planner.specs.Joins.{Has, Shape};
ghost use Rattle.planner.specs.Led.{IsCalm, Led, LedAt};
ghost use Rattle.planner.specs.Looks.{Over};

use crate::nodes::{
    Part, distinct_of, filter_of, group_of, inner_of, left_join_of, part_at, product_of,
    project_of, set_of, side_by_side, sort_of,
};
use crate::outline::{Outline, begun, behind, sunk};
use crate::wanted::parts_well;
use algebra::Tree;
use items::Boxed;
use rewrite::Rule;
use std::alloc::{AllocError, Global};

/// What becomes of a tree whose conditions go down. `calm` says whether no condition of the whole
/// tree may raise. `depth` is how many nodes more the walk goes down at most. A chain of set
/// operators has a frame of its own, which is small: it may have some thousand operands, one inside
/// the other on the left.
#[cycle(down)]
pub fn moved_down(
    alloc: Global,
    calm: bool,
    depth: usize,
    tree: Tree,
) -> Result<Outline, AllocError>
    ensures led { IsCalm calm tree → IfOk result (λ o. Led calm tree o) }
    ensures still { (table : StoredTable) → Over (t.Scan table) tree → IfOk result (λ o. o.tree ≡ tree) }
    ensures has { (shape : Shape) → Has shape tree → IfOk result (λ o. Has shape o.tree) }
{
    if depth == 0 {
        return Ok(begun(alloc, tree));
    }
    match tree {
        Tree::Set(operation, left, right) => {
            let left = part_down(alloc, calm, depth - 1, 0, left);
            set_of(
                operation,
                side_by_side(left, part_down(alloc, calm, depth - 1, 1, right)),
            )
        }
        other => node_down(alloc, calm, depth - 1, other),
    }
}

#[cycle(down)]
fn node_down(alloc: Global, calm: bool, depth: usize, tree: Tree) -> Result<Outline, AllocError>
    ensures led { IsCalm calm tree → IfOk result (λ o. Led calm tree o) }
    ensures still { (table : StoredTable) → Over (t.Scan table) tree → IfOk result (λ o. o.tree ≡ tree) }
    ensures has { (shape : Shape) → Has shape tree → IfOk result (λ o. Has shape o.tree) }
{
    let outline = sunk_here(alloc, calm, begun(alloc, tree));
    below(alloc, calm, depth, outline)
}

/// What is used at a node. At most one of the last four can be: each wants another node, but for Q7
/// and Q3, and a left join that became an inner one is none any more.
fn sunk_here(alloc: Global, calm: bool, outline: Outline) -> Result<Outline, AllocError>
    ensures led { (old : Tree) → Led calm old outline → IfOk result (λ o. Led calm old o) }
    ensures still { (table : StoredTable) → Over (t.Scan table) outline.tree
        → IfOk result (λ o. o.tree ≡ outline.tree) }
    ensures has { (shape : Shape) → Has shape outline.tree → IfOk result (λ o. Has shape o.tree) }
{
    let outline = sides_parted(alloc, calm, outline);
    let outline = sunk(alloc, calm, Rule::FilterBelowProduct, outline);
    let outline = sunk(alloc, calm, Rule::LeftToInner, outline);
    let outline = sunk(alloc, calm, Rule::FilterLeftOfLeftJoin, outline);
    sunk(alloc, calm, Rule::OnIntoRightSide, outline)
}

/// A filter of a product, the first conjunct of which names the left side alone and the others the
/// right side alone, is parted: the first goes below, and then the others can.
fn sides_parted(alloc: Global, calm: bool, outline: Outline) -> Result<Outline, AllocError>
    ensures led { (old : Tree) → Led calm old outline → IfOk result (λ o. Led calm old o) }
    ensures still { (table : StoredTable) → Over (t.Scan table) outline.tree
        → IfOk result (λ o. o.tree ≡ outline.tree) }
    ensures has { (shape : Shape) → Has shape outline.tree → IfOk result (λ o. Has shape o.tree) }
{
    if parts_well(&outline.tree) {
        first_below(
            alloc,
            calm,
            sunk(alloc, calm, Rule::SplitFilter, Ok(outline)),
        )
    } else {
        Ok(outline)
    }
}

/// The lower of two filters goes below the product.
fn first_below(
    alloc: Global,
    calm: bool,
    outline: Result<Outline, AllocError>,
) -> Result<Outline, AllocError>
    ensures { (old : Tree) → IfOk outline (λ o. Led calm old o) → IfOk result (λ o. Led calm old o) }
{
    let Outline { steps, tree } = outline?;
    behind(steps, child_sunk(alloc, calm, tree))
}

fn child_sunk(alloc: Global, calm: bool, tree: Tree) -> Result<Outline, AllocError>
    ensures { IsCalm calm tree → IfOk result (λ o. Led calm tree o) }
{
    match tree {
        Tree::Filter(condition, rows) => {
            let child = begun(alloc, rows.into_inner());
            let child = sunk(alloc, calm, Rule::FilterBelowProduct, Ok(child));
            filter_of(condition, part_at(alloc, 0, child))
        }
        other => Ok(begun(alloc, other)),
    }
}

#[cycle(down)]
fn below(
    alloc: Global,
    calm: bool,
    depth: usize,
    outline: Result<Outline, AllocError>,
) -> Result<Outline, AllocError>
    ensures led { (old : Tree) → IfOk outline (λ o. Led calm old o) → IfOk result (λ o. Led calm old o) }
    ensures still { (table : StoredTable) (x : Tree) → Over (t.Scan table) x → IfOk outline (λ o. o.tree ≡ x)
        → IfOk result (λ o. o.tree ≡ x) }
    ensures has { (shape : Shape) → IfOk outline (λ o. Has shape o.tree) → IfOk result (λ o. Has shape o.tree) }
{
    let Outline { steps, tree } = outline?;
    behind(steps, parts_down(alloc, calm, depth, tree))
}

#[cycle(down)]
fn parts_down(alloc: Global, calm: bool, depth: usize, tree: Tree) -> Result<Outline, AllocError>
    ensures led { IsCalm calm tree → IfOk result (λ o. Led calm tree o) }
    ensures still { (table : StoredTable) → Over (t.Scan table) tree → IfOk result (λ o. o.tree ≡ tree) }
    ensures has { (shape : Shape) → Has shape tree → IfOk result (λ o. Has shape o.tree) }
{
    match tree {
        Tree::Filter(condition, rows) => {
            filter_of(condition, part_down(alloc, calm, depth, 0, rows))
        }
        Tree::Product(left, right) => {
            let left = part_down(alloc, calm, depth, 0, left);
            product_of(side_by_side(left, part_down(alloc, calm, depth, 1, right)))
        }
        Tree::Inner(on, left, right) => {
            let left = part_down(alloc, calm, depth, 0, left);
            inner_of(
                on,
                side_by_side(left, part_down(alloc, calm, depth, 1, right)),
            )
        }
        Tree::Left {
            on,
            left,
            right,
            width,
        } => {
            let left = part_down(alloc, calm, depth, 0, left);
            left_join_of(
                on,
                side_by_side(left, part_down(alloc, calm, depth, 1, right)),
                width,
            )
        }
        Tree::Group {
            columns,
            functions,
            rows,
        } => group_of(columns, functions, part_down(alloc, calm, depth, 0, rows)),
        Tree::Project(items, rows) => { project_of(items, part_down(alloc, calm, depth, 0, rows)) }
        Tree::Distinct(rows) => distinct_of(part_down(alloc, calm, depth, 0, rows)),
        Tree::Sort(keys, rows) => sort_of(keys, part_down(alloc, calm, depth, 0, rows)),
        other => Ok(begun(alloc, other)),
    }
}

#[cycle(down)]
fn part_down(
    alloc: Global,
    calm: bool,
    depth: usize,
    place: usize,
    tree: Boxed<Tree>,
) -> Result<Part, AllocError>
    ensures led { IsCalm calm tree → IfOk result (λ part. LedAt place calm tree part) }
    ensures still { (table : StoredTable) → Over (t.Scan table) tree → IfOk result (λ part. part.tree ≡ tree) }
    ensures has { (shape : Shape) → Has shape tree → IfOk result (λ part. Has shape part.tree) }
{
    part_at(
        alloc,
        place,
        moved_down(alloc, calm, depth, tree.into_inner()),
    )
}
