//! Rules of subqueries that stand alone in a filter: Q13 and Q14.

ghost use Rattle.std.specs.Prelude.{◌≡◌, ℕ, List, is_some, Some, IfOk};
ghost use Rattle.std.specs.List.{list_all};
ghost use Rattle.algebra.specs.declared.tree.Condition.{Condition, out-Condition};
ghost use Rattle.algebra.specs.declared.tree.Expression.{Expression};
ghost use Rattle.algebra.specs.declared.tree.Tree.{Tree, Tree-F, out-Tree};
ghost use Rattle.algebra.specs.declared.tree.Tree.TheVariants as t;
ghost use Rattle.closed_trees.specs.Outside.{depths_in_tree};
ghost use Rattle.rules.specs.Columns.{moved, to_half};
ghost use Rattle.rules.specs.SubqueryRules.{exists_to_half, half, half_at, half_of_items, half_of_query, half_of_table, in_to_member, is_closed, member_at, quiet_item};
ghost use Rattle.rules.specs.Width.{width_of_tree};

use algebra::{Condition, Expression, StoredTable, Tree};
use items::Boxed;
use moved_conditions::{Shift, boxed, moved, three};
use raising::{condition_can_raise, expression_can_raise};
use std::alloc::{AllocError, Global};
use tree_columns::{names_half, width_of};

// ---- Q13

/// Whether Q13 may be used: a filter is EXISTS or NOT EXISTS alone, of items of a filtered table of
/// which nothing may raise, and the filter is plain and names no column of the row outside past its
/// last.
#[tactic(auto, using(crate::proofs::Nodes::nodes))]
pub fn can_halve(tree: &Tree) -> Result<bool, AllocError>
    ensures { IfOk result (λ can. can ≡ is_some (exists_to_half tree.now)) }
{
    match tree {
        Tree::Filter(condition, left) => exists_halves(condition.get(), left.get()),
        _ => Ok(false),
    }
}

#[tactic(auto, using(join_columns::proofs::Opened::opened))]
fn exists_halves(condition: &Condition, left: &Tree) -> Result<bool, AllocError>
    ensures { IfOk result (λ can. can ≡ is_some (half_at left.now (out-Condition condition.now))) }
{
    match condition {
        Condition::Exists(query) => query_halves(true, left, query.get()),
        Condition::Not(operand) => match operand.get() {
            Condition::Exists(query) => query_halves(false, left, query.get()),
            _ => Ok(false),
        },
        _ => Ok(false),
    }
}

#[tactic(auto, using(crate::proofs::Nodes::nodes))]
fn query_halves(wanted: bool, left: &Tree, query: &Tree) -> Result<bool, AllocError>
    ensures { IfOk result (λ can. can ≡ is_some (half_of_query wanted left.now (out-Tree query.now))) }
{
    match query {
        Tree::Project(items, rows) => items_halve(wanted, left, items.as_slice(), rows.get()),
        _ => Ok(false),
    }
}

#[tactic(auto, using(crate::proofs::Nodes::nodes))]
fn items_halve(
    wanted: bool,
    left: &Tree,
    items: &[Expression],
    rows: &Tree,
) -> Result<bool, AllocError>
    ensures { IfOk result (λ can. can ≡ is_some (half_of_items wanted left.now items.now (out-Tree rows.now))) }
{
    match rows {
        Tree::Filter(condition, rows) => match rows.get() {
            Tree::Scan(table) => table_halves(wanted, left, items, condition.get(), table),
            _ => Ok(false),
        },
        _ => Ok(false),
    }
}

#[tactic(auto, using(crate::proofs::Nodes::nodes, crate::proofs::Chosen::chosen))]
fn table_halves(
    wanted: bool,
    left: &Tree,
    items: &[Expression],
    condition: &Condition,
    table: &StoredTable,
) -> Result<bool, AllocError>
    ensures { IfOk result (λ can. can ≡ is_some (half_of_table wanted items.now condition.now left.now (Tree-F.Scan table.now))) }
{
    match width_of(left)? {
        Some(width) => Ok(
            !condition_can_raise(condition) && (items_quiet(items) && names_half(condition, width)),
        ),
        None => Ok(false),
    }
}

fn items_quiet(items: &[Expression]) -> bool
    ensures { result ≡ list_all quiet_item items.now }
{
    for item in items {
        if expression_can_raise(item) {
            return false;
        }
    }
    true
}

/// Q13: a half join with the table by the filter of the subquery, or its opposite.
#[tactic(auto, using(crate::proofs::Nodes::nodes))]
pub fn halve(alloc: Global, tree: Tree) -> Result<Tree, AllocError>
    ensures { (new : Tree) → exists_to_half tree ≡ Some new → IfOk result (λ made. made ≡ new) }
{
    match tree {
        Tree::Filter(condition, left) => exists_halved(alloc, condition.into_inner(), left),
        other => Ok(other),
    }
}

#[tactic(auto, using(join_columns::proofs::Opened::opened))]
fn exists_halved(alloc: Global, condition: Condition, left: Boxed<Tree>) -> Result<Tree, AllocError>
    ensures { (new : Tree) → half_at left (out-Condition condition) ≡ Some new → IfOk result (λ made. made ≡ new) }
{
    match condition {
        Condition::Exists(query) => query_halved(alloc, true, left, query.into_inner()),
        Condition::Not(operand) => match operand.into_inner() {
            Condition::Exists(query) => query_halved(alloc, false, left, query.into_inner()),
            other => Ok(without(left, other)),
        },
        other => Ok(without(left, other)),
    }
}

/// The rows; the rest is let go. A caller that lets it go by itself is slow to prove.
fn without<T: Drop>(rows: Boxed<Tree>, _rest: T) -> Tree
    ensures { result ≡ rows }
{
    rows.into_inner()
}

#[tactic(auto, using(crate::proofs::Nodes::nodes))]
fn query_halved(
    alloc: Global,
    wanted: bool,
    left: Boxed<Tree>,
    query: Tree,
) -> Result<Tree, AllocError>
    ensures { (new : Tree) → half_of_query wanted left (out-Tree query) ≡ Some new → IfOk result (λ made. made ≡ new) }
{
    match query {
        Tree::Project(_, rows) => rows_halved(alloc, wanted, left, rows.into_inner()),
        other => Ok(other),
    }
}

#[tactic(auto, using(crate::proofs::Nodes::nodes))]
fn rows_halved(
    alloc: Global,
    wanted: bool,
    left: Boxed<Tree>,
    rows: Tree,
) -> Result<Tree, AllocError>
    ensures { (items : List Expression) (new : Tree) → half_of_items wanted left items (out-Tree rows) ≡ Some new
        → IfOk result (λ made. made ≡ new) }
{
    match rows {
        Tree::Filter(condition, rows) => match rows.into_inner() {
            Tree::Scan(table) => scan_halved(alloc, wanted, left, condition, table),
            other => Ok(other),
        },
        other => Ok(other),
    }
}

fn scan_halved(
    alloc: Global,
    wanted: bool,
    left: Boxed<Tree>,
    condition: Boxed<Condition>,
    table: StoredTable,
) -> Result<Tree, AllocError>
    ensures { (items : List Expression) (new : Tree)
        → half_of_items wanted left items (out-Tree (t.Filter condition (t.Scan table))) ≡ Some new
        → IfOk result (λ made. made ≡ new) }
{
    let on = half_condition(alloc, condition.get(), left.get());
    half_of(alloc, wanted, on, left, Tree::Scan(table))
}

/// The condition, in its place on the half join.
fn half_condition(
    alloc: Global,
    condition: &Condition,
    left: &Tree,
) -> Result<Condition, AllocError>
    ensures { (w : ℕ) → width_of_tree left.now ≡ Some w → IfOk result (λ made. made ≡ moved (to_half w) condition.now) }
{
    match width_of(left)? {
        Some(width) => moved(alloc, condition, Shift::ToHalf, width),
        None => Err(AllocError),
    }
}

fn half_of(
    alloc: Global,
    wanted: bool,
    on: Result<Condition, AllocError>,
    left: Boxed<Tree>,
    right: Tree,
) -> Result<Tree, AllocError>
    ensures { (condition : Condition) → IfOk on (λ o. o ≡ condition)
        → IfOk result (λ made. made ≡ half wanted condition left right) }
{
    let right = Boxed::new(alloc, right);
    match three(boxed(alloc, on), Ok(left), right) {
        Ok((on, left, right)) => Ok(half(wanted, on, left, right)),
        Err(error) => Err(error),
    }
}

fn half(wanted: bool, on: Boxed<Condition>, left: Boxed<Tree>, right: Boxed<Tree>) -> Tree
    ensures { result ≡ half wanted on left right }
{
    if wanted {
        Tree::Half(on, left, right)
    } else {
        Tree::OppositeHalf(on, left, right)
    }
}

// ---- Q14

/// Whether Q14 may be used: a filter is IN or NOT IN alone, of a subquery that names no column
/// outside itself.
#[tactic(auto, using(crate::proofs::Nodes::nodes))]
pub fn can_be_member(alloc: Global, tree: &Tree) -> Result<bool, AllocError>
    ensures { IfOk result (λ can. can ≡ is_some (in_to_member tree.now)) }
{
    match tree {
        Tree::Filter(condition, rows) => in_is_member(alloc, condition.get(), rows.get()),
        _ => Ok(false),
    }
}

#[tactic(auto, using(join_columns::proofs::Opened::opened, crate::proofs::Chosen::chosen))]
fn in_is_member(alloc: Global, condition: &Condition, rows: &Tree) -> Result<bool, AllocError>
    ensures { IfOk result (λ can. can ≡ is_some (member_at rows.now (out-Condition condition.now))) }
{
    match condition {
        Condition::InQuery(_, members) => is_closed(alloc, members.get()),
        Condition::Not(operand) => match operand.get() {
            Condition::InQuery(_, members) => is_closed(alloc, members.get()),
            _ => Ok(false),
        },
        _ => Ok(false),
    }
}

fn is_closed(alloc: Global, tree: &Tree) -> Result<bool, AllocError>
    ensures { IfOk result (λ closed. closed ≡ is_closed (depths_in_tree tree.now)) }
{
    closed_trees::is_closed(alloc, tree)
}

/// Q14: the rows at which the operand is among the members.
#[tactic(auto, using(crate::proofs::Nodes::nodes))]
pub fn be_member(tree: Tree) -> Tree
    ensures { (new : Tree) → in_to_member tree ≡ Some new → result ≡ new }
{
    match tree {
        Tree::Filter(condition, rows) => in_as_member(condition.into_inner(), rows),
        other => other,
    }
}

#[tactic(auto, using(join_columns::proofs::Opened::opened))]
fn in_as_member(condition: Condition, rows: Boxed<Tree>) -> Tree
    ensures { (new : Tree) → member_at rows (out-Condition condition) ≡ Some new → result ≡ new }
{
    match condition {
        Condition::InQuery(operand, members) => Tree::Member {
            operand,
            negated: false,
            members,
            rows,
        },
        Condition::Not(operand) => match operand.into_inner() {
            Condition::InQuery(operand, members) => Tree::Member {
                operand,
                negated: true,
                members,
                rows,
            },
            other => without(rows, other),
        },
        other => without(rows, other),
    }
}
