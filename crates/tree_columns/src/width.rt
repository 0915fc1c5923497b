//! How many columns a tree's rows have.

ghost use Rattle.std.specs.Prelude.{◌≡◌, ℕ, ◌+◌, Option, Some, IfOk};
ghost use Rattle.rules.specs.Width.{added, agreed, count_columns, width_of_tree};

use algebra::Tree;
use items::Items;
use std::alloc::AllocError;

/// How many columns each row of a tree has; `None` where rows of two widths meet. It takes no
/// memory. Refuses where a row would have more columns than a `usize` counts, which no memory
/// holds.
#[tactic(auto, using(crate::proofs::WidthNodes::width_nodes))]
pub fn width_of(tree: &Tree) -> Result<Option<usize>, AllocError>
    ensures { IfOk result (λ width. width ≡ width_of_tree tree.now) }
{
    match tree {
        Tree::Scan(table) => Ok(Some(table.width)),
        Tree::Filter(_, rows) => width_of(rows.get()),
        Tree::Product(left, right) => sum_of(width_of(left.get()), width_of(right.get())),
        Tree::Inner(_, left, right) => sum_of(width_of(left.get()), width_of(right.get())),
        Tree::Left {
            on: _,
            left,
            right,
            width,
        } => {
            let padded = both_of(width_of(right.get()), Ok(Some(*width)));
            sum_of(width_of(left.get()), padded)
        }
        Tree::Half(_, left, _) => width_of(left.get()),
        Tree::OppositeHalf(_, left, _) => width_of(left.get()),
        Tree::Group {
            columns,
            functions,
            ..
        } => sum(number_of(columns), functions.len()),
        Tree::Project(items, _) => Ok(Some(items.len())),
        Tree::Distinct(rows) => width_of(rows.get()),
        Tree::Set(_, left, right) => both_of(width_of(left.get()), width_of(right.get())),
        Tree::Sort(_, rows) => width_of(rows.get()),
        Tree::Seek { table, .. } => Ok(Some(table.width)),
        Tree::Range { table, .. } => Ok(Some(table.width)),
        Tree::IndexLoop { left, table, .. } => {
            sum_of(width_of(left.get()), Ok(Some(table.width)))
        }
        Tree::HashJoin { left, right, .. } => {
            sum_of(width_of(left.get()), width_of(right.get()))
        }
        Tree::Member { rows, .. } => width_of(rows.get()),
    }
}

/// Of rows that are put together.
fn sum_of(
    left: Result<Option<usize>, AllocError>,
    right: Result<Option<usize>, AllocError>,
) -> Result<Option<usize>, AllocError>
    ensures { (m n : Option ℕ) → IfOk left (λ x. x ≡ m) → IfOk right (λ y. y ≡ n)
        → IfOk result (λ width. width ≡ added m n) }
{
    added(left?, right?)
}

/// Of rows that stand below one another.
fn both_of(
    left: Result<Option<usize>, AllocError>,
    right: Result<Option<usize>, AllocError>,
) -> Result<Option<usize>, AllocError>
    ensures { (m n : Option ℕ) → IfOk left (λ x. x ≡ m) → IfOk right (λ y. y ≡ n)
        → IfOk result (λ width. width ≡ agreed m n) }
{
    Ok(same_of(left?, right?))
}

fn added(left: Option<usize>, right: Option<usize>) -> Result<Option<usize>, AllocError>
    ensures { IfOk result (λ width. width ≡ added left right) }
{
    match left {
        Some(left) => match right {
            Some(right) => sum(left, right),
            None => Ok(None),
        },
        None => Ok(None),
    }
}

fn sum(left: usize, right: usize) -> Result<Option<usize>, AllocError>
    ensures { IfOk result (λ width. width ≡ Some (left + right)) }
{
    if left <= usize::MAX - right {
        Ok(Some(left + right))
    } else {
        Err(AllocError)
    }
}

fn same_of(left: Option<usize>, right: Option<usize>) -> Option<usize>
    ensures { result ≡ agreed left right }
{
    match left {
        Some(left) => match right {
            Some(right) => same(left, right),
            None => None,
        },
        None => None,
    }
}

fn same(left: usize, right: usize) -> Option<usize>
    ensures { result ≡ agreed (Some left) (Some right) }
{
    if left == right { Some(left) } else { None }
}

fn number_of(columns: &Option<Items<usize>>) -> usize
    ensures { result ≡ count_columns columns.now }
{
    match columns {
        Some(columns) => columns.len(),
        None => 0,
    }
}
