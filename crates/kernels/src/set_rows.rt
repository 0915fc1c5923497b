//! DISTINCT and set operators.

ghost use Rattle.std.specs.Prelude.{◌≡◌, [], ◌∷◌, IfOk};
ghost use Rattle.algebra.specs.Listing.{combined_in_order};
ghost use Rattle.denote.specs.Bag.{distinct, times};
ghost use Rattle.denote.specs.SetOperator.{multiplicity};
ghost use Rattle.kernels.specs.Marks.{first_marks};

use crate::counts::{count_of, count_row, counts_of};
use crate::marks::marked_rows;
use denote::{Row, Rows};
use items::Items;
use std::alloc::{AllocError, Global};
use std::collections::BTreeMap;
use typing::{SetOperation, SetOperator};

fn distinct_marks(alloc: Global, rows: &[Row]) -> Result<Items<bool>, AllocError>
    ensures { IfOk result (λ marks. marks ≡ first_marks (λ _. 1) [] rows.now) }
{
    let mut counts = BTreeMap::new(alloc);
    let mut marks = Items::with_capacity(alloc, rows.len())?;
    for row in rows {
        let before = count_row(&mut counts, row.as_slice())?;
        marks.push(before < 1)?;
    }
    Ok(marks)
}

/// The first of each alike rows, null being alike to null, in their order. Rows are moved and not
/// copied. Refuses for want of memory alone.
pub fn distinct_rows(alloc: Global, rows: Rows) -> Result<Rows, AllocError>
    ensures { IfOk result (λ found. found ≡ distinct rows) }
{
    let marks = distinct_marks(alloc, rows.as_slice())?;
    marked_rows(alloc, marks.as_slice(), rows)
}

/// The rows of both sides, or one of each alike ones.
fn union_rows(alloc: Global, all: bool, left: Rows, right: Rows) -> Result<Rows, AllocError>
    ensures { IfOk result (λ found. found ≡ combined_in_order (record { operator = SetOperator.Union; all = all }) left right) }
{
    let mut rows = left;
    rows.append(right)?;
    if all {
        Ok(rows)
    } else {
        distinct_rows(alloc, rows)
    }
}

/// How many of alike rows EXCEPT keeps, of so many on the left and on the right.
fn except_count(all: bool, left: usize, right: usize) -> usize
    ensures { result ≡ multiplicity SetOperator.Except all left right }
{
    if all {
        left.saturating_sub(right)
    } else if right == 0 {
        left.min(1)
    } else {
        0
    }
}

/// How many of alike rows INTERSECT keeps, of so many on the left and on the right.
fn intersect_count(all: bool, left: usize, right: usize) -> usize
    ensures { result ≡ multiplicity SetOperator.Intersect all left right }
{
    let least = left.min(right);
    if all { least } else { least.min(1) }
}

fn except_marks(
    alloc: Global,
    all: bool,
    left: &[Row],
    right: &[Row],
) -> Result<Items<bool>, AllocError>
    ensures { IfOk result (λ marks. marks ≡ first_marks (λ row. multiplicity SetOperator.Except all (times row left.now) (times row right.now)) [] left.now) }
{
    let on_left = counts_of(alloc, left)?;
    let on_right = counts_of(alloc, right)?;
    let mut counts = BTreeMap::new(alloc);
    let mut marks = Items::with_capacity(alloc, left.len())?;
    for row in left {
        let values = row.as_slice();
        let allowed = except_count(all, count_of(&on_left, values), count_of(&on_right, values));
        let before = count_row(&mut counts, values)?;
        marks.push(before < allowed)?;
    }
    Ok(marks)
}

fn intersect_marks(
    alloc: Global,
    all: bool,
    left: &[Row],
    right: &[Row],
) -> Result<Items<bool>, AllocError>
    ensures { IfOk result (λ marks. marks ≡ first_marks (λ row. multiplicity SetOperator.Intersect all (times row left.now) (times row right.now)) [] left.now) }
{
    let on_left = counts_of(alloc, left)?;
    let on_right = counts_of(alloc, right)?;
    let mut counts = BTreeMap::new(alloc);
    let mut marks = Items::with_capacity(alloc, left.len())?;
    for row in left {
        let values = row.as_slice();
        let allowed = intersect_count(all, count_of(&on_left, values), count_of(&on_right, values));
        let before = count_row(&mut counts, values)?;
        marks.push(before < allowed)?;
    }
    Ok(marks)
}

/// The rows of a set operator: the left rows, and for UNION then the right ones; of alike rows the
/// first, as many as the operator says. Rows are moved and not copied. Refuses for want of memory
/// alone.
pub fn combined_rows(
    alloc: Global,
    operation: SetOperation,
    left: Rows,
    right: Rows,
) -> Result<Rows, AllocError>
    ensures { IfOk result (λ found. found ≡ combined_in_order operation left right) }
{
    match operation.operator {
        SetOperator::Union => union_rows(alloc, operation.all, left, right),
        SetOperator::Except => {
            let marks = except_marks(alloc, operation.all, left.as_slice(), right.as_slice())?;
            marked_rows(alloc, marks.as_slice(), left)
        }
        SetOperator::Intersect => {
            let marks = intersect_marks(alloc, operation.all, left.as_slice(), right.as_slice())?;
            marked_rows(alloc, marks.as_slice(), left)
        }
    }
}
