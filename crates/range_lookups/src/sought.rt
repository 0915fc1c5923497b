//! The range of an index that a condition asks for.

ghost use Rattle.std.specs.Prelude.{◌≡◌, ◌&&◌, ◌||◌, if◌then◌else◌, IfOk};
ghost use Rattle.rules.specs.Conjuncts.{conjuncts, quiet};
ghost use Rattle.rules.specs.Nodes.{given};
ghost use Rattle.range_lookups.specs.Sought.{limited, limits_among, limits_sought};

use crate::bounds::{End, bound_among};
use algebra::{Bound, Condition};
use join_columns::conjuncts;
use raising::condition_can_raise;
use std::alloc::{AllocError, Global};

/// The bounds that conditions set to a column: one at least.
#[derive(Drop)]
pub struct Limits {
    pub low: Option<Bound>,
    pub high: Option<Bound>,
}

/// The bounds that the first of these columns of a row meets where the condition is true at it;
/// with `both` none where one of them is lacking. There are some where the condition raises no
/// fault and its conjuncts compare the column with a literal, or put it BETWEEN literals. Refuses
/// for want of memory alone.
pub fn sought_limits(
    alloc: Global,
    both: bool,
    condition: &Condition,
    columns: &[usize],
) -> Result<Option<Limits>, AllocError>
    ensures { IfOk result (λ found. found ≡ limits_sought both columns.now condition.now) }
{
    match columns.split_first() {
        Some((column, _)) => limits_of(alloc, both, *column, condition),
        None => Ok(None),
    }
}

/// None where the condition may raise.
fn limits_of(
    alloc: Global,
    both: bool,
    column: usize,
    condition: &Condition,
) -> Result<Option<Limits>, AllocError>
    ensures { IfOk result (λ found. found ≡ given (quiet condition.now) (limits_among both column (conjuncts condition.now))) }
{
    if condition_can_raise(condition) {
        return Ok(None);
    }
    limits_among(alloc, both, column, conjuncts(condition))
}

fn limits_among(
    alloc: Global,
    both: bool,
    column: usize,
    conditions: &[Condition],
) -> Result<Option<Limits>, AllocError>
    ensures { IfOk result (λ found. found ≡ limits_among both column conditions.now) }
{
    let low = bound_among(alloc, End::Low, column, conditions)?;
    let high = bound_among(alloc, End::High, column, conditions)?;
    Ok(limited(both, low, high))
}

fn limited(both: bool, low: Option<Bound>, high: Option<Bound>) -> Option<Limits>
    ensures { result ≡ limited both low high }
{
    if serve(both, low.is_some(), high.is_some()) {
        Some(Limits { low, high })
    } else {
        None
    }
}

/// Whether both are there; where that is not asked, whether one is.
fn serve(both: bool, low: bool, high: bool) -> bool
    ensures { result ≡ (if both then low && high else low || high) }
{
    if both { low && high } else { low || high }
}
