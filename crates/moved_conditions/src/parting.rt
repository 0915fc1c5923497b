//! The conjuncts of a condition, parted by the columns that they name.

ghost use Rattle.std.specs.Prelude.{◌≡◌, ◌++◌, [], ◌∷◌, filter, if◌then◌else◌, IfOk};
ghost use Rattle.rules.specs.Columns.{names_only};
ghost use Rattle.rules.specs.Conjuncts.{conjuncts, others};
ghost use Rattle.tree_columns.specs.Within.{within};

use algebra::Condition;
use items::Items;
use std::alloc::{AllocError, Global};
use tree_columns::{Reach, names_within};

/// The operands of an AND; any other condition is its only conjunct. Refuses for want of memory
/// alone.
#[tactic(auto, using(join_columns::proofs::Opened::opened))]
pub fn into_conjuncts(alloc: Global, condition: Condition) -> Result<Items<Condition>, AllocError>
    ensures { IfOk result (λ list. list ≡ conjuncts condition) }
{
    match condition {
        Condition::And(operands) => Ok(operands),
        other => one(alloc, other),
    }
}

fn one(alloc: Global, condition: Condition) -> Result<Items<Condition>, AllocError>
    ensures { IfOk result (λ list. list ≡ condition ∷ []) }
{
    let mut list = Items::new(alloc);
    list.push(condition)?;
    Ok(list)
}

/// Conditions, parted by the columns that they name.
#[derive(Drop)]
pub struct Division {
    /// Those that are plain and name no other columns than these.
    pub passing: Items<Condition>,
    /// All others.
    pub others: Items<Condition>,
}

/// Parts conditions; on each side they stay in their order. Refuses for want of memory alone.
pub fn parted(
    alloc: Global,
    conditions: Items<Condition>,
    reach: Reach,
    width: usize,
) -> Result<Division, AllocError>
    ensures passing { IfOk result (λ division. division.passing ≡ filter (names_only (within reach width)) conditions) }
    ensures others { IfOk result (λ division. division.others ≡ others (names_only (within reach width)) conditions) }
{
    let mut division = Division {
        passing: Items::new(alloc),
        others: Items::new(alloc),
    };
    for condition in conditions.into_vec() {
        let passes = names_within(&condition, reach, width);
        division = with(division, condition, passes)?;
    }
    Ok(division)
}

/// With one condition more, on its side.
fn with(division: Division, condition: Condition, passes: bool) -> Result<Division, AllocError>
    ensures passing { IfOk result (λ more. more.passing ≡ (if passes then division.passing ++ condition ∷ [] else division.passing)) }
    ensures others { IfOk result (λ more. more.others ≡ (if passes then division.others else division.others ++ condition ∷ [])) }
{
    let mut division = division;
    if passes {
        division.passing.push(condition)?;
    } else {
        division.others.push(condition)?;
    }
    Ok(division)
}
