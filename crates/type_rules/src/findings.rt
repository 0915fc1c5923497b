//! Parts that are found, put together. They are taken with their refusals: a caller that took them
//! out by `?` would drop, at each, all that it owns, and be slow to prove.

ghost use Rattle.typing.specs.Finding.{Finding, also};
ghost use Rattle.typing.specs.Finds.{Finds};
ghost use Rattle.type_rules.specs.Findings.{second_of};

use items::Boxed;
use refusals::Refusal;
use std::alloc::Global;

/// Two parts beside each other.
#[tactic(auto, using(crate::proofs::FindsLemmas::both_steps))]
pub fn both<A: Drop, B: Drop>(
    first: Result<A, Refusal>,
    second: Result<B, Refusal>,
) -> Result<(A, B), Refusal>
    ensures { (x : Finding A) (y : Finding B) → Finds first x → Finds second y → Finds result (also x y) }
{
    let first = first?;
    Ok((first, second?))
}

/// The second of two parts.
#[tactic(auto, using(crate::proofs::FindsLemmas::part_steps))]
pub fn second<A: Drop, B: Drop>(parts: Result<(A, B), Refusal>) -> Result<B, Refusal>
    ensures { (x : Finding (A × B)) → Finds parts x → Finds result (second_of x) }
{
    let (_, second) = parts?;
    Ok(second)
}

/// A part in a box.
#[tactic(auto, using(crate::proofs::FindsLemmas::both_steps))]
pub fn boxed<T: Drop>(alloc: Global, part: Result<T, Refusal>) -> Result<Boxed<T>, Refusal>
    ensures { (x : Finding T) → Finds part x → Finds result x }
{
    Ok(Boxed::new(alloc, part?)?)
}
