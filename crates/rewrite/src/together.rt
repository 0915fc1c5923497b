//! Parts that were visited, put together. They are taken with their refusals, so that a caller owns
//! nothing over a `?`.

ghost use Rattle.std.specs.Prelude.{◌≡◌, IfOk};
ghost use Rattle.rule_steps.specs.declared.attempt.Attempt.{Attempt};
ghost use Rattle.rewrite.specs.Visits.{pair, unchanged};

use items::Boxed;
use rule_steps::Attempt;
use std::alloc::{AllocError, Global};

/// A part that no rule has changed.
pub fn unchanged<T>(part: T) -> Attempt<T>
    ensures { result ≡ unchanged part }
{
    Attempt {
        part,
        changed: false,
    }
}

/// A part on the heap.
pub fn boxed<T: Drop>(
    alloc: Global,
    tried: Result<Attempt<T>, AllocError>,
) -> Result<Attempt<Boxed<T>>, AllocError>
    ensures { (x : Attempt T) → IfOk tried (λ a. a ≡ x) → IfOk result (λ made. made ≡ x) }
{
    let Attempt { part, changed } = tried?;
    Ok(Attempt {
        part: Boxed::new(alloc, part)?,
        changed,
    })
}

/// Two parts beside each other.
pub fn both<A: Drop, B: Drop>(
    first: Result<Attempt<A>, AllocError>,
    second: Result<Attempt<B>, AllocError>,
) -> Result<Attempt<(A, B)>, AllocError>
    ensures { (x : Attempt A) (y : Attempt B) → IfOk first (λ a. a ≡ x) → IfOk second (λ b. b ≡ y)
        → IfOk result (λ made. made ≡ pair x y) }
{
    let first = first?;
    let second = second?;
    Ok(Attempt {
        part: (first.part, second.part),
        changed: first.changed || second.changed,
    })
}
