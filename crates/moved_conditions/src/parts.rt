//! Moved parts, put together. They are taken with their refusals: a caller that took them out by
//! `?` would drop, at each, all that it owns, and be slow to prove.

ghost use Rattle.std.specs.Prelude.{◌≡◌, [], ◌∷◌, ◌++◌, IfOk};

use items::{Boxed, Items};
use std::alloc::{AllocError, Global};

/// A part on the heap.
pub fn boxed<T: Drop>(alloc: Global, part: Result<T, AllocError>) -> Result<Boxed<T>, AllocError>
    ensures { (x : T) → IfOk part (λ a. a ≡ x) → IfOk result (λ made. made ≡ x) }
{
    Ok(Boxed::new(alloc, part?)?)
}

/// Two parts beside each other.
pub fn both<A: Drop, B: Drop>(
    first: Result<A, AllocError>,
    second: Result<B, AllocError>,
) -> Result<(A, B), AllocError>
    ensures first { (x : A) → IfOk first (λ a. a ≡ x) → IfOk result (λ made. made.0 ≡ x) }
    ensures second { (y : B) → IfOk second (λ b. b ≡ y) → IfOk result (λ made. made.1 ≡ y) }
{
    let first = first?;
    Ok((first, second?))
}

/// Three parts beside one another.
pub fn three<A: Drop, B: Drop, C: Drop>(
    first: Result<A, AllocError>,
    second: Result<B, AllocError>,
    third: Result<C, AllocError>,
) -> Result<(A, B, C), AllocError>
    ensures first { (x : A) → IfOk first (λ a. a ≡ x) → IfOk result (λ made. made.0 ≡ x) }
    ensures second { (y : B) → IfOk second (λ b. b ≡ y) → IfOk result (λ made. made.1 ≡ y) }
    ensures third { (z : C) → IfOk third (λ c. c ≡ z) → IfOk result (λ made. made.2 ≡ z) }
{
    let first = first?;
    let second = second?;
    Ok((first, second, third?))
}

/// The list with one more part at its end.
pub fn pushed<T: Drop>(list: Items<T>, part: Result<T, AllocError>) -> Result<Items<T>, AllocError>
    ensures { (x : T) → IfOk part (λ a. a ≡ x) → IfOk result (λ made. made ≡ list ++ x ∷ []) }
{
    let mut list = list;
    list.push(part?)?;
    Ok(list)
}
