//! Planned parts, put together. They are taken with their refusals, so that a caller owns nothing
//! over a `?`.

ghost use Rattle.std.specs.Prelude.{◌≡◌, ◌++◌, ◌∷◌, [], IfOk, IsOkAnd};

use items::{Boxed, Items};
use std::alloc::{AllocError, Global};

/// A part on the heap.
pub fn boxed<T: Drop>(alloc: Global, part: Result<T, AllocError>) -> Result<Boxed<T>, AllocError>
    ensures { IfOk result (λ made. IsOkAnd part (λ x. made ≡ x)) }
{
    Ok(Boxed::new(alloc, part?)?)
}

/// Two parts beside each other.
pub fn both<A: Drop, B: Drop>(
    first: Result<A, AllocError>,
    second: Result<B, AllocError>,
) -> Result<(A, B), AllocError>
    ensures first { IfOk result (λ made. IsOkAnd first (λ x. made.0 ≡ x)) }
    ensures second { IfOk result (λ made. IsOkAnd second (λ y. made.1 ≡ y)) }
{
    let first = first?;
    Ok((first, second?))
}

/// Three parts beside one another.
pub fn three<A: Drop, B: Drop, C: Drop>(
    first: Result<A, AllocError>,
    second: Result<B, AllocError>,
    third: Result<C, AllocError>,
) -> Result<(A, B, C), AllocError>
    ensures first { IfOk result (λ made. IsOkAnd first (λ x. made.0 ≡ x)) }
    ensures second { IfOk result (λ made. IsOkAnd second (λ y. made.1 ≡ y)) }
    ensures third { IfOk result (λ made. IsOkAnd third (λ z. made.2 ≡ z)) }
{
    let first = first?;
    let second = second?;
    Ok((first, second, third?))
}

/// An operator with its operand.
pub fn with_operator<A: Copy, B: Drop>(
    operator: A,
    operand: Result<B, AllocError>,
) -> Result<(A, B), AllocError>
    ensures { IfOk result (λ made. IsOkAnd operand (λ y. made ≡ (operator, y))) }
{
    Ok((operator, operand?))
}

/// The list with one more part at its end.
pub fn pushed<T: Drop>(
    list: Result<Items<T>, AllocError>,
    part: Result<T, AllocError>,
) -> Result<Items<T>, AllocError>
    ensures { IfOk result (λ made. IsOkAnd list (λ xs. IsOkAnd part (λ x. made ≡ xs ++ x ∷ []))) }
{
    let mut list = list?;
    list.push(part?)?;
    Ok(list)
}
