//! Copies of parts, put together. They are taken with their refusals: a caller that took them out
//! by `?` would drop, at each, all that it owns, and be slow to prove.

ghost use Rattle.std.specs.Prelude.{◌≡◌, [], ◌∷◌, ◌++◌, IfOk, Some};

use items::{Boxed, Items, Text};
use lexer::Name;
use std::alloc::{AllocError, Global};

/// What can be copied.
pub trait Part: Drop {
    ghost use Rattle.std.specs.Prelude.{◌≡◌, IfOk};

    /// A copy. Refuses for want of memory alone.
    fn copy(&self, alloc: Global) -> Result<Self, AllocError>
        ensures { IfOk result (λ copied. copied ≡ self.now) };
}

impl Part for Name {
    fn copy(&self, alloc: Global) -> Result<Name, AllocError> {
        self.copy(alloc)
    }
}

impl Part for Text {
    fn copy(&self, alloc: Global) -> Result<Text, AllocError> {
        self.copy(alloc)
    }
}

impl<T: Part> Part for Option<T> {
    fn copy(&self, alloc: Global) -> Result<Option<T>, AllocError> {
        match self {
            None => Ok(None),
            Some(part) => some(part.copy(alloc)),
        }
    }
}

impl<T: Part> Part for Boxed<T> {
    fn copy(&self, alloc: Global) -> Result<Boxed<T>, AllocError> {
        boxed(alloc, self.get().copy(alloc))
    }
}

impl<T: Part> Part for Items<T> {
    fn copy(&self, alloc: Global) -> Result<Items<T>, AllocError> {
        let mut copied = Items::new(alloc);
        for part in self.as_slice() {
            copied = pushed(copied, part.copy(alloc))?;
        }
        Ok(copied)
    }
}

/// A part where it may be left out.
pub fn some<T: Drop>(part: Result<T, AllocError>) -> Result<Option<T>, AllocError>
    ensures { (x : T) → IfOk part (λ a. a ≡ x) → IfOk result (λ copied. copied ≡ Some x) }
{
    Ok(Some(part?))
}

/// A part on the heap.
pub fn boxed<T: Drop>(alloc: Global, part: Result<T, AllocError>) -> Result<Boxed<T>, AllocError>
    ensures { (x : T) → IfOk part (λ a. a ≡ x) → IfOk result (λ copied. copied ≡ x) }
{
    Ok(Boxed::new(alloc, part?)?)
}

/// Two parts beside each other.
pub fn both<A: Drop, B: Drop>(
    first: Result<A, AllocError>,
    second: Result<B, AllocError>,
) -> Result<(A, B), AllocError>
    ensures first { (x : A) → IfOk first (λ a. a ≡ x) → IfOk result (λ copied. copied.0 ≡ x) }
    ensures second { (y : B) → IfOk second (λ b. b ≡ y) → IfOk result (λ copied. copied.1 ≡ y) }
{
    let first = first?;
    Ok((first, second?))
}

/// An operator and its operand.
pub fn with<A: Copy, B: Drop>(
    operator: A,
    operand: Result<B, AllocError>,
) -> Result<(A, B), AllocError>
    ensures { (y : B) → IfOk operand (λ b. b ≡ y) → IfOk result (λ copied. copied ≡ (operator, y)) }
{
    Ok((operator, operand?))
}

/// The list with one more part at its end.
pub fn pushed<T: Drop>(list: Items<T>, part: Result<T, AllocError>) -> Result<Items<T>, AllocError>
    ensures { (x : T) → IfOk part (λ a. a ≡ x) → IfOk result (λ copied. copied ≡ list ++ x ∷ []) }
{
    let mut list = list;
    list.push(part?)?;
    Ok(list)
}

/// Three parts beside one another.
pub fn three<A: Drop, B: Drop, C: Drop>(
    first: Result<A, AllocError>,
    second: Result<B, AllocError>,
    third: Result<C, AllocError>,
) -> Result<(A, B, C), AllocError>
    ensures first { (x : A) → IfOk first (λ a. a ≡ x) → IfOk result (λ copied. copied.0 ≡ x) }
    ensures second { (y : B) → IfOk second (λ b. b ≡ y) → IfOk result (λ copied. copied.1 ≡ y) }
    ensures third { (z : C) → IfOk third (λ c. c ≡ z) → IfOk result (λ copied. copied.2 ≡ z) }
{
    let first = first?;
    let second = second?;
    Ok((first, second, third?))
}

/// Five parts beside one another.
pub fn five<A: Drop, B: Drop, C: Drop, D: Drop, E: Drop>(
    first: Result<A, AllocError>,
    second: Result<B, AllocError>,
    third: Result<C, AllocError>,
    fourth: Result<D, AllocError>,
    fifth: Result<E, AllocError>,
) -> Result<(A, B, C, D, E), AllocError>
    ensures first { (v : A) → IfOk first (λ a. a ≡ v) → IfOk result (λ copied. copied.0 ≡ v) }
    ensures second { (w : B) → IfOk second (λ b. b ≡ w) → IfOk result (λ copied. copied.1 ≡ w) }
    ensures third { (x : C) → IfOk third (λ c. c ≡ x) → IfOk result (λ copied. copied.2 ≡ x) }
    ensures fourth { (y : D) → IfOk fourth (λ d. d ≡ y) → IfOk result (λ copied. copied.3 ≡ y) }
    ensures fifth { (z : E) → IfOk fifth (λ e. e ≡ z) → IfOk result (λ copied. copied.4 ≡ z) }
{
    let (first, second, third) = three(first, second, third)?;
    let (fourth, fifth) = both(fourth, fifth)?;
    Ok((first, second, third, fourth, fifth))
}
