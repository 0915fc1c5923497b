//! Values that are let go. A function that lets a tree go itself has a proof of each of its parts.

/// Lets a value go.
pub(crate) fn let_fall<T: Drop>(_gone: T) {}
