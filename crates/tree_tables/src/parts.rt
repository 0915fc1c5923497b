//! Lists of names, put together. They are taken with their refusals.

ghost use Rattle.std.specs.Prelude.{◌≡◌, [], ◌∷◌, ◌++◌, IfOk};
ghost use Rattle.tree_tables.specs.TablesRead.{Names};

use items::{Items, Text};
use std::alloc::{AllocError, Global};

/// One name.
pub fn named(alloc: Global, name: &Text) -> Result<Items<Text>, AllocError>
    ensures { IfOk result (λ names. names ≡ name.now ∷ []) }
{
    let mut names = Items::new(alloc);
    names.push(name.copy(alloc)?)?;
    Ok(names)
}

/// Some names and others behind them.
pub fn joined(
    first: Result<Items<Text>, AllocError>,
    second: Result<Items<Text>, AllocError>,
) -> Result<Items<Text>, AllocError>
    ensures { (a b : Names) → IfOk first (λ x. x ≡ a) → IfOk second (λ y. y ≡ b)
        → IfOk result (λ names. names ≡ a ++ b) }
{
    let mut names = first?;
    names.append(second?)?;
    Ok(names)
}
