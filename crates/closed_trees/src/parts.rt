//! Lists of depths, put together. They are taken with their refusals.

ghost use Rattle.std.specs.Prelude.{◌≡◌, ℕ, List, [], ◌∷◌, ◌++◌, IfOk, OnOk};
ghost use Rattle.closed_trees.specs.Outside.{Depths, outwards};

use items::Items;
use std::alloc::{AllocError, Global};

/// One depth.
pub fn one_depth(alloc: Global, depth: usize) -> Result<Items<usize>, AllocError>
    ensures { IfOk result (λ depths. depths ≡ depth ∷ []) }
{
    let mut depths = Items::new(alloc);
    depths.push(depth)?;
    Ok(depths)
}

/// Some depths and others behind them.
pub fn joined(
    first: Result<Items<usize>, AllocError>,
    second: Result<Items<usize>, AllocError>,
) -> Result<Items<usize>, AllocError>
    ensures { (a b : Depths) → IfOk first (λ x. x ≡ a) → IfOk second (λ y. y ≡ b)
        → IfOk result (λ depths. depths ≡ a ++ b) }
{
    let mut depths = first?;
    depths.append(second?)?;
    Ok(depths)
}

/// The depths of a part that sees one row more, as they are without that row.
pub fn inside(
    alloc: Global,
    part: Result<Items<usize>, AllocError>,
) -> Result<Items<usize>, AllocError>
    ensures { (a : Depths) → IfOk part (λ x. x ≡ a) → IfOk result (λ depths. depths ≡ outwards a) }
{
    let depths = part?;
    outer_depths(alloc, depths.as_slice())
}

fn outer_depths(alloc: Global, depths: &[usize]) -> Result<Items<usize>, AllocError>
    ensures { IfOk result (λ outer. outer ≡ outwards depths.now) }
{
    let mut outer = Items::new(alloc);
    for depth in depths {
        put_outer(&mut outer, *depth)?;
    }
    Ok(outer)
}

/// One depth more, where it is not that of the innermost row.
fn put_outer(outer: &mut Items<usize>, depth: usize) -> Result<(), AllocError>
    ensures { OnOk result (outer.new ≡ outer.old ++ outwards (depth ∷ [])) }
{
    if depth == 0 {
        Ok(())
    } else {
        outer.push(depth - 1)
    }
}
