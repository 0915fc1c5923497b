ghost use Rattle.std.specs.Prelude.{◌≡◌, IfOk};
ghost use Rattle.plan_lines.specs.Lines.{explained};

use crate::line::Line;
use crate::plan::put_plan;
use crate::steps::put_steps;
use algebra::Tree;
use items::{Items, Text};
use rules::Step;
use std::alloc::{AllocError, Global};

/// The lines of steps and of a plan, each up to its first 1,000 characters: a line for each step,
/// and then one for each operator. Refuses for want of memory alone.
pub fn explained(alloc: Global, steps: &[Step], plan: &Tree) -> Result<Items<Text>, AllocError>
    ensures { IfOk result (λ lines. lines ≡ explained steps.now plan.now) }
{
    let mut lines = Items::new(alloc);
    put_steps(alloc, steps, &mut lines)?;
    put_plan(alloc, plan, &Line::new(alloc), &mut lines)?;
    Ok(lines)
}
