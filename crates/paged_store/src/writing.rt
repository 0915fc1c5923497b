//! Committed pages, written to the device a few at a time.
ghost use Rattle.std.specs.Prelude.{◌≡◌, ◌≤◌, ◌<◌, IfOk, IfErr, OnOk};
ghost use Rattle.pool.specs.Refused.{IsOfDevice};
ghost use Rattle.pool.specs.Versions.{versions_of, unwritten_of, refused_of};

use disk::Disk;
use pool::{Pool, PoolError};

/// Writes four committed pages, or all where fewer are left, and answers how many are left. Where
/// their number is past that of its type, it goes on.
pub(crate) fn write_some<D: Disk>(pool: &mut Pool<D>) -> Result<u32, PoolError>
    ensures left { IfOk result (λ left. left ≡ unwritten_of pool.new) }
    ensures less { OnOk result (0 < unwritten_of pool.old → unwritten_of pool.new < unwritten_of pool.old) }
    ensures versions { versions_of pool.new ≡ versions_of pool.old }
    ensures refusal { IfErr result (IsOfDevice (refused_of pool.old) (refused_of pool.new)) }
    ensures rising { refused_of pool.old ≤ refused_of pool.new }
{
    let mut left = pool.flush_step()?;
    'written: while left == u32::MAX {
        left = pool.flush_step()?;
    }
    Ok(left)
}
