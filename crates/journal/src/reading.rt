//! What a recovery reads.
ghost use Rattle.std.specs.Prelude.{◌≡◌, ℕ, ◌+◌, ◌*◌, ◌≤◌, ◌<◌, ◌^◌, length, IfOk, IfErr, IsOk, OnOk, IsTrue};
ghost use Rattle.disk.specs.Refused.{CountsRefusal};
ghost use Rattle.journal.specs.Parts.{block};
ghost use Rattle.journal.specs.Reading.{OnlyReads};

use crate::image::offset_of;
use disk::{Disk, DiskError};
use pagefile::Page;

/// The number of bytes of a file. Refused where the device refuses.
pub(crate) fn file_length<D: Disk>(disk: &mut D) -> Result<u64, DiskError>
    ensures value { IfOk result (λ n. IsTrue D.is_honest → n ≡ length (D.bytes disk.old)) }
    ensures told_always { IsTrue D.always_reads → IsOk result }
    ensures reads { OnlyReads D.is_honest D.is_durable D.bytes D.synced D.writes D.settled D.moment D.left_since
        D.may_leave disk.old disk.new }
    ensures count { CountsRefusal result (D.refused disk.old) (D.refused disk.new) }
    ensures cause { IfErr result (D.told disk.new) }
{
    disk.len()
}

/// Reads a block. Refused where the device refuses, as it does where the file has not all of it.
pub(crate) fn read_block<D: Disk>(
    disk: &mut D,
    number: u64,
    into: &mut Page,
) -> Result<(), DiskError>
    requires { number < 2 ^ 40 }
    ensures value { OnOk result (IsTrue D.is_honest → into.new ≡ block (D.bytes disk.old) number) }
    ensures read_always { IsTrue D.is_honest → IsTrue D.always_reads
        → 4096 * number + 4096 ≤ length (D.bytes disk.old) → IsOk result }
    ensures reads { OnlyReads D.is_honest D.is_durable D.bytes D.synced D.writes D.settled D.moment D.left_since
        D.may_leave disk.old disk.new }
    ensures count { CountsRefusal result (D.refused disk.old) (D.refused disk.new) }
    ensures cause { IfErr result (D.told disk.new) }
{
    disk.read_at(offset_of(number), into)
}
