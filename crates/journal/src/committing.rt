//! A whole commit, by its three steps.
ghost use Rattle.std.specs.Prelude.{◌≡◌, ℕ, ◌≤◌, length, true, IfErr, OnOk, IsTrue};
ghost use Rattle.disk.specs.Crashes.{Bytes, Always, LeavesOnly};
ghost use Rattle.disk.specs.Refused.{CountsRefusal};
ghost use Rattle.journal.specs.Versions.{Version, IsShut, OneOf, IsAmong, IsAt, IsCommittable, committed};

use crate::{Image, open_gate, put_back, stage};
use disk::{Disk, DiskError};

/// Step 1, where the gate may be open.
fn shut_first<D: Disk>(disk: &mut D, images: &[Image], is_open: bool) -> Result<(), DiskError>
    ensures shut { IsTrue D.is_durable → IsTrue D.is_honest → (v : Version)
        → IsAt is_open images.now v (D.may_leave disk.old)
        → OnOk result (Always (D.may_leave disk.new) (IsShut v)) }
    ensures keeps { IsTrue D.is_durable → IsTrue D.is_honest → (x y v : Version) → OneOf x y v
        → IsAt is_open images.now v (D.may_leave disk.old)
        → Always (D.may_leave disk.new) (IsAmong x y)
        × LeavesOnly D.moment D.left_since disk.old disk.new (IsAmong x y) }
    ensures count { CountsRefusal result (D.refused disk.old) (D.refused disk.new) }
    ensures cause { IfErr result (D.told disk.new) }
{
    if is_open {
        put_back(disk, images)
    } else {
        Ok(())
    }
}

/// Commits pages over a version, where the file has `count` pages then. `images` are the pages of
/// the last commit, where the gate may be open.
///
/// A crash at any moment leaves that version or the new one; once it answers, the new one. Refused
/// where the device refuses a call, and then the file stands for one of the two.
pub fn commit<D: Disk>(
    disk: &mut D,
    images: &[Image],
    is_open: bool,
    set: &[Image],
    count: u32,
) -> Result<(), DiskError>
    requires { length set.now ≤ 1024 }
    ensures committed { IsTrue D.is_durable → IsTrue D.is_honest → (v : Version)
        → IsAt is_open images.now v (D.may_leave disk.old) → IsCommittable v set.now count
        → OnOk result (IsAt true set.now (committed v set.now count) (D.may_leave disk.new)) }
    ensures any_moment { IsTrue D.is_durable → IsTrue D.is_honest → (v : Version)
        → IsAt is_open images.now v (D.may_leave disk.old) → IsCommittable v set.now count
        → Always (D.may_leave disk.new) (IsAmong v (committed v set.now count))
        × LeavesOnly D.moment D.left_since disk.old disk.new (IsAmong v (committed v set.now count)) }
    ensures count { CountsRefusal result (D.refused disk.old) (D.refused disk.new) }
    ensures cause { IfErr result (D.told disk.new) }
    ensures settled { OnOk result (D.settled disk.new) }
{
    shut_first(disk, images, is_open)?;
    stage(disk, set, count)?;
    open_gate(disk)
}
