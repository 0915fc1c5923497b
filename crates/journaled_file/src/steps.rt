//! The steps of a file between two commits.
ghost use Rattle.std.specs.Prelude.{◌≡◌, ℕ, ◌*◌, ◌<◌, ◌≤◌, length, IfErr, OnOk, OnErr, IsTrue};
ghost use Rattle.disk.specs.Crashes.{Always, Keeps, LeavesOnly};
ghost use Rattle.disk.specs.Refused.{CountsRefusal};
ghost use Rattle.journal.specs.Parts.{place};
ghost use Rattle.journal.specs.Versions.{Version, IsOpen, IsShut, OneOf, IsAmong, IsCommittable, committed};
ghost use Rattle.journaled_file.specs.Shown.{IsAtRest, IsJournaled, IsShutting};

use disk::{Disk, DiskError};
use journal::{Image, open_gate, put_all, shut_gate, stage};
use pagefile::PAGE_SIZE;

/// Writes some images of the last commit in their places: from one on, up to another. Refused where
/// the device refuses; the file still shows the same version, and the same images are to be
/// written.
pub fn put_some<D: Disk>(
    disk: &mut D,
    images: &[Image],
    from: usize,
    end: usize,
) -> Result<(), DiskError>
    requires order { from ≤ end }
    requires end { end ≤ length images.now }
    ensures put { OnOk result ((count : ℕ) (v : Version)
        → IsJournaled D.is_honest D.is_durable images.now from count (D.bytes disk.old) (D.may_leave disk.old) v
        → IsJournaled D.is_honest D.is_durable images.now end count (D.bytes disk.new) (D.may_leave disk.new) v) }
    ensures left { OnErr result ((count : ℕ) (v : Version)
        → IsJournaled D.is_honest D.is_durable images.now from count (D.bytes disk.old) (D.may_leave disk.old) v
        → IsJournaled D.is_honest D.is_durable images.now from count (D.bytes disk.new) (D.may_leave disk.new) v) }
    ensures keeps { IsTrue D.is_durable → (v : Version) → v.set ≡ images.now
        → Keeps D.moment D.left_since D.may_leave disk.old disk.new (IsOpen v) }
    ensures count { CountsRefusal result (D.refused disk.old) (D.refused disk.new) }
    ensures cause { IfErr result (D.told disk.new) }
    ensures synced { D.synced disk.new ≡ D.synced disk.old }
{
    put_all(disk, &images[from..end])
}

/// Shuts the gate, where all images stand in their places. Refused where the device refuses, and
/// then the gate is still to be shut.
pub fn shut_off<D: Disk>(disk: &mut D) -> Result<(), DiskError>
    ensures rest { OnOk result ((count : ℕ) (v : Version)
        → IsShutting D.is_honest D.is_durable count (D.bytes disk.old) (D.may_leave disk.old) v
        → IsAtRest D.is_honest D.is_durable count (D.bytes disk.new) (D.may_leave disk.new) v) }
    ensures left { OnErr result ((count : ℕ) (v : Version)
        → IsShutting D.is_honest D.is_durable count (D.bytes disk.old) (D.may_leave disk.old) v
        → IsShutting D.is_honest D.is_durable count (D.bytes disk.new) (D.may_leave disk.new) v) }
    ensures keeps { IsTrue D.is_durable → IsTrue D.is_honest → (count : ℕ) (x y v : Version) → OneOf x y v
        → IsShutting D.is_honest D.is_durable count (D.bytes disk.old) (D.may_leave disk.old) v
        → Always (D.may_leave disk.new) (IsAmong x y)
        × LeavesOnly D.moment D.left_since disk.old disk.new (IsAmong x y) }
    ensures count { CountsRefusal result (D.refused disk.old) (D.refused disk.new) }
    ensures cause { IfErr result (D.told disk.new) }
    ensures settled { OnOk result (D.settled disk.new) }
{
    disk.sync()?;
    shut_gate(disk)
}

/// Brings the images that are left to their places, and shuts the gate behind them. Refused where
/// the device refuses, and then the file still stands for that version.
pub fn finish_open<D: Disk>(disk: &mut D, images: &[Image], written: usize) -> Result<(), DiskError>
    requires { written ≤ length images.now }
    ensures rest { OnOk result ((count : ℕ) (v : Version)
        → IsJournaled D.is_honest D.is_durable images.now written count (D.bytes disk.old) (D.may_leave disk.old) v
        → IsAtRest D.is_honest D.is_durable count (D.bytes disk.new) (D.may_leave disk.new) v) }
    ensures keeps { IsTrue D.is_durable → IsTrue D.is_honest → (count : ℕ) (x y v : Version) → OneOf x y v
        → IsJournaled D.is_honest D.is_durable images.now written count (D.bytes disk.old) (D.may_leave disk.old) v
        → Always (D.may_leave disk.new) (IsAmong x y)
        × LeavesOnly D.moment D.left_since disk.old disk.new (IsAmong x y) }
    ensures count { CountsRefusal result (D.refused disk.old) (D.refused disk.new) }
    ensures cause { IfErr result (D.told disk.new) }
    ensures settled { OnOk result (D.settled disk.new) }
{
    put_some(disk, images, written, images.len())?;
    shut_off(disk)
}

/// Writes the journal of a commit, and opens the gate, where the pages stand in their places.
/// Refused where the device refuses, and then the file stands for the old version or the new one;
/// the pages of the old one stand in their places either way.
pub fn write_commit<D: Disk>(disk: &mut D, set: &[Image], count: u32) -> Result<(), DiskError>
    requires { length set.now ≤ 1024 }
    ensures journaled { OnOk result ((was : ℕ) (v : Version)
        → IsAtRest D.is_honest D.is_durable was (D.bytes disk.old) (D.may_leave disk.old) v
        → IsCommittable v set.now count
        → IsJournaled D.is_honest D.is_durable set.now 0 count (D.bytes disk.new) (D.may_leave disk.new) (committed v set.now count)) }
    ensures keeps { IsTrue D.is_durable → IsTrue D.is_honest → (was : ℕ) (v : Version)
        → IsAtRest D.is_honest D.is_durable was (D.bytes disk.old) (D.may_leave disk.old) v
        → IsCommittable v set.now count
        → Always (D.may_leave disk.new) (IsAmong v (committed v set.now count))
        × LeavesOnly D.moment D.left_since disk.old disk.new (IsAmong v (committed v set.now count)) }
    ensures places { IsTrue D.is_honest → (was : ℕ) (v : Version)
        → IsAtRest D.is_honest D.is_durable was (D.bytes disk.old) (D.may_leave disk.old) v
        → IsCommittable v set.now count
        → (n : ℕ) → n < was → place (D.bytes disk.new) n ≡ v.pages n }
    ensures count { CountsRefusal result (D.refused disk.old) (D.refused disk.new) }
    ensures cause { IfErr result (D.told disk.new) }
    ensures settled { OnOk result (D.settled disk.new) }
{
    stage(disk, set, count)?;
    open_gate(disk)
}

/// Cuts a file to its pages, where these stand in their places, and waits for it. Refused where the
/// device refuses, and then what lies behind them may be there or not.
pub fn cut_to<D: Disk>(disk: &mut D, count: u32) -> Result<(), DiskError>
    ensures rest { OnOk result ((v : Version)
        → IsAtRest D.is_honest D.is_durable count (D.bytes disk.old) (D.may_leave disk.old) v
        → IsAtRest D.is_honest D.is_durable count (D.bytes disk.new) (D.may_leave disk.new) v) }
    ensures left { OnErr result ((v : Version)
        → IsAtRest D.is_honest D.is_durable count (D.bytes disk.old) (D.may_leave disk.old) v
        → IsAtRest D.is_honest D.is_durable count (D.bytes disk.new) (D.may_leave disk.new) v) }
    ensures size { OnOk result (IsTrue D.is_honest → length (D.bytes disk.new) ≡ 4096 * count) }
    ensures keeps { IsTrue D.is_durable → 1 ≤ count → (v : Version) → v.count ≤ count
        → Keeps D.moment D.left_since D.may_leave disk.old disk.new (IsShut v) }
    ensures count { CountsRefusal result (D.refused disk.old) (D.refused disk.new) }
    ensures cause { IfErr result (D.told disk.new) }
    ensures settled { OnOk result (D.settled disk.new) }
{
    disk.set_len(count as u64 * PAGE_SIZE as u64)?;
    disk.sync()
}
