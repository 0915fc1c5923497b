//! Step 1 of a commit: the pages of the last one go to their places.
ghost use Rattle.std.specs.Prelude.{◌≡◌, ◌⊎◌, ℕ, ◌+◌, ◌*◌, ◌≤◌, [], ◌∷◌, List, length, IfErr, OnOk, OnErr, IsTrue};
ghost use Rattle.disk.specs.Crashes.{Bytes, Always, Keeps, LeavesOnly, Only};
ghost use Rattle.disk.specs.Refused.{CountsRefusal};
ghost use Rattle.pagefile.specs.Parts.{gate_part};
ghost use Rattle.journal.specs.Parts.{kept_size, shown, place, ChangesOnly};
ghost use Rattle.journal.specs.Versions.{Version, put, HasPage, InPlaces, IsOpen, IsShut, OneOf, IsAmong};
ghost use Rattle.journal.specs.Steps.{IsPut, KeepsOtherPlaces, LiesWithin, AreAmong};

use crate::Image;
use crate::gate::shut_gate;
use crate::image::offset_of;
use disk::{Disk, DiskError};
use pagefile::{HEADER_SIZE, PAGE_SIZE, Page};

/// How many bytes of a page a version keeps.
fn size_kept(number: u32) -> usize
    ensures { result ≡ kept_size number }
{
    if number == 0 { HEADER_SIZE } else { PAGE_SIZE }
}

/// What a version keeps of a page.
fn kept_part(number: u32, page: &Page) -> &[u8]
    ensures part { result.now ≡ shown number page.now }
    ensures size { length result.now ≡ kept_size number }
{
    &page[..size_kept(number)]
}

/// Writes a page in its place: of page 0 its header alone. Refused where the device refuses, and
/// then the page may hold anything there.
pub fn put_one<D: Disk>(disk: &mut D, number: u32, page: &Page) -> Result<(), DiskError>
    ensures placed { OnOk result (IsTrue D.is_honest → 4096 * number + 4096 ≤ length (D.bytes disk.old)
        → (n : ℕ) → 4096 * n + 4096 ≤ length (D.bytes disk.old)
        → place (D.bytes disk.new) n ≡ put (place (D.bytes disk.old)) number page.now n) }
    ensures changes { IsTrue D.is_honest → 4096 * number + 4096 ≤ length (D.bytes disk.old)
        → ChangesOnly (4096 * number) (kept_size number) (D.bytes disk.old) (D.bytes disk.new) }
    ensures keeps { IsTrue D.is_durable → (v : Version) → HasPage number v.set
        → Keeps D.moment D.left_since D.may_leave disk.old disk.new (IsOpen v) }
    ensures count { CountsRefusal result (D.refused disk.old) (D.refused disk.new) }
    ensures cause { IfErr result (D.told disk.new) }
    ensures synced { D.synced disk.new ≡ D.synced disk.old }
{
    disk.write_at(offset_of(number as u64), kept_part(number, page))
}

/// Writes pages in their places. Refused where the device refuses; some of these pages may then be
/// in their places, and one may hold anything there.
pub fn put_all<D: Disk>(disk: &mut D, set: &[Image]) -> Result<(), DiskError>
    ensures placed { OnOk result (IsTrue D.is_honest → LiesWithin set.now (D.bytes disk.old)
        → IsPut set.now (D.bytes disk.old) (D.bytes disk.new)) }
    ensures others { IsTrue D.is_honest → LiesWithin set.now (D.bytes disk.old)
        → KeepsOtherPlaces set.now (D.bytes disk.old) (D.bytes disk.new) }
    ensures keeps { IsTrue D.is_durable → (v : Version) → AreAmong set.now v.set
        → Keeps D.moment D.left_since D.may_leave disk.old disk.new (IsOpen v) }
    ensures count { CountsRefusal result (D.refused disk.old) (D.refused disk.new) }
    ensures cause { IfErr result (D.told disk.new) }
    ensures synced { D.synced disk.new ≡ D.synced disk.old }
{
    for (number, page) in set {
        put_one(disk, *number, page.get())?;
    }
    Ok(())
}

/// The end of step 1, where the pages of the journal are in their places: waits for them, and shuts
/// the gate behind them.
///
/// A crash at any moment leaves the version of the journal. Refused where the device refuses a
/// call; the file then still stands for that version.
pub fn shut_behind<D: Disk>(disk: &mut D) -> Result<(), DiskError>
    ensures shut { IsTrue D.is_durable → IsTrue D.is_honest → (v : Version)
        → Always (D.may_leave disk.old) (IsOpen v) → InPlaces v (D.bytes disk.old)
        → OnOk result (Always (D.may_leave disk.new) (IsShut v)) }
    ensures keeps { IsTrue D.is_durable → IsTrue D.is_honest → (x y v : Version) → OneOf x y v
        → Always (D.may_leave disk.old) (IsOpen v) → InPlaces v (D.bytes disk.old)
        → Always (D.may_leave disk.new) (IsAmong x y)
        × LeavesOnly D.moment D.left_since disk.old disk.new (IsAmong x y) }
    ensures only { IsTrue D.is_durable → IsTrue D.is_honest
        → OnOk result (Only (D.bytes disk.new) (D.may_leave disk.new)) }
    ensures written { OnOk result (IsTrue D.is_honest → gate_part (D.bytes disk.new) ≡ 0 ∷ []) }
    ensures changes { IsTrue D.is_honest → 4096 ≤ length (D.bytes disk.old)
        → ChangesOnly 24 1 (D.bytes disk.old) (D.bytes disk.new) }
    ensures count { CountsRefusal result (D.refused disk.old) (D.refused disk.new) }
    ensures cause { IfErr result (D.told disk.new) }
    ensures settled { OnOk result (D.settled disk.new) }
{
    disk.sync()?;
    shut_gate(disk)
}

/// Step 1: the pages of the last commit go to their places and are waited for, and the gate is shut
/// behind them.
///
/// A crash at any moment leaves the version of that commit. Refused where the device refuses a
/// call; the file then still stands for that version.
pub fn put_back<D: Disk>(disk: &mut D, images: &[Image]) -> Result<(), DiskError>
    ensures shut { IsTrue D.is_durable → IsTrue D.is_honest → (v : Version) → v.set ≡ images.now
        → Always (D.may_leave disk.old) (IsOpen v) → OnOk result (Always (D.may_leave disk.new) (IsShut v)) }
    ensures keeps { IsTrue D.is_durable → IsTrue D.is_honest → (x y v : Version) → OneOf x y v → v.set ≡ images.now
        → Always (D.may_leave disk.old) (IsOpen v)
        → Always (D.may_leave disk.new) (IsAmong x y)
        × LeavesOnly D.moment D.left_since disk.old disk.new (IsAmong x y) }
    ensures placed { OnOk result (IsTrue D.is_honest → 4096 ≤ length (D.bytes disk.old)
        → LiesWithin images.now (D.bytes disk.old) → IsPut images.now (D.bytes disk.old) (D.bytes disk.new)) }
    ensures others { IsTrue D.is_honest → 4096 ≤ length (D.bytes disk.old) → LiesWithin images.now (D.bytes disk.old)
        → KeepsOtherPlaces images.now (D.bytes disk.old) (D.bytes disk.new) }
    ensures count { CountsRefusal result (D.refused disk.old) (D.refused disk.new) }
    ensures cause { IfErr result (D.told disk.new) }
    ensures settled { OnOk result (D.settled disk.new) }
{
    put_all(disk, images)?;
    shut_behind(disk)
}
