//! Step 2 of a commit: its journal is written behind the pages.
ghost use Rattle.std.specs.Prelude.{◌≡◌, ℕ, ◌+◌, ◌*◌, ◌≤◌, ◌<◌, ◌^◌, length, IfErr, OnOk, OnErr, IsTrue};
ghost use Rattle.byteorder.specs.Endian.{big_bytes};
ghost use Rattle.disk.specs.Crashes.{Bytes, Always, Keeps};
ghost use Rattle.disk.specs.Refused.{CountsRefusal};
ghost use Rattle.pagefile.specs.Parts.{start_part};
ghost use Rattle.journal.specs.Parts.{block, ChangesOnly, KeepsFront};
ghost use Rattle.journal.specs.Steps.{KeepsPlaces};
ghost use Rattle.journal.specs.Versions.{Version, HasImages, IsShut, IsBoth, IsCommittable, committed};

use crate::Image;
use crate::image::offset_of;
use crate::list::list_of;
use disk::{Disk, DiskError};
use pagefile::Page;

/// Where the number of the journal's first block stands.
const START: u64 = 20;

/// Lengthens the file to so many blocks, where it is shorter. Refused where the device refuses, and
/// then the length is the old one or the new one.
fn lengthen<D: Disk>(disk: &mut D, blocks: u64) -> Result<(), DiskError>
    requires { blocks < 2 ^ 40 }
    ensures long { OnOk result (IsTrue D.is_honest → 4096 * blocks ≤ length (D.bytes disk.new)) }
    ensures front { IsTrue D.is_honest → KeepsFront (length (D.bytes disk.old)) (D.bytes disk.old) (D.bytes disk.new) }
    ensures keeps { IsTrue D.is_durable → 1 ≤ blocks → (v : Version) → v.count ≤ blocks
        → Keeps D.moment D.left_since D.may_leave disk.old disk.new (IsShut v) }
    ensures count { CountsRefusal result (D.refused disk.old) (D.refused disk.new) }
    ensures cause { IfErr result (D.told disk.new) }
{
    let wanted = offset_of(blocks);
    if disk.len()? >= wanted {
        return Ok(());
    }
    disk.set_len(wanted)
}

/// Writes a block. Refused where the device refuses, and then the block may hold anything.
fn write_block<D: Disk>(disk: &mut D, number: u64, bytes: &Page) -> Result<(), DiskError>
    requires { number < 2 ^ 40 }
    ensures written { OnOk result (IsTrue D.is_honest → block (D.bytes disk.new) number ≡ bytes.now) }
    ensures changes { IsTrue D.is_honest → 4096 * number + 4096 ≤ length (D.bytes disk.old)
        → ChangesOnly (4096 * number) 4096 (D.bytes disk.old) (D.bytes disk.new) }
    ensures keeps { IsTrue D.is_durable → 4096 * number + 4096 ≤ length (D.bytes disk.old) → 1 ≤ number
        → (v : Version) → v.count ≤ number
        → Keeps D.moment D.left_since D.may_leave disk.old disk.new (IsShut v) }
    ensures count { CountsRefusal result (D.refused disk.old) (D.refused disk.new) }
    ensures cause { IfErr result (D.told disk.new) }
{
    disk.write_at(offset_of(number), bytes)
}

/// Writes the images of pages into the blocks from one on. Refused where the device refuses, and
/// then these blocks may hold anything.
fn write_images<D: Disk>(disk: &mut D, first: u64, set: &[Image]) -> Result<(), DiskError>
    requires { first + length set.now < 2 ^ 39 }
    ensures images { OnOk result (IsTrue D.is_honest → 4096 * (first + length set.now) ≤ length (D.bytes disk.old)
        → HasImages (D.bytes disk.new) first set.now) }
    ensures changes { IsTrue D.is_honest → 4096 * (first + length set.now) ≤ length (D.bytes disk.old)
        → ChangesOnly (4096 * first) (4096 * length set.now) (D.bytes disk.old) (D.bytes disk.new) }
    ensures keeps { IsTrue D.is_durable → IsTrue D.is_honest
        → 4096 * (first + length set.now) ≤ length (D.bytes disk.old) → 1 ≤ first
        → (v : Version) → v.count ≤ first
        → Keeps D.moment D.left_since D.may_leave disk.old disk.new (IsShut v) }
    ensures count { CountsRefusal result (D.refused disk.old) (D.refused disk.new) }
    ensures cause { IfErr result (D.told disk.new) }
{
    let mut at = first;
    for image in set {
        write_block(disk, at, image.1.get())?;
        at += 1;
    }
    Ok(())
}

/// Writes which block is the journal's first. Refused where the device refuses, and then it may be
/// any.
fn write_start<D: Disk>(disk: &mut D, start: u32) -> Result<(), DiskError>
    ensures written { OnOk result (IsTrue D.is_honest → start_part (D.bytes disk.new) ≡ big_bytes 4 start) }
    ensures changes { IsTrue D.is_honest → 4096 ≤ length (D.bytes disk.old)
        → ChangesOnly 20 4 (D.bytes disk.old) (D.bytes disk.new) }
    ensures keeps { IsTrue D.is_durable → (v : Version)
        → Keeps D.moment D.left_since D.may_leave disk.old disk.new (IsShut v) }
    ensures count { CountsRefusal result (D.refused disk.old) (D.refused disk.new) }
    ensures cause { IfErr result (D.told disk.new) }
{
    disk.write_at(START, &start.to_be_bytes())
}

/// Step 2: the journal of a commit is written behind the pages, and waited for. The file is
/// lengthened first where it is too short, so that nothing is written past its end.
///
/// A crash at any moment leaves the version before the commit. Refused where the device refuses a
/// call; the file then still stands for that version.
pub fn stage<D: Disk>(disk: &mut D, set: &[Image], count: u32) -> Result<(), DiskError>
    requires { length set.now ≤ 1024 }
    ensures staged { IsTrue D.is_durable → IsTrue D.is_honest → (v : Version) → IsCommittable v set.now count
        → Always (D.may_leave disk.old) (IsShut v)
        → OnOk result (Always (D.may_leave disk.new) (IsBoth v (committed v set.now count))) }
    ensures keeps { IsTrue D.is_durable → IsTrue D.is_honest → 1 ≤ count → (v : Version) → v.count ≤ count
        → Keeps D.moment D.left_since D.may_leave disk.old disk.new (IsShut v) }
    ensures long { OnOk result (IsTrue D.is_honest
        → 4096 * (count + 1 + length set.now) ≤ length (D.bytes disk.new)) }
    ensures places { IsTrue D.is_honest → 1 ≤ count → KeepsPlaces count (D.bytes disk.old) (D.bytes disk.new) }
    ensures count { CountsRefusal result (D.refused disk.old) (D.refused disk.new) }
    ensures cause { IfErr result (D.told disk.new) }
    ensures settled { OnOk result (D.settled disk.new) }
{
    let start = count as u64;
    lengthen(disk, start + 1 + set.len() as u64)?;
    write_block(disk, start, &list_of(set))?;
    write_images(disk, start + 1, set)?;
    write_start(disk, count)?;
    disk.sync()
}
