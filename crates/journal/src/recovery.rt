//! The recovery of a file that a crash may have left.
ghost use Rattle.std.specs.Prelude.{◌≡◌, ◌⊎◌, ℕ, ◌+◌, ◌*◌, ◌≤◌, ◌<◌, ◌^◌, [], ◌∷◌, length, IfOk, IfErr, OnOk, IsTrue, MatchResult};
ghost use Rattle.disk.specs.Crashes.{Bytes, Always, Keeps, Only, LeavesOnly};
ghost use Rattle.disk.specs.Refused.{CountsRefusal};
ghost use Rattle.pagefile.specs.Header.{IsInBounds};
ghost use Rattle.pagefile.specs.Parts.{gate_part};
ghost use Rattle.pagefile.specs.Whole.{IsCounted, IsTold};
ghost use Rattle.journal.specs.Headers.{IsFile, IsNoFile, IsGate, IsSmall, IsGood, HasList, NamesPages, Finds, IsFinished};
ghost use Rattle.journal.specs.Lists.{IsList};
ghost use Rattle.journal.specs.Parts.{kept_size, place, block, ChangesOnly, HasLength};
ghost use Rattle.journal.specs.Versions.{Version, put, laid, HasPage, IsReady, IsOpen, IsShut, OneOf, IsAmong, StandsFor};

use crate::examine::examine;
use crate::header::read_number;
use crate::reading::read_block;
use crate::{Found, Gate, put_one, shut_behind, shut_gate};
use disk::{Disk, DiskError};
use pagefile::{OpenError, PAGE_SIZE, Page};

/// Copies an image to the place of its page. Refused where the device refuses, and then the page
/// may hold anything there.
fn copy_image<D: Disk>(disk: &mut D, from: u64, number: u32) -> Result<(), DiskError>
    requires { from < 2 ^ 40 }
    ensures placed { OnOk result (IsTrue D.is_honest → 4096 * number + 4096 ≤ length (D.bytes disk.old)
        → (n : ℕ) → 4096 * n + 4096 ≤ length (D.bytes disk.old)
        → place (D.bytes disk.new) n ≡ put (place (D.bytes disk.old)) number (block (D.bytes disk.old) from) n) }
    ensures changes { IsTrue D.is_honest → 4096 * number + 4096 ≤ length (D.bytes disk.old)
        → ChangesOnly (4096 * number) (kept_size number) (D.bytes disk.old) (D.bytes disk.new) }
    ensures keeps { IsTrue D.is_durable → (v : Version) → HasPage number v.set
        → Keeps D.moment D.left_since D.may_leave disk.old disk.new (IsOpen v) }
    ensures count { CountsRefusal result (D.refused disk.old) (D.refused disk.new) }
    ensures cause { IfErr result (D.told disk.new) }
{
    let mut page = [0; PAGE_SIZE];
    read_block(disk, from, &mut page)?;
    put_one(disk, number, &page)
}

/// Copies the images of a journal to the places of their pages. Refused where the device refuses;
/// the journal is then still whole.
fn copy_images<D: Disk>(disk: &mut D, start: u32, size: u32, list: &Page) -> Result<(), DiskError>
    requires { size ≤ 1024 }
    ensures placed { IsTrue D.is_honest → (v : Version) → NamesPages v start size list.now
        → IsReady v (D.bytes disk.old)
        → OnOk result ((n : ℕ) → n < v.count → place (D.bytes disk.new) n ≡ laid v.set (place (D.bytes disk.old)) n) }
    ensures ready { IsTrue D.is_honest → (v : Version) → NamesPages v start size list.now → IsReady v (D.bytes disk.old)
        → IsReady v (D.bytes disk.new) }
    ensures size { IsTrue D.is_honest → IsList list.now start size
        → 4096 * (start + 1 + size) ≤ length (D.bytes disk.old)
        → length (D.bytes disk.new) ≡ length (D.bytes disk.old) }
    ensures keeps { IsTrue D.is_durable → (v : Version) → NamesPages v start size list.now
        → Keeps D.moment D.left_since D.may_leave disk.old disk.new (IsOpen v) }
    ensures count { CountsRefusal result (D.refused disk.old) (D.refused disk.new) }
    ensures cause { IfErr result (D.told disk.new) }
{
    for i in 0..size {
        copy_image(
            disk,
            start as u64 + 1 + i as u64,
            read_number(list, 4 * i as usize),
        )?;
    }
    Ok(())
}

/// Copies the images of a journal to the places of their pages, waits for them, and shuts the gate.
/// Refused where the device refuses; the file still stands for the same version.
fn copy_back<D: Disk>(disk: &mut D, start: u32, size: u32, list: &Page) -> Result<(), DiskError>
    requires { size ≤ 1024 }
    ensures shut { IsTrue D.is_honest → (v : Version) → NamesPages v start size list.now → IsReady v (D.bytes disk.old)
        → OnOk result (IsShut v (D.bytes disk.new)) }
    ensures closed { OnOk result (IsTrue D.is_honest → gate_part (D.bytes disk.new) ≡ 0 ∷ []) }
    ensures size { IsTrue D.is_honest → IsList list.now start size
        → 4096 * (start + 1 + size) ≤ length (D.bytes disk.old)
        → length (D.bytes disk.new) ≡ length (D.bytes disk.old) }
    ensures only { IsTrue D.is_durable → IsTrue D.is_honest
        → OnOk result (Only (D.bytes disk.new) (D.may_leave disk.new)) }
    ensures keeps { IsTrue D.is_durable → IsTrue D.is_honest → (x y v : Version) → OneOf x y v
        → NamesPages v start size list.now → Always (D.may_leave disk.old) (IsOpen v)
        → Always (D.may_leave disk.new) (IsAmong x y)
        × LeavesOnly D.moment D.left_since disk.old disk.new (IsAmong x y) }
    ensures count { CountsRefusal result (D.refused disk.old) (D.refused disk.new) }
    ensures cause { IfErr result (D.told disk.new) }
{
    copy_images(disk, start, size, list)?;
    shut_behind(disk)
}

/// Brings a file to what its gate says, where a crash leaves just what is read. Refused where the
/// device refuses; the file still stands for one of the same versions.
fn settle<D: Disk>(disk: &mut D, gate: Gate, list: &Page) -> Result<(), DiskError>
    requires gate { IsTrue D.is_honest → IsGate (D.bytes disk.old) gate }
    requires list { IsTrue D.is_honest → HasList (D.bytes disk.old) list.now gate }
    requires few { IsSmall gate }
    ensures shut { IsTrue D.is_honest → (v : Version) → StandsFor v (D.bytes disk.old)
        → OnOk result (IsShut v (D.bytes disk.new)) }
    ensures only { IsTrue D.is_durable → IsTrue D.is_honest → Only (D.bytes disk.old) (D.may_leave disk.old)
        → OnOk result (Only (D.bytes disk.new) (D.may_leave disk.new)) }
    ensures closed { OnOk result (IsTrue D.is_honest → gate_part (D.bytes disk.new) ≡ 0 ∷ []) }
    ensures size { IsTrue D.is_honest → 4096 ≤ length (D.bytes disk.old)
        → length (D.bytes disk.new) ≡ length (D.bytes disk.old) }
    ensures still { IsTrue D.is_honest → gate_part (D.bytes disk.old) ≡ 0 ∷ [] → D.bytes disk.new ≡ D.bytes disk.old }
    ensures keeps { IsTrue D.is_durable → IsTrue D.is_honest → Only (D.bytes disk.old) (D.may_leave disk.old)
        → (x y : Version) → Keeps D.moment D.left_since D.may_leave disk.old disk.new (IsAmong x y) }
    ensures alone { IsTrue D.is_durable → IsTrue D.is_honest → length (D.bytes disk.old) ≡ 4096
        → Keeps D.moment D.left_since D.may_leave disk.old disk.new (HasLength 4096) }
    ensures count { CountsRefusal result (D.refused disk.old) (D.refused disk.new) }
    ensures cause { IfErr result (D.told disk.new) }
{
    match gate {
        Gate::Shut => Ok(()),
        Gate::Torn => shut_gate(disk),
        Gate::Open { start, size } => copy_back(disk, start, size, list),
    }
}

/// Brings a file to what was found in it, and tells that.
fn finish<D: Disk>(disk: &mut D, found: Found, list: &Page) -> Result<Found, OpenError>
    requires gate { IsTrue D.is_honest → IsGate (D.bytes disk.old) found.gate }
    requires list { IsTrue D.is_honest → HasList (D.bytes disk.old) list.now found.gate }
    requires few { IsSmall found.gate }
    ensures done { IfOk result (λ told. IsFinished found told D.is_honest D.is_durable (D.bytes disk.old)
        (D.bytes disk.new) (D.may_leave disk.old) (D.may_leave disk.new)) }
    ensures keeps { IsTrue D.is_durable → IsTrue D.is_honest → Only (D.bytes disk.old) (D.may_leave disk.old)
        → (x y : Version) → Keeps D.moment D.left_since D.may_leave disk.old disk.new (IsAmong x y) }
    ensures alone { IsTrue D.is_durable → IsTrue D.is_honest → length (D.bytes disk.old) ≡ 4096
        → Keeps D.moment D.left_since D.may_leave disk.old disk.new (HasLength 4096) }
    ensures still { IsTrue D.is_honest → gate_part (D.bytes disk.old) ≡ 0 ∷ [] → D.bytes disk.new ≡ D.bytes disk.old }
    ensures never { IfErr result (λ e. e ≡ OpenError.Damaged → ⊥) }
    ensures count { MatchResult result
        (λ _. D.refused disk.new ≡ D.refused disk.old)
        (λ e. IsCounted e (D.refused disk.old) (D.refused disk.new)) }
    ensures cause { IfErr result (IsTold (D.told disk.new)) }
{
    match settle(disk, found.gate, list) {
        Ok(()) => Ok(found),
        Err(cause) => Err(OpenError::Device(cause)),
    }
}

/// Brings a file that a crash may have left to one of the versions for which it may stand, and
/// tells its header.
///
/// It waits first until the file is on the medium as it reads. All its tests come before its first
/// write: `Damaged`, just where nothing of the kind is in the file (`IsFile`), leaves each byte.
/// Then an open gate is shut behind the images of its journal, and a torn one is shut. A file whose
/// gate is shut keeps each byte, and no other gets another length.
///
/// A crash at any moment of it, and a refusal, leave what a crash might have left before, or a file
/// that stands for one of the versions for which it may stand as it reads. So it is enough to know
/// what is read of a device that is found after a crash: what else a crash of it might leave, a
/// recovery does not look at. A file of page 0 alone stays one.
pub fn recover<D: Disk>(disk: &mut D) -> Result<Found, OpenError>
    ensures file { IfOk result (λ found. IsTrue D.is_honest → IsFile (D.bytes disk.old) found) }
    ensures bounds { IfOk result (λ found. IsInBounds found.header) }
    ensures shut { IfOk result (λ found. IsTrue D.is_honest → (v : Version) → StandsFor v (D.bytes disk.old)
        → IsShut v (D.bytes disk.new)) }
    ensures found { IfOk result (λ found. IsTrue D.is_durable → IsTrue D.is_honest → (x y : Version)
        → IsAmong x y (D.bytes disk.old)
        → Finds x y found (D.bytes disk.old) (D.may_leave disk.new)) }
    ensures only { IfOk result (λ _. IsTrue D.is_durable → IsTrue D.is_honest
        → Only (D.bytes disk.new) (D.may_leave disk.new)) }
    ensures closed { IfOk result (λ _. IsTrue D.is_honest → gate_part (D.bytes disk.new) ≡ 0 ∷ []) }
    ensures size { IfOk result (λ _. IsTrue D.is_honest → length (D.bytes disk.new) ≡ length (D.bytes disk.old)) }
    ensures still { IsTrue D.is_honest → gate_part (D.bytes disk.old) ≡ 0 ∷ [] → D.bytes disk.new ≡ D.bytes disk.old }
    ensures any_moment { IsTrue D.is_durable → IsTrue D.is_honest → (x y : Version) → IsAmong x y (D.bytes disk.old)
        → LeavesOnly D.moment D.left_since disk.old disk.new (λ c. D.may_leave disk.old c ⊎ IsAmong x y c) }
    ensures alone { IsTrue D.is_durable → IsTrue D.is_honest → length (D.bytes disk.old) ≡ 4096
        → LeavesOnly D.moment D.left_since disk.old disk.new (λ c. D.may_leave disk.old c ⊎ HasLength 4096 c) }
    ensures damaged { IfErr result (λ e. e ≡ OpenError.Damaged → IsTrue D.is_honest → IsNoFile (D.bytes disk.old)) }
    ensures left { IfErr result (λ e. e ≡ OpenError.Damaged → IsTrue D.is_honest
        → D.bytes disk.new ≡ D.bytes disk.old) }
    ensures unwritten { IfErr result (λ e. e ≡ OpenError.Damaged → D.writes disk.new ≡ D.writes disk.old) }
    ensures whole { IfErr result (λ e. IsTrue D.is_honest → (x y : Version) → IsGood x → IsGood y
        → IsAmong x y (D.bytes disk.old) → e ≡ OpenError.Damaged → ⊥) }
    ensures count { MatchResult result
        (λ _. D.refused disk.new ≡ D.refused disk.old)
        (λ e. IsCounted e (D.refused disk.old) (D.refused disk.new)) }
    ensures cause { IfErr result (IsTold (D.told disk.new)) }
{
    disk.sync()?;
    let mut list = [0; PAGE_SIZE];
    match examine(disk, &mut list) {
        Ok(found) => finish(disk, found, &list),
        Err(cause) => Err(cause),
    }
}
