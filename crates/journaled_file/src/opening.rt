//! Opening a file that a crash may have left, of either format.
ghost use Rattle.std.specs.Prelude.{◌≡◌, ◌⊎◌, ℕ, ◌<◌, ◌≤◌, [], ◌∷◌, ◌++◌, take, drop, length, IfOk, IfErr, MatchResult, OnOk, OnErr, IsTrue};
ghost use Rattle.disk.specs.Crashes.{Always, LeavesOnly};
ghost use Rattle.disk.specs.Refused.{CountsRefusal};
ghost use Rattle.pagefile.specs.Header.{IsInBounds};
ghost use Rattle.pagefile.specs.Number.{number_at};
ghost use Rattle.pagefile.specs.Parts.{gate_part};
ghost use Rattle.journal.specs.declared.found.Format.TheVariants.{Two};
ghost use Rattle.journal.specs.Headers.{IsGood, IsNoFile, magic_2, magic_of};
ghost use Rattle.journal.specs.Parts.{place, block};
ghost use Rattle.journal.specs.Versions.{Version, OneOf, IsShut, IsAmong, IsCommittable, StandsFor, committed};
ghost use Rattle.journaled_file.specs.Refused.{IsCounted, IsTold, refusal_for};
ghost use Rattle.journaled_file.specs.Shown.{IsAtRest, placed};
ghost use Rattle.journaled_file.specs.Renewed.{renewed, renewed_pages, first_pages, IsHeaderIn, Opens, IsOpening, IsOpeningAlone};

use crate::steps::{finish_open, write_commit};
use disk::{Disk, DiskError};
use items::{Boxed, Items};
use journal::{Format, Found, Image, recover};
use pagefile::{FileHeader, OpenError, PAGE_SIZE, Page};
use std::alloc::{AllocError, Global};
use thiserror::Error;

/// The magic of format 2.
const MAGIC_2: [u8; 8] = *b"RSQLPG02";

/// Why a file was not opened.
#[derive(Clone, Copy, Debug, Error)]
pub enum OpenRefusal {
    /// There was no memory.
    #[error("out of memory")]
    Memory,
    /// The device refused a call.
    #[error("{0}")]
    Device(DiskError),
    /// It is no file of either format.
    #[error("the file is damaged")]
    Damaged,
}

/// Puts the magic of format 2 into a page.
fn put_magic(page: &mut Page)
    ensures { page.new ≡ magic_2 ++ drop 8 page.old }
{
    page[..8].copy_from_slice(&MAGIC_2);
}

/// A set of page 0 alone. Refuses for want of memory alone.
fn set_of_first(alloc: Global, page: &Page) -> Result<Items<Image>, AllocError>
    ensures { IfOk result (λ set. set ≡ (0, page.now) ∷ []) }
{
    let mut set = Items::new(alloc);
    set.push((0, Boxed::new(alloc, *page)?))?;
    Ok(set)
}

/// A commit over a file at rest, behind which the file is at rest again.
fn commit_at_rest<D: Disk>(disk: &mut D, set: &[Image], count: u32) -> Result<(), DiskError>
    requires { length set.now ≤ 1024 }
    ensures rest { OnOk result ((was : ℕ) (v : Version)
        → IsAtRest D.is_honest D.is_durable was (D.bytes disk.old) (D.may_leave disk.old) v
        → IsCommittable v set.now count
        → IsAtRest D.is_honest D.is_durable count (D.bytes disk.new) (D.may_leave disk.new) (committed v set.now count)) }
    ensures keeps { IsTrue D.is_durable → IsTrue D.is_honest → (was : ℕ) (v : Version)
        → IsAtRest D.is_honest D.is_durable was (D.bytes disk.old) (D.may_leave disk.old) v
        → IsCommittable v set.now count
        → Always (D.may_leave disk.new) (IsAmong v (committed v set.now count))
        × LeavesOnly D.moment D.left_since disk.old disk.new (IsAmong v (committed v set.now count)) }
    ensures count { CountsRefusal result (D.refused disk.old) (D.refused disk.new) }
    ensures cause { IfErr result (D.told disk.new) }
{
    write_commit(disk, set, count)?;
    finish_open(disk, set, 0)
}

/// The same of page 0 alone. Refuses for want of memory before it calls the device.
fn commit_first<D: Disk>(
    alloc: Global,
    disk: &mut D,
    page: &Page,
    count: u32,
) -> Result<(), OpenRefusal>
    ensures rest { OnOk result ((was : ℕ) (v : Version)
        → IsAtRest D.is_honest D.is_durable was (D.bytes disk.old) (D.may_leave disk.old) v
        → IsCommittable v ((0, page.now) ∷ []) count
        → IsAtRest D.is_honest D.is_durable count (D.bytes disk.new) (D.may_leave disk.new) (committed v ((0, page.now) ∷ []) count)) }
    ensures keeps { IsTrue D.is_durable → IsTrue D.is_honest → (was : ℕ) (v : Version)
        → IsAtRest D.is_honest D.is_durable was (D.bytes disk.old) (D.may_leave disk.old) v
        → IsCommittable v ((0, page.now) ∷ []) count
        → Always (D.may_leave disk.new) (IsAmong v (committed v ((0, page.now) ∷ []) count))
        × LeavesOnly D.moment D.left_since disk.old disk.new (IsAmong v (committed v ((0, page.now) ∷ []) count)) }
    ensures never { IfErr result (λ e. e ≡ OpenRefusal.Damaged → ⊥) }
    ensures count { MatchResult result
        (λ _. D.refused disk.new ≡ D.refused disk.old)
        (λ e. IsCounted e (D.refused disk.old) (D.refused disk.new)) }
    ensures cause { IfErr result (IsTold (D.told disk.new)) }
{
    match set_of_first(alloc, page) {
        Ok(set) => match commit_at_rest(disk, set.as_slice(), count) {
            Ok(()) => Ok(()),
            Err(cause) => Err(OpenRefusal::Device(cause)),
        },
        Err(_) => Err(OpenRefusal::Memory),
    }
}

/// Makes a file of the first format one of the second: one commit of page 0 with the new magic.
fn renew<D: Disk>(alloc: Global, disk: &mut D, count: u32) -> Result<(), OpenRefusal>
    ensures renewed { OnOk result (IsTrue D.is_honest → (v : Version)
        → IsAtRest D.is_honest D.is_durable count (D.bytes disk.old) (D.may_leave disk.old) (first_pages v count)
        → IsAtRest D.is_honest D.is_durable count (D.bytes disk.new) (D.may_leave disk.new) (renewed v count)) }
    ensures any_moment { IsTrue D.is_durable → IsTrue D.is_honest → (x y v : Version) → OneOf x y v
        → number_at (v.pages 0) 8 ≡ count → count ≤ v.count
        → IsAtRest D.is_honest D.is_durable count (D.bytes disk.old) (D.may_leave disk.old) (first_pages v count)
        → Always (D.may_leave disk.new) (IsOpening x y)
        × LeavesOnly D.moment D.left_since disk.old disk.new (IsOpening x y) }
    ensures never { IfErr result (λ e. e ≡ OpenRefusal.Damaged → ⊥) }
    ensures count { MatchResult result
        (λ _. D.refused disk.new ≡ D.refused disk.old)
        (λ e. IsCounted e (D.refused disk.old) (D.refused disk.new)) }
    ensures cause { IfErr result (IsTold (D.told disk.new)) }
{
    let mut page = [0; PAGE_SIZE];
    match disk.read_at(0, &mut page) {
        Ok(()) => {
            put_magic(&mut page);
            commit_first(alloc, disk, &page, count)
        }
        Err(cause) => Err(OpenRefusal::Device(cause)),
    }
}

/// Why a file is not opened that a recovery did not take.
fn refusal_of(cause: OpenError) -> OpenRefusal
    ensures { result ≡ refusal_for cause }
{
    match cause {
        OpenError::Damaged => OpenRefusal::Damaged,
        OpenError::Device(cause) => OpenRefusal::Device(cause),
    }
}

/// What was found in a file at rest, once the file is one of the second format. `Damaged` does not
/// come of it.
fn as_second<D: Disk>(alloc: Global, disk: &mut D, found: Found) -> Result<FileHeader, OpenRefusal>
    ensures header { IfOk result (λ h. h ≡ found.header) }
    ensures rest { IfOk result (λ h. IsTrue D.is_honest → (v : Version) → take 8 (v.pages 0) ≡ magic_of found.format
        → IsAtRest D.is_honest D.is_durable found.header.page_count (D.bytes disk.old) (D.may_leave disk.old) (first_pages v found.header.page_count)
        → IsAtRest D.is_honest D.is_durable found.header.page_count (D.bytes disk.new) (D.may_leave disk.new) (renewed v found.header.page_count)) }
    ensures own { IfOk result (λ h. IsTrue D.is_honest → (v : Version)
        → IsAtRest D.is_honest D.is_durable found.header.page_count (D.bytes disk.old) (D.may_leave disk.old) (first_pages v found.header.page_count)
        → IsAtRest D.is_honest D.is_durable found.header.page_count (D.bytes disk.new) (D.may_leave disk.new) (placed found.header.page_count (D.bytes disk.new))) }
    ensures still { IsTrue D.is_honest → found.format ≡ Two → D.bytes disk.new ≡ D.bytes disk.old }
    ensures any_moment { IsTrue D.is_durable → IsTrue D.is_honest → (x y v : Version) → OneOf x y v
        → number_at (v.pages 0) 8 ≡ found.header.page_count → found.header.page_count ≤ v.count
        → Always (D.may_leave disk.old) (IsShut v)
        → IsAtRest D.is_honest D.is_durable found.header.page_count (D.bytes disk.old) (D.may_leave disk.old) (first_pages v found.header.page_count)
        → Always (D.may_leave disk.new) (IsOpening x y)
        × LeavesOnly D.moment D.left_since disk.old disk.new (IsOpening x y) }
    ensures never { IfErr result (λ e. e ≡ OpenRefusal.Damaged → ⊥) }
    ensures count { MatchResult result
        (λ _. D.refused disk.new ≡ D.refused disk.old)
        (λ e. IsCounted e (D.refused disk.old) (D.refused disk.new)) }
    ensures cause { IfErr result (IsTold (D.told disk.new)) }
{
    match found.format {
        Format::Two => Ok(found.header),
        Format::One => match renew(alloc, disk, found.header.page_count) {
            Ok(()) => Ok(found.header),
            Err(refusal) => Err(refusal),
        },
    }
}

/// Opens a file of either format, which is one of the second then with its gate shut, and tells its
/// header. `Damaged` comes just of what is no such file, and leaves each byte; so does any answer
/// of a file of the second format whose gate is shut.
///
/// Of a file that reads as one that stands for one of two good versions, a crash at any moment
/// leaves what it might have left before, one of these two, or that version with the new magic. So
/// what a refusal leaves has these pages too. A file of page 0 alone, of which nothing is known,
/// stays one, or is such a version of it.
pub fn open_file<D: Disk>(alloc: Global, disk: &mut D) -> Result<FileHeader, OpenRefusal>
    ensures header { IfOk result (λ h. IsTrue D.is_honest → IsHeaderIn (D.bytes disk.old) h) }
    ensures bounds { IfOk result IsInBounds }
    ensures pages { IfOk result (λ h. IsTrue D.is_honest → (v : Version) → IsGood v → StandsFor v (D.bytes disk.old)
        → (n : ℕ) → n < h.page_count → place (D.bytes disk.new) n ≡ renewed_pages v.pages n) }
    ensures rest { IfOk result (λ h. IsTrue D.is_honest
        → IsAtRest D.is_honest D.is_durable h.page_count (D.bytes disk.new) (D.may_leave disk.new) (placed h.page_count (D.bytes disk.new))) }
    ensures still { IsTrue D.is_honest → gate_part (D.bytes disk.old) ≡ 0 ∷ []
        → take 8 (place (D.bytes disk.old) 0) ≡ magic_2
        → D.bytes disk.new ≡ D.bytes disk.old }
    ensures opened { IfOk result (λ h. IsTrue D.is_durable → IsTrue D.is_honest → (x y : Version) → IsGood x → IsGood y
        → IsAmong x y (D.bytes disk.old)
        → Opens x y h (D.bytes disk.old) (D.may_leave disk.new)) }
    ensures any_moment { IsTrue D.is_durable → IsTrue D.is_honest → (x y : Version) → IsGood x → IsGood y
        → IsAmong x y (D.bytes disk.old)
        → LeavesOnly D.moment D.left_since disk.old disk.new (λ c. D.may_leave disk.old c ⊎ IsOpening x y c) }
    ensures alone { IsTrue D.is_durable → IsTrue D.is_honest → length (D.bytes disk.old) ≡ 4096
        → LeavesOnly D.moment D.left_since disk.old disk.new (λ c. D.may_leave disk.old c ⊎ IsOpeningAlone c) }
    ensures damaged { IfErr result (λ e. e ≡ OpenRefusal.Damaged → IsTrue D.is_honest → IsNoFile (D.bytes disk.old)) }
    ensures left { IfErr result (λ e. e ≡ OpenRefusal.Damaged → IsTrue D.is_honest
        → D.bytes disk.new ≡ D.bytes disk.old) }
    ensures unwritten { IfErr result (λ e. e ≡ OpenRefusal.Damaged → D.writes disk.new ≡ D.writes disk.old) }
    ensures whole { IfErr result (λ e. IsTrue D.is_honest → (x y : Version) → IsGood x → IsGood y
        → IsAmong x y (D.bytes disk.old) → e ≡ OpenRefusal.Damaged → ⊥) }
    ensures count { MatchResult result
        (λ _. D.refused disk.new ≡ D.refused disk.old)
        (λ e. IsCounted e (D.refused disk.old) (D.refused disk.new)) }
    ensures cause { IfErr result (IsTold (D.told disk.new)) }
{
    match recover(disk) {
        Ok(found) => as_second(alloc, disk, found),
        Err(cause) => Err(refusal_of(cause)),
    }
}
