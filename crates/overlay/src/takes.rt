//! Pages that are taken into use.
ghost use Rattle.std.specs.Prelude.{◌≡◌, ◌≢◌, ◌<◌, ◌≤◌, ℕ, List, Some, None, IsSome, IsNone, slice_index, IfOk, IfSome, OnOk, OnErr, IfErr};
ghost use Rattle.page_space.specs.Space.{IsFresh, ReadRefused, ChangeRefused};
ghost use Rattle.pagefile.specs.Free.{IsFree};
ghost use Rattle.pagefile.specs.Header.{IsHeader, IsInBounds};
ghost use Rattle.pool.specs.Pages.{over};
ghost use Rattle.pool.specs.Versions.{versions_of, device_of, refused_of};
ghost use Rattle.overlay.specs.WriteSet.{settled_of, private_of, undone_of};
ghost use Rattle.overlay.specs.Layers.{size_of, IsNotKept};
ghost use Rattle.overlay.specs.InUse.{in_use};
ghost use Rattle.overlay.specs.Whole.{IsWhole, IsFull, AtLimit, IsNext, NamesRest, TakesZeros, KeepsZeros};
ghost use Rattle.overlay.specs.Puts.{PutsLeaf, PutsLeafAtMost, Takes, Took, TookAtMost};

use crate::first_page::header_to_change;
use crate::frees::put_with_header;
use crate::uses::MOST_PAGES;
use crate::version::read_changed;
use crate::write_set::WriteSet;
use disk::Disk;
use page_space::SpaceError;
use pagefile::{FileHeader, FreePage, PAGE_SIZE, Page};
use pool::Pool;

/// The kind of a leaf, its first byte.
const LEAF: u8 = 1;

/// What a page holds that was taken and not written yet: zeros, of the kind of a leaf.
fn new_leaf() -> Page
    ensures { slice_index result 0 ≢ 3 }
{
    let mut page = [0; PAGE_SIZE];
    page[0] = LEAF;
    page
}

/// The page that a free page names as the next, 0 for none; none where it is no free page, or names
/// one at or above the page count.
fn next_free(page: &Page, count: u32) -> Option<u32>
    ensures free { IfSome result (λ next. IsFree page.now next) }
    ensures below { IfSome result (λ next. next < count) }
    ensures none { IsNone result → (next : ℕ) → IsFree page.now next → next < count → ⊥ }
{
    let free = FreePage::decode(page)?;
    if free.next >= count {
        return None;
    }
    Some(free.next)
}

/// The header after the first free page is taken.
fn take_first<D: Disk>(
    pool: &mut Pool<D>,
    changes: &WriteSet,
    at: u64,
    header: FileHeader,
) -> Result<FileHeader, SpaceError>
    requires some { 0 < header.first_free }
    requires says { (first : List ℕ) → over (private_of changes.now) ((versions_of pool.old).pages at) 0 ≡ Some first
        → IsHeader first header }
    requires bounds { IsInBounds header }
    ensures taken { IfOk result (λ new. Takes ((versions_of pool.old).pages at) (private_of changes.now) header header.first_free new) }
    ensures versions { versions_of pool.new ≡ versions_of pool.old }
    ensures refusal { IfErr result (ReadRefused (IsWhole (over (private_of changes.now) ((versions_of pool.old).pages at)) → ⊥)
        (refused_of pool.old) (refused_of pool.new)) }
    ensures rising { refused_of pool.old ≤ refused_of pool.new }
    ensures writes { D.writes (device_of pool.new) ≡ D.writes (device_of pool.old) }
{
    let mut bytes = [0; PAGE_SIZE];
    read_changed(pool, changes, at, header.first_free, &mut bytes)?;
    match next_free(&bytes, header.page_count) {
        Some(next) => Ok(FileHeader {
            page_count: header.page_count,
            first_free: next,
            catalog_root: header.catalog_root,
        }),
        None => Err(SpaceError::Damaged),
    }
}

/// The page that can be taken, the first free one or the one behind the last, and the header after
/// that.
fn page_to_take<D: Disk>(
    pool: &mut Pool<D>,
    changes: &WriteSet,
    at: u64,
    header: FileHeader,
) -> Result<(u32, FileHeader), SpaceError>
    requires says { (first : List ℕ) → over (private_of changes.now) ((versions_of pool.old).pages at) 0 ≡ Some first
        → IsHeader first header }
    requires bounds { IsInBounds header }
    ensures taken { IfOk result (λ found. Takes ((versions_of pool.old).pages at) (private_of changes.now) header found.0 found.1) }
    ensures versions { versions_of pool.new ≡ versions_of pool.old }
    ensures refusal { IfErr result (ChangeRefused (AtLimit (over (private_of changes.now) ((versions_of pool.new).pages at) 0) (size_of (private_of changes.now)))
        (IsWhole (over (private_of changes.now) ((versions_of pool.old).pages at))
        → ⊥) (refused_of pool.old) (refused_of pool.new)) }
    ensures rising { refused_of pool.old ≤ refused_of pool.new }
    ensures writes { D.writes (device_of pool.new) ≡ D.writes (device_of pool.old) }
{
    let first = header.first_free;
    if first > 0 {
        return match take_first(pool, changes, at, header) {
            Ok(new) => Ok((first, new)),
            Err(fault) => Err(fault),
        };
    }
    let page = header.page_count;
    if page >= MOST_PAGES {
        return Err(SpaceError::Pages);
    }
    if changes.has(page) {
        return Err(SpaceError::Damaged);
    }
    let new = FileHeader {
        page_count: page + 1,
        first_free: 0,
        catalog_root: header.catalog_root,
    };
    Ok((page, new))
}

/// Writes a page that is taken, and the header that says so.
fn put_leaf(changes: &mut WriteSet, page: u32, new: FileHeader) -> Result<u32, SpaceError>
    ensures number { IfOk result (λ taken. taken ≡ page) }
    ensures written { OnOk result (PutsLeaf page new (private_of changes.old) (private_of changes.new)) }
    ensures left { OnErr result (PutsLeafAtMost page (private_of changes.old) (private_of changes.new)) }
    ensures settled { settled_of changes.new ≡ settled_of changes.old }
    ensures undone { undone_of changes.new ≡ undone_of changes.old }
    ensures refusal { IfErr result (IsNotKept (size_of (private_of changes.new))) }
{
    match put_with_header(changes, page, &new_leaf(), new) {
        Ok(()) => Ok(page),
        Err(fault) => Err(fault),
    }
}

/// Takes a page as this header of page 0 has it.
fn take_by<D: Disk>(
    pool: &mut Pool<D>,
    changes: &mut WriteSet,
    at: u64,
    header: FileHeader,
) -> Result<u32, SpaceError>
    requires says { (first : List ℕ) → over (private_of changes.old) ((versions_of pool.old).pages at) 0 ≡ Some first
        → IsHeader first header }
    requires bounds { IsInBounds header }
    ensures taken { IfOk result (λ page. Took ((versions_of pool.old).pages at) (private_of changes.old) page (private_of changes.new)) }
    ensures left { OnErr result (TookAtMost ((versions_of pool.old).pages at) (private_of changes.old) (private_of changes.new)) }
    ensures settled { settled_of changes.new ≡ settled_of changes.old }
    ensures undone { undone_of changes.new ≡ undone_of changes.old }
    ensures versions { versions_of pool.new ≡ versions_of pool.old }
    ensures refusal { IfErr result (ChangeRefused (AtLimit (over (private_of changes.new) ((versions_of pool.new).pages at) 0) (size_of (private_of changes.new)))
        (IsWhole (over (private_of changes.old) ((versions_of pool.old).pages at))
        → ⊥) (refused_of pool.old) (refused_of pool.new)) }
    ensures rising { refused_of pool.old ≤ refused_of pool.new }
    ensures writes { D.writes (device_of pool.new) ≡ D.writes (device_of pool.old) }
{
    match page_to_take(pool, changes, at, header) {
        Ok((page, new)) => put_leaf(changes, page, new),
        Err(fault) => Err(fault),
    }
}

/// Takes a page that is not in use.
fn take_page<D: Disk>(
    pool: &mut Pool<D>,
    changes: &mut WriteSet,
    at: u64,
) -> Result<u32, SpaceError>
    ensures taken { IfOk result (λ page. Took ((versions_of pool.old).pages at) (private_of changes.old) page (private_of changes.new)) }
    ensures left { OnErr result (TookAtMost ((versions_of pool.old).pages at) (private_of changes.old) (private_of changes.new)) }
    ensures from_zeros { OnOk result (TakesZeros ((versions_of pool.old).pages at) (private_of changes.old)) }
    ensures settled { settled_of changes.new ≡ settled_of changes.old }
    ensures undone { undone_of changes.new ≡ undone_of changes.old }
    ensures versions { versions_of pool.new ≡ versions_of pool.old }
    ensures refusal { IfErr result (ChangeRefused (AtLimit (over (private_of changes.new) ((versions_of pool.new).pages at) 0) (size_of (private_of changes.new)))
        (IsWhole (over (private_of changes.old) ((versions_of pool.old).pages at))
        → ⊥) (refused_of pool.old) (refused_of pool.new)) }
    ensures rising { refused_of pool.old ≤ refused_of pool.new }
    ensures writes { D.writes (device_of pool.new) ≡ D.writes (device_of pool.old) }
{
    match header_to_change(pool, changes, at) {
        Ok(header) => take_by(pool, changes, at, header),
        Err(fault) => Err(fault),
    }
}

/// Takes a page into use that was not in use, at a commit with a transaction's pages over it, and
/// answers its number: the first free page, or the one behind the last where none is free. Refused
/// for memory, where the device refuses a call, where no page is free and there are 65,536, at the
/// limit of private pages, and as damaged only where the list of free pages is none. After a
/// refusal each page in use is as it was. Page 0 is taken where it ends in zeros alone, and is
/// written so.
pub fn allocate_page<D: Disk>(
    pool: &mut Pool<D>,
    changes: &mut WriteSet,
    at: u64,
) -> Result<u32, SpaceError>
    ensures next { IfOk result (IsNext (over (private_of changes.old) ((versions_of pool.old).pages at) 0)) }
    ensures list { IfOk result (NamesRest (over (private_of changes.old) ((versions_of pool.old).pages at)) (over (private_of changes.new) ((versions_of pool.new).pages at))) }
    ensures fresh { IfOk result (IsFresh (in_use ((versions_of pool.old).pages at) (private_of changes.old)) (in_use ((versions_of pool.new).pages at) (private_of changes.new))) }
    ensures others { IfOk result (λ page. (n : ℕ) → n ≢ page
        → in_use ((versions_of pool.new).pages at) (private_of changes.new) n ≡ in_use ((versions_of pool.old).pages at) (private_of changes.old) n) }
    ensures kept { OnErr result ((n : ℕ) → IsSome (in_use ((versions_of pool.old).pages at) (private_of changes.old) n)
        → in_use ((versions_of pool.new).pages at) (private_of changes.new) n ≡ in_use ((versions_of pool.old).pages at) (private_of changes.old) n) }
    ensures whole { OnOk result (IsWhole (over (private_of changes.old) ((versions_of pool.old).pages at))
        → IsWhole (over (private_of changes.new) ((versions_of pool.new).pages at))) }
    ensures full { OnOk result (IsFull (over (private_of changes.old) ((versions_of pool.old).pages at))
        → IsFull (over (private_of changes.new) ((versions_of pool.new).pages at))) }
    ensures from_zeros { OnOk result (TakesZeros ((versions_of pool.old).pages at) (private_of changes.old)) }
    ensures zeros { KeepsZeros (private_of changes.old) (private_of changes.new) }
    ensures settled { settled_of changes.new ≡ settled_of changes.old }
    ensures undone { undone_of changes.new ≡ undone_of changes.old }
    ensures versions { versions_of pool.new ≡ versions_of pool.old }
    ensures refusal { IfErr result (ChangeRefused (AtLimit (over (private_of changes.new) ((versions_of pool.new).pages at) 0) (size_of (private_of changes.new)))
        (IsWhole (over (private_of changes.old) ((versions_of pool.old).pages at))
        → ⊥) (refused_of pool.old) (refused_of pool.new)) }
    ensures rising { refused_of pool.old ≤ refused_of pool.new }
    ensures writes { D.writes (device_of pool.new) ≡ D.writes (device_of pool.old) }
{
    take_page(pool, changes, at)
}
