//! Pages that are written together with page 0.
ghost use Rattle.std.specs.Prelude.{◌≡◌, ◌≢◌, ◌<◌, ◌≤◌, ℕ, None, IsSome, OnOk, OnErr, IfErr};
ghost use Rattle.page_space.specs.Space.{ChangeRefused};
ghost use Rattle.pagefile.specs.declared.header.FileHeader.{FileHeader};
ghost use Rattle.pool.specs.Pages.{over};
ghost use Rattle.pool.specs.Versions.{versions_of, device_of, refused_of};
ghost use Rattle.overlay.specs.WriteSet.{settled_of, private_of, undone_of};
ghost use Rattle.overlay.specs.Layers.{size_of, IsNotKept};
ghost use Rattle.overlay.specs.InUse.{in_use};
ghost use Rattle.overlay.specs.Whole.{IsWhole, IsFull, AtLimit, IsFirstFree, TakesZeros, KeepsZeros};
ghost use Rattle.overlay.specs.Puts.{PutsBoth, PutsAtMost, Freed, Frees, WritesAtMost};

use crate::first_page::header_to_change;
use crate::uses::is_in_use;
use crate::write_set::WriteSet;
use disk::Disk;
use page_space::SpaceError;
use pagefile::{FileHeader, FreePage, Page};
use pool::Pool;

/// Writes a page, and this header as page 0. A refusal leaves each other page.
pub(crate) fn put_with_header(
    changes: &mut WriteSet,
    page: u32,
    bytes: &Page,
    header: FileHeader,
) -> Result<(), SpaceError>
    ensures written { OnOk result (PutsBoth page bytes.now header (private_of changes.old) (private_of changes.new)) }
    ensures left { OnErr result (PutsAtMost page bytes.now (private_of changes.old) (private_of changes.new)) }
    ensures settled { settled_of changes.new ≡ settled_of changes.old }
    ensures undone { undone_of changes.new ≡ undone_of changes.old }
    ensures refusal { IfErr result (IsNotKept (size_of (private_of changes.new))) }
{
    changes.put(page, bytes)?;
    changes.put(0, &header.encode())
}

/// Writes a page as a free one, the first of the list of this header.
fn put_free(changes: &mut WriteSet, page: u32, header: FileHeader) -> Result<(), SpaceError>
    requires { 0 < page }
    ensures written { OnOk result (Freed page header (private_of changes.old) (private_of changes.new)) }
    ensures left { OnErr result (WritesAtMost page (private_of changes.old) (private_of changes.new)) }
    ensures settled { settled_of changes.new ≡ settled_of changes.old }
    ensures undone { undone_of changes.new ≡ undone_of changes.old }
    ensures refusal { IfErr result (IsNotKept (size_of (private_of changes.new))) }
{
    let free = FreePage {
        next: header.first_free,
    };
    let first = FileHeader {
        page_count: header.page_count,
        first_free: page,
        catalog_root: header.catalog_root,
    };
    put_with_header(changes, page, &free.encode(), first)
}

/// Writes a page in use as a free one, the first of the list.
fn free_used<D: Disk>(
    pool: &mut Pool<D>,
    changes: &mut WriteSet,
    at: u64,
    page: u32,
) -> Result<(), SpaceError>
    ensures written { OnOk result (Frees (over (private_of changes.old) ((versions_of pool.old).pages at)) page (private_of changes.old) (private_of changes.new)) }
    ensures left { OnErr result (WritesAtMost page (private_of changes.old) (private_of changes.new)) }
    ensures from_zeros { OnOk result (TakesZeros ((versions_of pool.old).pages at) (private_of changes.old)) }
    ensures settled { settled_of changes.new ≡ settled_of changes.old }
    ensures undone { undone_of changes.new ≡ undone_of changes.old }
    ensures versions { versions_of pool.new ≡ versions_of pool.old }
    ensures refusal { IfErr result (ChangeRefused (AtLimit (over (private_of changes.new) ((versions_of pool.new).pages at) 0) (size_of (private_of changes.new)))
        (IsWhole (over (private_of changes.old) ((versions_of pool.old).pages at))
        → IsSome (in_use ((versions_of pool.old).pages at) (private_of changes.old) page) → ⊥)
        (refused_of pool.old) (refused_of pool.new)) }
    ensures rising { refused_of pool.old ≤ refused_of pool.new }
    ensures writes { D.writes (device_of pool.new) ≡ D.writes (device_of pool.old) }
{
    let used = is_in_use(pool, changes, at, page)?;
    if !used {
        return Err(SpaceError::Damaged);
    }
    match header_to_change(pool, changes, at) {
        Ok(header) => put_free(changes, page, header),
        Err(fault) => Err(fault),
    }
}

/// Takes a page out of use, at a commit with a transaction's pages over it: it is the first free
/// page then. Refused for memory, where the device refuses a call, at the limit of private pages,
/// and as damaged only where the page is not in use, or the list of free pages is none. After a
/// refusal of this page nothing is said; each other page is as it was. Page 0 is taken where it
/// ends in zeros alone, and is written so.
pub fn free_page<D: Disk>(
    pool: &mut Pool<D>,
    changes: &mut WriteSet,
    at: u64,
    page: u32,
) -> Result<(), SpaceError>
    ensures freed { OnOk result (in_use ((versions_of pool.new).pages at) (private_of changes.new) page ≡ None) }
    ensures first { OnOk result (IsFirstFree (over (private_of changes.old) ((versions_of pool.old).pages at)) (over (private_of changes.new) ((versions_of pool.new).pages at)) page) }
    ensures others { (n : ℕ) → n ≢ page
        → in_use ((versions_of pool.new).pages at) (private_of changes.new) n ≡ in_use ((versions_of pool.old).pages at) (private_of changes.old) n }
    ensures whole { OnOk result (IsWhole (over (private_of changes.old) ((versions_of pool.old).pages at))
        → IsWhole (over (private_of changes.new) ((versions_of pool.new).pages at))) }
    ensures full { OnOk result (IsFull (over (private_of changes.old) ((versions_of pool.old).pages at))
        → IsFull (over (private_of changes.new) ((versions_of pool.new).pages at))) }
    ensures from_zeros { OnOk result (TakesZeros ((versions_of pool.old).pages at) (private_of changes.old)) }
    ensures zeros { KeepsZeros (private_of changes.old) (private_of changes.new) }
    ensures settled { settled_of changes.new ≡ settled_of changes.old }
    ensures undone { undone_of changes.new ≡ undone_of changes.old }
    ensures versions { versions_of pool.new ≡ versions_of pool.old }
    ensures refusal { IfErr result (ChangeRefused (AtLimit (over (private_of changes.new) ((versions_of pool.new).pages at) 0) (size_of (private_of changes.new)))
        (IsWhole (over (private_of changes.old) ((versions_of pool.old).pages at))
        → IsSome (in_use ((versions_of pool.old).pages at) (private_of changes.old) page) → ⊥)
        (refused_of pool.old) (refused_of pool.new)) }
    ensures rising { refused_of pool.old ≤ refused_of pool.new }
    ensures writes { D.writes (device_of pool.new) ≡ D.writes (device_of pool.old) }
{
    free_used(pool, changes, at, page)
}
