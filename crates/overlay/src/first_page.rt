//! Page 0 of a version with a transaction's changes.
ghost use Rattle.std.specs.Prelude.{◌≡◌, ◌≤◌, ℕ, List, None, Some, true, false, IsNone, OnOk, IfOk, IfErr, IfSome};
ghost use Rattle.page_space.specs.Space.{ReadRefused};
ghost use Rattle.pagefile.specs.declared.header.FileHeader.{FileHeader};
ghost use Rattle.pagefile.specs.Header.{IsHeader, IsInBounds};
ghost use Rattle.pool.specs.Pages.{over};
ghost use Rattle.pool.specs.Versions.{versions_of, device_of, refused_of};
ghost use Rattle.overlay.specs.WriteSet.{private_of};
ghost use Rattle.pool.specs.Zeros.{has_zeros, EndsInZeros};
ghost use Rattle.overlay.specs.Whole.{IsSaid, IsTakable, TakesZeros};

use crate::version::read_changed;
use crate::write_set::WriteSet;
use disk::Disk;
use page_space::SpaceError;
use pagefile::{FileHeader, PAGE_SIZE, Page};
use pool::{Pool, ends_in_zeros};

/// The header that a page is; none where it is no header within its bounds.
fn header_of(first: &Page) -> Option<FileHeader>
    ensures header { IfSome result (λ h. IsHeader first.now h) }
    ensures bounds { IfSome result IsInBounds }
    ensures none { IsNone result → (h : _) → IsHeader first.now h → IsInBounds h → ⊥ }
{
    let header = FileHeader::decode(first)?;
    if !header.is_in_bounds() {
        return None;
    }
    Some(header)
}

/// The fields of page 0 at a commit with a transaction's pages over it: the page count, the first
/// free page and the root of the catalogue. Refused for memory, where the device refuses a call,
/// and as damaged only where page 0 is no header within its bounds.
pub fn read_header<D: Disk>(
    pool: &mut Pool<D>,
    changes: &WriteSet,
    at: u64,
) -> Result<FileHeader, SpaceError>
    ensures says { IfOk result (λ header. (first : List ℕ)
        → over (private_of changes.now) ((versions_of pool.old).pages at) 0 ≡ Some first → IsHeader first header) }
    ensures bounds { IfOk result IsInBounds }
    ensures versions { versions_of pool.new ≡ versions_of pool.old }
    ensures refusal { IfErr result (ReadRefused ((header : FileHeader)
        → IsSaid (over (private_of changes.now) ((versions_of pool.old).pages at) 0) header → ⊥)
        (refused_of pool.old) (refused_of pool.new)) }
    ensures rising { refused_of pool.old ≤ refused_of pool.new }
    ensures writes { D.writes (device_of pool.new) ≡ D.writes (device_of pool.old) }
{
    let mut first = [0; PAGE_SIZE];
    read_changed(pool, changes, at, 0, &mut first)?;
    match header_of(&first) {
        Some(header) => Ok(header),
        None => Err(SpaceError::Damaged),
    }
}

/// Whether a page 0 that was read can be changed: the transaction wrote it, or it ends in zeros.
fn is_takable(changes: &WriteSet, first: &Page) -> bool
    ensures zeros { result ≡ true → private_of changes.now 0 ≡ None → EndsInZeros first.now }
    ensures never { result ≡ false → has_zeros first.now ≡ false }
{
    if changes.has(0) {
        return true;
    }
    ends_in_zeros(first)
}

/// The fields of page 0, to be written again with others. Refused as damaged too where page 0,
/// which the transaction has not written, does not end in zeros.
pub(crate) fn header_to_change<D: Disk>(
    pool: &mut Pool<D>,
    changes: &WriteSet,
    at: u64,
) -> Result<FileHeader, SpaceError>
    ensures says { IfOk result (λ header. (first : List ℕ)
        → over (private_of changes.now) ((versions_of pool.old).pages at) 0 ≡ Some first → IsHeader first header) }
    ensures bounds { IfOk result IsInBounds }
    ensures zeros { OnOk result (TakesZeros ((versions_of pool.old).pages at) (private_of changes.now)) }
    ensures versions { versions_of pool.new ≡ versions_of pool.old }
    ensures refusal { IfErr result (ReadRefused ((header : FileHeader)
        → IsTakable (over (private_of changes.now) ((versions_of pool.old).pages at) 0) header → ⊥)
        (refused_of pool.old) (refused_of pool.new)) }
    ensures rising { refused_of pool.old ≤ refused_of pool.new }
    ensures writes { D.writes (device_of pool.new) ≡ D.writes (device_of pool.old) }
{
    let mut page = [0; PAGE_SIZE];
    read_changed(pool, changes, at, 0, &mut page)?;
    if !is_takable(changes, &page) {
        return Err(SpaceError::Damaged);
    }
    match header_of(&page) {
        Some(header) => Ok(header),
        None => Err(SpaceError::Damaged),
    }
}
