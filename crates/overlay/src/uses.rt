//! Which pages are in use, and what page 0 says of them.
ghost use Rattle.std.specs.Prelude.{◌≡◌, ◌+◌, length, ◌≢◌, ◌<◌, ◌≤◌, ℕ, List, Some, None, true, false, slice_index, OnOk, OnErr, IfOk, IfErr};
ghost use Rattle.page_space.specs.Space.{ReadRefused, ChangeRefused};
ghost use Rattle.pagefile.specs.Number.{number_at};
ghost use Rattle.sqlrecord.specs.Page.{IsNode};
ghost use Rattle.pool.specs.Pages.{over, only};
ghost use Rattle.pool.specs.Versions.{versions_of, device_of, refused_of};
ghost use Rattle.overlay.specs.WriteSet.{settled_of, private_of, undone_of};
ghost use Rattle.overlay.specs.InUse.{in_use};
ghost use Rattle.overlay.specs.Layers.{size_of};
ghost use Rattle.overlay.specs.Whole.{IsWritable, AtLimit};

use crate::version::{read_changed, read_version};
use crate::write_set::WriteSet;
use byteorder::{BigEndian, ByteOrder};
use disk::Disk;
use page_space::SpaceError;
use pagefile::{PAGE_SIZE, Page};
use pool::Pool;

/// The kind of a free page, its first byte.
const FREE: u8 = 3;

/// No page has this number or a greater one.
pub(crate) const MOST_PAGES: u32 = 65_536;

/// The number in the four bytes of a page from a place on.
pub(crate) fn number_in(page: &[u8], at: usize) -> u32
    requires { at + 4 ≤ length page.now }
    ensures { result ≡ number_at page.now at }
{
    BigEndian::read_u32(&page[at..])
}

/// The page count that page 0 says.
fn page_count<D: Disk>(pool: &mut Pool<D>, changes: &WriteSet, at: u64) -> Result<u32, SpaceError>
    ensures count { IfOk result (λ count. (first : List ℕ)
        → over (private_of changes.now) ((versions_of pool.old).pages at) 0 ≡ Some first → number_at first 8 ≡ count) }
    ensures versions { versions_of pool.new ≡ versions_of pool.old }
    ensures refusal { IfErr result (ReadRefused (over (private_of changes.now) ((versions_of pool.old).pages at) 0 ≡ None) (refused_of pool.old) (refused_of pool.new)) }
    ensures rising { refused_of pool.old ≤ refused_of pool.new }
    ensures writes { D.writes (device_of pool.new) ≡ D.writes (device_of pool.old) }
{
    let mut first = [0; PAGE_SIZE];
    match read_changed(pool, changes, at, 0, &mut first) {
        Ok(_) => Ok(number_in(&first, 8)),
        Err(fault) => Err(fault),
    }
}

/// Whether a page of a version, which the transaction has not written, is in use.
fn is_stored<D: Disk>(
    pool: &mut Pool<D>,
    changes: &WriteSet,
    at: u64,
    page: u32,
) -> Result<bool, SpaceError>
    requires { private_of changes.now page ≡ None }
    ensures unused { IfOk result (λ used. used ≡ false
        → in_use ((versions_of pool.old).pages at) (private_of changes.now) page ≡ None) }
    ensures used { IfOk result (λ used. used ≡ true
        → IsWritable (over (private_of changes.now) ((versions_of pool.old).pages at)) page) }
    ensures versions { versions_of pool.new ≡ versions_of pool.old }
    ensures refusal { IfErr result (ReadRefused (in_use ((versions_of pool.old).pages at) (private_of changes.now) page ≡ None)
        (refused_of pool.old) (refused_of pool.new)) }
    ensures rising { refused_of pool.old ≤ refused_of pool.new }
    ensures writes { D.writes (device_of pool.new) ≡ D.writes (device_of pool.old) }
{
    let count = page_count(pool, changes, at)?;
    if page >= count {
        return Ok(false);
    }
    let mut bytes = [0; PAGE_SIZE];
    read_version(pool, at, page, &mut bytes)?;
    if bytes[0] == FREE {
        return Ok(false);
    }
    Ok(true)
}

/// Whether a page is in use.
pub(crate) fn is_in_use<D: Disk>(
    pool: &mut Pool<D>,
    changes: &WriteSet,
    at: u64,
    page: u32,
) -> Result<bool, SpaceError>
    ensures unused { IfOk result (λ used. used ≡ false
        → in_use ((versions_of pool.old).pages at) (private_of changes.now) page ≡ None) }
    ensures used { IfOk result (λ used. used ≡ true
        → IsWritable (over (private_of changes.now) ((versions_of pool.old).pages at)) page) }
    ensures within { IfOk result (λ used. used ≡ true → 0 < page) }
    ensures versions { versions_of pool.new ≡ versions_of pool.old }
    ensures refusal { IfErr result (ReadRefused (in_use ((versions_of pool.old).pages at) (private_of changes.now) page ≡ None)
        (refused_of pool.old) (refused_of pool.new)) }
    ensures rising { refused_of pool.old ≤ refused_of pool.new }
    ensures writes { D.writes (device_of pool.new) ≡ D.writes (device_of pool.old) }
{
    if page == 0 {
        return Ok(false);
    }
    if page >= MOST_PAGES {
        return Ok(false);
    }
    match changes.get(page) {
        Some(frame) => {
            let bytes = frame.page();
            if bytes[0] == FREE {
                return Ok(false);
            }
            Ok(true)
        }
        None => is_stored(pool, changes, at, page),
    }
}

/// Puts these bytes, a sound page of a tree, in place of a page in use.
pub(crate) fn write_page<D: Disk>(
    pool: &mut Pool<D>,
    changes: &mut WriteSet,
    at: u64,
    page: u32,
    bytes: &Page,
) -> Result<(), SpaceError>
    requires kind { slice_index bytes.now 0 ≢ 3 }
    requires node { IsNode bytes.now }
    ensures written { OnOk result (private_of changes.new ≡ over (only page bytes.now) (private_of changes.old)) }
    ensures used { OnOk result (IsWritable (over (private_of changes.old) ((versions_of pool.old).pages at)) page) }
    ensures within { OnOk result (0 < page) }
    ensures left { OnErr result (private_of changes.new ≡ private_of changes.old) }
    ensures settled { settled_of changes.new ≡ settled_of changes.old }
    ensures undone { undone_of changes.new ≡ undone_of changes.old }
    ensures versions { versions_of pool.new ≡ versions_of pool.old }
    ensures refusal { IfErr result (ChangeRefused (AtLimit (over (private_of changes.new) ((versions_of pool.new).pages at) 0) (size_of (private_of changes.new)))
        (in_use ((versions_of pool.old).pages at) (private_of changes.old) page ≡ None) (refused_of pool.old) (refused_of pool.new)) }
    ensures rising { refused_of pool.old ≤ refused_of pool.new }
    ensures writes { D.writes (device_of pool.new) ≡ D.writes (device_of pool.old) }
{
    let used = is_in_use(pool, changes, at, page)?;
    if !used {
        return Err(SpaceError::Damaged);
    }
    changes.put_node(page, bytes)
}
