//! The root of the catalogue, a field of page 0.
ghost use Rattle.std.specs.Prelude.{◌≡◌, ◌≤◌, ◌<◌, ◌⊎◌, ℕ, IsSome, OnOk, OnErr, IfErr};
ghost use Rattle.page_space.specs.Space.{ChangeRefused};
ghost use Rattle.pagefile.specs.declared.header.FileHeader.{FileHeader};
ghost use Rattle.pool.specs.Pages.{over};
ghost use Rattle.pool.specs.Versions.{versions_of, device_of, refused_of};
ghost use Rattle.overlay.specs.WriteSet.{settled_of, private_of, undone_of};
ghost use Rattle.overlay.specs.InUse.{in_use};
ghost use Rattle.overlay.specs.Layers.{size_of, IsNotKept};
ghost use Rattle.overlay.specs.Whole.{IsWhole, IsFull, AtLimit, HasRoot, TakesZeros, KeepsZeros};
ghost use Rattle.overlay.specs.Puts.{PutsHeader, Rooted, with_root};

use crate::first_page::{header_to_change, read_header};
use crate::write_set::WriteSet;
use disk::Disk;
use page_space::SpaceError;
use pagefile::FileHeader;
use pool::Pool;

/// Writes this header as page 0, with another root.
fn put_root(changes: &mut WriteSet, header: FileHeader, root: u32) -> Result<(), SpaceError>
    ensures written { OnOk result (PutsHeader (with_root header root) (private_of changes.old) (private_of changes.new)) }
    ensures left { OnErr result (private_of changes.new ≡ private_of changes.old) }
    ensures settled { settled_of changes.new ≡ settled_of changes.old }
    ensures undone { undone_of changes.new ≡ undone_of changes.old }
    ensures refusal { IfErr result (IsNotKept (size_of (private_of changes.new))) }
{
    let first = FileHeader {
        page_count: header.page_count,
        first_free: header.first_free,
        catalog_root: root,
    };
    changes.put(0, &first.encode())
}

/// Writes page 0 with this root.
fn write_root<D: Disk>(
    pool: &mut Pool<D>,
    changes: &mut WriteSet,
    at: u64,
    root: u32,
) -> Result<(), SpaceError>
    ensures written { OnOk result (Rooted (over (private_of changes.old) ((versions_of pool.old).pages at)) root (private_of changes.old) (private_of changes.new)) }
    ensures left { OnErr result (private_of changes.new ≡ private_of changes.old) }
    ensures from_zeros { OnOk result (TakesZeros ((versions_of pool.old).pages at) (private_of changes.old)) }
    ensures settled { settled_of changes.new ≡ settled_of changes.old }
    ensures undone { undone_of changes.new ≡ undone_of changes.old }
    ensures versions { versions_of pool.new ≡ versions_of pool.old }
    ensures refusal { IfErr result (ChangeRefused (AtLimit (over (private_of changes.new) ((versions_of pool.new).pages at) 0) (size_of (private_of changes.new)))
        (IsWhole (over (private_of changes.old) ((versions_of pool.old).pages at))
        → (root ≡ 0) ⊎ IsSome (in_use ((versions_of pool.old).pages at) (private_of changes.old) root) → ⊥)
        (refused_of pool.old) (refused_of pool.new)) }
    ensures rising { refused_of pool.old ≤ refused_of pool.new }
    ensures writes { D.writes (device_of pool.new) ≡ D.writes (device_of pool.old) }
{
    match header_to_change(pool, changes, at) {
        Ok(header) => {
            if root >= header.page_count {
                return Err(SpaceError::Damaged);
            }
            put_root(changes, header, root)
        }
        Err(fault) => Err(fault),
    }
}

/// Lets page 0 name this root.
fn set_root<D: Disk>(
    pool: &mut Pool<D>,
    changes: &mut WriteSet,
    at: u64,
    root: u32,
) -> Result<(), SpaceError>
    ensures written { OnOk result (Rooted (over (private_of changes.old) ((versions_of pool.old).pages at)) root (private_of changes.old) (private_of changes.new)) }
    ensures same { IsSome (over (private_of changes.old) ((versions_of pool.old).pages at) 0)
        → HasRoot (over (private_of changes.old) ((versions_of pool.old).pages at) 0) root
        → OnOk result (private_of changes.new ≡ private_of changes.old) }
    ensures left { OnErr result (private_of changes.new ≡ private_of changes.old) }
    ensures from_zeros { OnOk result ((private_of changes.new ≡ private_of changes.old)
        ⊎ TakesZeros ((versions_of pool.old).pages at) (private_of changes.old)) }
    ensures settled { settled_of changes.new ≡ settled_of changes.old }
    ensures undone { undone_of changes.new ≡ undone_of changes.old }
    ensures versions { versions_of pool.new ≡ versions_of pool.old }
    ensures refusal { IfErr result (ChangeRefused (AtLimit (over (private_of changes.new) ((versions_of pool.new).pages at) 0) (size_of (private_of changes.new)))
        (IsWhole (over (private_of changes.old) ((versions_of pool.old).pages at))
        → (root ≡ 0) ⊎ IsSome (in_use ((versions_of pool.old).pages at) (private_of changes.old) root) → ⊥)
        (refused_of pool.old) (refused_of pool.new)) }
    ensures rising { refused_of pool.old ≤ refused_of pool.new }
    ensures writes { D.writes (device_of pool.new) ≡ D.writes (device_of pool.old) }
{
    match read_header(pool, changes, at) {
        Ok(header) => {
            if header.catalog_root == root {
                return Ok(());
            }
            write_root(pool, changes, at, root)
        }
        Err(fault) => Err(fault),
    }
}

/// Lets page 0 name this root of the catalogue, 0 or a page in use, at a commit with a
/// transaction's pages over it. Refused for memory, where the device refuses a call, at the limit
/// of private pages, and as damaged only where the root is neither, or the list of free pages is
/// none; then no page is other than it was. Nothing is written where page 0 names it already;
/// otherwise it is taken where it ends in zeros alone, and is written so.
pub fn set_catalog_root<D: Disk>(
    pool: &mut Pool<D>,
    changes: &mut WriteSet,
    at: u64,
    root: u32,
) -> Result<(), SpaceError>
    ensures root { OnOk result (HasRoot (over (private_of changes.new) ((versions_of pool.new).pages at) 0) root) }
    ensures same { IsSome (over (private_of changes.old) ((versions_of pool.old).pages at) 0)
        → HasRoot (over (private_of changes.old) ((versions_of pool.old).pages at) 0) root
        → OnOk result (private_of changes.new ≡ private_of changes.old) }
    ensures left { OnErr result (private_of changes.new ≡ private_of changes.old) }
    ensures others { (n : ℕ)
        → in_use ((versions_of pool.new).pages at) (private_of changes.new) n ≡ in_use ((versions_of pool.old).pages at) (private_of changes.old) n }
    ensures whole { OnOk result (IsWhole (over (private_of changes.old) ((versions_of pool.old).pages at))
        → IsWhole (over (private_of changes.new) ((versions_of pool.new).pages at))) }
    ensures full { OnOk result (IsFull (over (private_of changes.old) ((versions_of pool.old).pages at))
        → IsFull (over (private_of changes.new) ((versions_of pool.new).pages at))) }
    ensures from_zeros { OnOk result ((private_of changes.new ≡ private_of changes.old)
        ⊎ TakesZeros ((versions_of pool.old).pages at) (private_of changes.old)) }
    ensures zeros { KeepsZeros (private_of changes.old) (private_of changes.new) }
    ensures settled { settled_of changes.new ≡ settled_of changes.old }
    ensures undone { undone_of changes.new ≡ undone_of changes.old }
    ensures versions { versions_of pool.new ≡ versions_of pool.old }
    ensures refusal { IfErr result (ChangeRefused (AtLimit (over (private_of changes.new) ((versions_of pool.new).pages at) 0) (size_of (private_of changes.new)))
        (IsWhole (over (private_of changes.old) ((versions_of pool.old).pages at))
        → (root ≡ 0) ⊎ IsSome (in_use ((versions_of pool.old).pages at) (private_of changes.old) root) → ⊥)
        (refused_of pool.old) (refused_of pool.new)) }
    ensures rising { refused_of pool.old ≤ refused_of pool.new }
    ensures writes { D.writes (device_of pool.new) ≡ D.writes (device_of pool.old) }
{
    set_root(pool, changes, at, root)
}
