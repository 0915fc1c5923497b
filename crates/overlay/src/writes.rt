//! Pages written over a version.
ghost use Rattle.std.specs.Prelude.{◌≡◌, ◌≢◌, ◌≤◌, ℕ, Some, None, IsSome, slice_index, OnOk, OnErr, IfErr};
ghost use Rattle.page_space.specs.Space.{ChangeRefused};
ghost use Rattle.sqlrecord.specs.Page.{IsNode};
ghost use Rattle.pool.specs.Pages.{over};
ghost use Rattle.pool.specs.Versions.{versions_of, device_of, refused_of};
ghost use Rattle.overlay.specs.WriteSet.{settled_of, private_of, undone_of};
ghost use Rattle.overlay.specs.InUse.{in_use};
ghost use Rattle.overlay.specs.Layers.{size_of};
ghost use Rattle.overlay.specs.Whole.{IsWhole, IsFull, AtLimit, KeepsZeros};

use crate::uses::write_page;
use crate::write_set::WriteSet;
use disk::Disk;
use page_space::SpaceError;
use pagefile::Page;
use pool::Pool;

/// Puts these bytes, which are those of a sound page of a tree, in place of a page in use at a
/// commit with a transaction's pages over it. Refused for memory, where the device refuses a call,
/// at the limit of private pages, and as damaged only where the page is not in use; then no page is
/// other than it was.
pub fn replace_page<D: Disk>(
    pool: &mut Pool<D>,
    changes: &mut WriteSet,
    at: u64,
    page: u32,
    bytes: &Page,
) -> Result<(), SpaceError>
    requires kind { slice_index bytes.now 0 ≢ 3 }
    requires node { IsNode bytes.now }
    ensures written { OnOk result (IsSome (in_use ((versions_of pool.old).pages at) (private_of changes.old) page)
        → in_use ((versions_of pool.new).pages at) (private_of changes.new) page ≡ Some bytes.now) }
    ensures others { (n : ℕ) → n ≢ page
        → in_use ((versions_of pool.new).pages at) (private_of changes.new) n ≡ in_use ((versions_of pool.old).pages at) (private_of changes.old) n }
    ensures whole { OnOk result (IsWhole (over (private_of changes.old) ((versions_of pool.old).pages at))
        → IsWhole (over (private_of changes.new) ((versions_of pool.new).pages at))) }
    ensures full { OnOk result (IsFull (over (private_of changes.old) ((versions_of pool.old).pages at))
        → IsFull (over (private_of changes.new) ((versions_of pool.new).pages at))) }
    ensures zeros { KeepsZeros (private_of changes.old) (private_of changes.new) }
    ensures left { OnErr result (private_of changes.new ≡ private_of changes.old) }
    ensures settled { settled_of changes.new ≡ settled_of changes.old }
    ensures undone { undone_of changes.new ≡ undone_of changes.old }
    ensures versions { versions_of pool.new ≡ versions_of pool.old }
    ensures refusal { IfErr result (ChangeRefused (AtLimit (over (private_of changes.new) ((versions_of pool.new).pages at) 0) (size_of (private_of changes.new)))
        (in_use ((versions_of pool.old).pages at) (private_of changes.old) page ≡ None) (refused_of pool.old) (refused_of pool.new)) }
    ensures rising { refused_of pool.old ≤ refused_of pool.new }
    ensures writes { D.writes (device_of pool.new) ≡ D.writes (device_of pool.old) }
{
    write_page(pool, changes, at, page, bytes)
}
