//! The root of the database, named by page 0.
ghost use Rattle.std.specs.Prelude.{◌≡◌, ◌≤◌, IfErr, OnOk};
ghost use Rattle.store.specs.Contents.{Contents};
ghost use Rattle.page_space.specs.Space.{ChangeRefused};
ghost use Rattle.pool.specs.Pages.{over};
ghost use Rattle.pool.specs.Versions.{versions_of, device_of, refused_of};
ghost use Rattle.overlay.specs.WriteSet.{private_of, settled_of};
ghost use Rattle.overlay.specs.InUse.{in_use};
ghost use Rattle.overlay.specs.Layers.{size_of};
ghost use Rattle.overlay.specs.Whole.{IsFull, IsWholeOver, AtLimit};
ghost use Rattle.database_trees.specs.Changed.{DatabaseWritten, DatabaseOwned};
ghost use Rattle.database_versions.specs.Changed.{IsNow};
ghost use Rattle.database_versions.specs.Databases.{IsOwned};

use database_trees::database_stays;
use disk::Disk;
use overlay::{WriteSet, set_catalog_root};
use page_space::SpaceError;
use pool::Pool;
use stored_tables::{contents_are_read, numbers_rise};

/// Lets page 0 name the root at which the pages hold a database.
pub(crate) fn put_root<D: Disk>(
    pool: &mut Pool<D>,
    changes: &mut WriteSet,
    at: u64,
    root: u32,
) -> Result<(), SpaceError>
    ensures put { (contents : Contents) → IsWholeOver ((versions_of pool.old).pages at) (private_of changes.old)
        → DatabaseWritten (in_use ((versions_of pool.old).pages at) (private_of changes.old)) contents root
        → OnOk result (IsNow ((versions_of pool.old).pages at) (private_of changes.new) contents) }
    ensures owned { (contents : Contents) → IsFull ((versions_of pool.old).pages at)
        → IsWholeOver ((versions_of pool.old).pages at) (private_of changes.old)
        → DatabaseOwned (in_use ((versions_of pool.old).pages at) (private_of changes.old)) contents root
        → OnOk result (IsOwned ((versions_of pool.old).pages at) (private_of changes.new)) }
    ensures settled { settled_of changes.new ≡ settled_of changes.old }
    ensures versions { versions_of pool.new ≡ versions_of pool.old }
    ensures refusal { IfErr result (ChangeRefused (AtLimit (over (private_of changes.new) ((versions_of pool.old).pages at) 0) (size_of (private_of changes.new)))
        ((contents : Contents) → IsWholeOver ((versions_of pool.old).pages at) (private_of changes.old)
        → DatabaseWritten (in_use ((versions_of pool.old).pages at) (private_of changes.old)) contents root → ⊥)
        (refused_of pool.old) (refused_of pool.new)) }
    ensures rising { refused_of pool.old ≤ refused_of pool.new }
    ensures writes { D.writes (device_of pool.new) ≡ D.writes (device_of pool.old) }
{
    database_stays();
    contents_are_read();
    numbers_rise();
    set_catalog_root(pool, changes, at, root)
}
