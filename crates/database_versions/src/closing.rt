//! The last version, put on the device.
ghost use Rattle.std.specs.Prelude.{◌≡◌, ◌≤◌, IsTrue, IfOk, IfErr};
ghost use Rattle.store.specs.Contents.{database_of};
ghost use Rattle.pool.specs.Refused.{IsOfDevice};
ghost use Rattle.pool.specs.Versions.{versions_of, refused_of};
ghost use Rattle.database_versions.specs.Databases.{nothing, contents_in, IsDatabase, IsOwned};
ghost use Rattle.database_versions.specs.Saved.{HoldsDatabase, HoldsOwned, IsClosed};

use disk::Disk;
use pool::{CloseRefused, Pool};

/// Writes all that is committed, waits until it is on the medium, and hands the device back. A
/// refusal is that of the device, and hands the pool back with all versions as they were.
pub fn close_pool<D: Disk>(pool: Pool<D>) -> Result<D, CloseRefused<D>>
    ensures saved { IfOk result (λ device. IsTrue D.is_honest
        → IsDatabase ((versions_of pool).pages (versions_of pool).last) nothing
        → HoldsDatabase (D.bytes device) (database_of (contents_in ((versions_of pool).pages (versions_of pool).last) nothing))) }
    ensures owned { IfOk result (λ device. IsTrue D.is_honest
        → IsOwned ((versions_of pool).pages (versions_of pool).last) nothing
        → HoldsOwned (D.bytes device)) }
    ensures closed { IfOk result (λ device. IsTrue D.is_honest
        → IsDatabase ((versions_of pool).pages (versions_of pool).last) nothing → IsClosed (D.bytes device)) }
    ensures settled { IfOk result (λ device. D.settled device) }
    ensures rising { IfOk result (λ device. refused_of pool ≤ D.refused device) }
    ensures versions { IfErr result (λ r. versions_of r.pool ≡ versions_of pool) }
    ensures refusal { IfErr result (λ r. IsOfDevice (refused_of pool) (refused_of r.pool) r.cause) }
{
    pool.close()
}
