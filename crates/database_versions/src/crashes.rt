//! What a crash leaves of the last commit. This function does nothing: its contract is the law.
ghost use Rattle.std.specs.Prelude.{◌≡◌, false, IsTrue};
ghost use Rattle.disk.specs.Crashes.{Always};
ghost use Rattle.store.specs.Contents.{database_of};
ghost use Rattle.pool.specs.Versions.{versions_of, device_of, is_broken};
ghost use Rattle.database_versions.specs.Databases.{nothing, contents_in, IsDatabase, IsOwned};
ghost use Rattle.database_versions.specs.Saved.{HoldsDatabase, HoldsOwned};

use disk::Disk;
use pool::Pool;

/// Between two calls whatever a crash leaves of the device is a file that holds the database of the
/// last commit, and of which no page is lost where none is lost in that commit; but where the
/// device refused a commit.
pub fn last_commit_is_left<D: Disk>(pool: &Pool<D>)
    ensures holds { IsTrue D.is_durable → IsTrue D.is_honest → is_broken pool.now ≡ false
        → IsDatabase ((versions_of pool.now).pages (versions_of pool.now).last) nothing
        → Always (D.may_leave (device_of pool.now)) (λ c. HoldsDatabase c (database_of (contents_in ((versions_of pool.now).pages (versions_of pool.now).last) nothing))) }
    ensures owned { IsTrue D.is_durable → IsTrue D.is_honest → is_broken pool.now ≡ false
        → IsOwned ((versions_of pool.now).pages (versions_of pool.now).last) nothing
        → Always (D.may_leave (device_of pool.now)) (λ c. HoldsOwned c) }
{
    let _pool = pool;
}
