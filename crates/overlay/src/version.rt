//! Reads through the changes of a transaction into a version of a pool.
ghost use Rattle.std.specs.Prelude.{◌≡◌, ◌≤◌, ℕ, List, Some, None, IsSome, IsTrue, true, OnOk, IfOk, IfErr};
ghost use Rattle.sqlrecord.specs.Page.{IsNode};
ghost use Rattle.page_space.specs.Space.{ReadRefused};
ghost use Rattle.pagefile.specs.Number.{number_at};
ghost use Rattle.pool.specs.Pages.{over};
ghost use Rattle.pool.specs.Versions.{versions_of, device_of, refused_of};
ghost use Rattle.overlay.specs.WriteSet.{private_of};

use crate::write_set::WriteSet;
use disk::Disk;
use page_space::SpaceError;
use pagefile::Page;
use pool::{Pool, PoolError};

/// Gives what lies at a page at a commit, and tells whether it is known to be a sound page of a
/// tree. Refused where the device refuses, and as damaged where no page lies there.
pub(crate) fn read_version<D: Disk>(
    pool: &mut Pool<D>,
    at: u64,
    page: u32,
    into: &mut Page,
) -> Result<bool, SpaceError>
    ensures node { IfOk result (λ known. known ≡ true → IsNode into.new) }
    ensures value { OnOk result ((bytes : List ℕ) → (versions_of pool.old).pages at page ≡ Some bytes
        → into.new ≡ bytes) }
    ensures there { OnOk result (IsTrue D.is_honest → IsSome ((versions_of pool.old).pages at page)) }
    ensures versions { versions_of pool.new ≡ versions_of pool.old }
    ensures refusal { IfErr result (ReadRefused ((versions_of pool.old).pages at page ≡ None) (refused_of pool.old) (refused_of pool.new)) }
    ensures rising { refused_of pool.old ≤ refused_of pool.new }
    ensures writes { D.writes (device_of pool.new) ≡ D.writes (device_of pool.old) }
{
    match pool.read(at, page, into) {
        Ok(known) => Ok(known),
        Err(PoolError::Device(_)) => Err(SpaceError::Disk),
        Err(PoolError::Damaged) => Err(SpaceError::Damaged),
        Err(PoolError::Memory) => unreachable!(),
        Err(PoolError::Pages) => unreachable!(),
        Err(PoolError::Kept) => unreachable!(),
    }
}

/// The same, with the pages that the transaction has written over it.
pub(crate) fn read_changed<D: Disk>(
    pool: &mut Pool<D>,
    changes: &WriteSet,
    at: u64,
    page: u32,
    into: &mut Page,
) -> Result<bool, SpaceError>
    ensures node { IfOk result (λ known. known ≡ true → IsNode into.new) }
    ensures value { OnOk result ((bytes : List ℕ)
        → over (private_of changes.now) ((versions_of pool.old).pages at) page ≡ Some bytes → into.new ≡ bytes) }
    ensures there { OnOk result (IsTrue D.is_honest
        → IsSome (over (private_of changes.now) ((versions_of pool.old).pages at) page)) }
    ensures versions { versions_of pool.new ≡ versions_of pool.old }
    ensures refusal { IfErr result (ReadRefused (over (private_of changes.now) ((versions_of pool.old).pages at) page ≡ None) (refused_of pool.old) (refused_of pool.new)) }
    ensures rising { refused_of pool.old ≤ refused_of pool.new }
    ensures writes { D.writes (device_of pool.new) ≡ D.writes (device_of pool.old) }
{
    match changes.get(page) {
        Some(written) => {
            *into = *written.page();
            Ok(written.is_node())
        }
        None => read_version(pool, at, page, into),
    }
}
