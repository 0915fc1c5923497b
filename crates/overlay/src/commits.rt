//! A transaction's pages as a version of their own.
ghost use Rattle.std.specs.Prelude.{◌≡◌, ◌+◌, ◌-◌, ◌<◌, ◌≤◌, ◌^◌, ℕ, None, IsTrue, OnOk, OnErr, IfOk, IfErr};
ghost use Rattle.pool.specs.Pages.{over, known};
ghost use Rattle.pool.specs.Refused.{CommitRefused};
ghost use Rattle.pool.specs.Versions.{NeedsImages, versions_of, device_of, refused_of};
ghost use Rattle.overlay.specs.Whole.{IsWhole};
ghost use Rattle.overlay.specs.WriteSet.{private_of};

use crate::write_set::WriteSet;
use disk::Disk;
use pool::{Pool, PoolError};

/// Makes one commit more, of the pages that a transaction has written laid over the last, and
/// answers its number. Refused as the pool's `commit` is, and then all versions stay; as `Damaged`
/// only where the list of free pages is none then. Where nothing was written, nothing is written on
/// the device. What the transaction has written is left to the caller, who drops it where the
/// commit was made.
pub fn commit<D: Disk>(pool: &mut Pool<D>, changes: &WriteSet) -> Result<u64, PoolError>
    ensures number { IfOk result (λ c. c ≡ (versions_of pool.new).last) }
    ensures last { OnOk result ((versions_of pool.new).last ≡ (versions_of pool.old).last + 1) }
    ensures written { OnOk result ((versions_of pool.new).pages (versions_of pool.new).last
        ≡ known D.is_honest (over (private_of changes.now) ((versions_of pool.old).pages (versions_of pool.old).last))) }
    ensures kept { OnOk result ((c : ℕ) → 0 < (versions_of pool.old).pins c
        → (versions_of pool.new).pages c ≡ (versions_of pool.old).pages c) }
    ensures pins { (versions_of pool.new).pins ≡ (versions_of pool.old).pins }
    ensures refused { OnErr result (versions_of pool.new ≡ versions_of pool.old) }
    ensures refusal { IfErr result (CommitRefused ((versions_of pool.old).last ≡ 2 ^ 64 - 1)
        (NeedsImages pool.old (private_of changes.now))
        (IsTrue D.is_honest
        → IsWhole (over (private_of changes.now) ((versions_of pool.old).pages (versions_of pool.old).last)) → ⊥)
        (refused_of pool.old) (refused_of pool.new)) }
    ensures rising { refused_of pool.old ≤ refused_of pool.new }
    ensures idle { private_of changes.now ≡ (λ n. None)
        → D.writes (device_of pool.new) ≡ D.writes (device_of pool.old) }
{
    match changes.all_pages() {
        Ok(set) => match pool.commit(set) {
            Ok(number) => Ok(number),
            Err(error) => Err(error),
        },
        Err(_) => Err(PoolError::Memory),
    }
}
