//! Many rows of a table, changed one after another.
ghost use Rattle.std.specs.Prelude.{◌≡◌, ◌≤◌, OnOk, IfErr};
ghost use Rattle.store.specs.Contents.{rows_of, replaced_all, deleted_all};
ghost use Rattle.store.specs.Errors.{MayFail, ChangingReaches};
ghost use Rattle.pool.specs.Versions.{versions_of, device_of, refused_of};
ghost use Rattle.overlay.specs.WriteSet.{private_of, settled_of};
ghost use Rattle.database_versions.specs.Changed.{IsNow};
ghost use Rattle.database_versions.specs.Databases.{IsDatabase, IsOwned, contents_in};
ghost use Rattle.database_versions.specs.Refusals.{IsCounted, RowsReach};

use catalog::KnownSchema;
use database_versions::{delete_row, replace_row};
use denote::Row;
use disk::Disk;
use items::{Items, Text};
use overlay::WriteSet;
use pool::Pool;
use std::alloc::Global;
use store::StoreError;

/// Puts rows in place of those of their numbers. After a refusal nothing is said of the pages but
/// that those written before the mark stay.
pub(crate) fn replace_rows<D: Disk>(
    alloc: Global,
    known: &mut KnownSchema,
    pool: &mut Pool<D>,
    changes: &mut WriteSet,
    at: u64,
    name: &Text,
    rows: Items<(u64, Row)>,
) -> Result<(), StoreError>
    ensures replaced { IsDatabase ((versions_of pool.old).pages at) (private_of changes.old)
        → OnOk result (IsNow ((versions_of pool.old).pages at) (private_of changes.new) (replaced_all (contents_in ((versions_of pool.old).pages at) (private_of changes.old)) name.now rows)) }
    ensures owned { IsOwned ((versions_of pool.old).pages at) (private_of changes.old)
        → OnOk result (IsOwned ((versions_of pool.old).pages at) (private_of changes.new)) }
    ensures settled { settled_of changes.new ≡ settled_of changes.old }
    ensures versions { versions_of pool.new ≡ versions_of pool.old }
    ensures refused { IfErr result (MayFail (IsDatabase ((versions_of pool.old).pages at) (private_of changes.old)) (refused_of pool.old) (refused_of pool.new) (RowsReach (IsCounted ((versions_of pool.old).pages at) (private_of changes.new)) (rows_of rows))) }
    ensures rising { refused_of pool.old ≤ refused_of pool.new }
    ensures writes { D.writes (device_of pool.new) ≡ D.writes (device_of pool.old) }
{
    for entry in rows.into_vec() {
        let (number, row) = entry;
        match replace_row(alloc, known, pool, changes, at, name, number, row) {
            Ok(()) => {}
            Err(error) => return Err(error),
        }
    }
    Ok(())
}

/// Removes the rows of these numbers. After a refusal nothing is said of the pages but that those
/// written before the mark stay.
pub(crate) fn delete_rows<D: Disk>(
    alloc: Global,
    known: &mut KnownSchema,
    pool: &mut Pool<D>,
    changes: &mut WriteSet,
    at: u64,
    name: &Text,
    numbers: &[u64],
) -> Result<(), StoreError>
    ensures deleted { IsDatabase ((versions_of pool.old).pages at) (private_of changes.old)
        → OnOk result (IsNow ((versions_of pool.old).pages at) (private_of changes.new) (deleted_all (contents_in ((versions_of pool.old).pages at) (private_of changes.old)) name.now numbers.now)) }
    ensures owned { IsOwned ((versions_of pool.old).pages at) (private_of changes.old)
        → OnOk result (IsOwned ((versions_of pool.old).pages at) (private_of changes.new)) }
    ensures settled { settled_of changes.new ≡ settled_of changes.old }
    ensures versions { versions_of pool.new ≡ versions_of pool.old }
    ensures refused { IfErr result (MayFail (IsDatabase ((versions_of pool.old).pages at) (private_of changes.old)) (refused_of pool.old) (refused_of pool.new) (ChangingReaches (IsCounted ((versions_of pool.old).pages at) (private_of changes.new)))) }
    ensures rising { refused_of pool.old ≤ refused_of pool.new }
    ensures writes { D.writes (device_of pool.new) ≡ D.writes (device_of pool.old) }
{
    for number in numbers {
        match delete_row(alloc, known, pool, changes, at, name, *number) {
            Ok(()) => {}
            Err(error) => return Err(error),
        }
    }
    Ok(())
}
