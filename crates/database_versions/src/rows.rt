//! WriteSet of the rows of a version of a pool, as pages over it.
ghost use Rattle.std.specs.Prelude.{◌≡◌, ◌≤◌, ◌∷◌, [], ℕ, List, IfOk, IfErr, OnOk};
ghost use Rattle.std.specs.FinMap.{get};
ghost use Rattle.store.specs.Contents.{appended, replaced, deleted};
ghost use Rattle.store.specs.Errors.{MayFail, ChangingReaches};
ghost use Rattle.pool.specs.Pages.{over};
ghost use Rattle.pool.specs.Versions.{versions_of, device_of, refused_of};
ghost use Rattle.overlay.specs.WriteSet.{private_of, settled_of};
ghost use Rattle.overlay.specs.InUse.{in_use};
ghost use Rattle.overlay.specs.Layers.{size_of};
ghost use Rattle.overlay.specs.Whole.{IsWholeOver, AtLimit};
ghost use Rattle.database_trees.specs.Held.{TableAt, HoldsDatabase, IsAllOwned, contents_of};
ghost use Rattle.database_trees.specs.Changed.{DatabaseWritten, DatabaseOwned, HoldsNoDatabaseIn, SpaceRefused, StoringReaches, NumberingReaches};
ghost use Rattle.database_versions.specs.Changed.{IsNow};
ghost use Rattle.database_versions.specs.Databases.{IsDatabase, IsOwned, contents_in};
ghost use Rattle.database_versions.specs.Refusals.{IsCounted, RowsReach, NumbersEnd, NewRowsReach};

use crate::causes::{of_change, of_fault, of_rows};
use crate::naming::put_root;
use catalog::KnownSchema;
use database_trees::DatabaseError;
use denote::{Row, Rows};
use disk::Disk;
use items::Text;
use overlay::{Overlay, WriteSet, read_header};
use pool::Pool;
use std::alloc::Global;
use store::StoreError;

/// Puts rows behind those of the table of a name, in the database at a root.
fn append_from<D: Disk>(
    alloc: Global,
    known: &mut KnownSchema,
    pool: &mut Pool<D>,
    changes: &mut WriteSet,
    at: u64,
    root: u32,
    name: &Text,
    rows: Rows,
) -> Result<u32, DatabaseError>
    ensures appended { (tables : List TableAt)
        → HoldsDatabase (in_use ((versions_of pool.old).pages at) (private_of changes.old)) root tables
        → IfOk result (DatabaseWritten (in_use ((versions_of pool.old).pages at) (private_of changes.new)) (appended (contents_of tables) name.now rows)) }
    ensures owned { (tables : List TableAt)
        → IsAllOwned (in_use ((versions_of pool.old).pages at) (private_of changes.old)) root tables
        → IfOk result (DatabaseOwned (in_use ((versions_of pool.old).pages at) (private_of changes.new)) (appended (contents_of tables) name.now rows)) }
    ensures limits { IfErr result (NumberingReaches (in_use ((versions_of pool.old).pages at) (private_of changes.old)) root name.now rows) }
    ensures whole { OnOk result (IsWholeOver ((versions_of pool.old).pages at) (private_of changes.old)
        → IsWholeOver ((versions_of pool.old).pages at) (private_of changes.new)) }
    ensures settled { settled_of changes.new ≡ settled_of changes.old }
    ensures versions { versions_of pool.new ≡ versions_of pool.old }
    ensures refusal { IfErr result (SpaceRefused (AtLimit (over (private_of changes.new) ((versions_of pool.old).pages at) 0) (size_of (private_of changes.new))) (HoldsNoDatabaseIn (in_use ((versions_of pool.old).pages at) (private_of changes.old)) root (IsWholeOver ((versions_of pool.old).pages at) (private_of changes.old))) (refused_of pool.old) (refused_of pool.new)) }
    ensures rising { refused_of pool.old ≤ refused_of pool.new }
    ensures writes { D.writes (device_of pool.new) ≡ D.writes (device_of pool.old) }
{
    let mut space = Overlay { pool, changes, at };
    database_trees::append(&mut space, alloc, known, root, name, rows)
}

/// Puts rows behind those of the table of a name, and into each of its indexes; where no table has
/// the name, all stays. After a refusal nothing is said of the pages but that those written before
/// the mark stay.
pub fn append_rows<D: Disk>(
    alloc: Global,
    known: &mut KnownSchema,
    pool: &mut Pool<D>,
    changes: &mut WriteSet,
    at: u64,
    name: &Text,
    rows: Rows,
) -> Result<(), StoreError>
    ensures appended { IsDatabase ((versions_of pool.old).pages at) (private_of changes.old)
        → OnOk result (IsNow ((versions_of pool.old).pages at) (private_of changes.new) (appended (contents_in ((versions_of pool.old).pages at) (private_of changes.old)) name.now rows)) }
    ensures owned { IsOwned ((versions_of pool.old).pages at) (private_of changes.old)
        → OnOk result (IsOwned ((versions_of pool.old).pages at) (private_of changes.new)) }
    ensures settled { settled_of changes.new ≡ settled_of changes.old }
    ensures versions { versions_of pool.new ≡ versions_of pool.old }
    ensures refused { IfErr result (MayFail (IsDatabase ((versions_of pool.old).pages at) (private_of changes.old)) (refused_of pool.old) (refused_of pool.new) (NewRowsReach (IsCounted ((versions_of pool.old).pages at) (private_of changes.new)) (NumbersEnd ((versions_of pool.old).pages at) (private_of changes.old) name.now rows) rows)) }
    ensures rising { refused_of pool.old ≤ refused_of pool.new }
    ensures writes { D.writes (device_of pool.new) ≡ D.writes (device_of pool.old) }
{
    match read_header(pool, changes, at) {
        Ok(header) => match append_from(
            alloc,
            known,
            pool,
            changes,
            at,
            header.catalog_root,
            name,
            rows,
        ) {
            Ok(top) => match put_root(pool, changes, at, top) {
                Ok(()) => Ok(()),
                Err(fault) => Err(of_fault(fault)),
            },
            Err(error) => Err(of_rows(error)),
        },
        Err(fault) => Err(of_fault(fault)),
    }
}

/// Puts a row in place of the one of a number, in the database at a root.
fn replace_from<D: Disk>(
    alloc: Global,
    known: &mut KnownSchema,
    pool: &mut Pool<D>,
    changes: &mut WriteSet,
    at: u64,
    root: u32,
    name: &Text,
    number: u64,
    row: Row,
) -> Result<u32, DatabaseError>
    ensures replaced { (tables : List TableAt)
        → HoldsDatabase (in_use ((versions_of pool.old).pages at) (private_of changes.old)) root tables
        → IfOk result (DatabaseWritten (in_use ((versions_of pool.old).pages at) (private_of changes.new)) (replaced (contents_of tables) name.now number row)) }
    ensures owned { (tables : List TableAt)
        → IsAllOwned (in_use ((versions_of pool.old).pages at) (private_of changes.old)) root tables
        → IfOk result (DatabaseOwned (in_use ((versions_of pool.old).pages at) (private_of changes.new)) (replaced (contents_of tables) name.now number row)) }
    ensures limits { IfErr result (StoringReaches (in_use ((versions_of pool.old).pages at) (private_of changes.old)) root name.now (row ∷ [])) }
    ensures whole { OnOk result (IsWholeOver ((versions_of pool.old).pages at) (private_of changes.old)
        → IsWholeOver ((versions_of pool.old).pages at) (private_of changes.new)) }
    ensures settled { settled_of changes.new ≡ settled_of changes.old }
    ensures versions { versions_of pool.new ≡ versions_of pool.old }
    ensures refusal { IfErr result (SpaceRefused (AtLimit (over (private_of changes.new) ((versions_of pool.old).pages at) 0) (size_of (private_of changes.new))) (HoldsNoDatabaseIn (in_use ((versions_of pool.old).pages at) (private_of changes.old)) root (IsWholeOver ((versions_of pool.old).pages at) (private_of changes.old))) (refused_of pool.old) (refused_of pool.new)) }
    ensures rising { refused_of pool.old ≤ refused_of pool.new }
    ensures writes { D.writes (device_of pool.new) ≡ D.writes (device_of pool.old) }
{
    let mut space = Overlay { pool, changes, at };
    database_trees::replace(&mut space, alloc, known, root, name, number, row)
}

/// Puts a row in place of the one of a number in the table of a name, and in each of its indexes;
/// where there is none, all stays. After a refusal nothing is said of the pages but that those
/// written before the mark stay.
pub fn replace_row<D: Disk>(
    alloc: Global,
    known: &mut KnownSchema,
    pool: &mut Pool<D>,
    changes: &mut WriteSet,
    at: u64,
    name: &Text,
    number: u64,
    row: Row,
) -> Result<(), StoreError>
    ensures replaced { IsDatabase ((versions_of pool.old).pages at) (private_of changes.old)
        → OnOk result (IsNow ((versions_of pool.old).pages at) (private_of changes.new) (replaced (contents_in ((versions_of pool.old).pages at) (private_of changes.old)) name.now number row)) }
    ensures owned { IsOwned ((versions_of pool.old).pages at) (private_of changes.old)
        → OnOk result (IsOwned ((versions_of pool.old).pages at) (private_of changes.new)) }
    ensures settled { settled_of changes.new ≡ settled_of changes.old }
    ensures versions { versions_of pool.new ≡ versions_of pool.old }
    ensures refused { IfErr result (MayFail (IsDatabase ((versions_of pool.old).pages at) (private_of changes.old)) (refused_of pool.old) (refused_of pool.new) (RowsReach (IsCounted ((versions_of pool.old).pages at) (private_of changes.new)) (row ∷ []))) }
    ensures rising { refused_of pool.old ≤ refused_of pool.new }
    ensures writes { D.writes (device_of pool.new) ≡ D.writes (device_of pool.old) }
{
    match read_header(pool, changes, at) {
        Ok(header) => match replace_from(
            alloc,
            known,
            pool,
            changes,
            at,
            header.catalog_root,
            name,
            number,
            row,
        ) {
            Ok(top) => match put_root(pool, changes, at, top) {
                Ok(()) => Ok(()),
                Err(fault) => Err(of_fault(fault)),
            },
            Err(error) => Err(of_rows(error)),
        },
        Err(fault) => Err(of_fault(fault)),
    }
}

/// Takes the row of a number out of the table of a name, in the database at a root.
fn delete_from<D: Disk>(
    alloc: Global,
    known: &mut KnownSchema,
    pool: &mut Pool<D>,
    changes: &mut WriteSet,
    at: u64,
    root: u32,
    name: &Text,
    number: u64,
) -> Result<u32, DatabaseError>
    ensures deleted { (tables : List TableAt)
        → HoldsDatabase (in_use ((versions_of pool.old).pages at) (private_of changes.old)) root tables
        → IfOk result (DatabaseWritten (in_use ((versions_of pool.old).pages at) (private_of changes.new)) (deleted (contents_of tables) name.now number)) }
    ensures owned { (tables : List TableAt)
        → IsAllOwned (in_use ((versions_of pool.old).pages at) (private_of changes.old)) root tables
        → IfOk result (DatabaseOwned (in_use ((versions_of pool.old).pages at) (private_of changes.new)) (deleted (contents_of tables) name.now number)) }
    ensures whole { OnOk result (IsWholeOver ((versions_of pool.old).pages at) (private_of changes.old)
        → IsWholeOver ((versions_of pool.old).pages at) (private_of changes.new)) }
    ensures settled { settled_of changes.new ≡ settled_of changes.old }
    ensures versions { versions_of pool.new ≡ versions_of pool.old }
    ensures refusal { IfErr result (SpaceRefused (AtLimit (over (private_of changes.new) ((versions_of pool.old).pages at) 0) (size_of (private_of changes.new))) (HoldsNoDatabaseIn (in_use ((versions_of pool.old).pages at) (private_of changes.old)) root (IsWholeOver ((versions_of pool.old).pages at) (private_of changes.old))) (refused_of pool.old) (refused_of pool.new)) }
    ensures rising { refused_of pool.old ≤ refused_of pool.new }
    ensures writes { D.writes (device_of pool.new) ≡ D.writes (device_of pool.old) }
{
    let mut space = Overlay { pool, changes, at };
    database_trees::delete(&mut space, alloc, known, root, name, number)
}

/// Takes the row of a number out of the table of a name, and out of each of its indexes; where
/// there is none, all stays. After a refusal nothing is said of the pages but that those written
/// before the mark stay.
pub fn delete_row<D: Disk>(
    alloc: Global,
    known: &mut KnownSchema,
    pool: &mut Pool<D>,
    changes: &mut WriteSet,
    at: u64,
    name: &Text,
    number: u64,
) -> Result<(), StoreError>
    ensures deleted { IsDatabase ((versions_of pool.old).pages at) (private_of changes.old)
        → OnOk result (IsNow ((versions_of pool.old).pages at) (private_of changes.new) (deleted (contents_in ((versions_of pool.old).pages at) (private_of changes.old)) name.now number)) }
    ensures owned { IsOwned ((versions_of pool.old).pages at) (private_of changes.old)
        → OnOk result (IsOwned ((versions_of pool.old).pages at) (private_of changes.new)) }
    ensures settled { settled_of changes.new ≡ settled_of changes.old }
    ensures versions { versions_of pool.new ≡ versions_of pool.old }
    ensures refused { IfErr result (MayFail (IsDatabase ((versions_of pool.old).pages at) (private_of changes.old)) (refused_of pool.old) (refused_of pool.new) (ChangingReaches (IsCounted ((versions_of pool.old).pages at) (private_of changes.new)))) }
    ensures rising { refused_of pool.old ≤ refused_of pool.new }
    ensures writes { D.writes (device_of pool.new) ≡ D.writes (device_of pool.old) }
{
    match read_header(pool, changes, at) {
        Ok(header) => match delete_from(
            alloc,
            known,
            pool,
            changes,
            at,
            header.catalog_root,
            name,
            number,
        ) {
            Ok(top) => match put_root(pool, changes, at, top) {
                Ok(()) => Ok(()),
                Err(fault) => Err(of_fault(fault)),
            },
            Err(error) => Err(of_change(error)),
        },
        Err(fault) => Err(of_fault(fault)),
    }
}
