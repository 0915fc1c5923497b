//! WriteSet of the schema of a version of a pool, as pages over it.
ghost use Rattle.std.specs.Prelude.{◌≡◌, ◌≤◌, ℕ, List, IfOk, IfErr, OnOk};
ghost use Rattle.std.specs.List.{AllByRecursion};
ghost use Rattle.catalog_records.specs.Keepable.{ArePlaces, IsTable};
ghost use Rattle.store.specs.Contents.{with_table, without_table, indexed, unindexed};
ghost use Rattle.store.specs.Errors.{MayFail, ChangingReaches};
ghost use Rattle.pool.specs.Pages.{over};
ghost use Rattle.pool.specs.Versions.{versions_of, device_of, refused_of};
ghost use Rattle.overlay.specs.WriteSet.{private_of, settled_of};
ghost use Rattle.overlay.specs.InUse.{in_use};
ghost use Rattle.overlay.specs.Layers.{size_of};
ghost use Rattle.overlay.specs.Whole.{IsWholeOver, AtLimit};
ghost use Rattle.database_trees.specs.Held.{TableAt, HoldsDatabase, IsAllOwned, contents_of};
ghost use Rattle.database_trees.specs.Changed.{DatabaseWritten, DatabaseOwned, HoldsNoDatabaseIn, SpaceRefused};
ghost use Rattle.database_versions.specs.Changed.{IsNow};
ghost use Rattle.database_versions.specs.Databases.{IsDatabase, IsOwned, contents_in};
ghost use Rattle.database_versions.specs.Refusals.{IsCounted};

use crate::causes::{of_change, of_fault};
use crate::naming::put_root;
use database_trees::DatabaseError;
use disk::Disk;
use items::Text;
use overlay::{Overlay, WriteSet, read_header};
use pool::Pool;
use sqlval::{Index, Table};
use std::alloc::Global;
use store::StoreError;

/// Puts a new table into the database at a root.
fn create_from<D: Disk>(
    alloc: Global,
    pool: &mut Pool<D>,
    changes: &mut WriteSet,
    at: u64,
    root: u32,
    table: &Table,
) -> Result<u32, DatabaseError>
    requires rows { table.now.root ≡ 0 }
    requires indexes { AllByRecursion (λ index. index.root ≡ 0) table.now.indexes }
    ensures created { (tables : List TableAt)
        → HoldsDatabase (in_use ((versions_of pool.old).pages at) (private_of changes.old)) root tables
        → IsTable table.now
        → IfOk result (DatabaseWritten (in_use ((versions_of pool.old).pages at) (private_of changes.new)) (with_table (contents_of tables) table.now)) }
    ensures owned { (tables : List TableAt)
        → IsAllOwned (in_use ((versions_of pool.old).pages at) (private_of changes.old)) root tables → IsTable table.now
        → IfOk result (DatabaseOwned (in_use ((versions_of pool.old).pages at) (private_of changes.new)) (with_table (contents_of tables) table.now)) }
    ensures whole { OnOk result (IsWholeOver ((versions_of pool.old).pages at) (private_of changes.old)
        → IsWholeOver ((versions_of pool.old).pages at) (private_of changes.new)) }
    ensures settled { settled_of changes.new ≡ settled_of changes.old }
    ensures versions { versions_of pool.new ≡ versions_of pool.old }
    ensures refusal { IfErr result (SpaceRefused (AtLimit (over (private_of changes.new) ((versions_of pool.old).pages at) 0) (size_of (private_of changes.new))) (HoldsNoDatabaseIn (in_use ((versions_of pool.old).pages at) (private_of changes.old)) root (IsWholeOver ((versions_of pool.old).pages at) (private_of changes.old))) (refused_of pool.old) (refused_of pool.new)) }
    ensures rising { refused_of pool.old ≤ refused_of pool.new }
    ensures writes { D.writes (device_of pool.new) ≡ D.writes (device_of pool.old) }
{
    let mut space = Overlay { pool, changes, at };
    database_trees::create_table(&mut space, alloc, root, table)
}

/// Puts a new table without rows beside the others; where a table has its name, all stays. After a
/// refusal nothing is said of the pages but that those written before the mark stay.
pub fn create_table<D: Disk>(
    alloc: Global,
    pool: &mut Pool<D>,
    changes: &mut WriteSet,
    at: u64,
    table: &Table,
) -> Result<(), StoreError>
    requires rows { table.now.root ≡ 0 }
    requires indexes { AllByRecursion (λ index. index.root ≡ 0) table.now.indexes }
    requires range { IsTable table.now }
    ensures created { IsDatabase ((versions_of pool.old).pages at) (private_of changes.old)
        → OnOk result (IsNow ((versions_of pool.old).pages at) (private_of changes.new) (with_table (contents_in ((versions_of pool.old).pages at) (private_of changes.old)) table.now)) }
    ensures owned { IsOwned ((versions_of pool.old).pages at) (private_of changes.old)
        → OnOk result (IsOwned ((versions_of pool.old).pages at) (private_of changes.new)) }
    ensures settled { settled_of changes.new ≡ settled_of changes.old }
    ensures versions { versions_of pool.new ≡ versions_of pool.old }
    ensures refused { IfErr result (MayFail (IsDatabase ((versions_of pool.old).pages at) (private_of changes.old)) (refused_of pool.old) (refused_of pool.new) (ChangingReaches (IsCounted ((versions_of pool.old).pages at) (private_of changes.new)))) }
    ensures rising { refused_of pool.old ≤ refused_of pool.new }
    ensures writes { D.writes (device_of pool.new) ≡ D.writes (device_of pool.old) }
{
    match read_header(pool, changes, at) {
        Ok(header) => match create_from(alloc, pool, changes, at, header.catalog_root, table) {
            Ok(top) => match put_root(pool, changes, at, top) {
                Ok(()) => Ok(()),
                Err(fault) => Err(of_fault(fault)),
            },
            Err(error) => Err(of_change(error)),
        },
        Err(fault) => Err(of_fault(fault)),
    }
}

/// Takes the table of a name out of the database at a root.
fn drop_from<D: Disk>(
    alloc: Global,
    pool: &mut Pool<D>,
    changes: &mut WriteSet,
    at: u64,
    root: u32,
    name: &Text,
) -> Result<u32, DatabaseError>
    ensures dropped { (tables : List TableAt)
        → HoldsDatabase (in_use ((versions_of pool.old).pages at) (private_of changes.old)) root tables
        → IfOk result (DatabaseWritten (in_use ((versions_of pool.old).pages at) (private_of changes.new)) (without_table (contents_of tables) name.now)) }
    ensures owned { (tables : List TableAt)
        → IsAllOwned (in_use ((versions_of pool.old).pages at) (private_of changes.old)) root tables
        → IfOk result (DatabaseOwned (in_use ((versions_of pool.old).pages at) (private_of changes.new)) (without_table (contents_of tables) name.now)) }
    ensures whole { OnOk result (IsWholeOver ((versions_of pool.old).pages at) (private_of changes.old)
        → IsWholeOver ((versions_of pool.old).pages at) (private_of changes.new)) }
    ensures settled { settled_of changes.new ≡ settled_of changes.old }
    ensures versions { versions_of pool.new ≡ versions_of pool.old }
    ensures refusal { IfErr result (SpaceRefused (AtLimit (over (private_of changes.new) ((versions_of pool.old).pages at) 0) (size_of (private_of changes.new))) (HoldsNoDatabaseIn (in_use ((versions_of pool.old).pages at) (private_of changes.old)) root (IsWholeOver ((versions_of pool.old).pages at) (private_of changes.old))) (refused_of pool.old) (refused_of pool.new)) }
    ensures rising { refused_of pool.old ≤ refused_of pool.new }
    ensures writes { D.writes (device_of pool.new) ≡ D.writes (device_of pool.old) }
{
    let mut space = Overlay { pool, changes, at };
    database_trees::drop_table(&mut space, alloc, root, name)
}

/// Takes the table of a name away, with its indexes; where no table has the name, all stays. After
/// a refusal nothing is said of the pages but that those written before the mark stay.
pub fn drop_table<D: Disk>(
    alloc: Global,
    pool: &mut Pool<D>,
    changes: &mut WriteSet,
    at: u64,
    name: &Text,
) -> Result<(), StoreError>
    ensures dropped { IsDatabase ((versions_of pool.old).pages at) (private_of changes.old)
        → OnOk result (IsNow ((versions_of pool.old).pages at) (private_of changes.new) (without_table (contents_in ((versions_of pool.old).pages at) (private_of changes.old)) name.now)) }
    ensures owned { IsOwned ((versions_of pool.old).pages at) (private_of changes.old)
        → OnOk result (IsOwned ((versions_of pool.old).pages at) (private_of changes.new)) }
    ensures settled { settled_of changes.new ≡ settled_of changes.old }
    ensures versions { versions_of pool.new ≡ versions_of pool.old }
    ensures refused { IfErr result (MayFail (IsDatabase ((versions_of pool.old).pages at) (private_of changes.old)) (refused_of pool.old) (refused_of pool.new) (ChangingReaches (IsCounted ((versions_of pool.old).pages at) (private_of changes.new)))) }
    ensures rising { refused_of pool.old ≤ refused_of pool.new }
    ensures writes { D.writes (device_of pool.new) ≡ D.writes (device_of pool.old) }
{
    match read_header(pool, changes, at) {
        Ok(header) => match drop_from(alloc, pool, changes, at, header.catalog_root, name) {
            Ok(top) => match put_root(pool, changes, at, top) {
                Ok(()) => Ok(()),
                Err(fault) => Err(of_fault(fault)),
            },
            Err(error) => Err(of_change(error)),
        },
        Err(fault) => Err(of_fault(fault)),
    }
}

/// Makes an index of the table of a name, in the database at a root.
fn index_from<D: Disk>(
    alloc: Global,
    pool: &mut Pool<D>,
    changes: &mut WriteSet,
    at: u64,
    root: u32,
    name: &Text,
    index: Index,
) -> Result<u32, DatabaseError>
    ensures indexed { (tables : List TableAt)
        → HoldsDatabase (in_use ((versions_of pool.old).pages at) (private_of changes.old)) root tables
        → ArePlaces index.columns
        → IfOk result (DatabaseWritten (in_use ((versions_of pool.old).pages at) (private_of changes.new)) (indexed (contents_of tables) name.now index)) }
    ensures owned { (tables : List TableAt)
        → IsAllOwned (in_use ((versions_of pool.old).pages at) (private_of changes.old)) root tables
        → ArePlaces index.columns
        → IfOk result (DatabaseOwned (in_use ((versions_of pool.old).pages at) (private_of changes.new)) (indexed (contents_of tables) name.now index)) }
    ensures whole { OnOk result (IsWholeOver ((versions_of pool.old).pages at) (private_of changes.old)
        → IsWholeOver ((versions_of pool.old).pages at) (private_of changes.new)) }
    ensures settled { settled_of changes.new ≡ settled_of changes.old }
    ensures versions { versions_of pool.new ≡ versions_of pool.old }
    ensures refusal { IfErr result (SpaceRefused (AtLimit (over (private_of changes.new) ((versions_of pool.old).pages at) 0) (size_of (private_of changes.new))) (HoldsNoDatabaseIn (in_use ((versions_of pool.old).pages at) (private_of changes.old)) root (IsWholeOver ((versions_of pool.old).pages at) (private_of changes.old))) (refused_of pool.old) (refused_of pool.new)) }
    ensures rising { refused_of pool.old ≤ refused_of pool.new }
    ensures writes { D.writes (device_of pool.new) ≡ D.writes (device_of pool.old) }
{
    let mut space = Overlay { pool, changes, at };
    database_trees::create_index(&mut space, alloc, root, name, index)
}

/// Makes an index of the table of a name, over the rows that are there; where no table has the
/// name, all stays. After a refusal nothing is said of the pages but that those written before the
/// mark stay.
pub fn create_index<D: Disk>(
    alloc: Global,
    pool: &mut Pool<D>,
    changes: &mut WriteSet,
    at: u64,
    name: &Text,
    index: Index,
) -> Result<(), StoreError>
    requires { ArePlaces index.columns }
    ensures indexed { IsDatabase ((versions_of pool.old).pages at) (private_of changes.old)
        → OnOk result (IsNow ((versions_of pool.old).pages at) (private_of changes.new) (indexed (contents_in ((versions_of pool.old).pages at) (private_of changes.old)) name.now index)) }
    ensures owned { IsOwned ((versions_of pool.old).pages at) (private_of changes.old)
        → OnOk result (IsOwned ((versions_of pool.old).pages at) (private_of changes.new)) }
    ensures settled { settled_of changes.new ≡ settled_of changes.old }
    ensures versions { versions_of pool.new ≡ versions_of pool.old }
    ensures refused { IfErr result (MayFail (IsDatabase ((versions_of pool.old).pages at) (private_of changes.old)) (refused_of pool.old) (refused_of pool.new) (ChangingReaches (IsCounted ((versions_of pool.old).pages at) (private_of changes.new)))) }
    ensures rising { refused_of pool.old ≤ refused_of pool.new }
    ensures writes { D.writes (device_of pool.new) ≡ D.writes (device_of pool.old) }
{
    match read_header(pool, changes, at) {
        Ok(header) => match index_from(alloc, pool, changes, at, header.catalog_root, name, index) {
            Ok(top) => match put_root(pool, changes, at, top) {
                Ok(()) => Ok(()),
                Err(fault) => Err(of_fault(fault)),
            },
            Err(error) => Err(of_change(error)),
        },
        Err(fault) => Err(of_fault(fault)),
    }
}

/// Takes the indexes of a name out of the database at a root.
fn unindex_from<D: Disk>(
    alloc: Global,
    pool: &mut Pool<D>,
    changes: &mut WriteSet,
    at: u64,
    root: u32,
    name: &Text,
) -> Result<u32, DatabaseError>
    ensures unindexed { (tables : List TableAt)
        → HoldsDatabase (in_use ((versions_of pool.old).pages at) (private_of changes.old)) root tables
        → IfOk result (DatabaseWritten (in_use ((versions_of pool.old).pages at) (private_of changes.new)) (unindexed (contents_of tables) name.now)) }
    ensures owned { (tables : List TableAt)
        → IsAllOwned (in_use ((versions_of pool.old).pages at) (private_of changes.old)) root tables
        → IfOk result (DatabaseOwned (in_use ((versions_of pool.old).pages at) (private_of changes.new)) (unindexed (contents_of tables) name.now)) }
    ensures whole { OnOk result (IsWholeOver ((versions_of pool.old).pages at) (private_of changes.old)
        → IsWholeOver ((versions_of pool.old).pages at) (private_of changes.new)) }
    ensures settled { settled_of changes.new ≡ settled_of changes.old }
    ensures versions { versions_of pool.new ≡ versions_of pool.old }
    ensures refusal { IfErr result (SpaceRefused (AtLimit (over (private_of changes.new) ((versions_of pool.old).pages at) 0) (size_of (private_of changes.new))) (HoldsNoDatabaseIn (in_use ((versions_of pool.old).pages at) (private_of changes.old)) root (IsWholeOver ((versions_of pool.old).pages at) (private_of changes.old))) (refused_of pool.old) (refused_of pool.new)) }
    ensures rising { refused_of pool.old ≤ refused_of pool.new }
    ensures writes { D.writes (device_of pool.new) ≡ D.writes (device_of pool.old) }
{
    let mut space = Overlay { pool, changes, at };
    database_trees::drop_index(&mut space, alloc, root, name)
}

/// Takes the indexes of a name away, whichever table has them. After a refusal nothing is said of
/// the pages but that those written before the mark stay.
pub fn drop_index<D: Disk>(
    alloc: Global,
    pool: &mut Pool<D>,
    changes: &mut WriteSet,
    at: u64,
    name: &Text,
) -> Result<(), StoreError>
    ensures unindexed { IsDatabase ((versions_of pool.old).pages at) (private_of changes.old)
        → OnOk result (IsNow ((versions_of pool.old).pages at) (private_of changes.new) (unindexed (contents_in ((versions_of pool.old).pages at) (private_of changes.old)) name.now)) }
    ensures owned { IsOwned ((versions_of pool.old).pages at) (private_of changes.old)
        → OnOk result (IsOwned ((versions_of pool.old).pages at) (private_of changes.new)) }
    ensures settled { settled_of changes.new ≡ settled_of changes.old }
    ensures versions { versions_of pool.new ≡ versions_of pool.old }
    ensures refused { IfErr result (MayFail (IsDatabase ((versions_of pool.old).pages at) (private_of changes.old)) (refused_of pool.old) (refused_of pool.new) (ChangingReaches (IsCounted ((versions_of pool.old).pages at) (private_of changes.new)))) }
    ensures rising { refused_of pool.old ≤ refused_of pool.new }
    ensures writes { D.writes (device_of pool.new) ≡ D.writes (device_of pool.old) }
{
    match read_header(pool, changes, at) {
        Ok(header) => match unindex_from(alloc, pool, changes, at, header.catalog_root, name) {
            Ok(top) => match put_root(pool, changes, at, top) {
                Ok(()) => Ok(()),
                Err(fault) => Err(of_fault(fault)),
            },
            Err(error) => Err(of_change(error)),
        },
        Err(fault) => Err(of_fault(fault)),
    }
}
