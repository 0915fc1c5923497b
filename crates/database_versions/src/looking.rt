//! Rows of a version of a pool, with a transaction's pages over it, found by an index.
ghost use Rattle.std.specs.Prelude.{◌≡◌, ◌≤◌, ℕ, List, IfOk, IfErr};
ghost use Rattle.std.specs.FinMap.{get};
ghost use Rattle.std.specs.Option.{option_map};
ghost use Rattle.store.specs.Errors.{MayFail, Never};
ghost use Rattle.store.specs.Indexes.{sought, ranged, next_entry};
ghost use Rattle.store.specs.View.{AreEntries, IsEntry, position_of};
ghost use Rattle.page_space.specs.Space.{ReadRefused};
ghost use Rattle.pool.specs.Versions.{versions_of, device_of, refused_of};
ghost use Rattle.overlay.specs.WriteSet.{private_of};
ghost use Rattle.overlay.specs.InUse.{in_use};
ghost use Rattle.database_trees.specs.Held.{TableAt, HoldsDatabase, HoldsNoDatabase, contents_of};
ghost use Rattle.database_versions.specs.Databases.{IsDatabase, contents_in};

use crate::causes::of_fault;
use catalog::KnownSchema;
use disk::Disk;
use items::Text;
use overlay::{Changed, WriteSet, read_header};
use page_space::SpaceError;
use pool::Pool;
use sqlval::Value;
use std::alloc::Global;
use std::ops::Bound;
use store::{Numbered, NumberedRow, Position, StoreError};

/// The rows whose columns equal a key, by the index at a place of the table of a name among those
/// at a root.
fn seek_from<D: Disk>(
    alloc: Global,
    known: &mut KnownSchema,
    pool: &mut Pool<D>,
    changes: &WriteSet,
    at: u64,
    root: u32,
    name: &Text,
    index: usize,
    key: &[Value],
) -> Result<Numbered, SpaceError>
    ensures rows { (tables : List TableAt)
        → HoldsDatabase (in_use ((versions_of pool.old).pages at) (private_of changes.now)) root tables
        → IfOk result (λ found. AreEntries found (sought (get (contents_of tables) name.now) index key.now)) }
    ensures versions { versions_of pool.new ≡ versions_of pool.old }
    ensures refusal { IfErr result (ReadRefused (HoldsNoDatabase (in_use ((versions_of pool.old).pages at) (private_of changes.now)) root) (refused_of pool.old) (refused_of pool.new)) }
    ensures rising { refused_of pool.old ≤ refused_of pool.new }
    ensures writes { D.writes (device_of pool.new) ≡ D.writes (device_of pool.old) }
{
    let mut space = Changed { pool, changes, at };
    index_lookups::seek(&mut space, alloc, known, root, name, index, key)
}

/// The rows of a table of a version with these pages over it whose columns equal a key, by the
/// index at a place of the table.
pub fn rows_sought<D: Disk>(
    alloc: Global,
    known: &mut KnownSchema,
    pool: &mut Pool<D>,
    changes: &WriteSet,
    at: u64,
    name: &Text,
    index: usize,
    key: &[Value],
) -> Result<Numbered, StoreError>
    ensures rows { IsDatabase ((versions_of pool.old).pages at) (private_of changes.now)
        → IfOk result (λ found. AreEntries found (sought (get (contents_in ((versions_of pool.old).pages at) (private_of changes.now)) name.now) index key.now)) }
    ensures versions { versions_of pool.new ≡ versions_of pool.old }
    ensures refused { IfErr result (MayFail (IsDatabase ((versions_of pool.old).pages at) (private_of changes.now)) (refused_of pool.old) (refused_of pool.new) Never) }
    ensures rising { refused_of pool.old ≤ refused_of pool.new }
    ensures writes { D.writes (device_of pool.new) ≡ D.writes (device_of pool.old) }
{
    match read_header(pool, changes, at) {
        Ok(header) => match seek_from(
            alloc,
            known,
            pool,
            changes,
            at,
            header.catalog_root,
            name,
            index,
            key,
        ) {
            Ok(found) => Ok(found),
            Err(fault) => Err(of_fault(fault)),
        },
        Err(fault) => Err(of_fault(fault)),
    }
}

/// The rows whose first column of the index at a place is within bounds, of the table of a name
/// among those at a root.
fn range_from<D: Disk>(
    alloc: Global,
    known: &mut KnownSchema,
    pool: &mut Pool<D>,
    changes: &WriteSet,
    at: u64,
    root: u32,
    name: &Text,
    index: usize,
    low: &Bound<Value>,
    high: &Bound<Value>,
) -> Result<Numbered, SpaceError>
    ensures rows { (tables : List TableAt)
        → HoldsDatabase (in_use ((versions_of pool.old).pages at) (private_of changes.now)) root tables
        → IfOk result (λ found. AreEntries found (ranged (get (contents_of tables) name.now) index low.now high.now)) }
    ensures versions { versions_of pool.new ≡ versions_of pool.old }
    ensures refusal { IfErr result (ReadRefused (HoldsNoDatabase (in_use ((versions_of pool.old).pages at) (private_of changes.now)) root) (refused_of pool.old) (refused_of pool.new)) }
    ensures rising { refused_of pool.old ≤ refused_of pool.new }
    ensures writes { D.writes (device_of pool.new) ≡ D.writes (device_of pool.old) }
{
    let mut space = Changed { pool, changes, at };
    index_lookups::range(&mut space, alloc, known, root, name, index, low, high)
}

/// The rows of a table of a version with these pages over it whose first column of the index at a
/// place is within bounds, in the order of the index.
pub fn rows_within<D: Disk>(
    alloc: Global,
    known: &mut KnownSchema,
    pool: &mut Pool<D>,
    changes: &WriteSet,
    at: u64,
    name: &Text,
    index: usize,
    low: &Bound<Value>,
    high: &Bound<Value>,
) -> Result<Numbered, StoreError>
    ensures rows { IsDatabase ((versions_of pool.old).pages at) (private_of changes.now)
        → IfOk result (λ found. AreEntries found (ranged (get (contents_in ((versions_of pool.old).pages at) (private_of changes.now)) name.now) index low.now high.now)) }
    ensures versions { versions_of pool.new ≡ versions_of pool.old }
    ensures refused { IfErr result (MayFail (IsDatabase ((versions_of pool.old).pages at) (private_of changes.now)) (refused_of pool.old) (refused_of pool.new) Never) }
    ensures rising { refused_of pool.old ≤ refused_of pool.new }
    ensures writes { D.writes (device_of pool.new) ≡ D.writes (device_of pool.old) }
{
    match read_header(pool, changes, at) {
        Ok(header) => match range_from(
            alloc,
            known,
            pool,
            changes,
            at,
            header.catalog_root,
            name,
            index,
            low,
            high,
        ) {
            Ok(found) => Ok(found),
            Err(fault) => Err(of_fault(fault)),
        },
        Err(fault) => Err(of_fault(fault)),
    }
}

/// The first row above a place in the index at a place of the table of a name among those at a
/// root.
fn next_in_from<D: Disk>(
    alloc: Global,
    known: &mut KnownSchema,
    pool: &mut Pool<D>,
    changes: &WriteSet,
    at: u64,
    root: u32,
    name: &Text,
    index: usize,
    after: Option<&Position>,
) -> Result<Option<NumberedRow>, SpaceError>
    ensures row { (tables : List TableAt)
        → HoldsDatabase (in_use ((versions_of pool.old).pages at) (private_of changes.now)) root tables
        → IfOk result (λ found. IsEntry found (next_entry (get (contents_of tables) name.now) index (option_map (λ p. position_of p.now) after.entry))) }
    ensures versions { versions_of pool.new ≡ versions_of pool.old }
    ensures refusal { IfErr result (ReadRefused (HoldsNoDatabase (in_use ((versions_of pool.old).pages at) (private_of changes.now)) root) (refused_of pool.old) (refused_of pool.new)) }
    ensures rising { refused_of pool.old ≤ refused_of pool.new }
    ensures writes { D.writes (device_of pool.new) ≡ D.writes (device_of pool.old) }
{
    let mut space = Changed { pool, changes, at };
    index_lookups::next_in(&mut space, alloc, known, root, name, index, after)
}

/// The first row above a place in the index at a place of a table of a version with these pages
/// over it.
pub fn row_beyond<D: Disk>(
    alloc: Global,
    known: &mut KnownSchema,
    pool: &mut Pool<D>,
    changes: &WriteSet,
    at: u64,
    name: &Text,
    index: usize,
    after: Option<&Position>,
) -> Result<Option<NumberedRow>, StoreError>
    ensures row { IsDatabase ((versions_of pool.old).pages at) (private_of changes.now)
        → IfOk result (λ found. IsEntry found (next_entry (get (contents_in ((versions_of pool.old).pages at) (private_of changes.now)) name.now) index (option_map (λ p. position_of p.now) after.entry))) }
    ensures versions { versions_of pool.new ≡ versions_of pool.old }
    ensures refused { IfErr result (MayFail (IsDatabase ((versions_of pool.old).pages at) (private_of changes.now)) (refused_of pool.old) (refused_of pool.new) Never) }
    ensures rising { refused_of pool.old ≤ refused_of pool.new }
    ensures writes { D.writes (device_of pool.new) ≡ D.writes (device_of pool.old) }
{
    match read_header(pool, changes, at) {
        Ok(header) => match next_in_from(
            alloc,
            known,
            pool,
            changes,
            at,
            header.catalog_root,
            name,
            index,
            after,
        ) {
            Ok(found) => Ok(found),
            Err(fault) => Err(of_fault(fault)),
        },
        Err(fault) => Err(of_fault(fault)),
    }
}
