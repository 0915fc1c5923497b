//! Blocks of rows of a version of a pool, with a transaction's pages over it: at most so many
//! behind a place.
ghost use Rattle.std.specs.Prelude.{◌≡◌, ◌≤◌, ℕ, List, IfOk, IfErr};
ghost use Rattle.std.specs.FinMap.{get};
ghost use Rattle.std.specs.Option.{option_map};
ghost use Rattle.store.specs.Errors.{MayFail, Never};
ghost use Rattle.store.specs.Indexes.{entries_of, some_after, some_sought, some_ranged};
ghost use Rattle.store.specs.View.{AreEntries, position_of};
ghost use Rattle.page_space.specs.Space.{ReadRefused};
ghost use Rattle.pool.specs.Versions.{versions_of, device_of, refused_of};
ghost use Rattle.overlay.specs.WriteSet.{private_of};
ghost use Rattle.overlay.specs.InUse.{in_use};
ghost use Rattle.database_trees.specs.Held.{TableAt, HoldsDatabase, HoldsNoDatabase, contents_of};
ghost use Rattle.database_versions.specs.Databases.{IsDatabase, contents_in};

use crate::causes::of_fault;
use catalog::KnownSchema;
use disk::Disk;
use items::Text;
use overlay::{Changed, WriteSet, read_header};
use page_space::SpaceError;
use pool::Pool;
use sqlval::Value;
use std::alloc::Global;
use std::ops::Bound;
use store::{Numbered, Position, StoreError};

/// The first rows above a number of the table of a name among those at a root, at most so many.
fn scan_block_from<D: Disk>(
    alloc: Global,
    known: &mut KnownSchema,
    pool: &mut Pool<D>,
    changes: &WriteSet,
    at: u64,
    root: u32,
    name: &Text,
    after: Option<u64>,
    most: usize,
) -> Result<Numbered, SpaceError>
    ensures rows { (tables : List TableAt)
        → HoldsDatabase (in_use ((versions_of pool.old).pages at) (private_of changes.now)) root tables
        → IfOk result (λ found. AreEntries found (some_after after most (entries_of (get (contents_of tables) name.now)))) }
    ensures versions { versions_of pool.new ≡ versions_of pool.old }
    ensures refusal { IfErr result (ReadRefused (HoldsNoDatabase (in_use ((versions_of pool.old).pages at) (private_of changes.now)) root) (refused_of pool.old) (refused_of pool.new)) }
    ensures rising { refused_of pool.old ≤ refused_of pool.new }
    ensures writes { D.writes (device_of pool.new) ≡ D.writes (device_of pool.old) }
{
    let mut space = Changed { pool, changes, at };
    index_lookups::scan_block(&mut space, alloc, known, root, name, after, most)
}

/// The first rows above a number of a table of a version with these pages over it, at most so many.
pub fn some_rows_of<D: Disk>(
    alloc: Global,
    known: &mut KnownSchema,
    pool: &mut Pool<D>,
    changes: &WriteSet,
    at: u64,
    name: &Text,
    after: Option<u64>,
    most: usize,
) -> Result<Numbered, StoreError>
    ensures rows { IsDatabase ((versions_of pool.old).pages at) (private_of changes.now)
        → IfOk result (λ found. AreEntries found (some_after after most (entries_of (get (contents_in ((versions_of pool.old).pages at) (private_of changes.now)) name.now)))) }
    ensures versions { versions_of pool.new ≡ versions_of pool.old }
    ensures refused { IfErr result (MayFail (IsDatabase ((versions_of pool.old).pages at) (private_of changes.now)) (refused_of pool.old) (refused_of pool.new) Never) }
    ensures rising { refused_of pool.old ≤ refused_of pool.new }
    ensures writes { D.writes (device_of pool.new) ≡ D.writes (device_of pool.old) }
{
    match read_header(pool, changes, at) {
        Ok(header) => match scan_block_from(
            alloc,
            known,
            pool,
            changes,
            at,
            header.catalog_root,
            name,
            after,
            most,
        ) {
            Ok(found) => Ok(found),
            Err(fault) => Err(of_fault(fault)),
        },
        Err(fault) => Err(of_fault(fault)),
    }
}

/// The first rows above a number whose columns equal a key, by the index at a place of the table of
/// a name among those at a root, at most so many.
fn seek_block_from<D: Disk>(
    alloc: Global,
    known: &mut KnownSchema,
    pool: &mut Pool<D>,
    changes: &WriteSet,
    at: u64,
    root: u32,
    name: &Text,
    index: usize,
    key: &[Value],
    after: Option<u64>,
    most: usize,
) -> Result<Numbered, SpaceError>
    ensures rows { (tables : List TableAt)
        → HoldsDatabase (in_use ((versions_of pool.old).pages at) (private_of changes.now)) root tables
        → IfOk result (λ found. AreEntries found (some_sought (get (contents_of tables) name.now) index key.now after most)) }
    ensures versions { versions_of pool.new ≡ versions_of pool.old }
    ensures refusal { IfErr result (ReadRefused (HoldsNoDatabase (in_use ((versions_of pool.old).pages at) (private_of changes.now)) root) (refused_of pool.old) (refused_of pool.new)) }
    ensures rising { refused_of pool.old ≤ refused_of pool.new }
    ensures writes { D.writes (device_of pool.new) ≡ D.writes (device_of pool.old) }
{
    let mut space = Changed { pool, changes, at };
    index_lookups::seek_block(
        &mut space, alloc, known, root, name, index, key, after, most,
    )
}

/// The first rows above a number of a table of a version with these pages over it whose columns
/// equal a key, by the index at a place of the table, at most so many.
pub fn some_rows_sought<D: Disk>(
    alloc: Global,
    known: &mut KnownSchema,
    pool: &mut Pool<D>,
    changes: &WriteSet,
    at: u64,
    name: &Text,
    index: usize,
    key: &[Value],
    after: Option<u64>,
    most: usize,
) -> Result<Numbered, StoreError>
    ensures rows { IsDatabase ((versions_of pool.old).pages at) (private_of changes.now)
        → IfOk result (λ found. AreEntries found (some_sought (get (contents_in ((versions_of pool.old).pages at) (private_of changes.now)) name.now) index key.now after most)) }
    ensures versions { versions_of pool.new ≡ versions_of pool.old }
    ensures refused { IfErr result (MayFail (IsDatabase ((versions_of pool.old).pages at) (private_of changes.now)) (refused_of pool.old) (refused_of pool.new) Never) }
    ensures rising { refused_of pool.old ≤ refused_of pool.new }
    ensures writes { D.writes (device_of pool.new) ≡ D.writes (device_of pool.old) }
{
    match read_header(pool, changes, at) {
        Ok(header) => match seek_block_from(
            alloc,
            known,
            pool,
            changes,
            at,
            header.catalog_root,
            name,
            index,
            key,
            after,
            most,
        ) {
            Ok(found) => Ok(found),
            Err(fault) => Err(of_fault(fault)),
        },
        Err(fault) => Err(of_fault(fault)),
    }
}

/// The first rows within bounds behind a place in the index at a place of the table of a name among
/// those at a root, at most so many.
fn range_block_from<D: Disk>(
    alloc: Global,
    known: &mut KnownSchema,
    pool: &mut Pool<D>,
    changes: &WriteSet,
    at: u64,
    root: u32,
    name: &Text,
    index: usize,
    low: &Bound<Value>,
    high: &Bound<Value>,
    after: Option<&Position>,
    most: usize,
) -> Result<Numbered, SpaceError>
    ensures rows { (tables : List TableAt)
        → HoldsDatabase (in_use ((versions_of pool.old).pages at) (private_of changes.now)) root tables
        → IfOk result (λ found. AreEntries found (some_ranged (get (contents_of tables) name.now) index low.now high.now (option_map (λ p. position_of p.now) after.entry) most)) }
    ensures versions { versions_of pool.new ≡ versions_of pool.old }
    ensures refusal { IfErr result (ReadRefused (HoldsNoDatabase (in_use ((versions_of pool.old).pages at) (private_of changes.now)) root) (refused_of pool.old) (refused_of pool.new)) }
    ensures rising { refused_of pool.old ≤ refused_of pool.new }
    ensures writes { D.writes (device_of pool.new) ≡ D.writes (device_of pool.old) }
{
    let mut space = Changed { pool, changes, at };
    index_lookups::range_block(
        &mut space, alloc, known, root, name, index, low, high, after, most,
    )
}

/// The first rows within bounds behind a place in the index at a place of a table of a version with
/// these pages over it, at most so many, in the order of the index.
pub fn some_rows_within<D: Disk>(
    alloc: Global,
    known: &mut KnownSchema,
    pool: &mut Pool<D>,
    changes: &WriteSet,
    at: u64,
    name: &Text,
    index: usize,
    low: &Bound<Value>,
    high: &Bound<Value>,
    after: Option<&Position>,
    most: usize,
) -> Result<Numbered, StoreError>
    ensures rows { IsDatabase ((versions_of pool.old).pages at) (private_of changes.now)
        → IfOk result (λ found. AreEntries found (some_ranged (get (contents_in ((versions_of pool.old).pages at) (private_of changes.now)) name.now) index low.now high.now (option_map (λ p. position_of p.now) after.entry) most)) }
    ensures versions { versions_of pool.new ≡ versions_of pool.old }
    ensures refused { IfErr result (MayFail (IsDatabase ((versions_of pool.old).pages at) (private_of changes.now)) (refused_of pool.old) (refused_of pool.new) Never) }
    ensures rising { refused_of pool.old ≤ refused_of pool.new }
    ensures writes { D.writes (device_of pool.new) ≡ D.writes (device_of pool.old) }
{
    match read_header(pool, changes, at) {
        Ok(header) => match range_block_from(
            alloc,
            known,
            pool,
            changes,
            at,
            header.catalog_root,
            name,
            index,
            low,
            high,
            after,
            most,
        ) {
            Ok(found) => Ok(found),
            Err(fault) => Err(of_fault(fault)),
        },
        Err(fault) => Err(of_fault(fault)),
    }
}
