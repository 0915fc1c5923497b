//! What lies in a version of a pool, with a transaction's pages over it.
ghost use Rattle.std.specs.Prelude.{◌≡◌, ◌≤◌, ℕ, List, IfOk, IfErr};
ghost use Rattle.std.specs.FinMap.{get};
ghost use Rattle.denote.specs.SchemaOf.{IsSchemaOf};
ghost use Rattle.store.specs.Contents.{database_of};
ghost use Rattle.store.specs.Errors.{MayFail, Never};
ghost use Rattle.store.specs.Indexes.{entries_of, entry_after};
ghost use Rattle.store.specs.View.{AreEntries, IsEntry};
ghost use Rattle.page_space.specs.Space.{ReadRefused};
ghost use Rattle.pool.specs.Versions.{versions_of, device_of, refused_of};
ghost use Rattle.overlay.specs.WriteSet.{private_of};
ghost use Rattle.overlay.specs.InUse.{in_use};
ghost use Rattle.stored_tables.specs.Held.{TableAt, HoldsTables, HoldsNoTables, contents_of};
ghost use Rattle.database_versions.specs.Databases.{IsDatabase, contents_in};

use crate::causes::of_fault;
use catalog::KnownSchema;
use disk::Disk;
use items::Text;
use overlay::{Changed, WriteSet, read_header};
use page_space::SpaceError;
use pool::Pool;
use sqlval::Schema;
use std::alloc::Global;
use store::{Numbered, NumberedRow, StoreError};

/// The schema of the tables at a root.
fn schema_from<D: Disk>(
    alloc: Global,
    known: &mut KnownSchema,
    pool: &mut Pool<D>,
    changes: &WriteSet,
    at: u64,
    root: u32,
) -> Result<Schema, SpaceError>
    ensures found { (tables : List TableAt)
        → HoldsTables (in_use ((versions_of pool.old).pages at) (private_of changes.now)) root tables
        → IfOk result (λ schema. IsSchemaOf schema (database_of (contents_of tables))) }
    ensures versions { versions_of pool.new ≡ versions_of pool.old }
    ensures refusal { IfErr result (ReadRefused (HoldsNoTables (in_use ((versions_of pool.old).pages at) (private_of changes.now)) root) (refused_of pool.old) (refused_of pool.new)) }
    ensures rising { refused_of pool.old ≤ refused_of pool.new }
    ensures writes { D.writes (device_of pool.new) ≡ D.writes (device_of pool.old) }
{
    let mut space = Changed { pool, changes, at };
    stored_tables::read_schema(&mut space, alloc, known, root)
}

/// The schema of a version with these pages over it.
pub fn schema_of<D: Disk>(
    alloc: Global,
    known: &mut KnownSchema,
    pool: &mut Pool<D>,
    changes: &WriteSet,
    at: u64,
) -> Result<Schema, StoreError>
    ensures found { IsDatabase ((versions_of pool.old).pages at) (private_of changes.now)
        → IfOk result (λ schema. IsSchemaOf schema (database_of (contents_in ((versions_of pool.old).pages at) (private_of changes.now)))) }
    ensures versions { versions_of pool.new ≡ versions_of pool.old }
    ensures refused { IfErr result (MayFail (IsDatabase ((versions_of pool.old).pages at) (private_of changes.now)) (refused_of pool.old) (refused_of pool.new) Never) }
    ensures rising { refused_of pool.old ≤ refused_of pool.new }
    ensures writes { D.writes (device_of pool.new) ≡ D.writes (device_of pool.old) }
{
    match read_header(pool, changes, at) {
        Ok(header) => match schema_from(alloc, known, pool, changes, at, header.catalog_root) {
            Ok(schema) => Ok(schema),
            Err(fault) => Err(of_fault(fault)),
        },
        Err(fault) => Err(of_fault(fault)),
    }
}

/// All rows of the table of a name among those at a root.
fn scan_from<D: Disk>(
    alloc: Global,
    known: &mut KnownSchema,
    pool: &mut Pool<D>,
    changes: &WriteSet,
    at: u64,
    root: u32,
    name: &Text,
) -> Result<Numbered, SpaceError>
    ensures rows { (tables : List TableAt)
        → HoldsTables (in_use ((versions_of pool.old).pages at) (private_of changes.now)) root tables
        → IfOk result (λ found. AreEntries found (entries_of (get (contents_of tables) name.now))) }
    ensures versions { versions_of pool.new ≡ versions_of pool.old }
    ensures refusal { IfErr result (ReadRefused (HoldsNoTables (in_use ((versions_of pool.old).pages at) (private_of changes.now)) root) (refused_of pool.old) (refused_of pool.new)) }
    ensures rising { refused_of pool.old ≤ refused_of pool.new }
    ensures writes { D.writes (device_of pool.new) ≡ D.writes (device_of pool.old) }
{
    let mut space = Changed { pool, changes, at };
    stored_tables::scan(&mut space, alloc, known, root, name)
}

/// All rows of a table of a version with these pages over it.
pub fn rows_of<D: Disk>(
    alloc: Global,
    known: &mut KnownSchema,
    pool: &mut Pool<D>,
    changes: &WriteSet,
    at: u64,
    name: &Text,
) -> Result<Numbered, StoreError>
    ensures rows { IsDatabase ((versions_of pool.old).pages at) (private_of changes.now)
        → IfOk result (λ found. AreEntries found (entries_of (get (contents_in ((versions_of pool.old).pages at) (private_of changes.now)) name.now))) }
    ensures versions { versions_of pool.new ≡ versions_of pool.old }
    ensures refused { IfErr result (MayFail (IsDatabase ((versions_of pool.old).pages at) (private_of changes.now)) (refused_of pool.old) (refused_of pool.new) Never) }
    ensures rising { refused_of pool.old ≤ refused_of pool.new }
    ensures writes { D.writes (device_of pool.new) ≡ D.writes (device_of pool.old) }
{
    match read_header(pool, changes, at) {
        Ok(header) => match scan_from(alloc, known, pool, changes, at, header.catalog_root, name) {
            Ok(found) => Ok(found),
            Err(fault) => Err(of_fault(fault)),
        },
        Err(fault) => Err(of_fault(fault)),
    }
}

/// The first row above a number of the table of a name among those at a root.
fn next_from<D: Disk>(
    alloc: Global,
    known: &mut KnownSchema,
    pool: &mut Pool<D>,
    changes: &WriteSet,
    at: u64,
    root: u32,
    name: &Text,
    after: Option<u64>,
) -> Result<Option<NumberedRow>, SpaceError>
    ensures row { (tables : List TableAt)
        → HoldsTables (in_use ((versions_of pool.old).pages at) (private_of changes.now)) root tables
        → IfOk result (λ found. IsEntry found (entry_after after (entries_of (get (contents_of tables) name.now)))) }
    ensures versions { versions_of pool.new ≡ versions_of pool.old }
    ensures refusal { IfErr result (ReadRefused (HoldsNoTables (in_use ((versions_of pool.old).pages at) (private_of changes.now)) root) (refused_of pool.old) (refused_of pool.new)) }
    ensures rising { refused_of pool.old ≤ refused_of pool.new }
    ensures writes { D.writes (device_of pool.new) ≡ D.writes (device_of pool.old) }
{
    let mut space = Changed { pool, changes, at };
    stored_tables::next(&mut space, alloc, known, root, name, after)
}

/// The first row above a number of a table of a version with these pages over it.
pub fn row_after<D: Disk>(
    alloc: Global,
    known: &mut KnownSchema,
    pool: &mut Pool<D>,
    changes: &WriteSet,
    at: u64,
    name: &Text,
    after: Option<u64>,
) -> Result<Option<NumberedRow>, StoreError>
    ensures row { IsDatabase ((versions_of pool.old).pages at) (private_of changes.now)
        → IfOk result (λ found. IsEntry found (entry_after after (entries_of (get (contents_in ((versions_of pool.old).pages at) (private_of changes.now)) name.now)))) }
    ensures versions { versions_of pool.new ≡ versions_of pool.old }
    ensures refused { IfErr result (MayFail (IsDatabase ((versions_of pool.old).pages at) (private_of changes.now)) (refused_of pool.old) (refused_of pool.new) Never) }
    ensures rising { refused_of pool.old ≤ refused_of pool.new }
    ensures writes { D.writes (device_of pool.new) ≡ D.writes (device_of pool.old) }
{
    match read_header(pool, changes, at) {
        Ok(header) => match next_from(
            alloc,
            known,
            pool,
            changes,
            at,
            header.catalog_root,
            name,
            after,
        ) {
            Ok(found) => Ok(found),
            Err(fault) => Err(of_fault(fault)),
        },
        Err(fault) => Err(of_fault(fault)),
    }
}
