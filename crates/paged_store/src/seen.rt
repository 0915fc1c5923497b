//! What a view of a store sees: the written pages over the last commit, or the commit that a reader
//! found, alone.
ghost use Rattle.std.specs.Prelude.{◌≡◌, ◌≤◌, unwrap_or, List, IfOk, IfErr};
ghost use Rattle.std.specs.FinMap.{get};
ghost use Rattle.std.specs.Option.{option_map};
ghost use Rattle.denote.specs.SchemaOf.{IsSchemaOf};
ghost use Rattle.store.specs.Contents.{Contents, database_of};
ghost use Rattle.store.specs.Errors.{MayFail, Never};
ghost use Rattle.store.specs.Indexes.{entries_of, entry_after, sought, ranged, next_entry, some_after, some_sought, some_ranged};
ghost use Rattle.store.specs.View.{AreEntries, IsEntry, seen_by, position_of};
ghost use Rattle.pool.specs.Pages.{PageMap};
ghost use Rattle.pool.specs.Versions.{versions_of, device_of, refused_of};
ghost use Rattle.overlay.specs.WriteSet.{private_of};
ghost use Rattle.snapshot_pins.specs.Pinned.{numbers_of};
ghost use Rattle.paged_store.specs.Shown.{stored};
ghost use Rattle.paged_store.specs.Sound.{IsSound};

use catalog::KnownSchema;
use database_versions::{
    row_after, row_beyond, rows_of, rows_sought, rows_within, schema_of, some_rows_of,
    some_rows_sought, some_rows_within,
};
use disk::Disk;
use items::Text;
use overlay::WriteSet;
use pool::Pool;
use snapshot_pins::Readers;
use sqlval::{Schema, Value};
use std::alloc::Global;
use std::ops::Bound;
use store::{Numbered, NumberedRow, Position, StoreError, View};

/// The number of the commit that a reader found, and of the last one where it has not begun.
fn number_seen(readers: &Readers, reader: u64, commits: u64) -> u64
    ensures { result ≡ unwrap_or (get (numbers_of readers.now) reader) commits }
{
    match readers.number(reader) {
        Some(number) => number,
        None => commits,
    }
}

/// The schema of a view.
pub(crate) fn schema_seen<D: Disk>(
    alloc: Global,
    known: &mut KnownSchema,
    pool: &mut Pool<D>,
    changes: &WriteSet,
    readers: &Readers,
    commits: u64,
    view: View,
) -> Result<Schema, StoreError>
    requires { commits ≡ (versions_of pool.old).last }
    ensures found { (settled : PageMap)
        → IsSound D.is_honest (versions_of pool.old) (numbers_of readers.now) (private_of changes.now) settled
        → IfOk result (λ schema. IsSchemaOf schema (database_of (seen_by (stored D.is_honest (versions_of pool.old) (numbers_of readers.now) (private_of changes.now) settled) view))) }
    ensures versions { versions_of pool.new ≡ versions_of pool.old }
    ensures refused { (settled : PageMap)
        → IfErr result (MayFail (IsSound D.is_honest (versions_of pool.old) (numbers_of readers.now) (private_of changes.now) settled) (refused_of pool.old) (refused_of pool.new) Never) }
    ensures rising { refused_of pool.old ≤ refused_of pool.new }
    ensures writes { D.writes (device_of pool.new) ≡ D.writes (device_of pool.old) }
{
    match view {
        View::Found(reader) => {
            let at = number_seen(readers, reader, commits);
            let none = WriteSet::new(alloc);
            schema_of(alloc, known, pool, &none, at)
        }
        View::Working => schema_of(alloc, known, pool, changes, commits),
    }
}

/// All rows of a table of a view.
pub(crate) fn rows_seen<D: Disk>(
    alloc: Global,
    known: &mut KnownSchema,
    pool: &mut Pool<D>,
    changes: &WriteSet,
    readers: &Readers,
    commits: u64,
    view: View,
    name: &Text,
) -> Result<Numbered, StoreError>
    requires { commits ≡ (versions_of pool.old).last }
    ensures rows { (settled : PageMap)
        → IsSound D.is_honest (versions_of pool.old) (numbers_of readers.now) (private_of changes.now) settled
        → IfOk result (λ found. AreEntries found (entries_of (get (seen_by (stored D.is_honest (versions_of pool.old) (numbers_of readers.now) (private_of changes.now) settled) view) name.now))) }
    ensures versions { versions_of pool.new ≡ versions_of pool.old }
    ensures refused { (settled : PageMap)
        → IfErr result (MayFail (IsSound D.is_honest (versions_of pool.old) (numbers_of readers.now) (private_of changes.now) settled) (refused_of pool.old) (refused_of pool.new) Never) }
    ensures rising { refused_of pool.old ≤ refused_of pool.new }
    ensures writes { D.writes (device_of pool.new) ≡ D.writes (device_of pool.old) }
{
    match view {
        View::Found(reader) => {
            let at = number_seen(readers, reader, commits);
            let none = WriteSet::new(alloc);
            rows_of(alloc, known, pool, &none, at, name)
        }
        View::Working => rows_of(alloc, known, pool, changes, commits, name),
    }
}

/// The first row above a number of a table of a view.
pub(crate) fn next_seen<D: Disk>(
    alloc: Global,
    known: &mut KnownSchema,
    pool: &mut Pool<D>,
    changes: &WriteSet,
    readers: &Readers,
    commits: u64,
    view: View,
    name: &Text,
    after: Option<u64>,
) -> Result<Option<NumberedRow>, StoreError>
    requires { commits ≡ (versions_of pool.old).last }
    ensures row { (settled : PageMap)
        → IsSound D.is_honest (versions_of pool.old) (numbers_of readers.now) (private_of changes.now) settled
        → IfOk result (λ found. IsEntry found (entry_after after (entries_of (get (seen_by (stored D.is_honest (versions_of pool.old) (numbers_of readers.now) (private_of changes.now) settled) view) name.now)))) }
    ensures versions { versions_of pool.new ≡ versions_of pool.old }
    ensures refused { (settled : PageMap)
        → IfErr result (MayFail (IsSound D.is_honest (versions_of pool.old) (numbers_of readers.now) (private_of changes.now) settled) (refused_of pool.old) (refused_of pool.new) Never) }
    ensures rising { refused_of pool.old ≤ refused_of pool.new }
    ensures writes { D.writes (device_of pool.new) ≡ D.writes (device_of pool.old) }
{
    match view {
        View::Found(reader) => {
            let at = number_seen(readers, reader, commits);
            let none = WriteSet::new(alloc);
            row_after(alloc, known, pool, &none, at, name, after)
        }
        View::Working => row_after(alloc, known, pool, changes, commits, name, after),
    }
}

/// The rows of a table of a view whose columns equal a key, by the index at a place of the table.
pub(crate) fn sought_seen<D: Disk>(
    alloc: Global,
    known: &mut KnownSchema,
    pool: &mut Pool<D>,
    changes: &WriteSet,
    readers: &Readers,
    commits: u64,
    view: View,
    name: &Text,
    index: usize,
    key: &[Value],
) -> Result<Numbered, StoreError>
    requires { commits ≡ (versions_of pool.old).last }
    ensures rows { (settled : PageMap)
        → IsSound D.is_honest (versions_of pool.old) (numbers_of readers.now) (private_of changes.now) settled
        → IfOk result (λ found. AreEntries found (sought (get (seen_by (stored D.is_honest (versions_of pool.old) (numbers_of readers.now) (private_of changes.now) settled) view) name.now) index key.now)) }
    ensures versions { versions_of pool.new ≡ versions_of pool.old }
    ensures refused { (settled : PageMap)
        → IfErr result (MayFail (IsSound D.is_honest (versions_of pool.old) (numbers_of readers.now) (private_of changes.now) settled) (refused_of pool.old) (refused_of pool.new) Never) }
    ensures rising { refused_of pool.old ≤ refused_of pool.new }
    ensures writes { D.writes (device_of pool.new) ≡ D.writes (device_of pool.old) }
{
    match view {
        View::Found(reader) => {
            let at = number_seen(readers, reader, commits);
            let none = WriteSet::new(alloc);
            rows_sought(alloc, known, pool, &none, at, name, index, key)
        }
        View::Working => rows_sought(alloc, known, pool, changes, commits, name, index, key),
    }
}

/// The rows of a table of a view whose first column of the index at a place is within bounds, in
/// the order of the index.
pub(crate) fn ranged_seen<D: Disk>(
    alloc: Global,
    known: &mut KnownSchema,
    pool: &mut Pool<D>,
    changes: &WriteSet,
    readers: &Readers,
    commits: u64,
    view: View,
    name: &Text,
    index: usize,
    low: &Bound<Value>,
    high: &Bound<Value>,
) -> Result<Numbered, StoreError>
    requires { commits ≡ (versions_of pool.old).last }
    ensures rows { (settled : PageMap)
        → IsSound D.is_honest (versions_of pool.old) (numbers_of readers.now) (private_of changes.now) settled
        → IfOk result (λ found. AreEntries found (ranged (get (seen_by (stored D.is_honest (versions_of pool.old) (numbers_of readers.now) (private_of changes.now) settled) view) name.now) index low.now high.now)) }
    ensures versions { versions_of pool.new ≡ versions_of pool.old }
    ensures refused { (settled : PageMap)
        → IfErr result (MayFail (IsSound D.is_honest (versions_of pool.old) (numbers_of readers.now) (private_of changes.now) settled) (refused_of pool.old) (refused_of pool.new) Never) }
    ensures rising { refused_of pool.old ≤ refused_of pool.new }
    ensures writes { D.writes (device_of pool.new) ≡ D.writes (device_of pool.old) }
{
    match view {
        View::Found(reader) => {
            let at = number_seen(readers, reader, commits);
            let none = WriteSet::new(alloc);
            rows_within(alloc, known, pool, &none, at, name, index, low, high)
        }
        View::Working => rows_within(alloc, known, pool, changes, commits, name, index, low, high),
    }
}

/// The first row above a place in the index at a place of a table of a view.
pub(crate) fn beyond_seen<D: Disk>(
    alloc: Global,
    known: &mut KnownSchema,
    pool: &mut Pool<D>,
    changes: &WriteSet,
    readers: &Readers,
    commits: u64,
    view: View,
    name: &Text,
    index: usize,
    after: Option<&Position>,
) -> Result<Option<NumberedRow>, StoreError>
    requires { commits ≡ (versions_of pool.old).last }
    ensures row { (settled : PageMap)
        → IsSound D.is_honest (versions_of pool.old) (numbers_of readers.now) (private_of changes.now) settled
        → IfOk result (λ found. IsEntry found (next_entry (get (seen_by (stored D.is_honest (versions_of pool.old) (numbers_of readers.now) (private_of changes.now) settled) view) name.now) index (option_map (λ p. position_of p.now) after.entry))) }
    ensures versions { versions_of pool.new ≡ versions_of pool.old }
    ensures refused { (settled : PageMap)
        → IfErr result (MayFail (IsSound D.is_honest (versions_of pool.old) (numbers_of readers.now) (private_of changes.now) settled) (refused_of pool.old) (refused_of pool.new) Never) }
    ensures rising { refused_of pool.old ≤ refused_of pool.new }
    ensures writes { D.writes (device_of pool.new) ≡ D.writes (device_of pool.old) }
{
    match view {
        View::Found(reader) => {
            let at = number_seen(readers, reader, commits);
            let none = WriteSet::new(alloc);
            row_beyond(alloc, known, pool, &none, at, name, index, after)
        }
        View::Working => row_beyond(alloc, known, pool, changes, commits, name, index, after),
    }
}

/// The first rows of a table of a view above a number, at most so many.
pub(crate) fn some_rows_seen<D: Disk>(
    alloc: Global,
    known: &mut KnownSchema,
    pool: &mut Pool<D>,
    changes: &WriteSet,
    readers: &Readers,
    commits: u64,
    view: View,
    name: &Text,
    after: Option<u64>,
    most: usize,
) -> Result<Numbered, StoreError>
    requires { commits ≡ (versions_of pool.old).last }
    ensures rows { (settled : PageMap)
        → IsSound D.is_honest (versions_of pool.old) (numbers_of readers.now) (private_of changes.now) settled
        → IfOk result (λ found. AreEntries found (some_after after most (entries_of (get (seen_by (stored D.is_honest (versions_of pool.old) (numbers_of readers.now) (private_of changes.now) settled) view) name.now)))) }
    ensures versions { versions_of pool.new ≡ versions_of pool.old }
    ensures refused { (settled : PageMap)
        → IfErr result (MayFail (IsSound D.is_honest (versions_of pool.old) (numbers_of readers.now) (private_of changes.now) settled) (refused_of pool.old) (refused_of pool.new) Never) }
    ensures rising { refused_of pool.old ≤ refused_of pool.new }
    ensures writes { D.writes (device_of pool.new) ≡ D.writes (device_of pool.old) }
{
    match view {
        View::Found(reader) => {
            let at = number_seen(readers, reader, commits);
            let none = WriteSet::new(alloc);
            some_rows_of(alloc, known, pool, &none, at, name, after, most)
        }
        View::Working => some_rows_of(alloc, known, pool, changes, commits, name, after, most),
    }
}

/// The first rows of a table of a view whose columns equal a key above a number, at most so many.
pub(crate) fn some_sought_seen<D: Disk>(
    alloc: Global,
    known: &mut KnownSchema,
    pool: &mut Pool<D>,
    changes: &WriteSet,
    readers: &Readers,
    commits: u64,
    view: View,
    name: &Text,
    index: usize,
    key: &[Value],
    after: Option<u64>,
    most: usize,
) -> Result<Numbered, StoreError>
    requires { commits ≡ (versions_of pool.old).last }
    ensures rows { (settled : PageMap)
        → IsSound D.is_honest (versions_of pool.old) (numbers_of readers.now) (private_of changes.now) settled
        → IfOk result (λ found. AreEntries found (some_sought (get (seen_by (stored D.is_honest (versions_of pool.old) (numbers_of readers.now) (private_of changes.now) settled) view) name.now) index key.now after most)) }
    ensures versions { versions_of pool.new ≡ versions_of pool.old }
    ensures refused { (settled : PageMap)
        → IfErr result (MayFail (IsSound D.is_honest (versions_of pool.old) (numbers_of readers.now) (private_of changes.now) settled) (refused_of pool.old) (refused_of pool.new) Never) }
    ensures rising { refused_of pool.old ≤ refused_of pool.new }
    ensures writes { D.writes (device_of pool.new) ≡ D.writes (device_of pool.old) }
{
    match view {
        View::Found(reader) => {
            let at = number_seen(readers, reader, commits);
            let none = WriteSet::new(alloc);
            some_rows_sought(alloc, known, pool, &none, at, name, index, key, after, most)
        }
        View::Working => some_rows_sought(
            alloc, known, pool, changes, commits, name, index, key, after, most,
        ),
    }
}

/// The first rows of a table of a view within bounds behind a place in an index, at most so many.
pub(crate) fn some_ranged_seen<D: Disk>(
    alloc: Global,
    known: &mut KnownSchema,
    pool: &mut Pool<D>,
    changes: &WriteSet,
    readers: &Readers,
    commits: u64,
    view: View,
    name: &Text,
    index: usize,
    low: &Bound<Value>,
    high: &Bound<Value>,
    after: Option<&Position>,
    most: usize,
) -> Result<Numbered, StoreError>
    requires { commits ≡ (versions_of pool.old).last }
    ensures rows { (settled : PageMap)
        → IsSound D.is_honest (versions_of pool.old) (numbers_of readers.now) (private_of changes.now) settled
        → IfOk result (λ found. AreEntries found (some_ranged (get (seen_by (stored D.is_honest (versions_of pool.old) (numbers_of readers.now) (private_of changes.now) settled) view) name.now) index low.now high.now (option_map (λ p. position_of p.now) after.entry) most)) }
    ensures versions { versions_of pool.new ≡ versions_of pool.old }
    ensures refused { (settled : PageMap)
        → IfErr result (MayFail (IsSound D.is_honest (versions_of pool.old) (numbers_of readers.now) (private_of changes.now) settled) (refused_of pool.old) (refused_of pool.new) Never) }
    ensures rising { refused_of pool.old ≤ refused_of pool.new }
    ensures writes { D.writes (device_of pool.new) ≡ D.writes (device_of pool.old) }
{
    match view {
        View::Found(reader) => {
            let at = number_seen(readers, reader, commits);
            let none = WriteSet::new(alloc);
            some_rows_within(
                alloc, known, pool, &none, at, name, index, low, high, after, most,
            )
        }
        View::Working => some_rows_within(
            alloc, known, pool, changes, commits, name, index, low, high, after, most,
        ),
    }
}
