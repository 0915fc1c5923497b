//! A store over one file.
ghost use Rattle.std.specs.Prelude.{◌≡◌};
ghost use Rattle.pool.specs.Versions.{versions_of, refused_of};
ghost use Rattle.overlay.specs.WriteSet.{private_of, settled_of};
ghost use Rattle.paged_store.specs.Orderly.{IsOrderly, IsSteady};

use crate::counting::{counted_row, counted_rows, told};
use crate::keeping::{are_places, is_kept};
use crate::many_rows::{delete_rows, replace_rows};
use crate::seen::{
    beyond_seen, next_seen, ranged_seen, rows_seen, schema_seen, some_ranged_seen, some_rows_seen,
    some_sought_seen, sought_seen,
};
use crate::undoing::undo_refused;
use crate::writing::write_some;
use catalog::KnownSchema;
use database_versions::{
    append_rows, close_pool, create_index, create_table, delete_row, drop_index, drop_table,
    of_pool, pool_over, replace_row,
};
use denote::{Row, Rows};
use disk::Disk;
use items::{Items, Text};
use overlay::WriteSet;
use pool::Pool;
use snapshot_pins::{Readers, found_is_pinned};
use sqlval::{Index, Schema, Table, Value};
use std::alloc::Global;
use std::ops::Bound;
use store::{Numbered, NumberedRow, Position, Returned, Store, StoreError, View};

/// Tables in the pages of one file, in versions. Each reader sees the pages of the commit that it
/// found; what the writer changes lies over the last one until it is committed.
///
/// A key of an index that is too long counts as want of memory: a store may name that limit only
/// where it shows the index, and over a device that is not known to give back what was written
/// nothing is shown.
#[derive(Drop)]
pub struct Paged<D: Disk> {
    alloc: Global,
    pool: Pool<D>,
    changes: WriteSet,
    readers: Readers,
    /// The schema that was decoded last.
    known: KnownSchema,
    /// The schema that was made ready last.
    prepared: Schema,
    /// The number of the last commit.
    commits: u64,
    /// How many rows were read.
    read: u64,
    /// How many answers said that it is damaged.
    damaged: u64,
    ghost ordered: { IsOrderly D.is_honest (versions_of pool) readers commits },
    ghost steady: { IsSteady ((versions_of pool).pages (versions_of pool).last) (private_of changes) (settled_of changes) },
}

impl<D: Disk + Drop> Paged<D> {
    ghost use Rattle.std.specs.Prelude.{◌≡◌, Err, OnOk, IfErr};
    ghost use Rattle.store.specs.Errors.{Tells};
    ghost use Rattle.store.specs.Going.{changes};
    ghost use Rattle.store.specs.Stored.{undone};
    ghost use Rattle.paged_store.specs.Store.{shown_of, PagedGoes};

    /// Goes back to the mark, and refuses.
    fn refuse(&mut self, error: StoreError) -> Result<(), StoreError>
        ensures undone { shown_of self.new ≡ undone (shown_of self.old) }
        ensures damage { OnOk result (self.new.damaged ≡ self.old.damaged)
            × IfErr result (λ error. Tells error self.old.damaged self.new.damaged) }
        ensures goes { PagedGoes changes self.old self.new }
        ensures refused { result ≡ Err error }
    {
        self.changes.undo();
        Err(told(&mut self.damaged, error))
    }
}

impl<D: Disk + Drop> Store for Paged<D> {
    ghost use Rattle.std.specs.Prelude.{◌≡◌, [], IsTrue};
    ghost use Rattle.store.specs.Going.{goes_itself, goes_on_and_on};
    ghost use Rattle.pool.specs.Versions.{NeedsImages, versions_of, device_of, unwritten_of, frames_of};
    ghost use Rattle.overlay.specs.WriteSet.{private_of, settled_of, undone_of};
    ghost use Rattle.database_versions.specs.Opened.{IsReadable};
    ghost use Rattle.paged_store.specs.Counted.{IsCounted};
    ghost use Rattle.paged_store.specs.Saved.{IsBegun, IsSavedAlone};
    ghost use Rattle.paged_store.specs.Store.{shown_of, sound_of, unchanged_of, noted_of, PagedGoes};
    ghost use Rattle.paged_store.specs.SeenLemmas.{rises_seen};

    type Device = D;

    ghost is_sound = { λ s. sound_of s };

    ghost shows = { λ s. shown_of s };

    ghost refused = { λ s. refused_of s.pool };

    ghost calls_refused = { λ device. D.refused device };

    ghost read = { λ s. s.read };

    ghost damaged = { λ s. s.damaged };

    ghost writes = { λ s. D.writes (device_of s.pool) };

    ghost unchanged = { λ s. unchanged_of s };

    ghost goes_on = { λ a b going. PagedGoes going a b };

    ghost counted = { λ s limit. IsCounted (NeedsImages s.pool (private_of s.changes)) D.is_honest ((versions_of s.pool).pages (versions_of s.pool).last) (settled_of s.changes) (undone_of s.changes) limit };

    ghost prepared = { λ s. s.prepared };

    ghost unwritten = { λ s. unwritten_of s.pool };

    ghost room = { λ s. frames_of s.pool };

    ghost saved = { λ device db. IsSavedAlone D.is_honest (D.bytes device) db };

    ghost readable = { λ device. IsReadable D.is_honest (D.bytes device) };

    ghost settled = { λ device. D.settled device };

    ghost is_honest = { λ device. IsTrue D.is_honest };

    ghost same = { λ a b. D.bytes b ≡ D.bytes a };

    ghost is_new = { λ device. D.bytes device ≡ [] };

    ghost is_begun = { λ device. IsBegun D.is_honest (D.bytes device) };

    ghost numbers_rise = { λ s view name table sound found. rises_seen _ _ _ _ _ view name table sound found };

    ghost goes_on_refl = { λ s going. goes_itself going (sound_of s) (unchanged_of s) (noted_of s) };

    ghost goes_on_trans = { λ a b c first next h g. goes_on_and_on first next (sound_of a) (sound_of b) (sound_of c) (unchanged_of a) (unchanged_of b) (unchanged_of c) (noted_of a) (noted_of b) (noted_of c) h g };

    ghost goes_on_goes = { λ a b going h. h };

    fn open(alloc: Global, device: D, frames: usize) -> Result<Self, Returned<D>> {
        match pool_over(alloc, device, frames as u32) {
            Ok(pool) => Ok(Paged {
                alloc,
                pool,
                changes: WriteSet::new(alloc),
                readers: Readers::new(alloc),
                known: KnownSchema::new(alloc),
                prepared: Schema {
                    tables: Items::new(alloc),
                },
                commits: 0,
                read: 0,
                damaged: 0,
            }),
            Err(back) => Err(back),
        }
    }

    fn close(self) -> Result<D, Returned<Self>> {
        let alloc = self.alloc;
        let known = self.known;
        let prepared = self.prepared;
        let commits = self.commits;
        let read = self.read;
        let damaged = self.damaged;
        let mut pool = self.pool;
        let mut readers = self.readers;
        readers.end_all(&mut pool);
        match close_pool(pool) {
            Ok(device) => Ok(device),
            Err(refused) => Err(Returned {
                error: of_pool(refused.cause),
                value: Paged {
                    alloc,
                    pool: refused.pool,
                    changes: WriteSet::new(alloc),
                    readers,
                    known,
                    prepared,
                    commits,
                    read,
                    damaged,
                },
            }),
        }
    }

    fn flush(&mut self) -> Result<u32, StoreError> {
        match write_some(&mut self.pool) {
            Ok(left) => Ok(left),
            Err(error) => Err(of_pool(error)),
        }
    }

    fn commits(&self) -> u64 {
        self.commits
    }

    fn number(&self, reader: u64) -> Option<u64> {
        self.readers.number(reader)
    }

    fn begin(&mut self, reader: u64) -> Result<(), StoreError> {
        if self.pool.is_broken() {
            return Err(of_pool(self.pool.refuse()));
        }
        match self.readers.begin(&mut self.pool, reader) {
            Ok(()) => Ok(()),
            Err(error) => Err(of_pool(error)),
        }
    }

    fn end(&mut self, reader: u64) {
        self.readers.end(&mut self.pool, reader);
    }

    fn mark(&mut self) -> Result<(), StoreError> {
        match self.changes.mark() {
            Ok(()) => Ok(()),
            Err(_) => Err(StoreError::Memory),
        }
    }

    fn undo(&mut self) {
        self.changes.undo();
    }

    fn commit(&mut self) -> Result<(), StoreError> {
        found_is_pinned();
        match overlay::commit(&mut self.pool, &self.changes) {
            Ok(number) => {
                self.commits = number;
                self.changes = WriteSet::new(self.alloc);
                Ok(())
            }
            Err(error) => Err(told(&mut self.damaged, of_pool(error))),
        }
    }

    fn discard(&mut self) {
        self.changes = WriteSet::new(self.alloc);
    }

    fn prepare(&mut self, view: View) -> Result<(), StoreError> {
        match schema_seen(
            self.alloc,
            &mut self.known,
            &mut self.pool,
            &self.changes,
            &self.readers,
            self.commits,
            view,
        ) {
            Ok(schema) => {
                self.prepared = schema;
                Ok(())
            }
            Err(error) => Err(told(&mut self.damaged, error)),
        }
    }

    fn schema(&self) -> &Schema {
        &self.prepared
    }

    fn create_table(&mut self, table: Table) -> Result<(), StoreError> {
        let mut table = table;
        table.root = 0;
        if !is_kept(&table) {
            return self.refuse(StoreError::Memory);
        }
        let done = create_table(
            self.alloc,
            &mut self.pool,
            &mut self.changes,
            self.commits,
            &table,
        );
        undo_refused(&mut self.changes, &mut self.damaged, done)
    }

    fn drop_table(&mut self, name: &Text) -> Result<(), StoreError> {
        let done = drop_table(
            self.alloc,
            &mut self.pool,
            &mut self.changes,
            self.commits,
            name,
        );
        undo_refused(&mut self.changes, &mut self.damaged, done)
    }

    fn create_index(&mut self, name: &Text, index: Index) -> Result<(), StoreError> {
        are_places(index.columns.as_slice());
        let done = create_index(
            self.alloc,
            &mut self.pool,
            &mut self.changes,
            self.commits,
            name,
            index,
        );
        undo_refused(&mut self.changes, &mut self.damaged, done)
    }

    fn drop_index(&mut self, name: &Text) -> Result<(), StoreError> {
        let done = drop_index(
            self.alloc,
            &mut self.pool,
            &mut self.changes,
            self.commits,
            name,
        );
        undo_refused(&mut self.changes, &mut self.damaged, done)
    }

    fn append(&mut self, name: &Text, rows: Rows) -> Result<(), StoreError> {
        let done = append_rows(
            self.alloc,
            &mut self.known,
            &mut self.pool,
            &mut self.changes,
            self.commits,
            name,
            rows,
        );
        undo_refused(&mut self.changes, &mut self.damaged, done)
    }

    fn replace(&mut self, name: &Text, number: u64, row: Row) -> Result<(), StoreError> {
        let done = replace_row(
            self.alloc,
            &mut self.known,
            &mut self.pool,
            &mut self.changes,
            self.commits,
            name,
            number,
            row,
        );
        undo_refused(&mut self.changes, &mut self.damaged, done)
    }

    fn delete(&mut self, name: &Text, number: u64) -> Result<(), StoreError> {
        let done = delete_row(
            self.alloc,
            &mut self.known,
            &mut self.pool,
            &mut self.changes,
            self.commits,
            name,
            number,
        );
        undo_refused(&mut self.changes, &mut self.damaged, done)
    }

    fn replace_rows(&mut self, name: &Text, rows: Items<(u64, Row)>) -> Result<(), StoreError> {
        let done = replace_rows(
            self.alloc,
            &mut self.known,
            &mut self.pool,
            &mut self.changes,
            self.commits,
            name,
            rows,
        );
        undo_refused(&mut self.changes, &mut self.damaged, done)
    }

    fn delete_rows(&mut self, name: &Text, numbers: &[u64]) -> Result<(), StoreError> {
        let done = delete_rows(
            self.alloc,
            &mut self.known,
            &mut self.pool,
            &mut self.changes,
            self.commits,
            name,
            numbers,
        );
        undo_refused(&mut self.changes, &mut self.damaged, done)
    }

    fn scan(&mut self, alloc: Global, view: View, name: &Text) -> Result<Numbered, StoreError> {
        let found = rows_seen(
            alloc,
            &mut self.known,
            &mut self.pool,
            &self.changes,
            &self.readers,
            self.commits,
            view,
            name,
        );
        counted_rows(&mut self.read, &mut self.damaged, found)
    }

    fn next(
        &mut self,
        alloc: Global,
        view: View,
        name: &Text,
        after: Option<u64>,
    ) -> Result<Option<NumberedRow>, StoreError> {
        let found = next_seen(
            alloc,
            &mut self.known,
            &mut self.pool,
            &self.changes,
            &self.readers,
            self.commits,
            view,
            name,
            after,
        );
        counted_row(&mut self.read, &mut self.damaged, found)
    }

    fn seek(
        &mut self,
        alloc: Global,
        view: View,
        name: &Text,
        index: usize,
        key: &[Value],
    ) -> Result<Numbered, StoreError> {
        let found = sought_seen(
            alloc,
            &mut self.known,
            &mut self.pool,
            &self.changes,
            &self.readers,
            self.commits,
            view,
            name,
            index,
            key,
        );
        counted_rows(&mut self.read, &mut self.damaged, found)
    }

    fn range(
        &mut self,
        alloc: Global,
        view: View,
        name: &Text,
        index: usize,
        low: &Bound<Value>,
        high: &Bound<Value>,
    ) -> Result<Numbered, StoreError> {
        let found = ranged_seen(
            alloc,
            &mut self.known,
            &mut self.pool,
            &self.changes,
            &self.readers,
            self.commits,
            view,
            name,
            index,
            low,
            high,
        );
        counted_rows(&mut self.read, &mut self.damaged, found)
    }

    fn next_in(
        &mut self,
        alloc: Global,
        view: View,
        name: &Text,
        index: usize,
        after: Option<&Position>,
    ) -> Result<Option<NumberedRow>, StoreError> {
        let found = beyond_seen(
            alloc,
            &mut self.known,
            &mut self.pool,
            &self.changes,
            &self.readers,
            self.commits,
            view,
            name,
            index,
            after,
        );
        counted_row(&mut self.read, &mut self.damaged, found)
    }

    fn scan_block(
        &mut self,
        alloc: Global,
        view: View,
        name: &Text,
        after: Option<u64>,
        most: usize,
    ) -> Result<Numbered, StoreError> {
        let found = some_rows_seen(
            alloc,
            &mut self.known,
            &mut self.pool,
            &self.changes,
            &self.readers,
            self.commits,
            view,
            name,
            after,
            most,
        );
        counted_rows(&mut self.read, &mut self.damaged, found)
    }

    fn seek_block(
        &mut self,
        alloc: Global,
        view: View,
        name: &Text,
        index: usize,
        key: &[Value],
        after: Option<u64>,
        most: usize,
    ) -> Result<Numbered, StoreError> {
        let found = some_sought_seen(
            alloc,
            &mut self.known,
            &mut self.pool,
            &self.changes,
            &self.readers,
            self.commits,
            view,
            name,
            index,
            key,
            after,
            most,
        );
        counted_rows(&mut self.read, &mut self.damaged, found)
    }

    fn range_block(
        &mut self,
        alloc: Global,
        view: View,
        name: &Text,
        index: usize,
        low: &Bound<Value>,
        high: &Bound<Value>,
        after: Option<&Position>,
        most: usize,
    ) -> Result<Numbered, StoreError> {
        let found = some_ranged_seen(
            alloc,
            &mut self.known,
            &mut self.pool,
            &self.changes,
            &self.readers,
            self.commits,
            view,
            name,
            index,
            low,
            high,
            after,
            most,
        );
        counted_rows(&mut self.read, &mut self.damaged, found)
    }

    fn rows_read(&self) -> u64 {
        self.read
    }
}
