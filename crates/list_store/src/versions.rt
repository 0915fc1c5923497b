//! Versions as beginnings of one list of changes.
ghost use Rattle.std.specs.Prelude.{◌≡◌, ◌≤◌, nat_le, true, length};
ghost use Rattle.std.specs.List.{list_all};
ghost use Rattle.store.specs.View.{count_of};

use crate::change::Change;
use crate::declared_tables::declared_tables;
use crate::limits::{has_long_entry, has_long_row, is_long_row};
use crate::lists::Lists;
use crate::readers::{Reader, add_reader, find_reader, remove_reader};
use crate::reading::{
    all_rows, row_after, row_beyond, rows_sought, rows_within, some_rows, some_sought, some_within,
};
use denote::{Row, Rows};
use items::{Items, Text};
use sqlval::{Index, Schema, Table, Value};
use std::alloc::Global;
use std::ops::Bound;
use store::{Numbered, NumberedRow, Position, Returned, Store, StoreError, StoreLimit, View};

/// Tables in memory, as the list of the changes that made them. Each version is a beginning of that
/// list, so that a version takes a number, and what is taken back is cut off.
///
/// It refuses for want of memory, rows whose code takes more than 1,000 bytes, and more than 2^64 -
/// 1 commits. A row number past 2^64 - 1 counts as want of memory.
#[derive(Drop)]
pub struct ListStore {
    alloc: Global,
    /// All changes; they make the newest version.
    changes: Items<Change>,
    /// How many of them are committed, and how many there were at the mark.
    committed: usize,
    marked: usize,
    readers: Vec<Reader>,
    commits: u64,
    read: u64,
    prepared: Schema,
    /// How many pages it was asked to keep in memory; lists need none.
    frames: usize,
    ghost kept: { committed ≤ marked },
    ghost within: { marked ≤ length changes },
    ghost begun: { list_all (λ r. nat_le r.length committed) readers.items ≡ true },
}

impl ListStore {
    ghost use Rattle.std.specs.Prelude.{◌≡◌, ◌≤◌, length, take, IfErr, OnOk, OnErr, Err};
    ghost use Rattle.store.specs.declared.error.StoreError.TheVariants.{Memory};
    ghost use Rattle.store.specs.Stored.{working_on, undone};
    ghost use Rattle.store.specs.View.{seen_by, counted_on};
    ghost use Rattle.store.specs.Contents.{replaced_all, deleted_all};
    ghost use Rattle.store.specs.Going.{reads, changes};
    ghost use Rattle.list_store.specs.Versions.{made, replayed};
    ghost use Rattle.list_store.specs.Shown.{versions_of, ListsGo};

    /// Makes one more change. A refusal is for want of memory, and goes back to the mark.
    fn make(&mut self, change: Change) -> Result<(), StoreError>
        ensures shows { OnOk result (versions_of self.new ≡ working_on (versions_of self.old) (made (versions_of self.old).working change)) }
        ensures undone { OnErr result (versions_of self.new ≡ undone (versions_of self.old)) }
        ensures refused { IfErr result (λ error. error ≡ Memory) }
        ensures goes { ListsGo changes self.old self.new }
    {
        if self.changes.push(change).is_err() {
            return self.refuse(StoreError::Memory);
        }
        Ok(())
    }

    /// Goes back to the mark, and refuses.
    fn refuse(&mut self, error: StoreError) -> Result<(), StoreError>
        ensures undone { versions_of self.new ≡ undone (versions_of self.old) }
        ensures refused { result ≡ Err error }
        ensures goes { ListsGo changes self.old self.new }
    {
        self.changes.truncate(self.marked);
        Err(error)
    }

    /// Puts rows in place of those of their numbers, one after another. A refusal is for want of
    /// memory, and goes back to the mark.
    fn replace_all(&mut self, name: &Text, rows: Items<(u64, Row)>) -> Result<(), StoreError>
        ensures shows { OnOk result (versions_of self.new ≡ working_on (versions_of self.old) (replaced_all (versions_of self.old).working name.now rows)) }
        ensures undone { OnErr result (versions_of self.new ≡ undone (versions_of self.old)) }
        ensures refused { IfErr result (λ error. error ≡ Memory) }
        ensures goes { ListsGo changes self.old self.new }
    {
        for entry in rows.into_vec() {
            let (number, row) = entry;
            match name.copy(self.alloc) {
                Ok(table) => self.make(Change::Replace(table, number, row))?,
                Err(_) => return self.refuse(StoreError::Memory),
            }
        }
        Ok(())
    }

    /// Removes the rows of these numbers, one after another. A refusal is for want of memory, and
    /// goes back to the mark.
    fn delete_all(&mut self, name: &Text, numbers: &[u64]) -> Result<(), StoreError>
        ensures shows { OnOk result (versions_of self.new ≡ working_on (versions_of self.old) (deleted_all (versions_of self.old).working name.now numbers.now)) }
        ensures undone { OnErr result (versions_of self.new ≡ undone (versions_of self.old)) }
        ensures refused { IfErr result (λ error. error ≡ Memory) }
        ensures goes { ListsGo changes self.old self.new }
    {
        for number in numbers {
            match name.copy(self.alloc) {
                Ok(table) => self.make(Change::Delete(table, *number))?,
                Err(_) => return self.refuse(StoreError::Memory),
            }
        }
        Ok(())
    }

    /// How many changes a view sees.
    fn length_seen(&self, view: View) -> usize
        ensures seen { replayed (take result self.now.changes) ≡ seen_by (versions_of self.now) view }
        ensures within { result ≤ length self.now.changes }
    {
        match view {
            View::Found(reader) => match find_reader(&self.readers, reader) {
                Some(found) => found.length,
                None => self.committed,
            },
            View::Working => self.changes.len(),
        }
    }

    /// The changes that a view sees.
    fn changes_seen(&self, view: View) -> &[Change]
        ensures { replayed result.now ≡ seen_by (versions_of self.now) view }
    {
        let length = self.length_seen(view);
        &self.changes.as_slice()[..length]
    }

    /// Counts rows that were read.
    fn count(&mut self, rows: usize)
        ensures read { self.new.read ≡ counted_on self.old.read rows }
        ensures read_on { self.old.read ≤ self.new.read }
        ensures same { versions_of self.new ≡ versions_of self.old }
        ensures prepared { self.new.prepared ≡ self.old.prepared }
        ensures goes { ListsGo reads self.old self.new }
    {
        self.read = self.read.saturating_add(rows as u64);
    }
}

/// One row, or none.
fn rows_in(found: &Option<NumberedRow>) -> usize
    ensures { result ≡ count_of found.now }
{
    match found {
        Some(_) => 1,
        None => 0,
    }
}

impl Store for ListStore {
    ghost use Rattle.std.specs.Prelude.{◌≡◌, ⊤, [], length};
    ghost use Rattle.std.specs.FinMap.{empty};
    ghost use Rattle.store.specs.Contents.{database_of};
    ghost use Rattle.store.specs.Going.{goes_itself, goes_on_and_on};
    ghost use Rattle.list_store.specs.Versions.{replayed};
    ghost use Rattle.list_store.specs.Shown.{versions_of, noted_of, ListsGo};
    ghost use Rattle.list_store.specs.TableLemmas.{rises-seen};

    type Device = Lists;

    ghost is_sound = { λ s. ⊤ };

    ghost shows = { versions_of };

    ghost refused = { λ s. 0 };

    ghost calls_refused = { λ device. 0 };

    ghost read = { λ s. s.read };

    ghost damaged = { λ s. 0 };

    ghost writes = { λ s. 0 };

    ghost unchanged = { λ s. s.committed ≡ length s.changes };

    ghost goes_on = { λ a b going. ListsGo going a b };

    ghost counted = { λ s limit. ⊥ };

    ghost prepared = { λ s. s.prepared };

    ghost unwritten = { λ s. 0 };

    ghost room = { λ s. s.frames };

    ghost saved = { λ device db. database_of (replayed device.changes) ≡ db };

    ghost is_honest = { λ device. ⊤ };

    ghost same = { λ a b. b.changes ≡ a.changes };

    ghost is_new = { λ device. device.changes ≡ [] };

    ghost is_begun = { λ device. database_of (replayed device.changes) ≡ empty };

    ghost readable = { λ device. ⊤ };

    ghost settled = { λ device. ⊤ };

    ghost numbers_rise = { λ s view name table sound found. rises-seen s.commits s.changes s.committed s.marked s.readers.items view name table found };

    ghost goes_on_refl = { λ s going. goes_itself going ⊤ (s.committed ≡ length s.changes) (noted_of s) };

    ghost goes_on_trans = { λ a b c first next h g. goes_on_and_on first next ⊤ ⊤ ⊤ _ _ _ (noted_of a) (noted_of b) (noted_of c) h g };

    ghost goes_on_goes = { λ a b going h. h };

    fn open(alloc: Global, device: Lists, frames: usize) -> Result<Self, Returned<Lists>> {
        let changes = device.changes;
        let committed = changes.len();
        Ok(ListStore {
            alloc,
            changes,
            committed,
            marked: committed,
            readers: Vec::new(alloc),
            commits: 0,
            read: 0,
            prepared: Schema {
                tables: Items::new(alloc),
            },
            frames,
        })
    }

    fn close(self) -> Result<Lists, Returned<Self>> {
        let alloc = self.alloc;
        let committed = self.committed;
        let mut changes = self.changes;
        changes.truncate(committed);
        Ok(Lists { alloc, changes })
    }

    fn flush(&mut self) -> Result<u32, StoreError> {
        Ok(0)
    }

    fn commits(&self) -> u64 {
        self.commits
    }

    fn number(&self, reader: u64) -> Option<u64> {
        match find_reader(&self.readers, reader) {
            Some(found) => Some(found.number),
            None => None,
        }
    }

    fn begin(&mut self, reader: u64) -> Result<(), StoreError> {
        match find_reader(&self.readers, reader) {
            Some(_) => Ok(()),
            None => {
                let begun = Reader {
                    reader,
                    number: self.commits,
                    length: self.committed,
                };
                add_reader(&mut self.readers, begun)?;
                Ok(())
            }
        }
    }

    fn end(&mut self, reader: u64) {
        remove_reader(&mut self.readers, reader);
    }

    fn mark(&mut self) -> Result<(), StoreError> {
        self.marked = self.changes.len();
        Ok(())
    }

    fn undo(&mut self) {
        self.changes.truncate(self.marked);
    }

    fn commit(&mut self) -> Result<(), StoreError> {
        if self.commits == u64::MAX {
            return Err(StoreError::Exceeded(StoreLimit::Pages));
        }
        self.commits += 1;
        self.marked = self.changes.len();
        self.committed = self.marked;
        Ok(())
    }

    fn discard(&mut self) {
        self.changes.truncate(self.committed);
        self.marked = self.committed;
    }

    fn prepare(&mut self, view: View) -> Result<(), StoreError> {
        let tables = declared_tables(self.alloc, self.changes_seen(view))?;
        self.prepared = Schema { tables };
        Ok(())
    }

    fn schema(&self) -> &Schema {
        &self.prepared
    }

    fn create_table(&mut self, table: Table) -> Result<(), StoreError> {
        self.make(Change::CreateTable(table))
    }

    fn drop_table(&mut self, name: &Text) -> Result<(), StoreError> {
        match name.copy(self.alloc) {
            Ok(table) => self.make(Change::DropTable(table)),
            Err(_) => self.refuse(StoreError::Memory),
        }
    }

    fn create_index(&mut self, name: &Text, index: Index) -> Result<(), StoreError> {
        match name.copy(self.alloc) {
            Ok(table) => self.make(Change::CreateIndex(table, index)),
            Err(_) => self.refuse(StoreError::Memory),
        }
    }

    fn drop_index(&mut self, name: &Text) -> Result<(), StoreError> {
        match name.copy(self.alloc) {
            Ok(own) => self.make(Change::DropIndex(own)),
            Err(_) => self.refuse(StoreError::Memory),
        }
    }

    fn append(&mut self, name: &Text, rows: Rows) -> Result<(), StoreError> {
        if has_long_row(rows.as_slice()) {
            return self.refuse(StoreError::Exceeded(StoreLimit::Record));
        }
        match name.copy(self.alloc) {
            Ok(table) => self.make(Change::Append(table, rows)),
            Err(_) => self.refuse(StoreError::Memory),
        }
    }

    fn replace(&mut self, name: &Text, number: u64, row: Row) -> Result<(), StoreError> {
        if is_long_row(row.as_slice()) {
            return self.refuse(StoreError::Exceeded(StoreLimit::Record));
        }
        match name.copy(self.alloc) {
            Ok(table) => self.make(Change::Replace(table, number, row)),
            Err(_) => self.refuse(StoreError::Memory),
        }
    }

    fn delete(&mut self, name: &Text, number: u64) -> Result<(), StoreError> {
        match name.copy(self.alloc) {
            Ok(table) => self.make(Change::Delete(table, number)),
            Err(_) => self.refuse(StoreError::Memory),
        }
    }

    fn replace_rows(&mut self, name: &Text, rows: Items<(u64, Row)>) -> Result<(), StoreError> {
        if has_long_entry(rows.as_slice()) {
            return self.refuse(StoreError::Exceeded(StoreLimit::Record));
        }
        self.replace_all(name, rows)
    }

    fn delete_rows(&mut self, name: &Text, numbers: &[u64]) -> Result<(), StoreError> {
        self.delete_all(name, numbers)
    }

    fn scan(&mut self, alloc: Global, view: View, name: &Text) -> Result<Numbered, StoreError> {
        let found = all_rows(alloc, self.changes_seen(view), name)?;
        self.count(found.rows.len());
        Ok(found)
    }

    fn next(
        &mut self,
        alloc: Global,
        view: View,
        name: &Text,
        after: Option<u64>,
    ) -> Result<Option<NumberedRow>, StoreError> {
        let found = row_after(alloc, self.changes_seen(view), name, after)?;
        self.count(rows_in(&found));
        Ok(found)
    }

    fn seek(
        &mut self,
        alloc: Global,
        view: View,
        name: &Text,
        index: usize,
        key: &[Value],
    ) -> Result<Numbered, StoreError> {
        let found = rows_sought(alloc, self.changes_seen(view), name, index, key)?;
        self.count(found.rows.len());
        Ok(found)
    }

    fn range(
        &mut self,
        alloc: Global,
        view: View,
        name: &Text,
        index: usize,
        low: &Bound<Value>,
        high: &Bound<Value>,
    ) -> Result<Numbered, StoreError> {
        let found = rows_within(alloc, self.changes_seen(view), name, index, low, high)?;
        self.count(found.rows.len());
        Ok(found)
    }

    fn next_in(
        &mut self,
        alloc: Global,
        view: View,
        name: &Text,
        index: usize,
        after: Option<&Position>,
    ) -> Result<Option<NumberedRow>, StoreError> {
        let found = row_beyond(alloc, self.changes_seen(view), name, index, after)?;
        self.count(rows_in(&found));
        Ok(found)
    }

    fn scan_block(
        &mut self,
        alloc: Global,
        view: View,
        name: &Text,
        after: Option<u64>,
        most: usize,
    ) -> Result<Numbered, StoreError> {
        let found = some_rows(alloc, self.changes_seen(view), name, after, most)?;
        self.count(found.rows.len());
        Ok(found)
    }

    fn seek_block(
        &mut self,
        alloc: Global,
        view: View,
        name: &Text,
        index: usize,
        key: &[Value],
        after: Option<u64>,
        most: usize,
    ) -> Result<Numbered, StoreError> {
        let found = some_sought(
            alloc,
            self.changes_seen(view),
            name,
            index,
            key,
            after,
            most,
        )?;
        self.count(found.rows.len());
        Ok(found)
    }

    fn range_block(
        &mut self,
        alloc: Global,
        view: View,
        name: &Text,
        index: usize,
        low: &Bound<Value>,
        high: &Bound<Value>,
        after: Option<&Position>,
        most: usize,
    ) -> Result<Numbered, StoreError> {
        let changes = self.changes_seen(view);
        let found = some_within(alloc, changes, name, index, low, high, after, most)?;
        self.count(found.rows.len());
        Ok(found)
    }

    fn rows_read(&self) -> u64 {
        self.read
    }
}
