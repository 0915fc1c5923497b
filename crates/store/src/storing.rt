//! Versions of the tables, and changes of the newest.
ghost use Rattle.std.specs.Prelude.{◌≡◌, ⊤, ℕ, ◌≤◌, ◌<◌, List, [], ◌∷◌, length, option_map, ◌⊎◌, IfOk, IfErr, OnOk, OnErr, Some, None};
ghost use Rattle.std.specs.FinMap.{get, empty};
ghost use Rattle.sqlval.specs.declared.schema.Schema.{Schema as Declared};
ghost use Rattle.denote.specs.Database.{Database};
ghost use Rattle.denote.specs.SchemaOf.{IsSchemaOf, index_of};
ghost use Rattle.store.specs.declared.error.StoreError.TheVariants.{Device as OfDevice, Damaged};
ghost use Rattle.store.specs.declared.error.StoreLimit.{StoreLimit as Limit};
ghost use Rattle.store.specs.declared.view.View.{View as Which};
ghost use Rattle.store.specs.Contents.{StoredTable, Rises, database_of, rows_of, appended, replaced, deleted, replaced_all, deleted_all, with_table, without_table, indexed, unindexed};
ghost use Rattle.store.specs.Errors.{HasRisen, MayFail, Tells, Never, StoringReaches, IndexingReaches, ChangingReaches, CommittingReaches};
ghost use Rattle.store.specs.Going.{Going, reads, keeps, changes, writes as written, and_then, Goes, noted};
ghost use Rattle.store.specs.Indexes.{entries_of, entry_after, sought, ranged, next_entry, some_after, some_sought, some_ranged};
ghost use Rattle.store.specs.Stored.{Stored, IsOpened, SameButMark, IsAlone, begun, ended, marked_now, undone, committed, discarded, closed, working_on};
ghost use Rattle.store.specs.View.{AreEntries, IsEntry, count_of, counted_on, seen_by, position_of};

use crate::error::{Returned, StoreError};
use crate::rows::{Numbered, NumberedRow, Position};
use crate::view::View;
use denote::{Row, Rows};
use items::{Items, Text};
use sqlval::{Index, Schema, Table, Value};
use std::alloc::Global;
use std::ops::Bound;

/// Databases in versions: the last committed one, those that readers found, and the last committed
/// one with changes.
///
/// Readers are numbered by their callers. At most one caller changes tables at a time. A change is
/// made behind a mark: `mark` sets it, and what is refused goes back to it, so that several changes
/// behind one mark are made whole or not at all. `commit` makes the changes the next version,
/// `discard` drops them.
///
/// What a change or a reading answers is said where the store is sound; what a refused call leaves,
/// always.
pub trait Store: Drop {
    /// What the store is kept on.
    type Device: Drop;

    /// That every version can be read: the device gives back what was written, and a database lies
    /// in each version.
    ghost is_sound: { Self → Type 0 };

    /// What its versions hold.
    ghost shows: { Self → Stored };

    /// How many calls its device has refused.
    ghost refused: { Self → ℕ };

    /// How many calls a device has refused.
    ghost calls_refused: { Self.Device → ℕ };

    /// How many rows were read.
    ghost read: { Self → ℕ };

    /// How many of its answers said that it is damaged. The count stays at 2^64 - 1 once it is
    /// there.
    ghost damaged: { Self → ℕ };

    /// How many writes its device has taken.
    ghost writes: { Self → ℕ };

    /// That no change was made since the last commit, or since the changes were dropped.
    ghost unchanged: { Self → Type 0 };

    /// What every call keeps, also a refused one, by what it may do.
    ghost goes_on: { Self → Self → Going → Type 0 };

    /// That the change that was refused last reached a limit of what the store counts, its pages.
    ghost counted: { Self → Limit → Type 0 };

    /// The schema that is ready to be lent.
    ghost prepared: { Self → Declared };

    /// How much of the newest version is not on the device yet.
    ghost unwritten: { Self → ℕ };

    /// For how many pages it has room in memory.
    ghost room: { Self → ℕ };

    /// That a device gives back what was written, and that this database was saved on it.
    ghost saved: { Self.Device → Database → Type 0 };

    /// That a device is empty, or holds what has the form of a store's tables: no other one is
    /// opened.
    ghost readable: { Self.Device → Type 0 };

    /// That a device was synced, and nothing was to be written on it since.
    ghost settled: { Self.Device → Type 0 };

    /// That a device gives back what was written.
    ghost is_honest: { Self.Device → Type 0 };

    /// That two devices hold the same bytes.
    ghost same: { Self.Device → Self.Device → Type 0 };

    /// That a device is empty.
    ghost is_new: { Self.Device → Type 0 };

    /// That a device was empty when a store was opened on it that was refused: it opens as empty or
    /// is refused as damaged.
    ghost is_begun: { Self.Device → Type 0 };

    /// The store on a device, with room for so many pages in memory. A refusal hands the device
    /// back: as damaged with the bytes that it had, any other with what was saved, or, where it was
    /// empty, one that opens as empty or is refused as damaged.
    fn open(
        alloc: Global,
        device: Self::Device,
        frames: usize,
    ) -> Result<Self, Returned<Self::Device>>
        requires { (16 ≤ frames) × (frames ≤ 4096) }
        ensures room { IfOk result (λ store. room store ≡ frames) }
        ensures opened { IfOk result (λ store. (db : Database) → saved device db
            → is_sound store × IsOpened db (shows store)) }
        ensures readable { IfOk result (λ store. readable device) }
        ensures counts { IfOk result (λ store. calls_refused device ≤ refused store) }
        ensures begun { is_begun device → IfOk result (λ store. is_sound store × IsOpened empty (shows store)) }
        ensures same { is_honest device → IfErr result (λ back. back.error ≡ Damaged → same device back.value) }
        ensures left { IfErr result (λ back. (db : Database) → saved device db
            → saved back.value db ⊎ (is_new device × is_begun back.value)) }
        ensures clean { IfOk result (λ store. unchanged store) }
        ensures refused { IfErr result (λ back. MayFail ((db : Database)
            × saved device db) (calls_refused device) (calls_refused back.value) Never back.error) };

    /// Writes all that is committed, syncs behind it, and hands the device back. A refusal is that
    /// of the device, and hands the store back: all readers and the writer have ended, and what was
    /// committed is as before. Takes no memory.
    fn close(self) -> Result<Self::Device, Returned<Self>>
        ensures closed { IfOk result (λ device. is_sound self → saved device (database_of (shows self).last)) }
        ensures settled { IfOk result (λ device. settled device) }
        ensures counts { IfOk result (λ device. refused self ≤ calls_refused device) }
        ensures left { IfErr result (λ back. (shows back.value ≡ closed (shows self))
            × (is_sound self → is_sound back.value)) }
        ensures refused { IfErr result (λ back. (back.error ≡ OfDevice)
            × HasRisen (refused self) (refused back.value)) };

    /// Writes some of what is committed and not on the device yet, and answers how much is left:
    /// less than before, or nothing. Changes no version. It is refused for memory or by the device
    /// alone.
    fn flush(&mut self) -> Result<u32, StoreError>
        ensures left { IfOk result (λ left. left ≡ unwritten self.new) }
        ensures less { OnOk result (0 < unwritten self.old → unwritten self.new < unwritten self.old) }
        ensures shows { shows self.new ≡ shows self.old }
        ensures prepared { prepared self.new ≡ prepared self.old }
        ensures refused { IfErr result (MayFail ⊤ (refused self.old) (refused self.new) Never) }
        ensures damage { OnOk result (damaged self.new ≡ damaged self.old)
            × IfErr result (λ error. Tells error (damaged self.old) (damaged self.new)) }
        ensures goes { goes_on self.old self.new (written []) };

    /// How many commits there were since the store was opened.
    fn commits(&self) -> u64
        ensures { result ≡ (shows self.now).commits };

    /// The number of the version that a reader found, if it has begun: how many commits there were
    /// then.
    fn number(&self, reader: u64) -> Option<u64>
        ensures { result ≡ option_map (λ found. found.number) (get (shows self.now).readers reader) };

    /// The reader begins at the newest version, unless it has begun.
    fn begin(&mut self, reader: u64) -> Result<(), StoreError>
        ensures shows { OnOk result (shows self.new ≡ begun (shows self.old) reader) }
        ensures same { OnErr result (shows self.new ≡ shows self.old) }
        ensures prepared { prepared self.new ≡ prepared self.old }
        ensures refused { IfErr result (MayFail (is_sound self.old) (refused self.old) (refused self.new) Never) }
        ensures damage { OnOk result (damaged self.new ≡ damaged self.old)
            × IfErr result (λ error. Tells error (damaged self.old) (damaged self.new)) }
        ensures goes { goes_on self.old self.new keeps };

    /// The reader ends, if it has begun. Takes no memory.
    fn end(&mut self, reader: u64)
        ensures shows { shows self.new ≡ ended (shows self.old) reader }
        ensures prepared { prepared self.new ≡ prepared self.old }
        ensures unwritten { unwritten self.new ≡ unwritten self.old }
        ensures damage { damaged self.new ≡ damaged self.old }
        ensures goes { goes_on self.old self.new keeps };

    /// Sets the mark to which a refused change and `undo` go back.
    fn mark(&mut self) -> Result<(), StoreError>
        ensures shows { OnOk result (shows self.new ≡ marked_now (shows self.old)) }
        ensures same { OnErr result (SameButMark (shows self.old) (shows self.new)) }
        ensures prepared { prepared self.new ≡ prepared self.old }
        ensures refused { IfErr result (MayFail (is_sound self.old) (refused self.old) (refused self.new) Never) }
        ensures damage { OnOk result (damaged self.new ≡ damaged self.old)
            × IfErr result (λ error. Tells error (damaged self.old) (damaged self.new)) }
        ensures goes { goes_on self.old self.new keeps };

    /// Goes back to the mark. Takes no memory.
    fn undo(&mut self)
        ensures shows { shows self.new ≡ undone (shows self.old) }
        ensures damage { damaged self.new ≡ damaged self.old }
        ensures goes { goes_on self.old self.new keeps };

    /// The changes become the next version. A refusal leaves all versions and the changes.
    fn commit(&mut self) -> Result<(), StoreError>
        ensures shows { OnOk result (shows self.new ≡ committed (shows self.old)) }
        ensures same { OnErr result (shows self.new ≡ shows self.old) }
        ensures refused { IfErr result (MayFail (is_sound self.old) (refused self.old) (refused self.new) (CommittingReaches (counted self.old) (shows self.old).commits)) }
        ensures damage { OnOk result (damaged self.new ≡ damaged self.old)
            × IfErr result (λ error. Tells error (damaged self.old) (damaged self.new)) }
        ensures idle { unchanged self.old → writes self.new ≡ writes self.old }
        ensures unchanged { OnOk result (unchanged self.new) }
        ensures goes { goes_on self.old self.new (written ((shows self.old).working ∷ [])) };

    /// Drops the changes. Takes no memory.
    fn discard(&mut self)
        ensures shows { shows self.new ≡ discarded (shows self.old) }
        ensures unwritten { unwritten self.new ≡ unwritten self.old }
        ensures damage { damaged self.new ≡ damaged self.old }
        ensures unchanged { unchanged self.new }
        ensures goes { goes_on self.old self.new keeps };

    /// Makes the schema of a version ready to be lent.
    fn prepare(&mut self, view: View) -> Result<(), StoreError>
        ensures prepared { is_sound self.old
            → OnOk result (IsSchemaOf (prepared self.new) (database_of (seen_by (shows self.old) view))) }
        ensures shows { shows self.new ≡ shows self.old }
        ensures refused { IfErr result (MayFail (is_sound self.old) (refused self.old) (refused self.new) Never) }
        ensures damage { OnOk result (damaged self.new ≡ damaged self.old)
            × IfErr result (λ error. Tells error (damaged self.old) (damaged self.new)) }
        ensures goes { goes_on self.old self.new keeps };

    /// The schema that was made ready last.
    fn schema(&self) -> &Schema
        ensures { result.now ≡ prepared self.now };

    /// A new table without rows, as it is declared. Where a table has that name, nothing changes.
    fn create_table(&mut self, table: Table) -> Result<(), StoreError>
        ensures shows { is_sound self.old
            → OnOk result (shows self.new ≡ working_on (shows self.old) (with_table (shows self.old).working table)) }
        ensures undone { OnErr result (shows self.new ≡ undone (shows self.old)) }
        ensures refused { IfErr result (MayFail (is_sound self.old) (refused self.old) (refused self.new) (ChangingReaches (counted self.new))) }
        ensures alone { OnOk result (IsAlone (shows self.old) (shows self.new)) }
        ensures damage { OnOk result (damaged self.new ≡ damaged self.old)
            × IfErr result (λ error. Tells error (damaged self.old) (damaged self.new)) }
        ensures goes { goes_on self.old self.new changes };

    /// The table of this name goes, with its indexes.
    fn drop_table(&mut self, name: &Text) -> Result<(), StoreError>
        ensures shows { is_sound self.old
            → OnOk result (shows self.new ≡ working_on (shows self.old) (without_table (shows self.old).working name.now)) }
        ensures undone { OnErr result (shows self.new ≡ undone (shows self.old)) }
        ensures refused { IfErr result (MayFail (is_sound self.old) (refused self.old) (refused self.new) (ChangingReaches (counted self.new))) }
        ensures alone { OnOk result (IsAlone (shows self.old) (shows self.new)) }
        ensures damage { OnOk result (damaged self.new ≡ damaged self.old)
            × IfErr result (λ error. Tells error (damaged self.old) (damaged self.new)) }
        ensures goes { goes_on self.old self.new changes };

    /// A new index of a table, over the rows that are there.
    fn create_index(&mut self, name: &Text, index: Index) -> Result<(), StoreError>
        ensures shows { is_sound self.old
            → OnOk result (shows self.new ≡ working_on (shows self.old) (indexed (shows self.old).working name.now index)) }
        ensures undone { OnErr result (shows self.new ≡ undone (shows self.old)) }
        ensures refused { IfErr result (MayFail (is_sound self.old) (refused self.old) (refused self.new) (IndexingReaches (counted self.new) (rows_of (entries_of (get (shows self.old).working name.now))) (index_of index))) }
        ensures alone { OnOk result (IsAlone (shows self.old) (shows self.new)) }
        ensures damage { OnOk result (damaged self.new ≡ damaged self.old)
            × IfErr result (λ error. Tells error (damaged self.old) (damaged self.new)) }
        ensures goes { goes_on self.old self.new changes };

    /// The index of this name goes.
    fn drop_index(&mut self, name: &Text) -> Result<(), StoreError>
        ensures shows { is_sound self.old
            → OnOk result (shows self.new ≡ working_on (shows self.old) (unindexed (shows self.old).working name.now)) }
        ensures undone { OnErr result (shows self.new ≡ undone (shows self.old)) }
        ensures refused { IfErr result (MayFail (is_sound self.old) (refused self.old) (refused self.new) (ChangingReaches (counted self.new))) }
        ensures alone { OnOk result (IsAlone (shows self.old) (shows self.new)) }
        ensures damage { OnOk result (damaged self.new ≡ damaged self.old)
            × IfErr result (λ error. Tells error (damaged self.old) (damaged self.new)) }
        ensures goes { goes_on self.old self.new changes };

    /// Puts rows at the end of a table, numbered on from its greatest number.
    fn append(&mut self, name: &Text, rows: Rows) -> Result<(), StoreError>
        ensures shows { is_sound self.old
            → OnOk result (shows self.new ≡ working_on (shows self.old) (appended (shows self.old).working name.now rows)) }
        ensures undone { OnErr result (shows self.new ≡ undone (shows self.old)) }
        ensures refused { IfErr result (MayFail (is_sound self.old) (refused self.old) (refused self.new) (StoringReaches (counted self.new) (get (shows self.old).working name.now) rows)) }
        ensures alone { OnOk result (IsAlone (shows self.old) (shows self.new)) }
        ensures damage { OnOk result (damaged self.new ≡ damaged self.old)
            × IfErr result (λ error. Tells error (damaged self.old) (damaged self.new)) }
        ensures goes { goes_on self.old self.new changes };

    /// Puts a row in place of the one of this number, if there is one.
    fn replace(&mut self, name: &Text, number: u64, row: Row) -> Result<(), StoreError>
        ensures shows { is_sound self.old
            → OnOk result (shows self.new ≡ working_on (shows self.old) (replaced (shows self.old).working name.now number row)) }
        ensures undone { OnErr result (shows self.new ≡ undone (shows self.old)) }
        ensures refused { IfErr result (MayFail (is_sound self.old) (refused self.old) (refused self.new) (StoringReaches (counted self.new) (get (shows self.old).working name.now) (row ∷ []))) }
        ensures alone { OnOk result (IsAlone (shows self.old) (shows self.new)) }
        ensures damage { OnOk result (damaged self.new ≡ damaged self.old)
            × IfErr result (λ error. Tells error (damaged self.old) (damaged self.new)) }
        ensures goes { goes_on self.old self.new changes };

    /// Removes the row of this number, if there is one.
    fn delete(&mut self, name: &Text, number: u64) -> Result<(), StoreError>
        ensures shows { is_sound self.old
            → OnOk result (shows self.new ≡ working_on (shows self.old) (deleted (shows self.old).working name.now number)) }
        ensures undone { OnErr result (shows self.new ≡ undone (shows self.old)) }
        ensures refused { IfErr result (MayFail (is_sound self.old) (refused self.old) (refused self.new) (ChangingReaches (counted self.new))) }
        ensures alone { OnOk result (IsAlone (shows self.old) (shows self.new)) }
        ensures damage { OnOk result (damaged self.new ≡ damaged self.old)
            × IfErr result (λ error. Tells error (damaged self.old) (damaged self.new)) }
        ensures goes { goes_on self.old self.new changes };

    /// Puts rows in place of those of their numbers, one after another.
    fn replace_rows(&mut self, name: &Text, rows: Items<(u64, Row)>) -> Result<(), StoreError>
        ensures shows { is_sound self.old
            → OnOk result (shows self.new ≡ working_on (shows self.old) (replaced_all (shows self.old).working name.now rows)) }
        ensures undone { OnErr result (shows self.new ≡ undone (shows self.old)) }
        ensures refused { IfErr result (MayFail (is_sound self.old) (refused self.old) (refused self.new) (StoringReaches (counted self.new) (get (shows self.old).working name.now) (rows_of rows))) }
        ensures alone { OnOk result (IsAlone (shows self.old) (shows self.new)) }
        ensures damage { OnOk result (damaged self.new ≡ damaged self.old)
            × IfErr result (λ error. Tells error (damaged self.old) (damaged self.new)) }
        ensures goes { goes_on self.old self.new changes };

    /// Removes the rows of these numbers, one after another.
    fn delete_rows(&mut self, name: &Text, numbers: &[u64]) -> Result<(), StoreError>
        ensures shows { is_sound self.old
            → OnOk result (shows self.new ≡ working_on (shows self.old) (deleted_all (shows self.old).working name.now numbers.now)) }
        ensures undone { OnErr result (shows self.new ≡ undone (shows self.old)) }
        ensures refused { IfErr result (MayFail (is_sound self.old) (refused self.old) (refused self.new) (ChangingReaches (counted self.new))) }
        ensures alone { OnOk result (IsAlone (shows self.old) (shows self.new)) }
        ensures damage { OnOk result (damaged self.new ≡ damaged self.old)
            × IfErr result (λ error. Tells error (damaged self.old) (damaged self.new)) }
        ensures goes { goes_on self.old self.new changes };

    /// All rows of a table of a version, in the order of their numbers.
    fn scan(&mut self, alloc: Global, view: View, name: &Text) -> Result<Numbered, StoreError>
        ensures rows { is_sound self.old
            → IfOk result (λ found. AreEntries found (entries_of (get (seen_by (shows self.old) view) name.now))) }
        ensures read { IfOk result (λ found. read self.new ≡ counted_on (read self.old) (length found.rows)) }
        ensures refused { IfErr result (MayFail (is_sound self.old) (refused self.old) (refused self.new) Never) }
        ensures damage { OnOk result (damaged self.new ≡ damaged self.old)
            × IfErr result (λ error. Tells error (damaged self.old) (damaged self.new)) }
        ensures goes { goes_on self.old self.new reads };

    /// The first row above a number; without a number the first of all.
    fn next(
        &mut self,
        alloc: Global,
        view: View,
        name: &Text,
        after: Option<u64>,
    ) -> Result<Option<NumberedRow>, StoreError>
        ensures row { is_sound self.old
            → IfOk result (λ found. IsEntry found (entry_after after (entries_of (get (seen_by (shows self.old) view) name.now)))) }
        ensures read { IfOk result (λ found. read self.new ≡ counted_on (read self.old) (count_of found)) }
        ensures refused { IfErr result (MayFail (is_sound self.old) (refused self.old) (refused self.new) Never) }
        ensures damage { OnOk result (damaged self.new ≡ damaged self.old)
            × IfErr result (λ error. Tells error (damaged self.old) (damaged self.new)) }
        ensures goes { goes_on self.old self.new reads };

    /// The rows whose columns equal a key, as `Reading` has it.
    fn seek(
        &mut self,
        alloc: Global,
        view: View,
        name: &Text,
        index: usize,
        key: &[Value],
    ) -> Result<Numbered, StoreError>
        ensures rows { is_sound self.old
            → IfOk result (λ found. AreEntries found (sought (get (seen_by (shows self.old) view) name.now) index key.now)) }
        ensures read { IfOk result (λ found. read self.new ≡ counted_on (read self.old) (length found.rows)) }
        ensures refused { IfErr result (MayFail (is_sound self.old) (refused self.old) (refused self.new) Never) }
        ensures damage { OnOk result (damaged self.new ≡ damaged self.old)
            × IfErr result (λ error. Tells error (damaged self.old) (damaged self.new)) }
        ensures goes { goes_on self.old self.new reads };

    /// The rows within bounds, as `Reading` has it.
    fn range(
        &mut self,
        alloc: Global,
        view: View,
        name: &Text,
        index: usize,
        low: &Bound<Value>,
        high: &Bound<Value>,
    ) -> Result<Numbered, StoreError>
        ensures rows { is_sound self.old
            → IfOk result (λ found. AreEntries found (ranged (get (seen_by (shows self.old) view) name.now) index low.now high.now)) }
        ensures read { IfOk result (λ found. read self.new ≡ counted_on (read self.old) (length found.rows)) }
        ensures refused { IfErr result (MayFail (is_sound self.old) (refused self.old) (refused self.new) Never) }
        ensures damage { OnOk result (damaged self.new ≡ damaged self.old)
            × IfErr result (λ error. Tells error (damaged self.old) (damaged self.new)) }
        ensures goes { goes_on self.old self.new reads };

    /// The first row above a place in an index, as `Reading` has it.
    fn next_in(
        &mut self,
        alloc: Global,
        view: View,
        name: &Text,
        index: usize,
        after: Option<&Position>,
    ) -> Result<Option<NumberedRow>, StoreError>
        ensures row { is_sound self.old
            → IfOk result (λ found. IsEntry found (next_entry (get (seen_by (shows self.old) view) name.now) index (option_map (λ p. position_of p.now) after.entry))) }
        ensures read { IfOk result (λ found. read self.new ≡ counted_on (read self.old) (count_of found)) }
        ensures refused { IfErr result (MayFail (is_sound self.old) (refused self.old) (refused self.new) Never) }
        ensures damage { OnOk result (damaged self.new ≡ damaged self.old)
            × IfErr result (λ error. Tells error (damaged self.old) (damaged self.new)) }
        ensures goes { goes_on self.old self.new reads };

    /// The first rows of a table above a number, at most so many.
    fn scan_block(
        &mut self,
        alloc: Global,
        view: View,
        name: &Text,
        after: Option<u64>,
        most: usize,
    ) -> Result<Numbered, StoreError>
        ensures rows { is_sound self.old
            → IfOk result (λ found. AreEntries found (some_after after most (entries_of (get (seen_by (shows self.old) view) name.now)))) }
        ensures read { IfOk result (λ found. read self.new ≡ counted_on (read self.old) (length found.rows)) }
        ensures refused { IfErr result (MayFail (is_sound self.old) (refused self.old) (refused self.new) Never) }
        ensures damage { OnOk result (damaged self.new ≡ damaged self.old)
            × IfErr result (λ error. Tells error (damaged self.old) (damaged self.new)) }
        ensures goes { goes_on self.old self.new reads };

    /// The first rows whose columns equal a key above a number, at most so many.
    fn seek_block(
        &mut self,
        alloc: Global,
        view: View,
        name: &Text,
        index: usize,
        key: &[Value],
        after: Option<u64>,
        most: usize,
    ) -> Result<Numbered, StoreError>
        ensures rows { is_sound self.old
            → IfOk result (λ found. AreEntries found (some_sought (get (seen_by (shows self.old) view) name.now) index key.now after most)) }
        ensures read { IfOk result (λ found. read self.new ≡ counted_on (read self.old) (length found.rows)) }
        ensures refused { IfErr result (MayFail (is_sound self.old) (refused self.old) (refused self.new) Never) }
        ensures damage { OnOk result (damaged self.new ≡ damaged self.old)
            × IfErr result (λ error. Tells error (damaged self.old) (damaged self.new)) }
        ensures goes { goes_on self.old self.new reads };

    /// The first rows within bounds behind a place in the index, at most so many; without bounds,
    /// of a walk of the index.
    fn range_block(
        &mut self,
        alloc: Global,
        view: View,
        name: &Text,
        index: usize,
        low: &Bound<Value>,
        high: &Bound<Value>,
        after: Option<&Position>,
        most: usize,
    ) -> Result<Numbered, StoreError>
        ensures rows { is_sound self.old
            → IfOk result (λ found. AreEntries found (some_ranged (get (seen_by (shows self.old) view) name.now) index low.now high.now (option_map (λ p. position_of p.now) after.entry) most)) }
        ensures read { IfOk result (λ found. read self.new ≡ counted_on (read self.old) (length found.rows)) }
        ensures refused { IfErr result (MayFail (is_sound self.old) (refused self.old) (refused self.new) Never) }
        ensures damage { OnOk result (damaged self.new ≡ damaged self.old)
            × IfErr result (λ error. Tells error (damaged self.old) (damaged self.new)) }
        ensures goes { goes_on self.old self.new reads };

    /// How many rows were read. The count stays at 2^64 - 1 once it is there.
    fn rows_read(&self) -> u64
        ensures { result ≡ read self.now };

    /// Rows stand in the order of their numbers, none of which comes twice.
    ghost numbers_rise: { (s : Self) (view : Which) (name : List ℕ) (table : StoredTable) → is_sound s → get (seen_by (shows s) view) name ≡ Some table → Rises table.entries };

    ghost goes_on_refl: { (s : Self) (going : Going) → goes_on s s going };

    ghost goes_on_trans: { (a b c : Self) (first next : Going) → goes_on a b first → goes_on b c next → goes_on a c (and_then first next) };

    ghost goes_on_goes: { (a b : Self) (going : Going) → goes_on a b going → Goes going (is_sound a) (is_sound b) (unchanged a) (unchanged b)
        (noted (shows a) (prepared a) (refused a) (damaged a) (read a) (writes a)) (noted (shows b) (prepared b) (refused b) (damaged b) (read b) (writes b)) };
}
