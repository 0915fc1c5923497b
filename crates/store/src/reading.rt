//! One version of the tables, as what evaluates a statement reads it.
ghost use Rattle.std.specs.Prelude.{◌≡◌, ℕ, List, length, option_map, IfOk, IfErr, OnOk, Some};
ghost use Rattle.std.specs.FinMap.{get};
ghost use Rattle.store.specs.Contents.{StoredTable, Rises};
ghost use Rattle.store.specs.Errors.{MayFail, Never, Tells};
ghost use Rattle.store.specs.Indexes.{entries_of, entry_after, sought, ranged, next_entry, some_after, some_sought, some_ranged};
ghost use Rattle.store.specs.View.{Shown, Keeps, AreEntries, IsEntry, count_of, counted_on, table_named, position_of};

use crate::error::StoreError;
use crate::rows::{Numbered, NumberedRow, Position};
use items::Text;
use sqlval::Value;
use std::alloc::Global;
use std::ops::Bound;

/// What gives the rows of stored tables. A call may change what is kept in memory, and never the
/// tables.
///
/// A table is given by its name; where no table has that name, nothing is found. An index is given
/// by its place in its table; where none stands there, nothing is found. Every call may be refused
/// for memory, by the device, or as damaged; it is never damaged where the reading is sound.
pub trait Reading {
    /// That what lies there is a database, and that its device gives back what was written.
    ghost is_sound: { Self → Type 0 };

    /// The tables; how many calls the device has refused, and how many rows were read.
    ghost shows: { Self → Shown };

    /// What every call keeps, also a refused one.
    ghost follows: { Self → Self → Type 0 };

    /// All rows of a table, in the order of their numbers.
    fn scan(&mut self, alloc: Global, name: &Text) -> Result<Numbered, StoreError>
        ensures rows { is_sound self.old
            → IfOk result (λ found. AreEntries found (entries_of (table_named (shows self.old) name.now))) }
        ensures read { IfOk result (λ found. (shows self.new).read ≡ counted_on (shows self.old).read (length found.rows)) }
        ensures refused { IfErr result (MayFail (is_sound self.old) (shows self.old).refused (shows self.new).refused Never) }
        ensures damage { OnOk result ((shows self.new).damaged ≡ (shows self.old).damaged)
            × IfErr result (λ error. Tells error (shows self.old).damaged (shows self.new).damaged) }
        ensures follows { follows self.old self.new };

    /// The first row of a table above a number; without a number the first of all.
    fn next(
        &mut self,
        alloc: Global,
        name: &Text,
        after: Option<u64>,
    ) -> Result<Option<NumberedRow>, StoreError>
        ensures row { is_sound self.old
            → IfOk result (λ found. IsEntry found (entry_after after (entries_of (table_named (shows self.old) name.now)))) }
        ensures read { IfOk result (λ found. (shows self.new).read ≡ counted_on (shows self.old).read (count_of found)) }
        ensures refused { IfErr result (MayFail (is_sound self.old) (shows self.old).refused (shows self.new).refused Never) }
        ensures damage { OnOk result ((shows self.new).damaged ≡ (shows self.old).damaged)
            × IfErr result (λ error. Tells error (shows self.old).damaged (shows self.new).damaged) }
        ensures follows { follows self.old self.new };

    /// The rows whose columns equal a key, in the order of their numbers: those of the index at
    /// this place, as many as the key has values. A null equals nothing.
    fn seek(
        &mut self,
        alloc: Global,
        name: &Text,
        index: usize,
        key: &[Value],
    ) -> Result<Numbered, StoreError>
        ensures rows { is_sound self.old
            → IfOk result (λ found. AreEntries found (sought (table_named (shows self.old) name.now) index key.now)) }
        ensures read { IfOk result (λ found. (shows self.new).read ≡ counted_on (shows self.old).read (length found.rows)) }
        ensures refused { IfErr result (MayFail (is_sound self.old) (shows self.old).refused (shows self.new).refused Never) }
        ensures damage { OnOk result ((shows self.new).damaged ≡ (shows self.old).damaged)
            × IfErr result (λ error. Tells error (shows self.old).damaged (shows self.new).damaged) }
        ensures follows { follows self.old self.new };

    /// The rows whose first column of the index at this place is within bounds, in the order of the
    /// index: by the values of its columns, null lowest, and then by row number. A null is within
    /// no bound; without bounds all rows are given.
    fn range(
        &mut self,
        alloc: Global,
        name: &Text,
        index: usize,
        low: &Bound<Value>,
        high: &Bound<Value>,
    ) -> Result<Numbered, StoreError>
        ensures rows { is_sound self.old
            → IfOk result (λ found. AreEntries found (ranged (table_named (shows self.old) name.now) index low.now high.now)) }
        ensures read { IfOk result (λ found. (shows self.new).read ≡ counted_on (shows self.old).read (length found.rows)) }
        ensures refused { IfErr result (MayFail (is_sound self.old) (shows self.old).refused (shows self.new).refused Never) }
        ensures damage { OnOk result ((shows self.new).damaged ≡ (shows self.old).damaged)
            × IfErr result (λ error. Tells error (shows self.old).damaged (shows self.new).damaged) }
        ensures follows { follows self.old self.new };

    /// The first row above a place in the index; without a place the first of all.
    fn next_in(
        &mut self,
        alloc: Global,
        name: &Text,
        index: usize,
        after: Option<&Position>,
    ) -> Result<Option<NumberedRow>, StoreError>
        ensures row { is_sound self.old
            → IfOk result (λ found. IsEntry found (next_entry (table_named (shows self.old) name.now) index (option_map (λ p. position_of p.now) after.entry))) }
        ensures read { IfOk result (λ found. (shows self.new).read ≡ counted_on (shows self.old).read (count_of found)) }
        ensures refused { IfErr result (MayFail (is_sound self.old) (shows self.old).refused (shows self.new).refused Never) }
        ensures damage { OnOk result ((shows self.new).damaged ≡ (shows self.old).damaged)
            × IfErr result (λ error. Tells error (shows self.old).damaged (shows self.new).damaged) }
        ensures follows { follows self.old self.new };

    /// The first rows of a table above a number, at most so many.
    fn scan_block(
        &mut self,
        alloc: Global,
        name: &Text,
        after: Option<u64>,
        most: usize,
    ) -> Result<Numbered, StoreError>
        ensures rows { is_sound self.old
            → IfOk result (λ found. AreEntries found (some_after after most (entries_of (table_named (shows self.old) name.now)))) }
        ensures read { IfOk result (λ found. (shows self.new).read ≡ counted_on (shows self.old).read (length found.rows)) }
        ensures refused { IfErr result (MayFail (is_sound self.old) (shows self.old).refused (shows self.new).refused Never) }
        ensures damage { OnOk result ((shows self.new).damaged ≡ (shows self.old).damaged)
            × IfErr result (λ error. Tells error (shows self.old).damaged (shows self.new).damaged) }
        ensures follows { follows self.old self.new };

    /// The first rows whose columns equal a key above a number, at most so many.
    fn seek_block(
        &mut self,
        alloc: Global,
        name: &Text,
        index: usize,
        key: &[Value],
        after: Option<u64>,
        most: usize,
    ) -> Result<Numbered, StoreError>
        ensures rows { is_sound self.old
            → IfOk result (λ found. AreEntries found (some_sought (table_named (shows self.old) name.now) index key.now after most)) }
        ensures read { IfOk result (λ found. (shows self.new).read ≡ counted_on (shows self.old).read (length found.rows)) }
        ensures refused { IfErr result (MayFail (is_sound self.old) (shows self.old).refused (shows self.new).refused Never) }
        ensures damage { OnOk result ((shows self.new).damaged ≡ (shows self.old).damaged)
            × IfErr result (λ error. Tells error (shows self.old).damaged (shows self.new).damaged) }
        ensures follows { follows self.old self.new };

    /// The first rows within bounds behind a place in the index, at most so many; without bounds,
    /// of a walk of the index.
    fn range_block(
        &mut self,
        alloc: Global,
        name: &Text,
        index: usize,
        low: &Bound<Value>,
        high: &Bound<Value>,
        after: Option<&Position>,
        most: usize,
    ) -> Result<Numbered, StoreError>
        ensures rows { is_sound self.old
            → IfOk result (λ found. AreEntries found (some_ranged (table_named (shows self.old) name.now) index low.now high.now (option_map (λ p. position_of p.now) after.entry) most)) }
        ensures read { IfOk result (λ found. (shows self.new).read ≡ counted_on (shows self.old).read (length found.rows)) }
        ensures refused { IfErr result (MayFail (is_sound self.old) (shows self.old).refused (shows self.new).refused Never) }
        ensures damage { OnOk result ((shows self.new).damaged ≡ (shows self.old).damaged)
            × IfErr result (λ error. Tells error (shows self.old).damaged (shows self.new).damaged) }
        ensures follows { follows self.old self.new };

    /// How many rows were read. The count stays at 2^64 - 1 once it is there.
    fn rows_read(&self) -> u64
        ensures { result ≡ (shows self.now).read };

    /// Rows stand in the order of their numbers, none of which comes twice.
    ghost numbers_rise: { (s : Self) (name : List ℕ) (table : StoredTable) → is_sound s → table_named (shows s) name ≡ Some table → Rises table.entries };

    ghost follows_refl: { (s : Self) → follows s s };

    ghost follows_trans: { (a b c : Self) → follows a b → follows b c → follows a c };

    ghost follows_keeps: { (a b : Self) → follows a b → Keeps (shows a) (shows b) };

    ghost follows_sound: { (a b : Self) → follows a b → is_sound a → is_sound b };
}
