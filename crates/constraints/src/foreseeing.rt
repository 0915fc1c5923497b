//! The constraints of a table to which rows come or have come, by looking their keys up.
ghost use Rattle.std.specs.Prelude.{◌≡◌, ◌<◌, ◌^◌, nat_lt, true, List, [], ◌++◌, Some, IfOk, IfErr, Contains, length};
ghost use Rattle.std.specs.FinMap.{get};
ghost use Rattle.refusals.specs.declared.refusal.Refusal.TheVariants.{Memory, Disk};
ghost use Rattle.sqlval.specs.Value.{Row as AnyRow};
ghost use Rattle.denote.specs.Bag.{Permutes};
ghost use Rattle.denote.specs.Database.{Name, Table as TableOf, CheckReading, violated_by};
ghost use Rattle.constraints.specs.Alone.{HasKeys, IsAlone};
ghost use Rattle.session_definitions.specs.Refusals.{IsReserved};
ghost use Rattle.sqlval.specs.Matching.{key_of};
ghost use Rattle.store.specs.Contents.{StoredTable, database_of};
ghost use Rattle.store.specs.Errors.{HasRisen};
ghost use Rattle.store.specs.Going.{Going};
ghost use Rattle.store.specs.Indexes.{entries_of, sought};
ghost use Rattle.store.specs.View.{table_named as found_as};
ghost use Rattle.transactions.specs.Refused.{TellsNoLimit};
ghost use Rattle.constraints.specs.Foreseen.{Comes, Foretells, IsSaid, are_more, foreseen_by, has_key_indexes, has_many_more, is_met, met_in, with_more};

use crate::checks::Checks;
use crate::foreseen::Foreseen;
use crate::frame::violation_in;
use crate::keys::{Key, keys_of};
use crate::lengths::copied_key;
use crate::tables::table_named;
use denote::Row;
use items::{Items, Text};
use refusals::Refusal;
use sqlval::{Table, Value};
use std::alloc::Global;
use store::{Reading, Seen, Store, View};
use transactions::refusal_of;

/// How many times as many rows as are put into it a table has to have, or more, for keys to be
/// looked up: of fewer rows all are read sooner.
const MANY_TIMES: u64 = 8;

/// What can be said of the table of this name with these rows at its end, where it violates no
/// constraint in the newest version with its changes. Each of the rows is looked at alone, then all
/// of them for keys that they share, and each key is looked up in the index of its columns. Where
/// the rows are not few beside those of the table, or a key has no index, nothing is said; else
/// something is. The store is left as it was. It is refused for want of memory or by the device.
/// CHECKs are decided by what is given for them.
pub fn foresee<S: Store, C: Checks>(
    alloc: Global,
    store: &mut S,
    name: &Text,
    rows: &[Row],
    checks: &C,
) -> Result<Foreseen, Refusal>
    ensures found { IfOk result (λ foreseen. (reading : CheckReading) (table : TableOf) → S.is_sound store.old
        → get (database_of (S.shows store.old).working) name.now ≡ Some table
        → C.decides checks.now reading name.now table.columns table.constraints
        → violated_by reading name.now table ≡ []
        → Foretells foreseen (violated_by reading name.now (with_more table rows.now) ≡ []) (λ constraint. Contains (violated_by reading name.now (with_more table rows.now)) constraint)) }
    ensures said { IfOk result (λ foreseen. (table : StoredTable) → S.is_sound store.old
        → get (S.shows store.old).working name.now ≡ Some table → has_many_more (length rows.now) table.entries ≡ true
        → has_key_indexes table ≡ true → IsSaid foreseen) }
    ensures shows { S.shows store.new ≡ S.shows store.old }
    ensures refused { IfErr result (λ refusal. S.is_sound store.old → IsReserved refusal) }
    ensures limits { IfErr result TellsNoLimit }
    ensures device { IfErr result (λ refusal. refusal ≡ Disk → HasRisen (S.refused store.old) (S.refused store.new)) }
    ensures goes { S.goes_on store.old store.new Going.keeps }
{
    match are_few(alloc, store, name, rows.len()) {
        Ok(true) => look_up(alloc, store, name, rows, checks, 0),
        Ok(false) => Ok(Foreseen::Open),
        Err(refusal) => Err(refusal),
    }
}

/// What can be said of the table of this name in the newest version with its changes, where these
/// rows are some of its own and the others violate no constraint. Each of the rows is looked at
/// alone, then all of them for keys that they share, and each key is looked up in the index of its
/// columns, where it finds its own row. Where a key has no index, nothing is said; else something
/// is. The store is left as it was. It is refused for want of memory or by the device. CHECKs are
/// decided by what is given for them.
pub fn look_again<S: Store, C: Checks>(
    alloc: Global,
    store: &mut S,
    name: &Text,
    rows: &[Row],
    checks: &C,
) -> Result<Foreseen, Refusal>
    ensures found { IfOk result (λ foreseen. (reading : CheckReading) (table : TableOf) (others : List AnyRow)
        → S.is_sound store.old
        → get (database_of (S.shows store.old).working) name.now ≡ Some table
        → C.decides checks.now reading name.now table.columns table.constraints
        → Permutes (others ++ rows.now) table.rows
        → Foretells foreseen (violated_by reading name.now (record table { rows = others }) ≡ []
        → violated_by reading name.now table ≡ [])
        (λ constraint. Contains (violated_by reading name.now table) constraint)) }
    ensures said { IfOk result (λ foreseen. (table : StoredTable) → S.is_sound store.old
        → get (S.shows store.old).working name.now ≡ Some table → has_key_indexes table ≡ true → IsSaid foreseen) }
    ensures shows { S.shows store.new ≡ S.shows store.old }
    ensures refused { IfErr result (λ refusal. S.is_sound store.old → IsReserved refusal) }
    ensures limits { IfErr result TellsNoLimit }
    ensures device { IfErr result (λ refusal. refusal ≡ Disk → HasRisen (S.refused store.old) (S.refused store.new)) }
    ensures goes { S.goes_on store.old store.new Going.keeps }
{
    look_up(alloc, store, name, rows, checks, 1)
}

/// Whether so many rows are few beside those of the table, as its row numbers let suppose: they are
/// where some number is above eight times as much.
pub fn are_few<S: Store>(
    alloc: Global,
    store: &mut S,
    name: &Text,
    count: usize,
) -> Result<bool, Refusal>
    ensures few { S.is_sound store.old
        → IfOk result (λ few. few ≡ has_many_more count (entries_of (get (S.shows store.old).working name.now))) }
    ensures shows { S.shows store.new ≡ S.shows store.old }
    ensures refused { IfErr result (λ refusal. S.is_sound store.old → IsReserved refusal) }
    ensures limits { IfErr result TellsNoLimit }
    ensures device { IfErr result (λ refusal. refusal ≡ Disk → HasRisen (S.refused store.old) (S.refused store.new)) }
    ensures goes { S.goes_on store.old store.new Going.reads }
{
    let number = (count as u64).saturating_mul(MANY_TIMES);
    match store.next(alloc, View::Working, name, Some(number)) {
        Ok(Some(row)) => Ok(is_above(row.number, number)),
        Ok(None) => Ok(false),
        Err(error) => Err(refusal_of(error)),
    }
}

/// Whether a row number is above a bound. It is one of 64 bits.
fn is_above(number: u64, bound: u64) -> bool
    ensures above { result ≡ nat_lt bound number }
    ensures fits { number < 2 ^ 64 }
{
    bound < number
}

/// What can be said of a table to which few rows come or have come: `own` is how many of the rows
/// that a key finds are the row itself, none before it comes and one after.
fn look_up<S: Store, C: Checks>(
    alloc: Global,
    store: &mut S,
    name: &Text,
    rows: &[Row],
    checks: &C,
    own: usize,
) -> Result<Foreseen, Refusal>
    ensures found { IfOk result (λ foreseen. (reading : CheckReading) (table before whole : TableOf)
        → S.is_sound store.old → get (database_of (S.shows store.old).working) name.now ≡ Some table
        → C.decides checks.now reading name.now table.columns table.constraints → Comes table rows.now own before whole
        → Foretells foreseen (violated_by reading name.now before ≡ []
        → violated_by reading name.now whole ≡ []) (λ constraint. Contains (violated_by reading name.now whole) constraint)) }
    ensures said { IfOk result (λ foreseen. (table : StoredTable) → S.is_sound store.old
        → get (S.shows store.old).working name.now ≡ Some table → has_key_indexes table ≡ true → IsSaid foreseen) }
    ensures shows { S.shows store.new ≡ S.shows store.old }
    ensures refused { IfErr result (λ refusal. S.is_sound store.old → IsReserved refusal) }
    ensures limits { IfErr result TellsNoLimit }
    ensures device { IfErr result (λ refusal. refusal ≡ Disk → HasRisen (S.refused store.old) (S.refused store.new)) }
    ensures goes { S.goes_on store.old store.new Going.keeps }
{
    if let Err(error) = store.prepare(View::Working) {
        return Err(refusal_of(error));
    }
    match table_named(store.schema(), name) {
        None => Ok(Foreseen::Open),
        Some(table) => match seen_alone(alloc, table, rows, checks) {
            Ok(Alone::Violates(constraint)) => Ok(Foreseen::Violates(constraint)),
            Ok(Alone::Keys(keys)) => looked_up(alloc, store, name, keys, rows, own),
            Err(refusal) => Err(refusal),
        },
    }
}

/// What is found at rows that come to a table without a look at the others: a constraint that they
/// violate alone; else the keys that are to be looked up.
#[derive(Drop)]
enum Alone {
    Violates(Text),
    Keys(Items<Key>),
}

fn seen_alone<C: Checks>(
    alloc: Global,
    table: &Table,
    rows: &[Row],
    checks: &C,
) -> Result<Alone, Refusal>
    ensures found { IfOk result (λ found. (reading : CheckReading) (name : Name)
        → C.decides checks.now reading name table.now.columns table.now.constraints
        → IsAlone reading name table.now rows.now found) }
    ensures keys { IfOk result (λ found. HasKeys table.now found) }
    ensures refused { IfErr result (λ refusal. refusal ≡ Memory) }
{
    match violation_in(alloc, table, rows, checks) {
        Ok(Some(constraint)) => Ok(Alone::Violates(constraint)),
        Ok(None) => match keys_of(
            alloc,
            table.indexes.as_slice(),
            table.constraints.as_slice(),
        ) {
            Ok(keys) => Ok(Alone::Keys(keys)),
            Err(_) => Err(Refusal::Memory),
        },
        Err(refusal) => Err(refusal),
    }
}

/// What the look-ups of keys say, in the newest version with its changes.
fn looked_up<S: Store>(
    alloc: Global,
    store: &mut S,
    name: &Text,
    keys: Items<Key>,
    rows: &[Row],
    own: usize,
) -> Result<Foreseen, Refusal>
    ensures found { S.is_sound store.old
        → IfOk result (λ foreseen. foreseen ≡ foreseen_by (met_in own (get (S.shows store.old).working name.now) rows.now) keys) }
    ensures shows { S.shows store.new ≡ S.shows store.old }
    ensures refused { IfErr result (λ refusal. S.is_sound store.old → IsReserved refusal) }
    ensures limits { IfErr result TellsNoLimit }
    ensures device { IfErr result (λ refusal. refusal ≡ Disk → HasRisen (S.refused store.old) (S.refused store.new)) }
    ensures goes { S.goes_on store.old store.new Going.reads }
{
    let mut seen = Seen {
        store,
        view: View::Working,
    };
    first_met(alloc, &mut seen, name, keys, rows, own)
}

/// What the look-ups of keys say: the first that more rows than `own` have is violated.
fn first_met<R: Reading>(
    alloc: Global,
    reading: &mut R,
    name: &Text,
    keys: Items<Key>,
    rows: &[Row],
    own: usize,
) -> Result<Foreseen, Refusal>
    ensures found { R.is_sound reading.old
        → IfOk result (λ foreseen. foreseen ≡ foreseen_by (met_in own (found_as (R.shows reading.old) name.now) rows.now) keys) }
    ensures refused { IfErr result (λ refusal. R.is_sound reading.old → IsReserved refusal) }
    ensures limits { IfErr result TellsNoLimit }
    ensures counts { IfErr result (λ refusal. refusal ≡ Disk
        → HasRisen (R.shows reading.old).refused (R.shows reading.new).refused) }
    ensures follows { R.follows reading.old reading.new }
{
    for key in keys.into_vec() {
        let Key {
            constraint,
            columns,
            place,
        } = key;
        let Some(place) = place else {
            return Ok(Foreseen::Open);
        };
        match is_met(alloc, reading, name, place, columns.as_slice(), rows, own) {
            Ok(true) => return Ok(Foreseen::Violates(constraint)),
            Ok(false) => {}
            Err(refusal) => return Err(refusal),
        }
    }
    Ok(Foreseen::Fits)
}

/// Whether the key of one of these rows, none of it null, finds more rows of the table than `own`
/// in the index at this place, which is over these columns.
fn is_met<R: Reading>(
    alloc: Global,
    reading: &mut R,
    name: &Text,
    place: usize,
    columns: &[usize],
    rows: &[Row],
    own: usize,
) -> Result<bool, Refusal>
    ensures found { R.is_sound reading.old
        → IfOk result (λ met. met ≡ is_met own (found_as (R.shows reading.old) name.now) place columns.now rows.now) }
    ensures refused { IfErr result (λ refusal. R.is_sound reading.old → IsReserved refusal) }
    ensures limits { IfErr result TellsNoLimit }
    ensures counts { IfErr result (λ refusal. refusal ≡ Disk
        → HasRisen (R.shows reading.old).refused (R.shows reading.new).refused) }
    ensures follows { R.follows reading.old reading.new }
{
    for row in rows {
        match has_twin(alloc, reading, name, place, columns, row.as_slice(), own) {
            Ok(true) => return Ok(true),
            Ok(false) => {}
            Err(refusal) => return Err(refusal),
        }
    }
    Ok(false)
}

fn has_twin<R: Reading>(
    alloc: Global,
    reading: &mut R,
    name: &Text,
    place: usize,
    columns: &[usize],
    row: &[Value],
    own: usize,
) -> Result<bool, Refusal>
    ensures found { R.is_sound reading.old
        → IfOk result (λ found. found ≡ are_more own (sought (found_as (R.shows reading.old) name.now) place (key_of columns.now row.now))) }
    ensures refused { IfErr result (λ refusal. R.is_sound reading.old → IsReserved refusal) }
    ensures limits { IfErr result TellsNoLimit }
    ensures counts { IfErr result (λ refusal. refusal ≡ Disk
        → HasRisen (R.shows reading.old).refused (R.shows reading.new).refused) }
    ensures follows { R.follows reading.old reading.new }
{
    let key = match copied_key(alloc, columns, row) {
        Ok(key) => key,
        Err(_) => return Err(Refusal::Memory),
    };
    match reading.seek(alloc, name, place, key.as_slice()) {
        Ok(found) => Ok(found.rows.len() > own),
        Err(error) => Err(refusal_of(error)),
    }
}
