//! Where rows are looked for that have a key.
ghost use Rattle.std.specs.Prelude.{◌≡◌, ℕ, List, IfOk, IfErr, IfSome};
ghost use Rattle.refusals.specs.declared.refusal.Refusal.TheVariants.{Disk};
ghost use Rattle.session_definitions.specs.Refusals.{IsReserved};
ghost use Rattle.store.specs.Errors.{HasRisen};
ghost use Rattle.store.specs.View.{table_named};
ghost use Rattle.transactions.specs.Refused.{TellsNoLimit};
ghost use Rattle.foreign_keys.specs.Sources.{IsSource, LeadsAt, is_found, rows_shown};

use crate::keys::{copied_key, has_match};
use crate::ways::Way;
use denote::{Row, Rows as AllRows};
use items::Text;
use refusals::Refusal;
use sqlval::Value;
use std::alloc::{AllocError, Global};
use store::Reading;
use transactions::refusal_of;

/// An index of a table, or all its rows.
#[derive(Drop)]
pub enum Source<'a> {
    Index(&'a Way),
    Rows(AllRows),
}

/// Where the rows of a table are looked for: by the index where there is one; else all are read.
pub(crate) fn source_of<'a, R: Reading>(
    alloc: Global,
    reading: &mut R,
    name: &Text,
    way: &'a Option<Way>,
) -> Result<Source<'a>, Refusal>
    ensures is { IfOk result (λ source. (from to : List ℕ) → R.is_sound reading.old
        → IfSome way.now (LeadsAt (table_named (R.shows reading.old) name.now) from to)
        → IsSource (table_named (R.shows reading.old) name.now) from to source) }
    ensures refused { IfErr result (λ refusal. R.is_sound reading.old → IsReserved refusal) }
    ensures limits { IfErr result TellsNoLimit }
    ensures counts { IfErr result (λ refusal. refusal ≡ Disk
        → HasRisen (R.shows reading.old).refused (R.shows reading.new).refused) }
    ensures follows { R.follows reading.old reading.new }
{
    match way {
        Some(way) => Ok(Source::Index(way)),
        None => match reading.scan(alloc, name) {
            Ok(found) => Ok(Source::Rows(found.rows)),
            Err(error) => Err(refusal_of(error)),
        },
    }
}

/// Whether some row of the table has at the columns `to` the key that a row has at the columns
/// `from`, none of it null.
pub(crate) fn is_in<R: Reading>(
    alloc: Global,
    reading: &mut R,
    name: &Text,
    source: &Source<'_>,
    from: &[usize],
    to: &[usize],
    row: &[Value],
) -> Result<bool, Refusal>
    ensures found { IfOk result (λ found. R.is_sound reading.old
        → IsSource (table_named (R.shows reading.old) name.now) from.now to.now source.now
        → found ≡ is_found (rows_shown (R.shows reading.old) name.now) from.now to.now row.now) }
    ensures refused { IfErr result (λ refusal. R.is_sound reading.old → IsReserved refusal) }
    ensures limits { IfErr result TellsNoLimit }
    ensures counts { IfErr result (λ refusal. refusal ≡ Disk
        → HasRisen (R.shows reading.old).refused (R.shows reading.new).refused) }
    ensures follows { R.follows reading.old reading.new }
{
    match source {
        Source::Index(way) => is_in_index(alloc, reading, name, way, row),
        Source::Rows(rows) => match is_in_rows(alloc, rows.as_slice(), from, to, row) {
            Ok(found) => Ok(found),
            Err(_) => Err(Refusal::Memory),
        },
    }
}

/// The same, where the rows are looked for by an index.
fn is_in_index<R: Reading>(
    alloc: Global,
    reading: &mut R,
    name: &Text,
    way: &Way,
    row: &[Value],
) -> Result<bool, Refusal>
    ensures found { IfOk result (λ found. (from to : List ℕ) → R.is_sound reading.old
        → LeadsAt (table_named (R.shows reading.old) name.now) from to way.now
        → found ≡ is_found (rows_shown (R.shows reading.old) name.now) from to row.now) }
    ensures refused { IfErr result (λ refusal. R.is_sound reading.old → IsReserved refusal) }
    ensures limits { IfErr result TellsNoLimit }
    ensures counts { IfErr result (λ refusal. refusal ≡ Disk
        → HasRisen (R.shows reading.old).refused (R.shows reading.new).refused) }
    ensures follows { R.follows reading.old reading.new }
{
    let key = match copied_key(alloc, way.columns.as_slice(), row) {
        Ok(key) => key,
        Err(_) => return Err(Refusal::Memory),
    };
    match reading.seek(alloc, name, way.place, key.as_slice()) {
        Ok(found) => Ok(!found.rows.is_empty()),
        Err(error) => Err(refusal_of(error)),
    }
}

/// The same, where they are among these rows.
fn is_in_rows(
    alloc: Global,
    rows: &[Row],
    from: &[usize],
    to: &[usize],
    row: &[Value],
) -> Result<bool, AllocError>
    ensures { IfOk result (λ found. found ≡ is_found rows.now from.now to.now row.now) }
{
    let key = copied_key(alloc, from, row)?;
    Ok(has_match(to, key.as_slice(), rows))
}
