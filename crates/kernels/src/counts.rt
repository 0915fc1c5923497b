//! How often rows come.

ghost use Rattle.std.specs.Prelude.{◌≡◌, ℕ, List, [], ◌∷◌, ◌++◌, ◌+◌, ◌<◌, ◌^◌, length, IfOk, OnOk};
ghost use Rattle.sqlval.specs.Value.{Row as Values};
ghost use Rattle.denote.specs.Bag.{times};
ghost use Rattle.std.specs.BTreeMap.{get};
ghost use Rattle.std.specs.Option.{unwrap_or};
ghost use Rattle.kernels.specs.Counts.{Counts, key_order};

use crate::digest::row_digest;
use crate::row_key::RowKey;
use denote::Row;
use sqlval::Value;
use std::alloc::{AllocError, Global};
use std::collections::BTreeMap;

/// The number at a row, 0 where there is none.
fn number_at<'a>(counts: &BTreeMap<RowKey<'a>, usize>, key: &RowKey<'a>) -> usize
    ensures { result ≡ unwrap_or (get key_order counts.now key.now) 0 }
{
    counts.get(key).copied().unwrap_or(0)
}

/// How often a row comes.
pub fn count_of<'a>(counts: &BTreeMap<RowKey<'a>, usize>, row: &'a [Value]) -> usize
    ensures { (rows : List Values) → Counts counts.now rows → result ≡ times row.now rows }
{
    let key = RowKey {
        digest: row_digest(row),
        values: row,
    };
    number_at(counts, &key)
}

/// Counts a row once more, and gives how often it came before. Refuses for want of memory alone.
pub fn count_row<'a>(
    counts: &mut BTreeMap<RowKey<'a>, usize>,
    row: &'a [Value],
) -> Result<usize, AllocError>
    ensures before { (rows : List Values) → Counts counts.old rows
        → IfOk result (λ before. before ≡ times row.now rows) }
    ensures counted { (rows : List Values) → Counts counts.old rows → length rows + 1 < 2 ^ 64
        → OnOk result (Counts counts.new (rows ++ row.now ∷ [])) }
{
    let key = RowKey {
        digest: row_digest(row),
        values: row,
    };
    match counts.insert(key, 1)? {
        None => Ok(0),
        Some(before) => {
            counts.insert(key, before.saturating_add(1))?;
            Ok(before)
        }
    }
}

/// How often each row of a list comes. Refuses for want of memory alone.
pub fn counts_of<'a>(
    alloc: Global,
    rows: &'a [Row],
) -> Result<BTreeMap<RowKey<'a>, usize>, AllocError>
    ensures { IfOk result (λ counts. Counts counts rows.now) }
{
    let mut counts = BTreeMap::new(alloc);
    for row in rows {
        count_row(&mut counts, row.as_slice())?;
    }
    Ok(counts)
}
