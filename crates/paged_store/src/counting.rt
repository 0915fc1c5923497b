//! What a store counts of its answers: the rows that it gave, and how often it said that it is
//! damaged. Each count stays at 2^64 - 1 once it is there.
ghost use Rattle.std.specs.Prelude.{◌≡◌, ◌≤◌, length, IfOk, IfErr, OnOk};
ghost use Rattle.store.specs.Errors.{Tells};
ghost use Rattle.store.specs.View.{count_of, counted_on};

use store::{Numbered, NumberedRow, StoreError};

/// Counts a refusal that says "damaged", and passes the refusal on.
pub(crate) fn told(damaged: &mut u64, error: StoreError) -> StoreError
    ensures same { result ≡ error }
    ensures tells { Tells result damaged.old damaged.new }
    ensures rises { damaged.old ≤ damaged.new }
{
    match error {
        StoreError::Damaged => *damaged = damaged.saturating_add(1),
        StoreError::Memory => {}
        StoreError::Device => {}
        StoreError::Exceeded(_) => {}
    }
    error
}

/// Counts more rows.
fn count(read: &mut u64, rows: usize)
    ensures counted { read.new ≡ counted_on read.old rows }
    ensures rises { read.old ≤ read.new }
{
    *read = read.saturating_add(rows as u64);
}

/// One row, or none.
fn rows_in(found: &Option<NumberedRow>) -> usize
    ensures { result ≡ count_of found.now }
{
    match found {
        Some(_) => 1,
        None => 0,
    }
}

/// Counts the rows that were found, or the refusal, and passes them on.
pub(crate) fn counted_rows(
    read: &mut u64,
    damaged: &mut u64,
    found: Result<Numbered, StoreError>,
) -> Result<Numbered, StoreError>
    ensures same { result ≡ found }
    ensures read { IfOk result (λ found. read.new ≡ counted_on read.old (length found.rows)) }
    ensures damage { OnOk result (damaged.new ≡ damaged.old)
        × IfErr result (λ error. Tells error damaged.old damaged.new) }
    ensures rows_rise { read.old ≤ read.new }
    ensures damage_rises { damaged.old ≤ damaged.new }
{
    match found {
        Ok(found) => {
            count(read, found.rows.len());
            Ok(found)
        }
        Err(error) => Err(told(damaged, error)),
    }
}

/// The same of one row.
pub(crate) fn counted_row(
    read: &mut u64,
    damaged: &mut u64,
    found: Result<Option<NumberedRow>, StoreError>,
) -> Result<Option<NumberedRow>, StoreError>
    ensures same { result ≡ found }
    ensures read { IfOk result (λ found. read.new ≡ counted_on read.old (count_of found)) }
    ensures damage { OnOk result (damaged.new ≡ damaged.old)
        × IfErr result (λ error. Tells error damaged.old damaged.new) }
    ensures rows_rise { read.old ≤ read.new }
    ensures damage_rises { damaged.old ≤ damaged.new }
{
    match found {
        Ok(found) => {
            count(read, rows_in(&found));
            Ok(found)
        }
        Err(error) => Err(told(damaged, error)),
    }
}
