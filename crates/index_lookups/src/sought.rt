//! What is sought in an index.
ghost use Rattle.std.specs.Prelude.{◌≡◌, Some};
ghost use Rattle.sqlval.specs.Matching.{key_of};
ghost use Rattle.store.specs.Indexes.{is_beyond};
ghost use Rattle.store.specs.View.{entry_of, position_of};
ghost use Rattle.index_lookups.specs.Sought.{is_wanted, is_past};

use crate::keys::{compare_key, is_first_over, is_first_within};
use sqlval::{Value, row_matches};
use std::ops::Bound;
use store::{NumberedRow, Position};

/// Which rows of a table are sought by an index.
#[derive(Clone, Copy)]
pub(crate) enum Sought<'a> {
    /// Those whose values at the columns equal a key, none null.
    Key(&'a [Value]),
    /// Those of them above a row number.
    KeyAbove(&'a [Value], u64),
    /// Those whose value at the first column is within bounds.
    Within(&'a Bound<Value>, &'a Bound<Value>),
    /// Those above a place in the order of the index.
    Beyond(&'a Position),
    /// Those within bounds that are above a place.
    Above(&'a Bound<Value>, &'a Bound<Value>, &'a Position),
}

/// Whether a row is above a place in the order of an index.
fn is_row_beyond(place: &Position, columns: &[usize], found: &NumberedRow) -> bool
    ensures { result ≡ is_beyond (Some (position_of place.now)) (key_of columns.now found.now.row) found.now.number }
{
    compare_key(columns, found.row.as_slice(), place.key.as_slice())
        .then(found.number.cmp(&place.number))
        .is_gt()
}

/// Whether a row is sought.
pub(crate) fn is_wanted(sought: Sought<'_>, columns: &[usize], found: &NumberedRow) -> bool
    ensures { result ≡ is_wanted sought.entry columns.now (entry_of found.now) }
{
    match sought {
        Sought::Key(key) => row_matches(columns, key, found.row.as_slice()),
        Sought::KeyAbove(key, number) => {
            row_matches(columns, key, found.row.as_slice()) && number < found.number
        }
        Sought::Within(low, high) => is_first_within(low, high, columns, found.row.as_slice()),
        Sought::Beyond(place) => is_row_beyond(place, columns, found),
        Sought::Above(low, high, place) => {
            is_first_within(low, high, columns, found.row.as_slice())
                && is_row_beyond(place, columns, found)
        }
    }
}

/// Whether neither a row nor one behind it in the order of the index is sought.
pub(crate) fn is_past(sought: Sought<'_>, columns: &[usize], found: &NumberedRow) -> bool
    ensures { result ≡ is_past sought.entry columns.now (entry_of found.now) }
{
    match sought {
        Sought::Key(key) => compare_key(columns, found.row.as_slice(), key).is_gt(),
        Sought::KeyAbove(key, _) => compare_key(columns, found.row.as_slice(), key).is_gt(),
        Sought::Within(_, high) => is_first_over(high, columns, found.row.as_slice()),
        Sought::Beyond(_) => false,
        Sought::Above(_, high, _) => is_first_over(high, columns, found.row.as_slice()),
    }
}
