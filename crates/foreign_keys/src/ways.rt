//! Indexes by which rows are found that have at some columns the key of others.
ghost use Rattle.std.specs.Prelude.{◌≡◌, length, nat_eq, IfOk, IfSome};
ghost use Rattle.std.specs.List.{list_any, zip};
ghost use Rattle.foreign_keys.specs.Pairs as compared;

use items::Items;
use sqlval::Index;
use std::alloc::{AllocError, Global};

/// An index by its place in its table, and the columns of another row whose values are a key of it,
/// in its order.
#[derive(Drop)]
pub struct Way {
    pub(crate) place: usize,
    pub(crate) columns: Items<usize>,
}

/// The first of these indexes by which rows are found that have at the columns `to` the key that a
/// row has at the columns `from`, if there is one.
pub(crate) fn way_over(
    alloc: Global,
    indexes: &[Index],
    from: &[usize],
    to: &[usize],
) -> Result<Option<Way>, AllocError>
    ensures { IfOk result (λ found. IfSome found (compared.IsWay indexes.now from.now to.now)) }
{
    for (place, index) in indexes.iter().enumerate() {
        let columns = arranged(alloc, index.columns.as_slice(), from, to)?;
        if are_same_pairs(columns.as_slice(), index.columns.as_slice(), from, to) {
            return Ok(Some(Way { place, columns }));
        }
    }
    Ok(None)
}

/// For each of these columns the one that is compared with it; any where none is.
fn arranged(
    alloc: Global,
    wanted: &[usize],
    from: &[usize],
    to: &[usize],
) -> Result<Items<usize>, AllocError> {
    let mut columns = Items::new(alloc);
    for column in wanted {
        columns.push(partner(*column, from, to))?;
    }
    Ok(columns)
}

fn partner(wanted: usize, from: &[usize], to: &[usize]) -> usize {
    for (at, column) in to.iter().enumerate() {
        if *column == wanted && at < from.len() {
            return from[at];
        }
    }
    0
}

/// Whether columns are compared with the same columns here and there.
fn are_same_pairs(from: &[usize], to: &[usize], others: &[usize], places: &[usize]) -> bool
    ensures { result ≡ compared.are_same_pairs from.now to.now others.now places.now }
{
    if !are_as_many(from, to) {
        return false;
    }
    if !are_as_many(others, places) {
        return false;
    }
    if !are_within(from, to, others, places) {
        return false;
    }
    are_within(others, places, from, to)
}

fn are_as_many(columns: &[usize], others: &[usize]) -> bool
    ensures { result ≡ nat_eq (length columns.now) (length others.now) }
{
    columns.len() == others.len()
}

/// Whether each pair of columns is one of others.
fn are_within(from: &[usize], to: &[usize], others: &[usize], places: &[usize]) -> bool
    requires pairs { length to.now ≡ length from.now }
    requires others { length places.now ≡ length others.now }
    ensures { result ≡ compared.are_within (zip from.now to.now) (zip others.now places.now) }
{
    for (at, own) in from.iter().enumerate() {
        if !is_among(*own, to[at], others, places) {
            return false;
        }
    }
    true
}

/// Whether a pair of columns is one of others.
fn is_among(own: usize, column: usize, others: &[usize], places: &[usize]) -> bool
    requires { length places.now ≡ length others.now }
    ensures { result ≡ list_any (compared.is_same_pair (own, column)) (zip others.now places.now) }
{
    for (at, other) in others.iter().enumerate() {
        if is_same_pair(own, column, *other, places[at]) {
            return true;
        }
    }
    false
}

fn is_same_pair(own: usize, column: usize, other: usize, place: usize) -> bool
    ensures { result ≡ compared.is_same_pair (own, column) (other, place) }
{
    own == other && column == place
}
