//! Which rows are in which group.

ghost use Rattle.std.specs.Prelude.{◌≡◌, IfOk, OnOk};
ghost use Rattle.std.specs.BTreeMap.{get};
ghost use Rattle.kernels.specs.Adding.{Numbers, add_place, put_at};
ghost use Rattle.kernels.specs.Counts.{key_order};
ghost use Rattle.kernels.specs.Groups.{groups_by_key};

use crate::digest::row_digest;
use crate::groups::Group;
use crate::row_key::RowKey;
use crate::rows::copied_row;
use denote::Row;
use items::Items;
use sqlval::Value;
use std::alloc::{AllocError, Global};
use std::collections::BTreeMap;

/// One row more in the group of this number.
fn put_place(groups: &mut Items<Group>, number: usize, place: usize) -> Result<(), AllocError>
    ensures { OnOk result (groups.new ≡ put_at number place groups.old) }
{
    match groups.get_mut(number) {
        Some(group) => group.places.push(place),
        None => Ok(()),
    }
}

/// The number of the group of a key.
fn number_at<'a>(numbers: &BTreeMap<RowKey<'a>, usize>, key: &RowKey<'a>) -> Option<usize>
    ensures { result ≡ get key_order numbers.now key.now }
{
    numbers.get(key).copied()
}

/// One row more in the group of its key, or in a new one. `numbers` has the numbers of the groups.
fn add_row<'a>(
    alloc: Global,
    numbers: &mut BTreeMap<RowKey<'a>, usize>,
    groups: &mut Items<Group>,
    key: &'a [Value],
    place: usize,
) -> Result<(), AllocError>
    ensures added { Numbers numbers.old groups.old → OnOk result (groups.new ≡ add_place key.now place groups.old) }
    ensures numbered { Numbers numbers.old groups.old → OnOk result (Numbers numbers.new groups.new) }
{
    let lent = RowKey {
        digest: row_digest(key),
        values: key,
    };
    match number_at(numbers, &lent) {
        Some(number) => put_place(groups, number, place),
        None => {
            let number = groups.len();
            let mut places = Items::new(alloc);
            places.push(place)?;
            let key = copied_row(alloc, key)?;
            groups.push(Group { key, places })?;
            numbers.insert(lent, number)?;
            Ok(())
        }
    }
}

/// The groups of rows that have these keys, by their first rows. Refuses for want of memory alone.
pub fn grouped_places(alloc: Global, keys: &[Row]) -> Result<Items<Group>, AllocError>
    ensures { IfOk result (λ groups. groups ≡ groups_by_key keys.now) }
{
    let mut numbers = BTreeMap::new(alloc);
    let mut groups = Items::new(alloc);
    for (place, key) in keys.iter().enumerate() {
        add_row(alloc, &mut numbers, &mut groups, key.as_slice(), place)?;
    }
    Ok(groups)
}
