//! Copies of what trees know of tables and indexes.

ghost use Rattle.std.specs.Prelude.{◌≡◌, IfOk};

use crate::parts::pushed;
use algebra::{Bound, StoredTable};
use items::Items;
use sqlval::Value;
use std::alloc::{AllocError, Global};
use typing::OrderKey;

pub fn copied_table(alloc: Global, table: &StoredTable) -> Result<StoredTable, AllocError>
    ensures { IfOk result (λ copied. copied ≡ table.now) }
{
    let name = table.name.copy(alloc)?;
    let key = copied_places(alloc, &table.key)?;
    let indexes = copied_indexes(alloc, &table.indexes)?;
    Ok(StoredTable {
        name,
        width: table.width,
        key,
        indexes,
    })
}

pub fn copied_places(
    alloc: Global,
    places: &Option<Items<usize>>,
) -> Result<Option<Items<usize>>, AllocError>
    ensures { IfOk result (λ copied. copied ≡ places.now) }
{
    match places {
        None => Ok(None),
        Some(places) => Ok(Some(Items::from_slice(alloc, places.as_slice())?)),
    }
}

fn copied_indexes(
    alloc: Global,
    indexes: &Items<Items<usize>>,
) -> Result<Items<Items<usize>>, AllocError>
    ensures { IfOk result (λ copied. copied ≡ indexes.now) }
{
    let mut copied = Items::new(alloc);
    for columns in indexes.as_slice() {
        copied = pushed(copied, Items::from_slice(alloc, columns.as_slice()))?;
    }
    Ok(copied)
}

pub fn copied_values(alloc: Global, values: &Items<Value>) -> Result<Items<Value>, AllocError>
    ensures { IfOk result (λ copied. copied ≡ values.now) }
{
    let mut copied = Items::new(alloc);
    for value in values.as_slice() {
        copied = pushed(copied, value.copy(alloc))?;
    }
    Ok(copied)
}

pub fn copied_bound(alloc: Global, bound: &Option<Bound>) -> Result<Option<Bound>, AllocError>
    ensures { IfOk result (λ copied. copied ≡ bound.now) }
{
    match bound {
        None => Ok(None),
        Some(bound) => {
            let value = bound.value.copy(alloc)?;
            Ok(Some(Bound {
                value,
                inclusive: bound.inclusive,
            }))
        }
    }
}

pub fn copied_keys(alloc: Global, keys: &Items<OrderKey>) -> Result<Items<OrderKey>, AllocError>
    ensures { IfOk result (λ copied. copied ≡ keys.now) }
{
    Items::from_slice(alloc, keys.as_slice())
}
