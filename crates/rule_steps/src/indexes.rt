//! The indexes of a table in the order in which rules try them.

ghost use Rattle.std.specs.Prelude.{◌≡◌, ◌++◌, List, ℕ, filter, nat_eq, IfOk};
ghost use Rattle.std.specs.Cmp.Lexicographic.{pointwise};
ghost use Rattle.rules.specs.Indexes.{is_key, key_first};

use algebra::StoredTable;
use items::Items;
use std::alloc::{AllocError, Global};

/// The columns of each index, that of the primary key before the others.
pub fn key_first(alloc: Global, table: &StoredTable) -> Result<Items<Items<usize>>, AllocError>
    ensures { IfOk result (λ list. list ≡ key_first table.now) }
{
    let list = Items::new(alloc);
    let keys = put_keys(alloc, list, &table.key, table.indexes.as_slice())?;
    put_all(alloc, keys, table.indexes.as_slice())
}

fn put_keys(
    alloc: Global,
    list: Items<Items<usize>>,
    key: &Option<Items<usize>>,
    indexes: &[Items<usize>],
) -> Result<Items<Items<usize>>, AllocError>
    ensures { IfOk result (λ more. more ≡ list ++ filter (is_key key.now) indexes.now) }
{
    let mut list = list;
    for columns in indexes {
        if is_key(key, columns.as_slice()) {
            list.push(Items::from_slice(alloc, columns.as_slice())?)?;
        }
    }
    Ok(list)
}

fn put_all(
    alloc: Global,
    list: Items<Items<usize>>,
    indexes: &[Items<usize>],
) -> Result<Items<Items<usize>>, AllocError>
    ensures { IfOk result (λ more. more ≡ list ++ indexes.now) }
{
    let mut list = list;
    for columns in indexes {
        list.push(Items::from_slice(alloc, columns.as_slice())?)?;
    }
    Ok(list)
}

fn is_key(key: &Option<Items<usize>>, columns: &[usize]) -> bool
    ensures { result ≡ is_key key.now columns.now }
{
    match key {
        Some(key) => key.as_slice() == columns,
        None => false,
    }
}
