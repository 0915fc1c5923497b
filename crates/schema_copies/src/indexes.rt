//! Copies of the indexes of a table.
ghost use Rattle.std.specs.Prelude.{◌≡◌, IfOk};

use items::{Items, Text};
use sqlval::Index;
use std::alloc::{AllocError, Global};

/// A copy of the places of columns.
pub fn copied_places(alloc: Global, places: &Items<usize>) -> Result<Items<usize>, AllocError>
    ensures { IfOk result (λ copied. copied ≡ places.now) }
{
    Items::from_slice(alloc, places.as_slice())
}

pub(crate) fn copied_indexes(alloc: Global, indexes: &[Index]) -> Result<Items<Index>, AllocError>
    ensures { IfOk result (λ copied. copied ≡ indexes.now) }
{
    let mut copied = Items::new(alloc);
    for index in indexes {
        copied.push(copied_index(alloc, index)?)?;
    }
    Ok(copied)
}

/// A copy of an index.
pub fn copied_index(alloc: Global, index: &Index) -> Result<Index, AllocError>
    ensures { IfOk result (λ copied. copied ≡ index.now) }
{
    Ok(Index {
        name: copied_name(alloc, &index.name)?,
        columns: copied_places(alloc, &index.columns)?,
        owner: index.owner,
        root: index.root,
    })
}

fn copied_name(alloc: Global, name: &Option<Text>) -> Result<Option<Text>, AllocError>
    ensures { IfOk result (λ copied. copied ≡ name.now) }
{
    match name {
        Some(text) => Ok(Some(text.copy(alloc)?)),
        None => Ok(None),
    }
}
