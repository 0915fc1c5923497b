//! One leaf: its entries, and the page that it names.

ghost use Rattle.std.specs.Prelude.{◌≡◌, ◌<◌, ◌++◌, [], Some, true, false, map, length, slice_index_or, IfOk, IfErr, OnOk};
ghost use Rattle.page_space.specs.Space.{ReadRefused};
ghost use Rattle.btree_read.specs.Nodes.{entry_of};
ghost use Rattle.btree_read.specs.Leaves.{Names};

use crate::Entries;
use crate::entry::Entry;
use items::Items;
use page_space::SpaceError;
use sqlrecord::SlotPage;
use std::alloc::{AllocError, Global};

/// What a walk over the leaves of a tree has seen.
#[derive(Drop)]
pub(crate) struct Walk {
    /// The entries of the leaves, in order.
    pub(crate) entries: Entries,
    /// The page that the last leaf names as the next one; none before the first leaf.
    pub(crate) named: Option<u32>,
}

/// The entry of a leaf at a place.
pub(crate) fn entry_at(alloc: Global, leaf: &SlotPage<'_>, i: usize) -> Result<Entry, AllocError>
    requires { i < length leaf.now.cells }
    ensures { IfOk result (λ found. found ≡ entry_of (slice_index_or leaf.now.cells i [])) }
{
    let key = Items::from_slice(alloc, leaf.key(i))?;
    let value = Items::from_slice(alloc, leaf.value(i))?;
    Ok(Entry { key, value })
}

/// Whether the leaf before, if there is one, names a page.
fn is_named(named: Option<u32>, page: u32) -> bool
    ensures yes { result ≡ true → Names named page }
    ensures other { result ≡ false → Names named page → ⊥ }
{
    match named {
        Some(before) => before == page,
        None => true,
    }
}

/// Puts the entries of a leaf behind those of the leaves before it. Refused for memory, and as
/// damaged where the leaf before names another page.
pub(crate) fn see_leaf(
    alloc: Global,
    page: u32,
    leaf: &SlotPage<'_>,
    walk: &mut Walk,
) -> Result<(), SpaceError>
    ensures entries { OnOk result (walk.new.entries ≡ walk.old.entries ++ map entry_of leaf.now.cells) }
    ensures named { OnOk result (Names walk.old.named page) }
    ensures next { OnOk result (walk.new.named ≡ Some leaf.now.link) }
    ensures refusal { IfErr result (ReadRefused (Names walk.old.named page → ⊥) 0 0) }
{
    if !is_named(walk.named, page) {
        return Err(SpaceError::Damaged);
    }
    walk.entries.put(alloc, leaf)?;
    walk.named = Some(leaf.link());
    Ok(())
}
