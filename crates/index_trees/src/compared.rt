//! Entries of an index beside the rows that they are of.
ghost use Rattle.std.specs.Prelude.{◌≡◌, ◌<◌, ◌+◌, [], true, false, IfOk, IfErr};
ghost use Rattle.std.specs.Cmp.Lexicographic.{pointwise};
ghost use Rattle.std.specs.Prelude.{nat_eq};
ghost use Rattle.sqlval.specs.CodedLength.{key_length};
ghost use Rattle.sqlval.specs.Matching.{key_of};
ghost use Rattle.store.specs.View.{entry_of};
ghost use Rattle.page_space.specs.declared.error.SpaceError.TheVariants.{Memory};
ghost use Rattle.index_trees.specs.Indexed.{index_entry};

use crate::IndexError;
use crate::entries::code_of;
use btree_read::Entry;
use page_space::SpaceError;
use std::alloc::Global;
use store::NumberedRow;

/// Whether a list has no bytes.
fn is_nothing(bytes: &[u8]) -> bool
    ensures yes { result ≡ true → bytes.now ≡ [] }
    ensures no { result ≡ false → bytes.now ≡ [] → ⊥ }
{
    match bytes {
        [] => true,
        [_, ..] => false,
    }
}

/// Whether two lists of bytes are the same.
fn are_same(one: &[u8], other: &[u8]) -> bool
    ensures { result ≡ pointwise nat_eq one.now other.now }
{
    one == other
}

/// Whether an entry is the one that a row with this number has in an index over these columns. A
/// row whose key is too long has none.
pub fn is_entry_of(
    alloc: Global,
    columns: &[usize],
    found: &NumberedRow,
    entry: &Entry,
) -> Result<bool, SpaceError>
    ensures yes { IfOk result (λ is. is ≡ true → entry.now ≡ index_entry columns.now (entry_of found.now)) }
    ensures no { IfOk result (λ is. is ≡ false → entry.now ≡ index_entry columns.now (entry_of found.now)
        → 600 < key_length (key_of columns.now found.now.row) + 8) }
    ensures memory { IfErr result (λ fault. fault ≡ Memory) }
{
    if !is_nothing(entry.value.as_slice()) {
        return Ok(false);
    }
    match code_of(alloc, &found.row, columns, found.number) {
        Ok(code) => Ok(are_same(entry.key.as_slice(), code.as_slice())),
        Err(IndexError::Key) => Ok(false),
        Err(IndexError::Space(fault)) => Err(fault),
    }
}
