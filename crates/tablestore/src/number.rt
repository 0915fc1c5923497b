//! The number of the next row.
ghost use Rattle.std.specs.Prelude.{◌≡◌, ◌≤◌, ◌<◌, ◌^◌, ℕ, List, IfOk, IfErr};
ghost use Rattle.store.specs.Contents as stored;
ghost use Rattle.page_space.specs.Space.{ReadRefused};
ghost use Rattle.btree_read.specs.declared.entry.Entry.{Entry as AnyEntry};
ghost use Rattle.btree_read.specs.Tree.{IsTree};
ghost use Rattle.tablestore.specs.Held.{HoldsRows, HoldsNoRows, ArePast};

use crate::decoding::number_of;
use btree_read::last_key;
use page_space::{PageReader, SpaceError};
use std::alloc::Global;

/// The least number that no row may have.
pub(crate) const NUMBERS: u64 = 1 << 63;

/// The number of the next row of the tree at a root: 0 where there are no rows, else one more than
/// the greatest number, by one descent to the last key. Of whatever tree lies there, no key is the
/// code of this number, or comes behind it.
///
/// Refused as `scan` is.
pub fn next_number<R: PageReader>(
    space: &mut R,
    alloc: Global,
    root: u32,
) -> Result<u64, SpaceError>
    ensures found { (owned : List ℕ) (rows : List stored.Entry) → HoldsRows (R.pages space.old) root owned rows
        → IfOk result (λ number. number ≡ stored.next_number rows) }
    ensures past { (owned : List ℕ) (entries : List AnyEntry) → IsTree (R.pages space.old) root owned entries
        → IfOk result (ArePast entries) }
    ensures same { R.pages space.new ≡ R.pages space.old }
    ensures whole { R.is_whole space.old → R.is_whole space.new }
    ensures refusal { IfErr result (ReadRefused (HoldsNoRows (R.pages space.old) root) (R.refused space.old) (R.refused space.new)) }
    ensures rising { R.refused space.old ≤ R.refused space.new }
    ensures follows { R.follows space.old space.new }
{
    let Some(last) = last_key(space, alloc, root)? else {
        return Ok(0);
    };
    match number_of(last.as_slice()) {
        Some(number) => Ok(number + 1),
        None => Err(SpaceError::Damaged),
    }
}
