//! Where a key leads in a page.

ghost use Rattle.std.specs.Prelude.{◌≡◌, ℕ, ◌<◌, ◌≤◌, [], true, false, map, length, slice_index_or, MatchOption};
ghost use Rattle.sqlrecord.specs.declared.kind.PageKind.TheVariants.{Inner};
ghost use Rattle.sqlrecord.specs.Page.{key_of};
ghost use Rattle.btree_read.specs.Nodes.{precedes, branch_of};
ghost use Rattle.btree_read.specs.Sorted.{is_from as is_from_lem};
ghost use Rattle.btree_read.specs.Search.{child_at as child_of};

use crate::Start;
use sqlrecord::SlotPage;

/// Whether a key stands before another, byte by byte.
#[tactic(auto, unfolding(crate::specs::Nodes::precedes))]
pub fn is_before(a: &[u8], b: &[u8]) -> bool
    ensures { result ≡ precedes a.now b.now }
{
    a.cmp(b).is_lt()
}

/// Whether a key is at or behind where a search starts.
fn is_from(start: Start, key: &[u8], other: &[u8]) -> bool
    ensures { result ≡ is_from_lem start key.now other.now }
{
    match start {
        Start::At => !is_before(other, key),
        Start::Behind => is_before(key, other),
    }
}

/// The place of a page's first cell from there on; the number of its cells where there is none.
pub fn first_place(page: &SlotPage<'_>, start: Start, key: &[u8]) -> usize
    ensures within { result ≤ length page.now.cells }
    ensures before { (i : ℕ) → i < result
        → is_from_lem start key.now (key_of (slice_index_or page.now.cells i [])) ≡ false }
    ensures behind { (i : ℕ) → result ≤ i → i < length page.now.cells
        → is_from_lem start key.now (key_of (slice_index_or page.now.cells i [])) ≡ true }
{
    let mut low = 0;
    let mut high = page.len();
    while low < high {
        let middle = low + (high - low) / 2;
        if is_from(start, key, page.key(middle)) {
            high = middle;
        } else {
            low = middle + 1;
        }
    }
    low
}

/// The child of an inner page at a place, where the leftmost one has no cell.
pub fn child_at(page: &SlotPage<'_>, at: usize) -> u32
    requires inner { page.now.kind ≡ Inner }
    requires place { at ≤ length page.now.cells }
    ensures { result ≡ child_of page.now.link (map branch_of page.now.cells) at }
{
    if at == 0 {
        page.link()
    } else {
        page.child(at - 1)
    }
}
