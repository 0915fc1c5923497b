//! Lists of cells.

ghost use Rattle.std.specs.Prelude.{[], ◌-◌, slice_index_or, IsSome, ◌≡◌, ◌⊎◌, ◌<◌, ◌≤◌, ◌+◌, ◌++◌, ◌∷◌, ℕ, List, true, false, map, length, take, drop, IfOk, IfSome};
ghost use Rattle.sqlrecord.specs.Build.{lent, Fits};
ghost use Rattle.sqlrecord.specs.Page.{key_of, child_of, key_length_of, AreCells};
ghost use Rattle.btree_read.specs.Nodes.{entry_of, precedes};
ghost use Rattle.btree_read.specs.Sorted.{put};
ghost use Rattle.btree.specs.Overfull.{size_of, IsOverfull};

use btree_read::{Start, first_place, is_before};
use sqlrecord::{SlotPage, fits};
use std::alloc::{AllocError, Global};

/// A page's cells with another one in place of those from `at` up to `behind`. Refused for want of
/// memory.
pub fn cells_with<'a>(
    alloc: Global,
    page: &SlotPage<'a>,
    at: usize,
    behind: usize,
    cell: &'a [u8],
) -> Result<Vec<&'a [u8]>, AllocError>
    requires order { at ≤ behind }
    requires within { behind ≤ length page.now.cells }
    ensures cells { AreCells page.now.kind page.now.cells }
    ensures with { IfOk result (λ cells. lent cells.items ≡ take at page.now.cells ++ cell.now ∷ drop behind page.now.cells) }
{
    let mut cells = Vec::with_capacity(alloc, page.len().saturating_add(1))?;
    for i in 0..at {
        cells.push(page.cell(i))?;
    }
    cells.push(cell)?;
    for i in behind..page.len() {
        cells.push(page.cell(i))?;
    }
    Ok(cells)
}

/// Where a key's entry goes among a leaf's: in place of the cells from the first place up to the
/// second.
pub(crate) fn place_of(leaf: &SlotPage<'_>, key: &[u8]) -> (usize, usize)
    ensures order { result.0 ≤ result.1 }
    ensures within { result.1 ≤ length leaf.now.cells }
    ensures put { (value cell : List ℕ) → entry_of cell ≡ record { key = key.now; value = value }
        → put key.now value (map entry_of leaf.now.cells) ≡ map entry_of (take result.0 leaf.now.cells ++ cell ∷ drop result.1 leaf.now.cells) }
    ensures before { (i : ℕ) → i < result.0 → precedes (key_of (slice_index_or leaf.now.cells i [])) key.now ≡ true }
    ensures behind { (i : ℕ) → result.1 ≤ i → i < length leaf.now.cells
        → precedes key.now (key_of (slice_index_or leaf.now.cells i [])) ≡ true }
{
    let at = first_place(leaf, Start::At, key);
    if at == leaf.len() {
        return (at, at);
    }
    if is_before(key, leaf.key(at)) {
        return (at, at);
    }
    (at, at + 1)
}

/// The key of a cell.
pub(crate) fn cell_key(cell: &[u8]) -> &[u8]
    requires { 2 + key_length_of cell.now ≤ length cell.now }
    ensures { result.now ≡ key_of cell.now }
{
    let length = cell[0] as usize * 256 + cell[1] as usize;
    &cell[2..2 + length]
}

/// The child of an inner page's cell.
pub(crate) fn cell_child(cell: &[u8]) -> u32
    requires { 2 + key_length_of cell.now + 4 ≡ length cell.now }
    ensures { result ≡ child_of cell.now }
{
    let length = cell[0] as usize * 256 + cell[1] as usize;
    let at = 2 + length;
    u32::from_be_bytes([cell[at], cell[at + 1], cell[at + 2], cell[at + 3]])
}

/// How many cells, from the first, take about half of a page: less without the last of them.
fn middle_of(cells: &[&[u8]]) -> usize
    ensures within { result ≤ length cells.now }
    ensures some { 0 < length cells.now → 0 < result }
    ensures front { size_of (take (result - 1) (lent cells.now)) < 2040 }
    ensures back { result < length cells.now → 2040 ≤ size_of (take result (lent cells.now)) }
{
    let mut size = 0;
    for i in 0..cells.len() {
        let length = cells[i].len();
        if length >= 2036 || size + 4 + length >= 2040 {
            return i + 1;
        }
        size += 4 + length;
    }
    cells.len()
}

/// Where to cut cells so that at most so many are in the first part. At the right edge of a tree
/// the first part keeps all that fits; elsewhere it takes half of a page at least, and the second
/// part a quarter.
fn place_to_cut(cells: &[&[u8]], is_last: bool, most: usize) -> usize
    requires { most < length cells.now }
    ensures within { result ≤ most }
    ensures fits { length cells.now ≤ most + 2 → IsOverfull (lent cells.now)
        → (0 < result) × Fits (take result (lent cells.now)) × Fits (drop result (lent cells.now)) }
    ensures filled { is_last ≡ false → length cells.now ≤ most + 2 → IsOverfull (lent cells.now)
        → (2040 ≤ size_of (take result (lent cells.now))) × (1028 ≤ size_of (drop result (lent cells.now))) }
    ensures full { is_last ≡ true → Fits (take most (lent cells.now)) → result ≡ most }
{
    let middle = middle_of(cells);
    if most < middle {
        return most;
    }
    if is_last && fits(&cells[..most]) {
        return most;
    }
    middle
}

/// Where cells that are too many for a page are cut in two parts that fit, of which the second has
/// at least so many cells. At the right edge of a tree the first part keeps all other cells, where
/// they fit; elsewhere it takes half of a page at least, and the second part a quarter.
pub(crate) fn cut_of(cells: &[&[u8]], is_last: bool, least: usize) -> Option<usize>
    ensures cut { IfSome result (λ at. (0 < at) × (at + least ≤ length cells.now) × (0 < least)
        × Fits (take at (lent cells.now)) × Fits (drop at (lent cells.now))) }
    ensures found { 0 < least → least ≤ 2 → IsOverfull (lent cells.now) → IsSome result }
    ensures filled { IfSome result (λ at. is_last ≡ false → least ≤ 2 → IsOverfull (lent cells.now)
        → (2040 ≤ size_of (take at (lent cells.now))) × (1028 ≤ size_of (drop at (lent cells.now)))) }
    ensures full { IfSome result (λ at. is_last ≡ true → Fits (take (length cells.now - least) (lent cells.now))
        → at ≡ length cells.now - least) }
{
    if least == 0 || cells.len() <= least {
        return None;
    }
    let at = place_to_cut(cells, is_last, cells.len() - least);
    let (left, right) = cells.split_at(at);
    if at > 0 && fits(left) && fits(right) {
        Some(at)
    } else {
        None
    }
}
