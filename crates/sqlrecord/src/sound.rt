//! Whether a page is sound.

ghost use Rattle.std.specs.Prelude.{◌≡◌, ◌+◌, ◌*◌, ◌<◌, ◌≤◌, ◌↔◌, ◌^◌, ℕ, [], ◌∷◌, length, take, true, IsTrue, IsOk, IfSome, IsNone};
ghost use Rattle.std.specs.Ordering.{is_lt};
ghost use Rattle.sqlrecord.specs.Key.{byte_order, number_code};
ghost use Rattle.sqlrecord.specs.declared.kind.PageKind.TheVariants.{Inner as inner_kind};
ghost use Rattle.sqlrecord.specs.Page.{two_at, four_at, kind_byte, count_of, offset_of, length_of, cell_of, cells_of, lowest_of, key_length_of, key_of, IsCell, AreCells, HasHead, HasSlots, AreApart, IsApart, IsSound};

use crate::{PAGE_SIZE, PageKind};

/// The number in two bytes.
pub(crate) fn two(bytes: &[u8], at: usize) -> usize
    requires { at + 2 ≤ length bytes.now }
    ensures value { result ≡ two_at bytes.now at }
    ensures small { result < 65536 }
{
    u16::from_be_bytes([bytes[at], bytes[at + 1]]) as usize
}

/// The number in four bytes.
pub(crate) fn four(bytes: &[u8], at: usize) -> u32
    requires { at + 4 ≤ length bytes.now }
    ensures { result ≡ four_at bytes.now at }
{
    u32::from_be_bytes([bytes[at], bytes[at + 1], bytes[at + 2], bytes[at + 3]])
}

/// The byte of a kind.
pub(crate) fn byte_of(kind: PageKind) -> u8
    ensures { result ≡ kind_byte kind }
{
    match kind {
        PageKind::Leaf => 1,
        PageKind::Inner => 2,
    }
}

/// Whether the fixed fields are as they are to be.
fn has_head(page: &[u8], kind: PageKind) -> bool
    requires { length page.now ≡ 4096 }
    ensures { IsTrue result ↔ HasHead page.now kind }
{
    page[0] == byte_of(kind) && page[1] == 0 && two(page, 6) == 0 && four(page, 12) == 0
}

/// What one walk over the slots of a page says of its cells.
#[derive(Clone, Copy)]
struct Places {
    /// The lowest byte that a cell uses.
    lowest: usize,
    /// That each cell begins behind all those before it; where that is not so, they may overlap.
    is_ascending: bool,
}

/// The places of a page's cells, where the slots lie in the page, and each cell in it behind them.
fn places_of(page: &[u8]) -> Option<Places>
    requires { length page.now ≡ 4096 }
    ensures slots { IfSome result (λ places. HasSlots page.now) }
    ensures lowest { IfSome result (λ places. places.lowest ≡ lowest_of page.now (count_of page.now)) }
    ensures apart { IfSome result (λ places. places.is_ascending ≡ true → IsApart page.now) }
    ensures others { IsNone result → HasSlots page.now → ⊥ }
{
    let count = two(page, 2);
    if 16 + 4 * count > PAGE_SIZE {
        return None;
    }
    let mut lowest = PAGE_SIZE;
    let mut past = 0;
    let mut is_ascending = true;
    for i in 0..count {
        let offset = two(page, 16 + 4 * i);
        let length = two(page, 18 + 4 * i);
        if offset < 16 + 4 * count || offset + length > PAGE_SIZE {
            return None;
        }
        lowest = lowest.min(offset);
        is_ascending = is_ascending && past <= offset;
        past = past.max(offset + length);
    }
    Some(Places {
        lowest,
        is_ascending,
    })
}

/// Where a cell begins and ends.
pub(crate) fn bounds(page: &[u8], i: usize) -> (usize, usize)
    requires size { length page.now ≡ 4096 }
    requires slots { HasSlots page.now }
    requires place { i < count_of page.now }
    ensures begin { result.0 ≡ offset_of page.now i }
    ensures end { result.1 ≡ offset_of page.now i + length_of page.now i }
{
    let begin = two(page, 16 + 4 * i);
    (begin, begin + two(page, 18 + 4 * i))
}

/// Whether a cell overlaps none of those before it.
fn is_clear(page: &[u8], j: usize) -> bool
    requires size { length page.now ≡ 4096 }
    requires slots { HasSlots page.now }
    requires place { j < count_of page.now }
    ensures { IsTrue result ↔ ((i : ℕ) → i < j → AreApart page.now i j) }
{
    let (begin, end) = bounds(page, j);
    for i in 0..j {
        let (other_begin, other_end) = bounds(page, i);
        if other_end.min(end) > other_begin.max(begin) {
            return false;
        }
    }
    true
}

/// Whether no cells overlap. Cells that lie one behind another are not compared.
fn is_apart(page: &[u8]) -> bool
    requires size { length page.now ≡ 4096 }
    requires slots { HasSlots page.now }
    ensures { IsTrue result ↔ IsApart page.now }
{
    let mut past = 0;
    for j in 0..two(page, 2) {
        let (begin, end) = bounds(page, j);
        if begin < past && !is_clear(page, j) {
            return false;
        }
        past = past.max(end);
    }
    true
}

/// The cell of a slot.
pub(crate) fn cell_in(page: &[u8], i: usize) -> &[u8]
    requires size { length page.now ≡ 4096 }
    requires slots { HasSlots page.now }
    requires place { i < count_of page.now }
    ensures { result.now ≡ cell_of page.now i }
{
    let (begin, end) = bounds(page, i);
    &page[begin..end]
}

/// Whether a cell has its key, and an inner page's its child.
pub(crate) fn is_cell(cell: &[u8], kind: PageKind) -> bool
    ensures { IsTrue result ↔ IsCell kind cell.now }
{
    if cell.len() < 2 {
        return false;
    }
    let rest = 2 + two(cell, 0);
    match kind {
        PageKind::Leaf => rest <= cell.len(),
        PageKind::Inner => rest + 4 == cell.len(),
    }
}

/// The key of a cell.
pub(crate) fn key_in(cell: &[u8]) -> &[u8]
    requires { 2 + key_length_of cell.now ≤ length cell.now }
    ensures { result.now ≡ key_of cell.now }
{
    &cell[2..2 + two(cell, 0)]
}

/// The number that the first eight bytes are, the highest first.
fn eight(bytes: &[u8]) -> u64
    requires { 8 ≤ length bytes.now }
    ensures { number_code result ≡ take 8 bytes.now }
{
    u64::from_be_bytes([
        bytes[0], bytes[1], bytes[2], bytes[3], bytes[4], bytes[5], bytes[6], bytes[7],
    ])
}

/// Whether bytes come before others, one compared after another.
fn precedes_by_bytes(a: &[u8], b: &[u8]) -> bool
    ensures { result ≡ is_lt (byte_order a.now b.now) }
{
    let mut ours = a;
    let mut theirs = b;
    'compared: while let Some((one, rest)) = ours.split_first() {
        let Some((other, behind)) = theirs.split_first() else {
            return false;
        };
        if one != other {
            return one < other;
        }
        ours = rest;
        theirs = behind;
    }
    !theirs.is_empty()
}

/// Whether a key comes before another. While both have eight bytes more, these are compared as
/// numbers.
pub(crate) fn precedes(a: &[u8], b: &[u8]) -> bool
    ensures { result ≡ is_lt (byte_order a.now b.now) }
{
    let mut ours = a;
    let mut theirs = b;
    'eights: while ours.len().min(theirs.len()) >= 8 {
        let one = eight(ours);
        let other = eight(theirs);
        if one < other {
            return true;
        }
        if other < one {
            return false;
        }
        ours = &ours[8..];
        theirs = &theirs[8..];
    }
    precedes_by_bytes(ours, theirs)
}

/// Whether each cell is formed as its kind asks, and the keys rise.
#[tactic(auto, using(crate::proofs::PageLemmas::cell_facts))]
fn has_cells(page: &[u8], kind: PageKind) -> bool
    requires size { length page.now ≡ 4096 }
    requires slots { HasSlots page.now }
    ensures { IsTrue result ↔ AreCells kind (cells_of page.now) }
{
    let mut before: &[u8] = &[];
    for i in 0..two(page, 2) {
        let cell = cell_in(page, i);
        if !is_cell(cell, kind) {
            return false;
        }
        let key = key_in(cell);
        if i > 0 && !precedes(before, key) {
            return false;
        }
        before = key;
    }
    true
}

/// The bytes of a cell that begins and ends there.
fn cell_between(page: &[u8], i: usize, begin: usize, end: usize) -> &[u8]
    requires begin { begin ≡ offset_of page.now i }
    requires end { end ≡ offset_of page.now i + length_of page.now i }
    requires within { end ≤ length page.now }
    ensures { result.now ≡ cell_of page.now i }
{
    &page[begin..end]
}

/// The lowest byte that a cell uses, where the slots lie in the page, each cell lies behind the
/// slots and the cells before it and is formed as its kind asks, and the keys rise. So are all
/// pages that `build_page` makes: one walk over their slots tells all.
#[tactic(auto, using(crate::proofs::PageLemmas::cell_facts))]
fn lowest_in_order(page: &[u8], kind: PageKind) -> Option<usize>
    requires { length page.now ≡ 4096 }
    ensures slots { IfSome result (λ lowest. HasSlots page.now) }
    ensures lowest { IfSome result (λ lowest. lowest ≡ lowest_of page.now (count_of page.now)) }
    ensures apart { IfSome result (λ lowest. IsApart page.now) }
    ensures cells { IfSome result (λ lowest. AreCells kind (cells_of page.now)) }
{
    let count = two(page, 2);
    if 16 + 4 * count > PAGE_SIZE {
        return None;
    }
    let mut lowest = PAGE_SIZE;
    let mut past = 16 + 4 * count;
    let mut before: &[u8] = &[];
    for i in 0..count {
        let begin = two(page, 16 + 4 * i);
        let end = begin + two(page, 18 + 4 * i);
        if begin < past || end > PAGE_SIZE {
            return None;
        }
        let cell = cell_between(page, i, begin, end);
        if !is_cell(cell, kind) {
            return None;
        }
        let key = key_in(cell);
        if i > 0 && !precedes(before, key) {
            return None;
        }
        lowest = lowest.min(begin);
        past = end;
        before = key;
    }
    Some(lowest)
}

/// Whether a page is sound, however its cells lie in it.
fn is_sound_anyhow(page: &[u8], kind: PageKind) -> bool
    requires { length page.now ≡ 4096 }
    ensures { IsTrue result ↔ IsSound page.now kind }
{
    match places_of(page) {
        None => false,
        Some(places) => {
            has_head(page, kind)
                && two(page, 4) == places.lowest
                && (places.is_ascending || is_apart(page))
                && has_cells(page, kind)
        }
    }
}

/// Whether a page is sound.
pub(crate) fn is_sound(page: &[u8], kind: PageKind) -> bool
    requires { length page.now ≡ 4096 }
    ensures { IsTrue result ↔ IsSound page.now kind }
{
    match lowest_in_order(page, kind) {
        None => is_sound_anyhow(page, kind),
        Some(lowest) => has_head(page, kind) && two(page, 4) == lowest,
    }
}
