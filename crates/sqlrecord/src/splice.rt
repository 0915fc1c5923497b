//! A page made of another page's cells, with others in place of some.

ghost use Rattle.std.specs.Prelude.{◌≡◌, ◌+◌, ◌-◌, ◌*◌, ◌≤◌, ◌<◌, ◌++◌, ◌↔◌, take, drop, length, true, slice_range, IfSome, IsNone, IsTrue};
ghost use Rattle.sqlrecord.specs.Page.{kind_byte, cells_of, count_of, link_of, AreCells, HasSlots, IsSound};
ghost use Rattle.sqlrecord.specs.Build.{lent, total_of, Fits, flatten, slots_of, page_of};
ghost use Rattle.sqlrecord.specs.Splice.{cells_between, cells_with, spliced};

use crate::build::{fits, put, put_cells, put_head, put_slots, put_two, put_zeros, total};
use crate::sound::{bounds, cell_in, two};
use crate::{PAGE_SIZE, SlotPage};

/// The bytes that some of a page's cells take.
fn total_between(old: &[u8], first: usize, last: usize) -> usize
    requires size { length old.now ≡ 4096 }
    requires slots { HasSlots old.now }
    requires order { first ≤ last }
    requires within { last ≤ count_of old.now }
    ensures total { result ≡ total_of (cells_between old.now first last) }
    ensures small { result ≤ 65536 * last }
{
    let mut sum = 0;
    for i in first..last {
        sum += two(old, 18 + 4 * i);
    }
    sum
}

/// Puts the slots of some of a page's cells, as they lie one behind another from `start` on. Gives
/// the place behind the slots, and where the last of the cells ends.
fn put_slots_between(
    page: &mut [u8],
    at: usize,
    old: &[u8],
    first: usize,
    last: usize,
    start: usize,
) -> (usize, usize)
    requires size { length old.now ≡ 4096 }
    requires slots { HasSlots old.now }
    requires order { first ≤ last }
    requires within { last ≤ count_of old.now }
    requires small { start + total_of (cells_between old.now first last) < 65536 }
    requires room { at + 4 * (last - first) ≤ length page.old }
    ensures put { take result.0 page.new ≡ take at page.old ++ slots_of start (cells_between old.now first last) }
    ensures behind { result.0 ≡ at + 4 * (last - first) }
    ensures end { result.1 ≡ start + total_of (cells_between old.now first last) }
{
    let mut place = at;
    let mut offset = start;
    for i in first..last {
        let length = two(old, 18 + 4 * i);
        place = put_two(page, place, offset);
        place = put_two(page, place, length);
        offset += length;
    }
    (place, offset)
}

/// Where the first of some of a page's cells begins and the last ends, if each begins where the one
/// before it ends.
fn run_between(old: &[u8], first: usize, last: usize) -> Option<(usize, usize)>
    requires size { length old.now ≡ 4096 }
    requires slots { HasSlots old.now }
    requires order { first ≤ last }
    requires within { last ≤ count_of old.now }
    ensures within { IfSome result (λ run. (run.0 ≤ run.1) × (run.1 ≤ 4096)) }
    ensures cells { IfSome result (λ run. slice_range old.now run.0 run.1 ≡ flatten (cells_between old.now first last)) }
{
    if first == last {
        return Some((0, 0));
    }
    let (begin, end) = bounds(old, first);
    let mut past = end;
    for i in first + 1..last {
        let (begin, end) = bounds(old, i);
        if begin != past {
            return None;
        }
        past = end;
    }
    Some((begin, past))
}

/// Puts some of a page's cells, one after another.
fn put_each_between(page: &mut [u8], at: usize, old: &[u8], first: usize, last: usize) -> usize
    requires size { length old.now ≡ 4096 }
    requires slots { HasSlots old.now }
    requires order { first ≤ last }
    requires within { last ≤ count_of old.now }
    requires room { at + total_of (cells_between old.now first last) ≤ length page.old }
    ensures put { take result page.new ≡ take at page.old ++ flatten (cells_between old.now first last) }
    ensures behind { result ≡ at + total_of (cells_between old.now first last) }
{
    let mut place = at;
    for i in first..last {
        place = put(page, place, cell_in(old, i));
    }
    place
}

/// Puts some of a page's cells: at once where they lie one behind another.
fn put_cells_between(page: &mut [u8], at: usize, old: &[u8], first: usize, last: usize) -> usize
    requires size { length old.now ≡ 4096 }
    requires slots { HasSlots old.now }
    requires order { first ≤ last }
    requires within { last ≤ count_of old.now }
    requires room { at + total_of (cells_between old.now first last) ≤ length page.old }
    ensures put { take result page.new ≡ take at page.old ++ flatten (cells_between old.now first last) }
    ensures behind { result ≡ at + total_of (cells_between old.now first last) }
{
    match run_between(old, first, last) {
        Some((begin, end)) => put(page, at, &old[begin..end]),
        None => put_each_between(page, at, old, first, last),
    }
}

/// Puts the slots of a page's cells with others in place of those from one place up to another, as
/// they lie one behind another from `start` on.
fn put_slots_with(
    page: &mut [u8],
    place: usize,
    old: &[u8],
    at: usize,
    behind: usize,
    cells: &[&[u8]],
    start: usize,
) -> usize
    requires size { length old.now ≡ 4096 }
    requires slots { HasSlots old.now }
    requires order { at ≤ behind }
    requires within { behind ≤ count_of old.now }
    requires small { start + total_of (cells_with old.now at behind (lent cells.now)) < 65536 }
    requires room { place + 4 * length (cells_with old.now at behind (lent cells.now)) ≤ length page.old }
    ensures put { take result page.new ≡ take place page.old ++ slots_of start (cells_with old.now at behind (lent cells.now)) }
    ensures behind { result ≡ place + 4 * length (cells_with old.now at behind (lent cells.now)) }
{
    let (place, offset) = put_slots_between(page, place, old, 0, at, start);
    let place = put_slots(page, place, cells, offset);
    let next = offset + total(cells);
    let (place, _) = put_slots_between(page, place, old, behind, two(old, 2), next);
    place
}

/// Puts a page's cells with others in place of those from one place up to another.
fn put_cells_with(
    page: &mut [u8],
    start: usize,
    old: &[u8],
    at: usize,
    behind: usize,
    cells: &[&[u8]],
)
    requires size { length old.now ≡ 4096 }
    requires slots { HasSlots old.now }
    requires order { at ≤ behind }
    requires within { behind ≤ count_of old.now }
    requires room { start + total_of (cells_with old.now at behind (lent cells.now)) ≡ length page.old }
    ensures { page.new ≡ take start page.old ++ flatten (cells_with old.now at behind (lent cells.now)) }
{
    let place = put_cells_between(page, start, old, 0, at);
    let place = put_cells(page, place, cells);
    put_cells_between(page, place, old, behind, two(old, 2));
}

/// How many slots a page's cells have with others in place of those from one place up to another,
/// and where the first begins, if they fit into a page.
fn room_with(old: &[u8], at: usize, behind: usize, cells: &[&[u8]]) -> Option<(usize, usize)>
    requires size { length old.now ≡ 4096 }
    requires slots { HasSlots old.now }
    requires order { at ≤ behind }
    requires within { behind ≤ count_of old.now }
    ensures fits { IfSome result (λ room. Fits (cells_with old.now at behind (lent cells.now))) }
    ensures slots { IfSome result (λ room. room.0 ≡ length (cells_with old.now at behind (lent cells.now))) }
    ensures start { IfSome result (λ room. room.1 ≡ 4096 - total_of (cells_with old.now at behind (lent cells.now))) }
    ensures none { IsNone result → Fits (cells_with old.now at behind (lent cells.now)) → ⊥ }
{
    if !fits(cells) {
        return None;
    }
    let count = two(old, 2);
    let slots = at + cells.len() + (count - behind);
    let kept = total_between(old, 0, at) + total_between(old, behind, count);
    let size = kept + total(cells);
    if 4 * slots + size > PAGE_SIZE - 16 {
        return None;
    }
    Some((slots, PAGE_SIZE - size))
}

/// Makes the page that `build_page` makes of a page's cells with others in place of those from `at`
/// up to `behind`, and with this link; the cells that stay are copied as they lie. Answers false
/// just where they do not fit: then nothing is said of the page.
pub fn splice_page(
    page: &mut [u8; PAGE_SIZE],
    link: u32,
    node: &SlotPage<'_>,
    at: usize,
    behind: usize,
    cells: &[&[u8]],
) -> bool
    requires order { at ≤ behind }
    requires within { behind ≤ length node.now.cells }
    requires cells { AreCells node.now.kind (spliced node.now.cells at behind (lent cells.now)) }
    ensures fits { IsTrue result ↔ Fits (spliced node.now.cells at behind (lent cells.now)) }
    ensures bytes { result ≡ true
        → page.new ≡ page_of (kind_byte node.now.kind) link (spliced node.now.cells at behind (lent cells.now)) }
    ensures sound { result ≡ true → IsSound page.new node.now.kind }
    ensures cells { result ≡ true → cells_of page.new ≡ spliced node.now.cells at behind (lent cells.now) }
    ensures link { result ≡ true → link_of page.new ≡ link }
{
    let old = node.bytes();
    let Some((slots, start)) = room_with(old, at, behind, cells) else {
        return false;
    };
    let place = put_head(page, node.kind(), slots, start, link);
    let place = put_slots_with(page, place, old, at, behind, cells, start);
    put_zeros(page, place, start);
    put_cells_with(page, start, old, at, behind, cells);
    true
}
