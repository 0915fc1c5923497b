//! A page made of its cells.

ghost use Rattle.std.specs.Prelude.{◌≡◌, ◌+◌, ◌*◌, ◌≤◌, ◌<◌, ◌++◌, ◌∷◌, [], ◌↔◌, ◌-◌, take, replicate, length, IsTrue};
ghost use Rattle.sqlrecord.specs.Page.{kind_byte, cells_of, link_of, AreCells, IsSound};
ghost use Rattle.sqlrecord.specs.Build.{lent, total_of, Fits, flatten, slots_of, head_of, page_of, two_bytes};

use crate::sound::byte_of;
use crate::{PAGE_SIZE, PageKind};

/// Puts bytes into a page from a place on, and gives the place behind them.
pub(crate) fn put(page: &mut [u8], at: usize, bytes: &[u8]) -> usize
    requires { at + length bytes.now ≤ length page.old }
    ensures put { take result page.new ≡ take at page.old ++ bytes.now }
    ensures behind { result ≡ at + length bytes.now }
{
    page[at..at + bytes.len()].copy_from_slice(bytes);
    at + bytes.len()
}

/// Puts a number in two bytes.
pub(crate) fn put_two(page: &mut [u8], at: usize, number: usize) -> usize
    requires small { number < 65536 }
    requires room { at + 2 ≤ length page.old }
    ensures put { take result page.new ≡ take at page.old ++ two_bytes number }
    ensures behind { result ≡ at + 2 }
{
    page[at] = (number / 256) as u8;
    page[at + 1] = (number % 256) as u8;
    at + 2
}

/// Puts zeros from a place up to another.
pub(crate) fn put_zeros(page: &mut [u8], at: usize, end: usize)
    requires order { at ≤ end }
    requires room { end ≤ length page.old }
    ensures { take end page.new ≡ take at page.old ++ replicate (end - at) 0 }
{
    page[at..end].fill(0);
}

/// Puts the first 16 bytes.
pub(crate) fn put_head(
    page: &mut [u8],
    kind: PageKind,
    count: usize,
    low: usize,
    link: u32,
) -> usize
    requires room { 16 ≤ length page.old }
    requires count { count < 65536 }
    requires low { low < 65536 }
    ensures put { take result page.new ≡ head_of (kind_byte kind) count low link }
    ensures behind { result ≡ 16 }
{
    let at = put(page, 0, &[byte_of(kind), 0]);
    let at = put_two(page, at, count);
    let at = put_two(page, at, low);
    let at = put(page, at, &[0, 0]);
    let at = put(page, at, &link.to_be_bytes());
    put(page, at, &[0, 0, 0, 0])
}

/// Puts the slots of cells that lie one behind another from `start` on.
pub(crate) fn put_slots(page: &mut [u8], at: usize, cells: &[&[u8]], start: usize) -> usize
    requires small { start + total_of (lent cells.now) < 65536 }
    requires room { at + 4 * length cells.now ≤ length page.old }
    ensures put { take result page.new ≡ take at page.old ++ slots_of start (lent cells.now) }
    ensures behind { result ≡ at + 4 * length cells.now }
{
    let mut place = at;
    let mut offset = start;
    for cell in cells {
        place = put_two(page, place, offset);
        place = put_two(page, place, cell.len());
        offset += cell.len();
    }
    place
}

/// Puts cells one behind another, and gives the place behind them.
pub(crate) fn put_cells(page: &mut [u8], at: usize, cells: &[&[u8]]) -> usize
    requires { at + total_of (lent cells.now) ≤ length page.old }
    ensures put { take result page.new ≡ take at page.old ++ flatten (lent cells.now) }
    ensures behind { result ≡ at + total_of (lent cells.now) }
{
    let mut place = at;
    for cell in cells {
        place = put(page, place, cell);
    }
    place
}

/// The bytes that cells take.
pub(crate) fn total(cells: &[&[u8]]) -> usize
    requires { total_of (lent cells.now) < 65536 }
    ensures { result ≡ total_of (lent cells.now) }
{
    let mut sum = 0;
    for cell in cells {
        sum += cell.len();
    }
    sum
}

/// Whether these cells, each with its slot, fit into a page.
pub fn fits(cells: &[&[u8]]) -> bool
    ensures { IsTrue result ↔ Fits (lent cells.now) }
{
    let mut room = 4080;
    for cell in cells {
        if room < 4 || room - 4 < cell.len() {
            return false;
        }
        room -= 4 + cell.len();
    }
    true
}

/// Makes a page of these cells, which are those of its kind with their keys strictly rising.
/// Nothing stays of what the page held before: between the slots and the cells are zeros.
pub fn build_page(page: &mut [u8; PAGE_SIZE], kind: PageKind, link: u32, cells: &[&[u8]])
    requires fits { Fits (lent cells.now) }
    requires cells { AreCells kind (lent cells.now) }
    ensures bytes { page.new ≡ page_of (kind_byte kind) link (lent cells.now) }
    ensures sound { IsSound page.new kind }
    ensures cells { cells_of page.new ≡ lent cells.now }
    ensures link { link_of page.new ≡ link }
{
    let start = PAGE_SIZE - total(cells);
    let at = put_head(page, kind, cells.len(), start, link);
    let at = put_slots(page, at, cells, start);
    put_zeros(page, at, start);
    put_cells(page, start, cells);
}
