//! The list of a journal as bytes.
ghost use Rattle.std.specs.Prelude.{◌≡◌, ℕ, ◌+◌, ◌*◌, ◌<◌, ◌≤◌, ◌^◌, ◌++◌, ◌↔◌, length, take, drop, IfSome, IsNone, IsTrue};
ghost use Rattle.byteorder.specs.Endian.{big_bytes};
ghost use Rattle.journal.specs.Lists.{listed, HasNumbers, IsFront, IsList};

use crate::Image;
use crate::header::read_number;
use byteorder::{BigEndian, ByteOrder};
use pagefile::{PAGE_SIZE, Page};

/// The most pages of a journal.
const MOST_CHANGED: u32 = 1_024;

/// What stands where the list has no number.
const UNUSED: u32 = 0xffff_ffff;

/// Puts a number into the four bytes from a place on.
fn write_number(page: &mut [u8], at: usize, number: u32)
    requires { at + 4 ≤ length page.old }
    ensures written { page.new ≡ take at page.old ++ (big_bytes 4 number ++ drop (at + 4) page.old) }
    ensures fits { number < 2 ^ 32 }
{
    BigEndian::write_u32(&mut page[at..at + 4], number);
}

/// The list of these pages.
pub(crate) fn list_of(set: &[Image]) -> Page
    requires { length set.now ≤ 1024 }
    ensures { HasNumbers result set.now }
{
    let mut list = [255; PAGE_SIZE];
    let mut at = 0;
    for image in set {
        write_number(&mut list, at, image.0);
        at += 4;
    }
    list
}

/// How many numbers stand at the front of a list, each below `below` and strictly rising; none
/// where one of them is not.
fn count_numbers(list: &Page, below: u32) -> Option<u32>
    ensures some { IfSome result (λ size. IsFront list.now below size) }
    ensures none { IsNone result → (size : ℕ) → IsList list.now below size → ⊥ }
{
    let mut least = 0;
    for i in 0..MOST_CHANGED {
        let number = read_number(list, 4 * i as usize);
        if number == UNUSED {
            return Some(i);
        }
        if number < least {
            return None;
        }
        if number >= below {
            return None;
        }
        least = number + 1;
    }
    Some(MOST_CHANGED)
}

/// Whether a list has no number from a place on.
fn is_unused_from(list: &Page, from: u32) -> bool
    ensures { IsTrue result ↔ ((i : ℕ) → from ≤ i → i < 1024 → listed list.now i ≡ 4294967295) }
{
    for i in from..MOST_CHANGED {
        if read_number(list, 4 * i as usize) != UNUSED {
            return false;
        }
    }
    true
}

/// How many pages a list names; none where it is no list of pages with numbers below `below`.
pub(crate) fn list_size(list: &Page, below: u32) -> Option<u32>
    ensures some { IfSome result (λ size. IsList list.now below size) }
    ensures none { IsNone result → (size : ℕ) → IsList list.now below size → ⊥ }
{
    let size = count_numbers(list, below)?;
    if is_unused_from(list, size) {
        Some(size)
    } else {
        None
    }
}
