//! The header of page 0 in either format.
ghost use Rattle.std.specs.Prelude.{◌≡◌, ◌+◌, ◌≤◌, take, length, IfSome, IsNone};
ghost use Rattle.pagefile.specs.Number.{number_at};
ghost use Rattle.journal.specs.Headers.{magic_of, IsHeaderOf};

use crate::Format;
use byteorder::{BigEndian, ByteOrder};
use pagefile::{FileHeader, PAGE_SIZE, Page};

/// The magic of format 1.
const MAGIC_1: [u8; 8] = *b"RSQLPG01";

/// The magic of format 2.
const MAGIC_2: [u8; 8] = *b"RSQLPG02";

/// The number in the four bytes from a place on.
pub(crate) fn read_number(page: &[u8], at: usize) -> u32
    requires { at + 4 ≤ length page.now }
    ensures { result ≡ number_at page.now at }
{
    BigEndian::read_u32(&page[at..])
}

/// The format whose magic a page begins with.
fn format_of(page: &Page) -> Option<Format>
    ensures some { IfSome result (λ format. take 8 page.now ≡ magic_of format) }
    ensures none { IsNone result → (format : _) → take 8 page.now ≡ magic_of format → ⊥ }
{
    if &page[..8] == MAGIC_1.as_slice() {
        return Some(Format::One);
    }
    if &page[..8] == MAGIC_2.as_slice() {
        return Some(Format::Two);
    }
    None
}

/// The header of a file of `len` bytes that begins with this page; none where the magic is of
/// neither format, a number is out of bounds, or the file is too short.
pub(crate) fn header_of(len: u64, page: &Page) -> Option<(Format, FileHeader)>
    ensures some { IfSome result (λ h. IsHeaderOf len page.now h.0 h.1) }
    ensures none { IsNone result → (format : _) (h : _) → IsHeaderOf len page.now format h → ⊥ }
{
    let format = format_of(page)?;
    let header = FileHeader {
        page_count: read_number(page, 8),
        first_free: read_number(page, 12),
        catalog_root: read_number(page, 16),
    };
    if !header.is_in_bounds() || len < header.page_count as u64 * PAGE_SIZE as u64 {
        return None;
    }
    Some((format, header))
}
