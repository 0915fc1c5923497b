//! Zeros behind the header of page 0.
ghost use Rattle.std.specs.Prelude.{◌≡◌, ◌≤◌, length, drop};
ghost use Rattle.std.specs.List.{list_all};
ghost use Rattle.pool.specs.Zeros.{is_zero, has_zeros};

use pagefile::{HEADER_SIZE, Page};

fn are_zeros(bytes: &[u8]) -> bool
    ensures { result ≡ list_all is_zero bytes.now }
{
    bytes.iter().all(|byte| *byte == 0)
}

fn are_zeros_from(bytes: &[u8], at: usize) -> bool
    requires { at ≤ length bytes.now }
    ensures { result ≡ list_all is_zero (drop at bytes.now) }
{
    are_zeros(&bytes[at..])
}

/// Whether a page has zeros alone behind the place where a header ends.
pub fn ends_in_zeros(page: &Page) -> bool
    ensures { result ≡ has_zeros page.now }
{
    are_zeros_from(page, HEADER_SIZE)
}
