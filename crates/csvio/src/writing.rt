//! Bytes written.
ghost use Rattle.std.specs.Prelude.{◌≡◌};
ghost use Rattle.replies.specs.Writes.{Writes};

use std::io::{ErrorKind, Write};

/// Writes all the bytes, or a beginning of them where the writer refuses; tells whether it took
/// all. A write that was interrupted is tried again.
pub fn put<W: Write>(writer: &mut W, bytes: &[u8]) -> bool
    ensures writes { Writes (W.contents writer.old) (W.contents writer.new) result bytes.now }
{
    let mut rest = bytes;
    for _ in 0..u64::MAX {
        if rest.is_empty() {
            return true;
        }
        match writer.write(rest) {
            Ok(0) => return false,
            Ok(taken) => rest = &rest[taken..],
            Err(error) => {
                if error.kind() != ErrorKind::Interrupted {
                    return false;
                }
            }
        }
    }
    false
}
