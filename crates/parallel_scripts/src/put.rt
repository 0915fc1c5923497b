//! Bytes that are printed.
ghost use Rattle.std.specs.Prelude.{◌++◌, is_ok};
ghost use Rattle.replies.specs.Writes.{Writes};

use std::io;
use std::io::{ErrorKind, Write};

/// Writes all the bytes, or a beginning of them where the writer refuses. What was interrupted is
/// tried again.
fn put<W: Write>(writer: &mut W, bytes: &[u8]) -> io::Result<()>
    ensures { Writes (W.contents writer.old) (W.contents writer.new) (is_ok result) bytes.now }
{
    let mut rest = bytes;
    for _ in 0..u64::MAX {
        if rest.is_empty() {
            return Ok(());
        }
        match writer.write(rest) {
            Ok(0) => return Err(io::Error::from(ErrorKind::WriteZero)),
            Ok(taken) => rest = &rest[taken..],
            Err(error) => {
                if error.kind() != ErrorKind::Interrupted {
                    return Err(error);
                }
            }
        }
    }
    Err(io::Error::from(ErrorKind::TimedOut))
}

/// Writes three texts, one behind the other.
pub(crate) fn put_three<W: Write>(
    first: &[u8],
    second: &[u8],
    third: &[u8],
    writer: &mut W,
) -> io::Result<()>
    ensures { Writes (W.contents writer.old) (W.contents writer.new) (is_ok result) (first.now ++ (second.now ++ third.now)) }
{
    put(writer, first)?;
    put_two(second, third, writer)
}

fn put_two<W: Write>(first: &[u8], second: &[u8], writer: &mut W) -> io::Result<()>
    ensures { Writes (W.contents writer.old) (W.contents writer.new) (is_ok result) (first.now ++ second.now) }
{
    put(writer, first)?;
    put(writer, second)
}
