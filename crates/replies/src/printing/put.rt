ghost use Rattle.std.specs.Prelude.{is_ok, IfErr};
ghost use Rattle.replies.specs.Writes.{IsNoInterruption, Writes};

use std::io;
use std::io::{ErrorKind, Write};

/// Writes all the bytes, or a beginning of them where the writer refuses.
pub(crate) fn put<W: Write>(writer: &mut W, bytes: &[u8]) -> io::Result<()>
    ensures writes { Writes (W.contents writer.old) (W.contents writer.new) (is_ok result) bytes.now }
    ensures tried_again { IfErr result IsNoInterruption }
{
    let mut rest = bytes;
    for _ in 0..u64::MAX {
        if rest.is_empty() {
            return Ok(());
        }
        match writer.write(rest) {
            Ok(0) => return Err(io::Error::from(ErrorKind::WriteZero)),
            Ok(taken) => rest = &rest[taken..],
            Err(error) => {
                if error.kind() != ErrorKind::Interrupted {
                    return Err(error);
                }
            }
        }
    }
    Err(io::Error::from(ErrorKind::TimedOut))
}
