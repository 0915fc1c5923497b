//! What is said: a reply, or a fault.
ghost use Rattle.std.specs.Prelude.{is_ok, IfErr};
ghost use Rattle.std.specs.Io.KnownBytes.{Keeps};
ghost use Rattle.replies.specs.Printed.{printed_reply};
ghost use Rattle.replies.specs.Writes.{IsNoInterruption, Writes};
ghost use Rattle.endings.specs.Tells.{Tells};

use refusals::Refusal;
use replies::{Reply, print_reply};
use std::io;
use std::io::{ErrorKind, Write};

/// Prints the line of a refusal, and has the writer pass it on. The answer is an error where not
/// all of the line was written, or it was not passed on. What was interrupted is tried again.
pub fn tell<W: Write>(refusal: Refusal, writer: &mut W) -> io::Result<()>
    ensures tells { Tells refusal (is_ok result) (W.contents writer.old) (W.contents writer.new) }
    ensures tried_again { IfErr result IsNoInterruption }
{
    say(&Reply::Refused(refusal), writer)
}

/// Prints a reply, and has the writer pass it on. The answer is an error where not all of it was
/// written, or it was not passed on. What was interrupted is tried again.
pub fn say<W: Write>(reply: &Reply, writer: &mut W) -> io::Result<()>
    ensures says { Writes (W.contents writer.old) (W.contents writer.new) (is_ok result) (printed_reply reply.now) }
    ensures tried_again { IfErr result IsNoInterruption }
{
    let printed = print_reply(reply, writer);
    let passed_on = pass_on(writer);
    match printed {
        Ok(()) => passed_on,
        Err(error) => Err(error),
    }
}

/// Has the writer pass on what it took.
fn pass_on<W: Write>(writer: &mut W) -> io::Result<()>
    ensures bytes { Keeps (W.contents writer.old) (W.contents writer.new) }
    ensures tried_again { IfErr result IsNoInterruption }
{
    for _ in 0..u64::MAX {
        match writer.flush() {
            Ok(()) => return Ok(()),
            Err(error) => {
                if error.kind() != ErrorKind::Interrupted {
                    return Err(error);
                }
            }
        }
    }
    Err(io::Error::from(ErrorKind::TimedOut))
}
