//! How what prints ends.
ghost use Rattle.std.specs.Prelude.{◌≡◌, is_ok, IfOk, MatchBool, MatchResult, Ok, Err};
ghost use Rattle.std.specs.Io.KnownBytes.{Keeps};
ghost use Rattle.refusals.specs.declared.refusal.Refusal.TheVariants.{Disk};
ghost use Rattle.replies.specs.Writes.{Writes};
ghost use Rattle.parallel_scripts.specs.Ends.{EndsBy, EndsRefused, IsStatus, Puts, Tells, refusal_line};
ghost use Rattle.parallel_scripts.specs.Handed.{is_closed};

use crate::handed::HandedBack;
use refusals::Refusal;
use replies::{Reply, print_reply};
use std::io;
use std::io::{ErrorKind, Write};
use store::Store;

/// The exit status where something went wrong around the scripts: one could not be read, the store
/// not be opened or closed, or the output not be written.
pub(crate) const FAILED: u8 = 3;

/// How what was printed ended.
#[derive(Clone, Copy)]
pub(crate) struct Exit {
    /// The exit status.
    pub(crate) status: u8,
    /// Whether all was written and passed on, or the line that tells that it was not.
    pub(crate) is_told: bool,
}

/// Prints a refusal, and answers this exit status.
pub(crate) fn say<W: Write>(refusal: Refusal, status: u8, writer: &mut W) -> io::Result<u8>
    ensures puts { Puts (Tells refusal status) (W.contents writer.old) (W.contents writer.new) result }
    ensures status { IsStatus status → IfOk result IsStatus }
{
    let printed = print_reply(&Reply::Refused(refusal), writer);
    with_status(printed, status)
}

/// This status, where all was printed.
fn with_status(printed: io::Result<()>, status: u8) -> io::Result<u8>
    ensures { MatchResult printed (λ _. result ≡ Ok status) (λ error. result ≡ Err error) }
{
    match printed {
        Ok(()) => Ok(status),
        Err(error) => Err(error),
    }
}

/// Prints that the device refused where the store was not closed. The answer is the exit status: 3
/// then, and else this one.
pub(crate) fn say_unless_closed<S: Store, W: Write>(
    back: &HandedBack<S>,
    status: u8,
    writer: &mut W,
) -> io::Result<u8>
    ensures puts { MatchBool (is_closed back.now) ((W.contents writer.new ≡ W.contents writer.old)
        × (result ≡ Ok status))
        (Puts (Tells Disk 3) (W.contents writer.old) (W.contents writer.new) result) }
    ensures status { IsStatus status → IfOk result IsStatus }
{
    if back.is_closed() {
        return Ok(status);
    }
    say(Refusal::Disk, FAILED, writer)
}

/// The end of what was printed so: with its own status, where the writer passes it on; and else
/// with 3, and the fault of the writer is told where that can be written.
pub(crate) fn ended<W: Write>(outcome: io::Result<u8>, writer: &mut W) -> Exit
    ensures ends { EndsBy outcome (W.contents writer.old) (W.contents writer.new) result.status result.is_told }
    ensures status { IfOk outcome IsStatus → IsStatus result.status }
{
    match outcome {
        Ok(status) => match pass_on(writer) {
            Ok(()) => Exit {
                status,
                is_told: true,
            },
            Err(_error) => fail(writer),
        },
        Err(_error) => fail(writer),
    }
}

/// Tells that the writer refused, where that can be written.
fn fail<W: Write>(writer: &mut W) -> Exit
    ensures { EndsRefused (W.contents writer.old) (W.contents writer.new) result.status result.is_told }
{
    let is_told = tell(writer).is_ok();
    Exit {
        status: FAILED,
        is_told,
    }
}

/// Prints that the writer refused, and has it pass that on. The answer is an error where not all of
/// the line was written, or it was not passed on.
fn tell<W: Write>(writer: &mut W) -> io::Result<()>
    ensures { Writes (W.contents writer.old) (W.contents writer.new) (is_ok result) (refusal_line Disk) }
{
    let printed = print_reply(&Reply::Refused(Refusal::Disk), writer);
    let passed_on = pass_on(writer);
    match printed {
        Ok(()) => passed_on,
        Err(error) => Err(error),
    }
}

/// Has the writer pass on what it took. What was interrupted is tried again.
fn pass_on<W: Write>(writer: &mut W) -> io::Result<()>
    ensures { Keeps (W.contents writer.old) (W.contents writer.new) }
{
    for _ in 0..u64::MAX {
        match writer.flush() {
            Ok(()) => return Ok(()),
            Err(error) => {
                if error.kind() != ErrorKind::Interrupted {
                    return Err(error);
                }
            }
        }
    }
    Err(io::Error::from(ErrorKind::TimedOut))
}
