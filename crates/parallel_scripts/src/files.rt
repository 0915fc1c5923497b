//! The files of scripts.
ghost use Rattle.std.specs.Prelude.{◌≡◌, ◌≢◌, length, IfOk};
ghost use Rattle.std.specs.IoError.{error_kind};
ghost use Rattle.refusals.specs.declared.refusal.Refusal.TheVariants.{Disk, Memory};

use refusals::Refusal;
use std::convert::AsStr;
use std::fs::Files;
use std::io::ErrorKind;
use std::{fs, io};

/// The bytes of the files of these names. Every file is read, in order; the first that cannot be
/// read is the refusal.
pub(crate) fn read_all<R: Files + AllocGlobal, S: AsStr>(
    rt: &R,
    names: &[S],
) -> io::Result<Vec<Vec<u8>>>
    ensures { IfOk result (λ scripts. length scripts.items ≡ length names.now) }
{
    let mut scripts = Vec::new(rt.alloc());
    for name in names {
        scripts.push(fs::read(rt, name.as_str())?)?;
    }
    Ok(scripts)
}

/// What is said of a file that could not be read: want of memory, or that it was refused.
pub(crate) fn refusal_of(error: &io::Error) -> Refusal
    ensures memory { error_kind error.now ≡ ErrorKind.OutOfMemory → result ≡ Memory }
    ensures other { error_kind error.now ≢ ErrorKind.OutOfMemory → result ≡ Disk }
{
    if error.kind() == ErrorKind::OutOfMemory {
        Refusal::Memory
    } else {
        Refusal::Disk
    }
}
