//! FILE: what a run may open.
ghost use Rattle.std.specs.Prelude.{◌≡◌, IfOk, IfErr};
ghost use Rattle.disk.specs.Causes.{IsSystem};

use disk::{DiskError, FileDisk};
use std::fs;
use std::fs::{File, Files};
use std::io::ErrorKind;
use std::os::unix::fs::MetadataExt;

/// Standard input as a file.
const INPUT: &str = "/dev/fd/0";

/// Standard output as a file.
const OUTPUT: &str = "/dev/fd/1";

/// Whether the file of this path is the file of that one, as far as the system tells.
pub fn is_same_file<R: Files>(rt: &R, path: &str, other: &str) -> bool {
    match (fs::metadata(rt, path), fs::metadata(rt, other)) {
        (Ok(file), Ok(other)) => file.dev() == other.dev() && file.ino() == other.ino(),
        _ => false,
    }
}

/// Whether FILE is where standard output goes.
pub fn is_output<R: Files>(rt: &R, path: &str) -> bool {
    is_same_file(rt, path, OUTPUT)
}

/// Whether something stands at this path that is no regular file.
fn is_special<R: Files>(rt: &R, path: &str) -> bool {
    match fs::metadata(rt, path) {
        Ok(found) => !found.is_file(),
        Err(_) => false,
    }
}

/// FILE as a device. Refused as `FileDisk::open` is, and with nothing opened where it is no regular
/// file, or the one from which standard input comes.
pub fn opened_file<R: Files<File = File>>(rt: &R, path: &str) -> Result<FileDisk, DiskError>
    ensures fresh { IfOk result (λ device. device.refused ≡ 0) }
    ensures cause { IfErr result IsSystem }
{
    if is_special(rt, path) || is_same_file(rt, path, INPUT) {
        return Err(DiskError::System(ErrorKind::InvalidInput.into()));
    }
    FileDisk::open(rt, path)
}
