ghost use Rattle.std.specs.Prelude.{◌≡◌, [], true, false, is_ok, IfOk, IfErr};
ghost use Rattle.disk.specs.Refused.{CountsRefusal};
ghost use Rattle.disk.specs.Causes.{IsSystem};
ghost use Rattle.disk.specs.Keeping.{not_durable};

use crate::memory::refuse;
use crate::{Disk, DiskError};
use std::fs::{File, Files, OpenOptions};
use std::io;
use std::marker::Model;
use std::os::unix::fs::FileExt;

/// A file of the operating system.
///
/// No contract can say what a file gives, takes or keeps, so a `FileDisk` claims to be neither
/// honest nor durable: what is proved of every such device speaks of a file under the premise that
/// it is one. That it counts its refused calls, its syncs and its writes is proved; that the system
/// was asked is tested alone.
#[derive(Drop)]
pub struct FileDisk {
    file: File,
    refused: u64,
    synced: u64,
    writes: u64,
    settled: bool,
}

impl Model for FileDisk {
    ghost use Rattle.disk.specs.File.{Counts};

    ghost Value = { Counts };

    ghost view = { λ d. record { refused = d.refused; synced = d.synced; writes = d.writes; settled = d.settled } };
}

impl FileDisk {
    /// The device over an open file.
    pub fn new(file: File) -> FileDisk
        ensures { result ≡ record { refused = 0; synced = 0; writes = 0; settled = false } }
    {
        FileDisk {
            file,
            refused: 0,
            synced: 0,
            writes: 0,
            settled: false,
        }
    }

    /// Opens the file at this path to read and write, and makes it where there is none. Refused
    /// where the system does not open it so, and where another process has it open as a device.
    pub fn open<R: Files<File = File>>(rt: &R, path: &str) -> Result<FileDisk, DiskError>
        ensures fresh { IfOk result
            (λ disk. disk ≡ record { refused = 0; synced = 0; writes = 0; settled = false }) }
        ensures cause { IfErr result IsSystem }
    {
        let mut options = OpenOptions::new();
        options.read(true);
        options.write(true);
        options.create(true);
        let file = options.open(rt, path).map_err(DiskError::System)?;
        match file.try_lock() {
            Ok(()) => Ok(FileDisk::new(file)),
            Err(_) => Err(DiskError::System(io::ErrorKind::WouldBlock.into())),
        }
    }
}

/// Counts an answer that is a refusal.
fn counted<T>(refused: &mut u64, answer: io::Result<T>) -> Result<T, DiskError>
    ensures variant { is_ok result ≡ is_ok answer }
    ensures count { CountsRefusal result refused.old refused.new }
    ensures cause { IfErr result IsSystem }
{
    match answer {
        Ok(value) => Ok(value),
        Err(error) => refuse(refused, DiskError::System(error)),
    }
}

/// The length of a file.
fn length(file: &File) -> io::Result<u64> {
    Ok(file.metadata()?.len())
}

impl Disk for FileDisk {
    ghost is_honest = { false };

    ghost always_reads = { false };

    ghost bytes = { λ _. [] };

    ghost is_durable = { false };

    ghost may_leave = { λ _ _. ⊥ };

    ghost moment = { λ _. 0 };

    ghost left_since = { λ _ _ _. ⊥ };

    ghost read_is_left = { λ d durable. not_durable durable };

    ghost counts_now = { λ d t c durable. not_durable durable };

    ghost only_now = { λ d c durable. not_durable durable };

    ghost refused = { λ d. d.refused };

    ghost synced = { λ d. d.synced };

    ghost writes = { λ d. d.writes };

    ghost settled = { λ d. d.settled ≡ true };

    ghost told = { λ _ cause. IsSystem cause };

    fn len(&mut self) -> Result<u64, DiskError> {
        counted(&mut self.refused, length(&self.file))
    }

    fn read_at(&mut self, at: u64, into: &mut [u8]) -> Result<(), DiskError> {
        counted(&mut self.refused, self.file.read_exact_at(into, at))
    }

    fn write_at(&mut self, at: u64, from: &[u8]) -> Result<(), DiskError> {
        self.writes = self.writes.saturating_add(1);
        self.settled = false;
        counted(&mut self.refused, self.file.write_all_at(from, at))
    }

    fn set_len(&mut self, len: u64) -> Result<(), DiskError> {
        self.writes = self.writes.saturating_add(1);
        self.settled = false;
        counted(&mut self.refused, self.file.set_len(len))
    }

    fn sync(&mut self) -> Result<(), DiskError> {
        counted(&mut self.refused, self.file.sync_all())?;
        self.synced = self.synced.saturating_add(1);
        self.settled = true;
        Ok(())
    }
}
