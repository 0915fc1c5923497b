ghost use Rattle.std.specs.Prelude.{◌≡◌, ◌+◌, ◌-◌, ◌++◌, take, drop, replicate, ◌<◌, ◌≤◌, ◌↔◌, [], true, false, length, IsOk, IfErr, OnOk, OnErr};
ghost use Rattle.disk.specs.Causes.{IsOfMemory};
ghost use Rattle.disk.specs.Contents.{Holds, overwritten, resized};
ghost use Rattle.disk.specs.Keeping.{not_durable};
ghost use Rattle.disk.specs.Refused.{CountsRefusal, CountHasRisen};

use crate::{Disk, DiskError};
use std::alloc::{AllocError, Global};
use std::marker::Model;

/// A device in memory. It is honest, and refuses only for want of memory and a read past its end.
/// It keeps nothing over a crash, so it is not durable.
#[derive(Drop)]
pub struct MemDisk {
    bytes: Vec<u8>,
    refused: u64,
    synced: u64,
    writes: u64,
    settled: bool,
}

impl Model for MemDisk {
    ghost use Rattle.disk.specs.Memory.{Held};

    ghost Value = { Held };

    ghost view = { λ d. record {
      bytes = d.bytes.items;
      refused = d.refused;
      synced = d.synced;
      writes = d.writes;
      settled = d.settled;
    } };
}

impl MemDisk {
    /// An empty device.
    pub fn new(alloc: Global) -> MemDisk
        ensures { result ≡ record { bytes = []; refused = 0; synced = 0; writes = 0; settled = false } }
    {
        MemDisk::from_bytes(Vec::new(alloc))
    }

    /// A device that holds these bytes.
    pub fn from_bytes(bytes: Vec<u8>) -> MemDisk
        ensures { result ≡ record { bytes = bytes.items; refused = 0; synced = 0; writes = 0; settled = false } }
    {
        MemDisk {
            bytes,
            refused: 0,
            synced: 0,
            writes: 0,
            settled: false,
        }
    }

    /// Its bytes.
    pub fn as_slice(&self) -> &[u8]
        ensures { result.now ≡ self.now.bytes }
    {
        self.bytes.as_slice()
    }
}

/// Raises a count of refused calls, and answers the refusal.
pub(crate) fn refuse<T>(refused: &mut u64, error: DiskError) -> Result<T, DiskError>
    ensures error { result ≡ Err error }
    ensures count { CountsRefusal result refused.old refused.new }
{
    *refused = refused.saturating_add(1);
    Err(error)
}

/// Lengthens a file with zeros to `end`, where it is shorter.
fn lengthen(file: &mut Vec<u8>, end: usize) -> Result<(), AllocError>
    ensures ok { OnOk result (file.new.items ≡ file.old.items ++ replicate (end - length file.old.items) 0) }
    ensures err { OnErr result (file.new.items ≡ file.old.items) }
{
    if file.len() < end {
        file.resize(end, 0)?;
    }
    Ok(())
}

/// Puts bytes in the place of those at an offset.
fn put(file: &mut [u8], at: usize, bytes: &[u8])
    requires { at + length bytes.now ≤ length file.old }
    ensures { file.new ≡ take at file.old ++ (bytes.now ++ drop (at + length bytes.now) file.old) }
{
    file[at..at + bytes.len()].copy_from_slice(bytes);
}

/// Writes bytes at an offset, or leaves all as it was.
fn overwrite(file: &mut Vec<u8>, at: usize, bytes: &[u8]) -> Result<(), AllocError>
    ensures ok { OnOk result (file.new.items ≡ overwritten file.old.items at bytes.now) }
    ensures err { OnErr result (file.new.items ≡ file.old.items) }
{
    let end = at.checked_add(bytes.len()).ok_or(AllocError)?;
    lengthen(file, end)?;
    put(file.as_mut_slice(), at, bytes);
    Ok(())
}

impl Disk for MemDisk {
    ghost is_honest = { true };

    ghost always_reads = { true };

    ghost bytes = { λ d. d.bytes };

    ghost is_durable = { false };

    ghost may_leave = { λ _ _. ⊥ };

    ghost moment = { λ _. 0 };

    ghost left_since = { λ _ _ _. ⊥ };

    ghost read_is_left = { λ d durable. not_durable durable };

    ghost counts_now = { λ d t c durable. not_durable durable };

    ghost only_now = { λ d c durable. not_durable durable };

    ghost refused = { λ d. d.refused };

    ghost synced = { λ d. d.synced };

    ghost writes = { λ d. d.writes };

    ghost settled = { λ d. d.settled ≡ true };

    ghost told = { λ _ cause. IsOfMemory cause };

    /// Never refused.
    fn len(&mut self) -> Result<u64, DiskError>
        ensures value { result ≡ Ok (length self.old.bytes) }
        ensures same { self.new ≡ self.old }
    {
        Ok(self.bytes.len() as u64)
    }

    /// Refused just where the range does not lie within the device.
    fn read_at(&mut self, at: u64, into: &mut [u8]) -> Result<(), DiskError>
        ensures within { IsOk result ↔ (at + length into.old ≤ length self.old.bytes) }
        ensures cause { IfErr result (λ e. e ≡ DiskError.PastEnd) }
        ensures value { OnOk result (Holds self.old.bytes at into.new) }
        ensures same { self.new.bytes ≡ self.old.bytes }
        ensures count { CountsRefusal result self.old.refused self.new.refused }
        ensures synced { self.new.synced ≡ self.old.synced }
        ensures writes { self.new.writes ≡ self.old.writes }
        ensures settled { self.new.settled ≡ self.old.settled }
    {
        let len = self.bytes.len();
        let at = at as usize;
        if at > len || into.len() > len - at {
            return refuse(&mut self.refused, DiskError::PastEnd);
        }
        into.copy_from_slice(&self.bytes[at..at + into.len()]);
        Ok(())
    }

    /// Refused only for want of memory, and then it changes nothing.
    fn write_at(&mut self, at: u64, from: &[u8]) -> Result<(), DiskError>
        ensures written { OnOk result (self.new.bytes ≡ overwritten self.old.bytes at from.now) }
        ensures cause { IfErr result (λ e. e ≡ DiskError.Memory) }
        ensures unchanged { OnErr result (self.new.bytes ≡ self.old.bytes) }
        ensures count { CountsRefusal result self.old.refused self.new.refused }
        ensures synced { self.new.synced ≡ self.old.synced }
        ensures writes { CountHasRisen self.old.writes self.new.writes }
    {
        self.writes = self.writes.saturating_add(1);
        self.settled = false;
        match overwrite(&mut self.bytes, at as usize, from) {
            Ok(()) => Ok(()),
            Err(_) => refuse(&mut self.refused, DiskError::Memory),
        }
    }

    /// Refused only for want of memory, where it was to grow, and then it changes nothing.
    fn set_len(&mut self, len: u64) -> Result<(), DiskError>
        ensures resized { OnOk result (self.new.bytes ≡ resized self.old.bytes len) }
        ensures cause { IfErr result (λ e. (e ≡ DiskError.Memory) × (length self.old.bytes < len)) }
        ensures unchanged { OnErr result (self.new.bytes ≡ self.old.bytes) }
        ensures count { CountsRefusal result self.old.refused self.new.refused }
        ensures synced { self.new.synced ≡ self.old.synced }
        ensures writes { CountHasRisen self.old.writes self.new.writes }
    {
        self.writes = self.writes.saturating_add(1);
        self.settled = false;
        match self.bytes.resize(len as usize, 0) {
            Ok(()) => Ok(()),
            Err(_) => refuse(&mut self.refused, DiskError::Memory),
        }
    }

    /// Never refused: memory is all the medium that there is.
    fn sync(&mut self) -> Result<(), DiskError>
        ensures value { IsOk result }
        ensures same { self.new.bytes ≡ self.old.bytes }
        ensures count { self.new.refused ≡ self.old.refused }
        ensures synced { CountHasRisen self.old.synced self.new.synced }
        ensures writes { self.new.writes ≡ self.old.writes }
        ensures settles { self.new.settled ≡ true }
    {
        // There is no medium beneath it.
        self.synced = self.synced.saturating_add(1);
        self.settled = true;
        Ok(())
    }
}
