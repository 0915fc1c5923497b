ghost use Rattle.std.specs.Prelude.{◌≡◌, ◌⊎◌, ◌≤◌, ◌-◌, ◌+◌, ◌∷◌, [], Some, Ok, true, false, length, drop, IfOk, IfErr, OnOk, OnErr, MatchResult, IsErr, ◌↔◌};
ghost use Rattle.disk.specs.Causes.{IsInjected, IsOfMemory};
ghost use Rattle.disk.specs.Crashes.{Only};
ghost use Rattle.disk.specs.Refused.{CountsRefusal};
ghost use Rattle.crash_disk.specs.Outcomes.{newest, IsLeft, IsFilled, HadOne, Agrees, had_newest, only_newest};

use crate::outcome::{Outcome, add_range, add_synced, all_synced, filled, latest};
use disk::{Disk, DiskError, MemDisk};
use std::alloc::{AllocError, Global};
use std::io::ErrorKind;

/// What a crash leaves of what was not synced.
#[derive(Clone, Copy, PartialEq, Eq)]
pub enum Fill {
    /// The bytes and the length that were synced last.
    Old,
    /// The bytes that were written since, and the length that a read tells.
    New,
    /// The byte a5 in each range that was written since, and the length that a read tells.
    Other,
}

/// A device in memory that loses power before one of its calls, and is then found as a crash leaves
/// it.
///
/// It is honest and durable: it keeps what a crash at each moment might have left, as the bytes
/// that were synced last with the ranges and lengths of each call since then. So a call that writes
/// takes as much memory as those bytes.
#[derive(Drop)]
pub struct CrashDisk {
    alloc: Global,
    disk: MemDisk,
    /// How many calls it still carries out.
    left: u64,
    fill: Fill,
    /// The calls that it refused of itself; the reads past the end are the inner device's.
    refused: u64,
    writes: u64,
    /// What a crash might have left before each call that changed that, and what it may leave now.
    first: Outcome,
    later: Vec<Outcome>,
    ghost agrees: { Agrees (newest first later.items) disk.bytes },
}

/// Lets a call pass, or refuses it: each from that one on before which the power is lost.
fn pass(left: &mut u64, refused: &mut u64) -> Result<(), DiskError>
    ensures one { IsErr result ↔ (left.old ≡ 0) }
    ensures cause { IfErr result IsInjected }
    ensures left { left.new ≡ left.old - 1 }
    ensures count { CountsRefusal result refused.old refused.new }
{
    if *left == 0 {
        *refused = refused.saturating_add(1);
        return Err(DiskError::System(ErrorKind::Other.into()));
    }
    *left -= 1;
    Ok(())
}

/// Counts an answer that is a refusal for want of memory.
fn counted(refused: &mut u64, answer: Result<(), AllocError>) -> Result<(), DiskError>
    ensures ok { OnOk result (answer ≡ Ok tt) }
    ensures err { OnErr result (IsErr answer) }
    ensures cause { IfErr result IsOfMemory }
    ensures count { CountsRefusal result refused.old refused.new }
{
    match answer {
        Ok(()) => Ok(()),
        Err(_) => {
            *refused = refused.saturating_add(1);
            Err(DiskError::Memory)
        }
    }
}

/// Counts a range that ends nowhere as a refusal for want of memory.
fn counted_end(refused: &mut u64, end: Option<u64>) -> Result<u64, DiskError>
    ensures ok { IfOk result (λ n. end ≡ Some n) }
    ensures cause { IfErr result IsOfMemory }
    ensures count { CountsRefusal result refused.old refused.new }
{
    match end {
        Some(end) => Ok(end),
        None => {
            *refused = refused.saturating_add(1);
            Err(DiskError::Memory)
        }
    }
}

impl CrashDisk {
    ghost use Rattle.crash_disk.specs.Device.{bytes_of, outcome_of, synced_of, left_of, fill_of};

    /// A device of these bytes, all of them synced, that loses power before its `n`-th call,
    /// counted from 1; before the first one too where `n` is 0.
    pub fn new(alloc: Global, bytes: Vec<u8>, n: u64, fill: Fill) -> Result<CrashDisk, AllocError>
        ensures bytes { IfOk result (λ d. bytes_of d ≡ bytes.items) }
        ensures left { IfOk result (λ d. left_of d ≡ n - 1) }
        ensures synced { IfOk result (λ d. Only bytes.items (IsLeft (outcome_of d))) }
    {
        let first = all_synced(alloc, bytes.as_slice())?;
        Ok(CrashDisk {
            alloc,
            disk: MemDisk::from_bytes(bytes),
            left: n.saturating_sub(1),
            fill,
            refused: 0,
            writes: 0,
            first,
            later: Vec::new(alloc),
        })
    }

    /// The device that is found where power is lost now.
    pub fn into_left(self) -> Result<MemDisk, AllocError>
        ensures left { IfOk result (λ d. IsLeft (outcome_of self) d.bytes) }
        ensures old { IfOk result (λ d. fill_of self ≡ Fill.Old → d.bytes ≡ synced_of self) }
        ensures new { IfOk result (λ d. fill_of self ≡ Fill.New → d.bytes ≡ bytes_of self) }
        ensures other { IfOk result (λ d. fill_of self ≡ Fill.Other → IsFilled (outcome_of self) d.bytes) }
        ensures other_size { IfOk result (λ d. fill_of self ≡ Fill.Other → length d.bytes ≡ length (bytes_of self)) }
    {
        let CrashDisk {
            alloc,
            disk,
            left: _,
            fill,
            refused: _,
            writes: _,
            first,
            later,
        } = self;
        if fill == Fill::New {
            return Ok(disk);
        }
        let found = latest(&first, later.as_slice());
        if fill == Fill::Old {
            return Ok(MemDisk::from_bytes(found.synced.to_vec(alloc)?));
        }
        Ok(MemDisk::from_bytes(filled(alloc, found, disk.as_slice())?))
    }
}

impl Disk for CrashDisk {
    ghost is_honest = { true };

    ghost always_reads = { false };

    ghost bytes = { λ d. d.disk.bytes };

    ghost is_durable = { true };

    ghost may_leave = { λ d c. IsLeft (newest d.first d.later.items) c };

    ghost moment = { λ d. length d.later.items };

    ghost left_since = { λ d t c. HadOne (drop t (d.first ∷ d.later.items)) c };

    ghost read_is_left = { λ d durable. d.agrees.left };

    ghost counts_now = { λ d t c durable le now. had_newest d.first d.later.items t c le now };

    ghost only_now = { λ d c durable left. only_newest d.first d.later.items c left };

    ghost refused = { λ d. d.disk.refused + d.refused };

    ghost synced = { λ d. d.disk.synced };

    ghost writes = { λ d. d.writes };

    ghost settled = { λ d. d.disk.settled ≡ true };

    ghost told = { λ d cause. IsInjected cause ⊎ IsOfMemory cause };

    fn len(&mut self) -> Result<u64, DiskError> {
        pass(&mut self.left, &mut self.refused)?;
        self.disk.len()
    }

    fn read_at(&mut self, at: u64, into: &mut [u8]) -> Result<(), DiskError> {
        pass(&mut self.left, &mut self.refused)?;
        self.disk.read_at(at, into)
    }

    fn write_at(&mut self, at: u64, from: &[u8]) -> Result<(), DiskError> {
        self.writes = self.writes.saturating_add(1);
        pass(&mut self.left, &mut self.refused)?;
        let end = at.checked_add(from.len() as u64);
        let end = counted_end(&mut self.refused, end)?;
        let len = (self.disk.as_slice().len() as u64).max(end);
        let added = add_range(self.alloc, &self.first, &mut self.later, at, end, len);
        counted(&mut self.refused, added)?;
        self.disk.write_at(at, from)
    }

    fn set_len(&mut self, len: u64) -> Result<(), DiskError> {
        self.writes = self.writes.saturating_add(1);
        pass(&mut self.left, &mut self.refused)?;
        let end = latest(&self.first, self.later.as_slice()).synced.len() as u64;
        let added = add_range(self.alloc, &self.first, &mut self.later, len, end, len);
        counted(&mut self.refused, added)?;
        self.disk.set_len(len)
    }

    fn sync(&mut self) -> Result<(), DiskError> {
        pass(&mut self.left, &mut self.refused)?;
        let added = add_synced(self.alloc, &mut self.later, self.disk.as_slice());
        counted(&mut self.refused, added)?;
        self.disk.sync()
    }
}
