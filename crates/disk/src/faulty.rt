ghost use Rattle.std.specs.Prelude.{◌≡◌, ◌-◌, ◌<◌, ◌↔◌, length, IsTrue, true, false, IsErr, IfOk, IfErr, OnOk, OnErr};
ghost use Rattle.disk.specs.Causes.{IsInjected};
ghost use Rattle.disk.specs.Contents.{Holds, IsTorn, IsEitherLength, overwritten, resized};
ghost use Rattle.disk.specs.Crashes.{Bytes, Only, Follows, TimePasses, IsSpread, IsCut};
ghost use Rattle.disk.specs.Keeping.{stands_still, spread_none, spread_part, cut_none};
ghost use Rattle.disk.specs.Refused.{CountsRefusal, CountsSync, CountHasRisen};

use crate::memory::refuse;
use crate::{Disk, DiskError};
use std::io::ErrorKind;

/// A device that refuses one call of another device, for tests and for theorems about refusals.
///
/// It passes all calls on but that one. Of a write that it refuses the first `torn` bytes go out,
/// at most all of them, and no others. It is as honest, and as durable, as the device under it.
#[derive(Drop)]
pub struct FaultyDisk<D: Disk> {
    inner: D,
    waiting: u64,
    torn: usize,
    refused: u64,
    writes: u64,
}

impl<D: Disk> FaultyDisk<D> {
    ghost use Rattle.disk.specs.Faulty.{inner_of, waiting_of, torn_of, own_refusals, own_writes};

    /// Refuses the `n`-th call, counted from 1, and none where `n` is 0.
    pub fn new(inner: D, n: u64, torn: usize) -> FaultyDisk<D>
        ensures inner { inner_of result ≡ inner }
        ensures waiting { waiting_of result ≡ n }
        ensures torn { torn_of result ≡ torn }
        ensures fresh { own_refusals result ≡ 0 }
        ensures unwritten { own_writes result ≡ 0 }
    {
        FaultyDisk {
            inner,
            waiting: n,
            torn,
            refused: 0,
            writes: 0,
        }
    }

    /// Hands back the device that the calls were passed on to.
    pub fn into_inner(self) -> D
        ensures { result ≡ inner_of self }
    {
        let FaultyDisk {
            inner,
            waiting: _,
            torn: _,
            refused: _,
            writes: _,
        } = self;
        inner
    }
}

/// Lets a call pass, or refuses it.
fn pass(waiting: &mut u64, refused: &mut u64) -> Result<(), DiskError>
    ensures one { IsErr result ↔ (waiting.old ≡ 1) }
    ensures cause { IfErr result IsInjected }
    ensures waiting { waiting.new ≡ waiting.old - 1 }
    ensures count { CountsRefusal result refused.old refused.new }
{
    let refuses = *waiting == 1;
    *waiting = waiting.saturating_sub(1);
    if refuses {
        return refuse(refused, DiskError::System(ErrorKind::Other.into()));
    }
    Ok(())
}

impl<D: Disk> Disk for FaultyDisk<D> {
    ghost use Rattle.disk.specs.Faulty.{inner_of, torn_of, all_refusals, own_writes, IsTold};
    ghost use Rattle.disk.specs.Faulty.{RefusesNext, RefusesOne, PassesOn, IsPartWritten};

    ghost is_honest = { D.is_honest };

    ghost always_reads = { false };

    ghost bytes = { λ f. D.bytes f.inner };

    ghost is_durable = { D.is_durable };

    ghost may_leave = { λ f c. D.may_leave f.inner c };

    ghost moment = { λ f. D.moment f.inner };

    ghost left_since = { λ f t c. D.left_since f.inner t c };

    ghost read_is_left = { λ f durable. D.read_is_left f.inner durable };

    ghost counts_now = { λ f t c durable le left. D.counts_now f.inner t c durable le left };

    ghost only_now = { λ f c durable left. D.only_now f.inner c durable left };

    ghost refused = { λ f. all_refusals D.refused f };

    ghost synced = { λ f. D.synced f.inner };

    ghost writes = { λ f. f.writes };

    ghost settled = { λ f. D.settled f.inner };

    ghost told = { λ f cause. IsTold D.told f cause };

    fn len(&mut self) -> Result<u64, DiskError>
        ensures value { IfOk result (λ n. IsTrue D.is_honest → n ≡ length (D.bytes (inner_of self.old))) }
        ensures same { IsTrue D.is_honest → D.bytes (inner_of self.new) ≡ D.bytes (inner_of self.old) }
        ensures count { CountsRefusal result (all_refusals D.refused self.old) (all_refusals D.refused self.new) }
        ensures cause { IfErr result (IsTold D.told self.new) }
        ensures synced { D.synced (inner_of self.new) ≡ D.synced (inner_of self.old) }
        ensures settled { D.settled (inner_of self.old) → D.settled (inner_of self.new) }
        ensures writes { own_writes self.new ≡ own_writes self.old }
        ensures crash { IsTrue D.is_durable → (c : Bytes) → D.may_leave (inner_of self.new) c
            → D.may_leave (inner_of self.old) c }
        ensures time { IsTrue D.is_durable
            → TimePasses D.moment D.left_since D.may_leave (inner_of self.old) (inner_of self.new) }
        ensures refuses { RefusesNext self.old → RefusesOne result self.old self.new }
        ensures passes { (RefusesNext self.old → ⊥) → PassesOn D.refused D.told result self.old self.new }
        ensures kept { RefusesNext self.old → inner_of self.new ≡ inner_of self.old }
    {
        pass(&mut self.waiting, &mut self.refused)?;
        self.inner.len()
    }

    fn read_at(&mut self, at: u64, into: &mut [u8]) -> Result<(), DiskError>
        ensures value { OnOk result (IsTrue D.is_honest → Holds (D.bytes (inner_of self.old)) at into.new) }
        ensures same { IsTrue D.is_honest → D.bytes (inner_of self.new) ≡ D.bytes (inner_of self.old) }
        ensures count { CountsRefusal result (all_refusals D.refused self.old) (all_refusals D.refused self.new) }
        ensures cause { IfErr result (IsTold D.told self.new) }
        ensures synced { D.synced (inner_of self.new) ≡ D.synced (inner_of self.old) }
        ensures settled { D.settled (inner_of self.old) → D.settled (inner_of self.new) }
        ensures writes { own_writes self.new ≡ own_writes self.old }
        ensures crash { IsTrue D.is_durable → (c : Bytes) → D.may_leave (inner_of self.new) c
            → D.may_leave (inner_of self.old) c }
        ensures time { IsTrue D.is_durable
            → TimePasses D.moment D.left_since D.may_leave (inner_of self.old) (inner_of self.new) }
        ensures refuses { RefusesNext self.old → RefusesOne result self.old self.new }
        ensures passes { (RefusesNext self.old → ⊥) → PassesOn D.refused D.told result self.old self.new }
        ensures kept { RefusesNext self.old → inner_of self.new ≡ inner_of self.old }
    {
        pass(&mut self.waiting, &mut self.refused)?;
        self.inner.read_at(at, into)
    }

    fn write_at(&mut self, at: u64, from: &[u8]) -> Result<(), DiskError>
        ensures written { OnOk result (IsTrue D.is_honest
            → D.bytes (inner_of self.new) ≡ overwritten (D.bytes (inner_of self.old)) at from.now) }
        ensures torn { OnErr result (IsTrue D.is_honest
            → IsTorn at (length from.now) (D.bytes (inner_of self.old)) (D.bytes (inner_of self.new))) }
        ensures count { CountsRefusal result (all_refusals D.refused self.old) (all_refusals D.refused self.new) }
        ensures cause { IfErr result (IsTold D.told self.new) }
        ensures synced { D.synced (inner_of self.new) ≡ D.synced (inner_of self.old) }
        ensures writes { CountHasRisen (own_writes self.old) (own_writes self.new) }
        ensures crash { IsTrue D.is_durable
            → Follows (IsSpread (length (D.bytes (inner_of self.old))) at (length from.now))
            (D.may_leave (inner_of self.old)) (D.may_leave (inner_of self.new)) }
        ensures time { IsTrue D.is_durable
            → TimePasses D.moment D.left_since D.may_leave (inner_of self.old) (inner_of self.new) }
        ensures refuses { RefusesNext self.old → RefusesOne result self.old self.new }
        ensures passes { (RefusesNext self.old → ⊥) → PassesOn D.refused D.told result self.old self.new }
        ensures kept { RefusesNext self.old → torn_of self.old ≡ 0 → inner_of self.new ≡ inner_of self.old }
        ensures part { RefusesNext self.old → 0 < torn_of self.old → IsTrue D.is_honest
            → IsPartWritten at from.now (torn_of self.old) (D.bytes (inner_of self.old)) (D.bytes (inner_of self.new))
            (D.refused (inner_of self.old)) (D.refused (inner_of self.new)) }
    {
        self.writes = self.writes.saturating_add(1);
        if let Err(refusal) = pass(&mut self.waiting, &mut self.refused) {
            if self.torn > 0 {
                let _ = self.inner.write_at(at, &from[..self.torn.min(from.len())]);
            }
            return Err(refusal);
        }
        self.inner.write_at(at, from)
    }

    fn set_len(&mut self, len: u64) -> Result<(), DiskError>
        ensures resized { OnOk result (IsTrue D.is_honest
            → D.bytes (inner_of self.new) ≡ resized (D.bytes (inner_of self.old)) len) }
        ensures either { OnErr result (IsTrue D.is_honest
            → IsEitherLength len (D.bytes (inner_of self.old)) (D.bytes (inner_of self.new))) }
        ensures count { CountsRefusal result (all_refusals D.refused self.old) (all_refusals D.refused self.new) }
        ensures cause { IfErr result (IsTold D.told self.new) }
        ensures synced { D.synced (inner_of self.new) ≡ D.synced (inner_of self.old) }
        ensures writes { CountHasRisen (own_writes self.old) (own_writes self.new) }
        ensures crash { IsTrue D.is_durable
            → Follows (IsCut len) (D.may_leave (inner_of self.old)) (D.may_leave (inner_of self.new)) }
        ensures time { IsTrue D.is_durable
            → TimePasses D.moment D.left_since D.may_leave (inner_of self.old) (inner_of self.new) }
        ensures refuses { RefusesNext self.old → RefusesOne result self.old self.new }
        ensures passes { (RefusesNext self.old → ⊥) → PassesOn D.refused D.told result self.old self.new }
        ensures kept { RefusesNext self.old → inner_of self.new ≡ inner_of self.old }
    {
        self.writes = self.writes.saturating_add(1);
        pass(&mut self.waiting, &mut self.refused)?;
        self.inner.set_len(len)
    }

    fn sync(&mut self) -> Result<(), DiskError>
        ensures same { IsTrue D.is_honest → D.bytes (inner_of self.new) ≡ D.bytes (inner_of self.old) }
        ensures count { CountsRefusal result (all_refusals D.refused self.old) (all_refusals D.refused self.new) }
        ensures cause { IfErr result (IsTold D.told self.new) }
        ensures synced { CountsSync result (D.synced (inner_of self.old)) (D.synced (inner_of self.new)) }
        ensures settles { OnOk result (D.settled (inner_of self.new)) }
        ensures writes { own_writes self.new ≡ own_writes self.old }
        ensures crash { IsTrue D.is_durable → (c : Bytes) → D.may_leave (inner_of self.new) c
            → D.may_leave (inner_of self.old) c }
        ensures time { IsTrue D.is_durable
            → TimePasses D.moment D.left_since D.may_leave (inner_of self.old) (inner_of self.new) }
        ensures durable { IsTrue D.is_durable
            → OnOk result (Only (D.bytes (inner_of self.old)) (D.may_leave (inner_of self.new))) }
        ensures refuses { RefusesNext self.old → RefusesOne result self.old self.new }
        ensures passes { (RefusesNext self.old → ⊥) → PassesOn D.refused D.told result self.old self.new }
        ensures kept { RefusesNext self.old → inner_of self.new ≡ inner_of self.old }
    {
        pass(&mut self.waiting, &mut self.refused)?;
        self.inner.sync()
    }
}
