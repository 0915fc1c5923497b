//! A file with a journal, and the pages of the last commit.
ghost use Rattle.std.specs.Prelude.{◌≡◌, ◌+◌, ◌-◌, ◌^◌, ◌<◌, ◌≤◌, min, [], length, true, false, IfErr, IsOk, OnOk, IsTrue};
ghost use Rattle.disk.specs.Refused.{CountsRefusal};
ghost use Rattle.journal.specs.Reading.{OnlyReads};
ghost use Rattle.journal.specs.Versions.{Version};
ghost use Rattle.journaled_file.specs.Shown.{padded};
ghost use Rattle.last_version.specs.Gates.{is_broken, is_shut, answered_in, IsBrokenBy};

use crate::gate::Gate;
use disk::{Disk, DiskError};
use items::Items;
use journal::Image;
use journaled_file::read_page;
use pagefile::Page;
use std::alloc::Global;

/// A file with a journal, and the pages of the last commit.
#[derive(Drop)]
pub(crate) struct OpenFile<D: Disk> {
    pub(crate) alloc: Global,
    pub(crate) disk: D,
    /// How many pages there are.
    pub(crate) count: u32,
    /// The pages of the last commit; none once the gate is shut.
    pub(crate) set: Items<Image>,
    /// How many of these stand in their places, the first ones.
    pub(crate) written: usize,
    pub(crate) gate: Gate,
    ghost order: { written ≤ length set },
    ghost some: { IsTrue D.is_honest → 1 ≤ count },
    ghost rests: { is_shut gate ≡ true → set ≡ [] },
}

impl<D: Disk> OpenFile<D> {
    ghost use Rattle.last_version.specs.Standing.{StandsAs};

    /// Whether a commit was refused.
    pub(crate) fn is_broken(&self) -> bool
        ensures { result ≡ is_broken self.now.gate }
    {
        match self.gate {
            Gate::Shut => false,
            Gate::Open => false,
            Gate::Broken { .. } => true,
        }
    }

    /// Answers a call with the cause for which a commit was refused, and counts it.
    pub(crate) fn refuse(&mut self) -> DiskError
        requires { is_broken self.old.gate ≡ true }
        ensures cause { IsBrokenBy self.old.gate result }
        ensures stays { (e : _) → IsBrokenBy self.old.gate e → IsBrokenBy self.new.gate e }
        ensures broken { is_broken self.new.gate ≡ true }
        ensures stands { (v : Version) → StandsAs self.old v → StandsAs self.new v }
        ensures count { answered_in self.new.gate ≡ min (answered_in self.old.gate + 1) (2 ^ 64 - 1) }
        ensures rising { answered_in self.old.gate ≤ answered_in self.new.gate }
        ensures disk { self.new.disk ≡ self.old.disk }
        ensures set { self.new.set ≡ self.old.set }
        ensures written { self.new.written ≡ self.old.written }
        ensures pages { self.new.count ≡ self.old.count }
    {
        match self.gate {
            Gate::Shut => unreachable!(),
            Gate::Open => unreachable!(),
            Gate::Broken { cause, answered } => {
                self.gate = Gate::Broken {
                    cause,
                    answered: answered.saturating_add(1),
                };
                cause
            }
        }
    }

    /// From here on a commit was refused for this cause.
    pub(crate) fn break_off(&mut self, cause: DiskError)
        ensures cause { IsBrokenBy self.new.gate cause }
        ensures broken { is_broken self.new.gate ≡ true }
        ensures stands { (v : Version) → StandsAs self.old v → StandsAs self.new v }
        ensures count { answered_in self.new.gate ≡ 0 }
        ensures disk { self.new.disk ≡ self.old.disk }
        ensures set { self.new.set ≡ self.old.set }
        ensures written { self.new.written ≡ self.old.written }
        ensures pages { self.new.count ≡ self.old.count }
    {
        self.gate = Gate::Broken { cause, answered: 0 };
    }

    /// Reads a page of the version. Refused where the device refuses.
    pub(crate) fn read(&mut self, number: u32, into: &mut Page) -> Result<(), DiskError>
        requires whole { is_broken self.old.gate ≡ false }
        requires within { number < self.old.count }
        ensures value { OnOk result (IsTrue D.is_honest → (v : Version) → StandsAs self.old v
            → into.new ≡ padded number (v.pages number)) }
        ensures stands { IsTrue D.is_honest → (v : Version) → StandsAs self.old v → StandsAs self.new v }
        ensures read_always { IsTrue D.is_honest → IsTrue D.always_reads → (v : Version) → StandsAs self.old v
            → IsOk result }
        ensures reads { OnlyReads D.is_honest D.is_durable D.bytes D.synced D.writes D.settled D.moment D.left_since
            D.may_leave self.old.disk self.new.disk }
        ensures count { CountsRefusal result (D.refused self.old.disk) (D.refused self.new.disk) }
        ensures cause { IfErr result (D.told self.new.disk) }
        ensures gate { self.new.gate ≡ self.old.gate }
        ensures set { self.new.set ≡ self.old.set }
        ensures written { self.new.written ≡ self.old.written }
        ensures pages { self.new.count ≡ self.old.count }
    {
        read_page(
            &mut self.disk,
            &self.set.as_slice()[self.written..],
            number,
            into,
        )
    }

    /// Hands back the device.
    pub(crate) fn into_disk(self) -> D
        ensures { result ≡ self.disk }
    {
        let OpenFile {
            alloc: _,
            disk,
            count: _,
            set: _,
            written: _,
            gate: _,
        } = self;
        disk
    }
}
