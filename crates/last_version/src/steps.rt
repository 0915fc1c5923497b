//! The steps between two commits, and a commit.
ghost use Rattle.std.specs.Prelude.{◌≡◌, ℕ, ◌+◌, ◌*◌, ◌-◌, ◌<◌, ◌≤◌, min, [], length, true, false, IfErr, IsOk, OnOk, OnErr, IsTrue};
ghost use Rattle.disk.specs.Crashes.{Always, LeavesOnly};
ghost use Rattle.disk.specs.Refused.{CountsRefusal};
ghost use Rattle.journal.specs.Versions.{Version, OneOf, IsAmong, IsCommittable, committed};
ghost use Rattle.last_version.specs.Gates.{is_broken, is_shut, answered_in, IsBrokenBy};

use crate::file::OpenFile;
use crate::gate::Gate;
use disk::{Disk, DiskError};
use items::Items;
use journal::Image;
use journaled_file::{cut_to, put_some, shut_off, write_commit};

impl<D: Disk> OpenFile<D> {
    ghost use Rattle.last_version.specs.Standing.{StandsAs, left_in, waits_in};

    /// Writes as many of the pages that are left in their places, or all where fewer are left.
    /// Refused where the device refuses, and then the same pages are left.
    fn put(&mut self, most: usize) -> Result<(), DiskError>
        requires gate { self.old.gate ≡ Gate.Open }
        requires some { self.old.written < length self.old.set }
        ensures stands { IsTrue D.is_honest → (v : Version) → StandsAs self.old v → StandsAs self.new v }
        ensures keeps { IsTrue D.is_durable → IsTrue D.is_honest → (x y v : Version) → OneOf x y v → StandsAs self.old v
            → Always (D.may_leave self.new.disk) (IsAmong x y)
            × LeavesOnly D.moment D.left_since self.old.disk self.new.disk (IsAmong x y) }
        ensures put { OnOk result (self.new.written ≡ min (self.old.written + most) (length self.old.set)) }
        ensures left { OnErr result (self.new.written ≡ self.old.written) }
        ensures count { CountsRefusal result (D.refused self.old.disk) (D.refused self.new.disk) }
        ensures cause { IfErr result (D.told self.new.disk) }
        ensures gate { self.new.gate ≡ self.old.gate }
        ensures set { self.new.set ≡ self.old.set }
        ensures pages { self.new.count ≡ self.old.count }
    {
        let more = most.min(self.set.len() - self.written);
        let end = self.written + more;
        put_some(&mut self.disk, self.set.as_slice(), self.written, end)?;
        self.written = end;
        Ok(())
    }

    /// Shuts the gate behind all pages. Refused where the device refuses, and then the gate is
    /// still to be shut.
    fn shut(&mut self) -> Result<(), DiskError>
        requires gate { self.old.gate ≡ Gate.Open }
        requires all { length self.old.set ≤ self.old.written }
        ensures stands { IsTrue D.is_honest → (v : Version) → StandsAs self.old v → StandsAs self.new v }
        ensures keeps { IsTrue D.is_durable → IsTrue D.is_honest → (x y v : Version) → OneOf x y v → StandsAs self.old v
            → Always (D.may_leave self.new.disk) (IsAmong x y)
            × LeavesOnly D.moment D.left_since self.old.disk self.new.disk (IsAmong x y) }
        ensures shut { OnOk result (self.new.gate ≡ Gate.Shut) }
        ensures none { OnOk result (self.new.set ≡ []) }
        ensures same { OnErr result (self.new.gate ≡ self.old.gate) }
        ensures left { left_in self.new ≡ [] }
        ensures few { length self.new.set ≤ length self.old.set }
        ensures count { CountsRefusal result (D.refused self.old.disk) (D.refused self.new.disk) }
        ensures cause { IfErr result (D.told self.new.disk) }
        ensures pages { self.new.count ≡ self.old.count }
    {
        shut_off(&mut self.disk)?;
        self.set = Items::new(self.alloc);
        self.written = 0;
        self.gate = Gate::Shut;
        Ok(())
    }

    /// Writes as many of the pages that are left, or all where fewer are left, and shuts the gate
    /// behind the last of them. Refused where the device refuses; what was not written is left.
    pub(crate) fn flush(&mut self, most: usize) -> Result<(), DiskError>
        requires { is_broken self.old.gate ≡ false }
        ensures stands { IsTrue D.is_honest → (v : Version) → StandsAs self.old v → StandsAs self.new v }
        ensures keeps { IsTrue D.is_durable → IsTrue D.is_honest → (x y v : Version) → OneOf x y v → StandsAs self.old v
            → Always (D.may_leave self.new.disk) (IsAmong x y)
            × LeavesOnly D.moment D.left_since self.old.disk self.new.disk (IsAmong x y) }
        ensures whole { is_broken self.new.gate ≡ false }
        ensures put { OnOk result (length (left_in self.new) ≡ length (left_in self.old) - most) }
        ensures shut { OnOk result (length (left_in self.old) ≤ most → self.new.gate ≡ Gate.Shut) }
        ensures fewer { (n : ℕ) → waits_in (left_in self.new) n ≤ waits_in (left_in self.old) n }
        ensures no_more { length (left_in self.new) ≤ length (left_in self.old) }
        ensures few { length self.new.set ≤ length self.old.set }
        ensures idle { is_shut self.old.gate ≡ true → IsOk result }
        ensures quiet { is_shut self.old.gate ≡ true → self.new.disk ≡ self.old.disk }
        ensures count { CountsRefusal result (D.refused self.old.disk) (D.refused self.new.disk) }
        ensures cause { IfErr result (D.told self.new.disk) }
        ensures pages { self.new.count ≡ self.old.count }
    {
        match self.gate {
            Gate::Open => self.flush_open(most),
            Gate::Shut => Ok(()),
            Gate::Broken { .. } => unreachable!(),
        }
    }

    /// The same where the gate is open.
    fn flush_open(&mut self, most: usize) -> Result<(), DiskError>
        requires { self.old.gate ≡ Gate.Open }
        ensures stands { IsTrue D.is_honest → (v : Version) → StandsAs self.old v → StandsAs self.new v }
        ensures keeps { IsTrue D.is_durable → IsTrue D.is_honest → (x y v : Version) → OneOf x y v → StandsAs self.old v
            → Always (D.may_leave self.new.disk) (IsAmong x y)
            × LeavesOnly D.moment D.left_since self.old.disk self.new.disk (IsAmong x y) }
        ensures whole { is_broken self.new.gate ≡ false }
        ensures put { OnOk result (length (left_in self.new) ≡ length (left_in self.old) - most) }
        ensures shut { OnOk result (length (left_in self.old) ≤ most → self.new.gate ≡ Gate.Shut) }
        ensures fewer { (n : ℕ) → waits_in (left_in self.new) n ≤ waits_in (left_in self.old) n }
        ensures no_more { length (left_in self.new) ≤ length (left_in self.old) }
        ensures few { length self.new.set ≤ length self.old.set }
        ensures count { CountsRefusal result (D.refused self.old.disk) (D.refused self.new.disk) }
        ensures cause { IfErr result (D.told self.new.disk) }
        ensures pages { self.new.count ≡ self.old.count }
    {
        if self.written == self.set.len() {
            return self.shut();
        }
        self.put(most)?;
        self.shut_behind()
    }

    /// Shuts the gate where all pages stand in their places.
    fn shut_behind(&mut self) -> Result<(), DiskError>
        requires { self.old.gate ≡ Gate.Open }
        ensures stands { IsTrue D.is_honest → (v : Version) → StandsAs self.old v → StandsAs self.new v }
        ensures keeps { IsTrue D.is_durable → IsTrue D.is_honest → (x y v : Version) → OneOf x y v → StandsAs self.old v
            → Always (D.may_leave self.new.disk) (IsAmong x y)
            × LeavesOnly D.moment D.left_since self.old.disk self.new.disk (IsAmong x y) }
        ensures whole { is_broken self.new.gate ≡ false }
        ensures shut { OnOk result (left_in self.old ≡ [] → self.new.gate ≡ Gate.Shut) }
        ensures left { left_in self.new ≡ left_in self.old }
        ensures few { length self.new.set ≤ length self.old.set }
        ensures count { CountsRefusal result (D.refused self.old.disk) (D.refused self.new.disk) }
        ensures cause { IfErr result (D.told self.new.disk) }
        ensures pages { self.new.count ≡ self.old.count }
    {
        if self.written < self.set.len() {
            return Ok(());
        }
        self.shut()
    }

    /// Writes all pages that are left, and shuts the gate behind them. Refused where the device
    /// refuses; what was not written is left.
    fn finish(&mut self) -> Result<(), DiskError>
        requires { is_broken self.old.gate ≡ false }
        ensures stands { IsTrue D.is_honest → (v : Version) → StandsAs self.old v → StandsAs self.new v }
        ensures keeps { IsTrue D.is_durable → IsTrue D.is_honest → (x y v : Version) → OneOf x y v → StandsAs self.old v
            → Always (D.may_leave self.new.disk) (IsAmong x y)
            × LeavesOnly D.moment D.left_since self.old.disk self.new.disk (IsAmong x y) }
        ensures whole { is_broken self.new.gate ≡ false }
        ensures shut { OnOk result (self.new.gate ≡ Gate.Shut) }
        ensures fewer { (n : ℕ) → waits_in (left_in self.new) n ≤ waits_in (left_in self.old) n }
        ensures no_more { length (left_in self.new) ≤ length (left_in self.old) }
        ensures few { length self.new.set ≤ length self.old.set }
        ensures count { CountsRefusal result (D.refused self.old.disk) (D.refused self.new.disk) }
        ensures cause { IfErr result (D.told self.new.disk) }
        ensures pages { self.new.count ≡ self.old.count }
    {
        let all = self.set.len();
        self.flush(all)
    }

    /// A whole commit of these pages, where there are `count` pages then. Refused where the device
    /// refuses; the file is broken then.
    pub(crate) fn commit(&mut self, images: Items<Image>, count: u32) -> Result<(), DiskError>
        requires whole { is_broken self.old.gate ≡ false }
        requires some { 1 ≤ count }
        requires few { length images ≤ 1024 }
        ensures committed { OnOk result (IsTrue D.is_honest → (v : Version) → StandsAs self.old v
            → IsCommittable v images count
            → StandsAs self.new (committed v images count)) }
        ensures left { OnErr result (IsTrue D.is_honest → (v : Version) → StandsAs self.old v
            → IsCommittable v images count
            → StandsAs self.new v) }
        ensures any_moment { IsTrue D.is_durable → IsTrue D.is_honest → (v : Version) → StandsAs self.old v
            → IsCommittable v images count
            → Always (D.may_leave self.new.disk) (IsAmong v (committed v images count))
            × LeavesOnly D.moment D.left_since self.old.disk self.new.disk (IsAmong v (committed v images count)) }
        ensures set { OnOk result (left_in self.new ≡ images) }
        ensures fewer { OnErr result ((n : ℕ) → waits_in (left_in self.new) n ≤ waits_in (left_in self.old) n) }
        ensures no_more { OnErr result (length (left_in self.new) ≤ length (left_in self.old)) }
        ensures small { length self.old.set ≤ 1024 → length self.new.set ≤ 1024 }
        ensures whole { OnOk result (is_broken self.new.gate ≡ false) }
        ensures broken { IfErr result (IsBrokenBy self.new.gate) }
        ensures answered { answered_in self.new.gate ≡ 0 }
        ensures count { CountsRefusal result (D.refused self.old.disk) (D.refused self.new.disk) }
        ensures cause { IfErr result (D.told self.new.disk) }
        ensures pages { OnOk result (self.new.count ≡ count) }
        ensures same_pages { OnErr result (self.new.count ≡ self.old.count) }
    {
        match self.finish() {
            Ok(()) => self.write(images, count),
            Err(cause) => {
                self.gate = Gate::Broken { cause, answered: 0 };
                Err(cause)
            }
        }
    }

    /// The same where the gate is shut.
    fn write(&mut self, images: Items<Image>, count: u32) -> Result<(), DiskError>
        requires gate { self.old.gate ≡ Gate.Shut }
        requires some { 1 ≤ count }
        requires few { length images ≤ 1024 }
        ensures committed { OnOk result (IsTrue D.is_honest → (v : Version) → StandsAs self.old v
            → IsCommittable v images count
            → StandsAs self.new (committed v images count)) }
        ensures left { OnErr result (IsTrue D.is_honest → (v : Version) → StandsAs self.old v
            → IsCommittable v images count
            → StandsAs self.new v) }
        ensures any_moment { IsTrue D.is_durable → IsTrue D.is_honest → (v : Version) → StandsAs self.old v
            → IsCommittable v images count
            → Always (D.may_leave self.new.disk) (IsAmong v (committed v images count))
            × LeavesOnly D.moment D.left_since self.old.disk self.new.disk (IsAmong v (committed v images count)) }
        ensures set { OnOk result (left_in self.new ≡ images) }
        ensures same { OnErr result (left_in self.new ≡ left_in self.old) }
        ensures small { length self.old.set ≤ 1024 → length self.new.set ≤ 1024 }
        ensures whole { OnOk result (is_broken self.new.gate ≡ false) }
        ensures broken { IfErr result (IsBrokenBy self.new.gate) }
        ensures answered { answered_in self.new.gate ≡ 0 }
        ensures count { CountsRefusal result (D.refused self.old.disk) (D.refused self.new.disk) }
        ensures cause { IfErr result (D.told self.new.disk) }
        ensures pages { OnOk result (self.new.count ≡ count) }
        ensures same_pages { OnErr result (self.new.count ≡ self.old.count) }
    {
        match write_commit(&mut self.disk, images.as_slice(), count) {
            Ok(()) => {
                self.written = 0;
                self.set = images;
                self.count = count;
                self.gate = Gate::Open;
                Ok(())
            }
            Err(cause) => {
                self.gate = Gate::Broken { cause, answered: 0 };
                Err(cause)
            }
        }
    }

    /// Brings the file to its pages alone: those that are left go to their places, and what lies
    /// behind the pages is cut off. Refused where the device refuses; what was not written is left.
    pub(crate) fn settle(&mut self) -> Result<(), DiskError>
        requires { is_broken self.old.gate ≡ false }
        ensures stands { IsTrue D.is_honest → (v : Version) → StandsAs self.old v → StandsAs self.new v }
        ensures keeps { IsTrue D.is_durable → IsTrue D.is_honest → (x y v : Version) → OneOf x y v → StandsAs self.old v
            → Always (D.may_leave self.new.disk) (IsAmong x y)
            × LeavesOnly D.moment D.left_since self.old.disk self.new.disk (IsAmong x y) }
        ensures whole { is_broken self.new.gate ≡ false }
        ensures shut { OnOk result (self.new.gate ≡ Gate.Shut) }
        ensures size { OnOk result (IsTrue D.is_honest → length (D.bytes self.new.disk) ≡ 4096 * self.old.count) }
        ensures settled { OnOk result (D.settled self.new.disk) }
        ensures fewer { (n : ℕ) → waits_in (left_in self.new) n ≤ waits_in (left_in self.old) n }
        ensures no_more { length (left_in self.new) ≤ length (left_in self.old) }
        ensures few { length self.new.set ≤ length self.old.set }
        ensures count { CountsRefusal result (D.refused self.old.disk) (D.refused self.new.disk) }
        ensures cause { IfErr result (D.told self.new.disk) }
        ensures pages { self.new.count ≡ self.old.count }
    {
        self.finish()?;
        self.cut()
    }

    /// Cuts the file to its pages, where the gate is shut. Refused where the device refuses.
    fn cut(&mut self) -> Result<(), DiskError>
        requires { self.old.gate ≡ Gate.Shut }
        ensures stands { IsTrue D.is_honest → (v : Version) → StandsAs self.old v → StandsAs self.new v }
        ensures keeps { IsTrue D.is_durable → IsTrue D.is_honest → (x y v : Version) → OneOf x y v → StandsAs self.old v
            → Always (D.may_leave self.new.disk) (IsAmong x y)
            × LeavesOnly D.moment D.left_since self.old.disk self.new.disk (IsAmong x y) }
        ensures size { OnOk result (IsTrue D.is_honest → length (D.bytes self.new.disk) ≡ 4096 * self.old.count) }
        ensures settled { OnOk result (D.settled self.new.disk) }
        ensures gate { self.new.gate ≡ self.old.gate }
        ensures set { self.new.set ≡ self.old.set }
        ensures written { self.new.written ≡ self.old.written }
        ensures count { CountsRefusal result (D.refused self.old.disk) (D.refused self.new.disk) }
        ensures cause { IfErr result (D.told self.new.disk) }
        ensures pages { self.new.count ≡ self.old.count }
    {
        cut_to(&mut self.disk, self.count)
    }
}
