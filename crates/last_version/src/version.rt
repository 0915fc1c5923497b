//! The version of the last commit.
ghost use Rattle.std.specs.Prelude.{◌≡◌, ℕ, ◌+◌, ◌*◌, ◌-◌, ◌<◌, ◌≤◌, [], ◌∷◌, List, Contains, length, true, false, Some, IfOk, IfErr, IsOk, OnOk, OnErr, IsTrue};
ghost use Rattle.disk.specs.Crashes.{Always, LeavesOnly};
ghost use Rattle.disk.specs.Refused.{CountsRefusal, CountHasRisen};
ghost use Rattle.pagefile.specs.Parts.{gate_part};
ghost use Rattle.journal.specs.Parts.{place};
ghost use Rattle.journal.specs.Reading.{OnlyReads};
ghost use Rattle.journal.specs.Versions.{HasPage, IsAmong, IsCommittable, committed, laid};
ghost use Rattle.journaled_file.specs.Shown.{IsAtRest};
ghost use Rattle.sqlrecord.specs.Page.{IsNode};
ghost use Rattle.page_cache.specs.Cached.{frames_in, IsClean, room_of as room_in};
ghost use Rattle.last_version.specs.Standing.{StandsAs, version_in, version_of, shown_in, pages_below, waits_in};

use crate::file::OpenFile;
use crate::gate::Gate;
use disk::{Disk, DiskError};
use items::Items;
use journal::Image;
use page_cache::PageCache;
use pagefile::Page;
use std::alloc::Global;

/// The version of the last commit over a file with a journal, with some of its pages in memory.
///
/// The pages of the last commit stand in memory until they are in their places, 1,024 at most; of
/// the others stand there as many as it was told. Behind a commit that was refused every call is
/// refused.
#[derive(Drop)]
pub struct LastVersion<D: Disk> {
    file: OpenFile<D>,
    cache: PageCache,
    ghost stands: { IsTrue D.is_honest → StandsAs file (version_of file) },
    ghost clean: { IsTrue D.is_honest → IsClean (shown_in file) cache },
    ghost few: { length file.set ≤ 1024 },
    ghost some: { 1 ≤ file.count },
}

/// Takes these pages out of memory, where they are there.
fn forget_all(cache: &mut PageCache, images: &[Image])
    ensures gone { (n : ℕ) (page : List ℕ) → Contains (frames_in cache.new) (n, page)
        → (HasPage n images.now → ⊥) × Contains (frames_in cache.old) (n, page) }
    ensures room { room_in cache.new ≡ room_in cache.old }
{
    for (number, _) in images {
        cache.forget(*number);
    }
}

impl<D: Disk> LastVersion<D> {
    ghost use Rattle.last_version.specs.Lasts.{device_under, count_of, version_under, shown_by, left_of, waits_at, refused_of, room_of, is_broken, is_at_rest, IsBrokenBy, Tells, HoldsAs};

    /// The version of a file at rest of this many pages, of which it may keep `frames` in memory.
    /// Refuses for want of memory alone, and hands the device back.
    pub fn new(alloc: Global, disk: D, count: u32, frames: u32) -> Result<LastVersion<D>, D>
        requires room { 0 < frames }
        requires some { 1 ≤ count }
        requires rest { IsTrue D.is_honest
            → IsAtRest D.is_honest D.is_durable count (D.bytes disk) (D.may_leave disk) (version_in [] 0 count (D.bytes disk)) }
        ensures shown { IfOk result (λ last. shown_by last ≡ pages_below count (place (D.bytes disk))) }
        ensures count { IfOk result (λ last. count_of last ≡ count) }
        ensures left { IfOk result (λ last. left_of last ≡ 0) }
        ensures waits { IfOk result (λ last. (n : ℕ) → waits_at last n ≡ 0) }
        ensures refused { IfOk result (λ last. refused_of last ≡ D.refused disk) }
        ensures rests { IfOk result (λ last. is_at_rest last ≡ true) }
        ensures device { IfOk result (λ last. device_under last ≡ disk) }
        ensures room { IfOk result (λ last. room_of last ≡ frames) }
        ensures back { IfErr result (λ back. back ≡ disk) }
    {
        match PageCache::new(alloc, frames) {
            Ok(cache) => Ok(LastVersion {
                file: OpenFile {
                    alloc,
                    disk,
                    count,
                    set: Items::new(alloc),
                    written: 0,
                    gate: Gate::Shut,
                },
                cache,
            }),
            Err(_) => Err(disk),
        }
    }

    /// How many pages there are.
    pub fn count(&self) -> u32
        ensures { result ≡ count_of self.now }
    {
        self.file.count
    }

    /// How many pages are to be written.
    pub fn left(&self) -> usize
        ensures { result ≡ left_of self.now }
    {
        self.file.set.len() - self.file.written
    }

    /// Whether a commit was refused.
    pub fn is_broken(&self) -> bool
        ensures { result ≡ is_broken self.now }
    {
        self.file.is_broken()
    }

    /// Answers a call with the cause for which a commit was refused, and counts it.
    pub fn refuse(&mut self) -> DiskError
        requires { is_broken self.old ≡ true }
        ensures cause { IsBrokenBy self.new result }
        ensures count { CountHasRisen (refused_of self.old) (refused_of self.new) }
        ensures version { IsTrue D.is_honest → version_under self.new ≡ version_under self.old }
        ensures device { device_under self.new ≡ device_under self.old }
        ensures holds { HoldsAs self.old self.new }
    {
        self.file.refuse()
    }

    /// From here on a commit was refused for this cause.
    pub fn break_off(&mut self, cause: DiskError)
        requires { is_broken self.old ≡ false }
        ensures cause { IsBrokenBy self.new cause }
        ensures broken { is_broken self.new ≡ true }
        ensures count { refused_of self.new ≡ refused_of self.old }
        ensures version { IsTrue D.is_honest → version_under self.new ≡ version_under self.old }
        ensures device { device_under self.new ≡ device_under self.old }
        ensures pages { count_of self.new ≡ count_of self.old }
        ensures left { left_of self.new ≡ left_of self.old }
        ensures waits { (n : ℕ) → waits_at self.new n ≡ waits_at self.old n }
        ensures room { room_of self.new ≡ room_of self.old }
    {
        self.file.break_off(cause);
    }

    /// Reads a page, and tells whether it is known to be a sound page of a tree. Refused where the
    /// device refuses.
    pub fn read(&mut self, number: u32, into: &mut Page) -> Result<bool, DiskError>
        requires { number < count_of self.old }
        ensures node { IfOk result (λ known. known ≡ true → IsNode into.new) }
        ensures value { OnOk result (IsTrue D.is_honest → shown_by self.old number ≡ Some into.new) }
        ensures version { IsTrue D.is_honest → version_under self.new ≡ version_under self.old }
        ensures read_always { IsTrue D.is_honest → IsTrue D.always_reads → is_broken self.old ≡ false → IsOk result }
        ensures reads { OnlyReads D.is_honest D.is_durable D.bytes D.synced D.writes D.settled D.moment D.left_since
            D.may_leave (device_under self.old) (device_under self.new) }
        ensures count { CountsRefusal result (refused_of self.old) (refused_of self.new) }
        ensures cause { IfErr result (Tells self.new) }
        ensures holds { HoldsAs self.old self.new }
    {
        if self.file.is_broken() {
            return Err(self.refuse());
        }
        match self.cache.copy(number, into) {
            Some(known) => Ok(known),
            None => self.read_kept(number, into),
        }
    }

    /// Reads a page that is not in memory, and keeps it there where there is some.
    fn read_kept(&mut self, number: u32, into: &mut Page) -> Result<bool, DiskError>
        requires within { number < count_of self.old }
        requires whole { is_broken self.old ≡ false }
        ensures node { IfOk result (λ known. known ≡ true → IsNode into.new) }
        ensures value { OnOk result (IsTrue D.is_honest → shown_by self.old number ≡ Some into.new) }
        ensures version { IsTrue D.is_honest → version_under self.new ≡ version_under self.old }
        ensures read_always { IsTrue D.is_honest → IsTrue D.always_reads → IsOk result }
        ensures reads { OnlyReads D.is_honest D.is_durable D.bytes D.synced D.writes D.settled D.moment D.left_since
            D.may_leave (device_under self.old) (device_under self.new) }
        ensures count { CountsRefusal result (refused_of self.old) (refused_of self.new) }
        ensures cause { IfErr result (D.told (device_under self.new)) }
        ensures holds { HoldsAs self.old self.new }
    {
        match self.file.read(number, into) {
            Ok(()) => {
                let known = self.cache.keep(number, into);
                Ok(known)
            }
            Err(cause) => Err(cause),
        }
    }

    /// Writes as many of the pages that are left in their places, or all where fewer are left, and
    /// shuts the gate behind the last of them. Refused where the device refuses; what was not
    /// written is left.
    pub fn flush(&mut self, most: usize) -> Result<(), DiskError>
        ensures shown { IsTrue D.is_honest → (n : ℕ) → shown_by self.new n ≡ shown_by self.old n }
        ensures put { OnOk result (left_of self.new ≡ left_of self.old - most) }
        ensures fewer { (n : ℕ) → waits_at self.new n ≤ waits_at self.old n }
        ensures no_more { left_of self.new ≤ left_of self.old }
        ensures idle { is_at_rest self.old ≡ true → IsOk result }
        ensures quiet { is_at_rest self.old ≡ true → device_under self.new ≡ device_under self.old }
        ensures keeps { IsTrue D.is_durable → IsTrue D.is_honest → is_broken self.old ≡ false
            → Always (D.may_leave (device_under self.new)) (IsAmong (version_under self.old) (version_under self.old))
            × LeavesOnly D.moment D.left_since (device_under self.old) (device_under self.new) (IsAmong (version_under self.old) (version_under self.old)) }
        ensures count { CountsRefusal result (refused_of self.old) (refused_of self.new) }
        ensures cause { IfErr result (Tells self.new) }
        ensures pages { count_of self.new ≡ count_of self.old }
        ensures broken { is_broken self.new ≡ is_broken self.old }
        ensures room { room_of self.new ≡ room_of self.old }
    {
        if self.file.is_broken() {
            return Err(self.refuse());
        }
        self.file.flush(most)
    }

    /// Makes a commit of these pages, where there are `count` pages then. Refused where the device
    /// refuses; then it is broken.
    pub fn commit(&mut self, images: Items<Image>, count: u32) -> Result<(), DiskError>
        requires whole { is_broken self.old ≡ false }
        requires few { length images ≤ 1024 }
        requires grows { 1 ≤ count }
        requires fits { IsTrue D.is_honest → IsCommittable (version_under self.old) images count }
        ensures shown { OnOk result (IsTrue D.is_honest → (n : ℕ)
            → shown_by self.new n ≡ pages_below count (laid images (version_under self.old).pages) n) }
        ensures same { OnErr result (IsTrue D.is_honest → (n : ℕ) → shown_by self.new n ≡ shown_by self.old n) }
        ensures left { OnOk result (left_of self.new ≡ length images) }
        ensures waits { OnOk result ((n : ℕ) → waits_at self.new n ≡ waits_in images n) }
        ensures fewer { OnErr result ((n : ℕ) → waits_at self.new n ≤ waits_at self.old n) }
        ensures no_more { OnErr result (left_of self.new ≤ left_of self.old) }
        ensures any_moment { IsTrue D.is_durable → IsTrue D.is_honest
            → Always (D.may_leave (device_under self.new)) (IsAmong (version_under self.old) (committed (version_under self.old) images count))
            × LeavesOnly D.moment D.left_since (device_under self.old) (device_under self.new)
            (IsAmong (version_under self.old) (committed (version_under self.old) images count)) }
        ensures count { CountsRefusal result (refused_of self.old) (refused_of self.new) }
        ensures cause { IfErr result (D.told (device_under self.new)) }
        ensures broken { IfErr result (IsBrokenBy self.new) }
        ensures whole { OnOk result (is_broken self.new ≡ false) }
        ensures pages { OnOk result (count_of self.new ≡ count) }
        ensures same_pages { OnErr result (count_of self.new ≡ count_of self.old) }
        ensures room { room_of self.new ≡ room_of self.old }
    {
        forget_all(&mut self.cache, images.as_slice());
        match self.file.commit(images, count) {
            Ok(()) => Ok(()),
            Err(cause) => Err(cause),
        }
    }

    /// Brings the file to its pages alone, and waits until it is on the medium. Refused where the
    /// device refuses; what was not written is left.
    pub fn settle(&mut self) -> Result<(), DiskError>
        ensures shown { IsTrue D.is_honest → (n : ℕ) → shown_by self.new n ≡ shown_by self.old n }
        ensures rests { OnOk result (is_at_rest self.new ≡ true) }
        ensures none { OnOk result ((n : ℕ) → waits_at self.new n ≡ 0) }
        ensures size { OnOk result (IsTrue D.is_honest
            → length (D.bytes (device_under self.new)) ≡ 4096 * count_of self.old) }
        ensures closed { OnOk result (IsTrue D.is_honest → gate_part (D.bytes (device_under self.new)) ≡ 0 ∷ []) }
        ensures whole { OnOk result (is_broken self.old ≡ false) }
        ensures refused { OnOk result (D.refused (device_under self.new) ≡ refused_of self.old) }
        ensures settled { OnOk result (D.settled (device_under self.new)) }
        ensures fewer { (n : ℕ) → waits_at self.new n ≤ waits_at self.old n }
        ensures no_more { left_of self.new ≤ left_of self.old }
        ensures keeps { IsTrue D.is_durable → IsTrue D.is_honest → is_broken self.old ≡ false
            → Always (D.may_leave (device_under self.new)) (IsAmong (version_under self.old) (version_under self.old))
            × LeavesOnly D.moment D.left_since (device_under self.old) (device_under self.new) (IsAmong (version_under self.old) (version_under self.old)) }
        ensures count { CountsRefusal result (refused_of self.old) (refused_of self.new) }
        ensures cause { IfErr result (Tells self.new) }
        ensures pages { count_of self.new ≡ count_of self.old }
        ensures broken { is_broken self.new ≡ is_broken self.old }
        ensures room { room_of self.new ≡ room_of self.old }
    {
        if self.file.is_broken() {
            return Err(self.refuse());
        }
        self.file.settle()
    }

    /// Hands back the device.
    pub fn into_disk(self) -> D
        ensures { result ≡ device_under self }
    {
        let LastVersion { file, cache: _ } = self;
        file.into_disk()
    }
}
