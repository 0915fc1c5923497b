//! The pool itself.
ghost use Rattle.std.specs.Prelude.{◌≡◌, ℕ, ◌+◌, ◌*◌, ◌-◌, ◌<◌, ◌≤◌, ◌==◌, ◌^◌, true, false, [], ◌∷◌, List, length, Some, None, IsTrue, IsSome, IfOk, IfErr, IsOk, OnOk, OnErr, min, if◌then◌else◌};
ghost use Rattle.std.specs.Option.{is_some};
ghost use Rattle.disk.specs.Crashes.{Always, LeavesOnly};
ghost use Rattle.disk.specs.Refused.{CountHasRisen};
ghost use Rattle.pagefile.specs.Parts.{gate_part};
ghost use Rattle.journal.specs.Lists.{IsRising, image_in};
ghost use Rattle.journal.specs.Parts.{place};
ghost use Rattle.journal.specs.Reading.{OnlyReads};
ghost use Rattle.journal.specs.Versions.{IsAmong, IsCommittable, committed};
ghost use Rattle.journaled_file.specs.Shown.{IsAtRest};
ghost use Rattle.last_version.specs.Standing.{pages_below, padded_of, version_in};
ghost use Rattle.sqlrecord.specs.Page.{IsNode};
ghost use Rattle.pool.specs.Images.{AreKept, AreNeeded, images_in, pinned_in};
ghost use Rattle.pool.specs.Slots.{slot_at};

use crate::commits::{commit_over, count_behind};
use crate::found::read_at;
use crate::images::drop_pages;
use crate::pins::{Pin, pin_once, unpin_once};
use crate::slot::Slot;
use crate::steps::count_needed;
use crate::{PageSet, PoolError};
use disk::Disk;
use items::Items;
use journal::Image;
use last_version::LastVersion;
use pagefile::{PAGE_SIZE, Page};
use std::alloc::Global;

/// How many pages a step writes.
const PAGES_A_STEP: usize = 4;

/// How many old images may be kept.
const MOST_IMAGES: u32 = 4096;

/// Versions of the pages of a file with a journal, by the numbers of commits, in bounded memory.
///
/// In memory stand at most as many pages that the file has too as it was told, the pages of the
/// last commit until they are written, at most 1,024, and 4,096 old images; any other page is read
/// from the file. Behind a commit that the device refused each call is refused but pins and unpins.
#[derive(Drop)]
pub struct Pool<D: Disk> {
    alloc: Global,
    file: LastVersion<D>,
    last: u64,
    slots: Items<Slot>,
    /// How many old images the slots have.
    images: u32,
    pins: Items<Pin>,
    /// For each pin, the pages of which its commit reads an old image, and perhaps more.
    touched: Items<Items<u32>>,
    ghost kept: { AreKept last (pinned_in pins) touched slots },
    ghost few_images: { (images ≡ images_in slots) × (images ≤ 4096) },
}

impl<D: Disk> Pool<D> {
    ghost use Rattle.pool.specs.Pages.{known, over, pages_in, numbers_of};
    ghost use Rattle.pool.specs.Follows.{MayFollow, IsCovered, HasZeros};
    ghost use Rattle.pool.specs.Ready.{Ascend};
    ghost use Rattle.pool.specs.Refused.{IsRefused, CommitRefused, ReadRefused, IsOfDevice, IsNotOfDevice, IsTold};
    ghost use Rattle.pool.specs.Versions.{IsKept, HoldsSame, NeedsImages, versions_of, version_of, device_of, refused_of, count_of, is_broken, is_at_rest, BreaksFor, Tells, unwritten_of, unwritten_at, frames_of, images_of, needed_in};

    /// A pool over a file at rest of this many pages, of which it may keep `frames` in memory, from
    /// 16 to 4,096. Refuses for want of memory alone, and hands the device back.
    pub fn new(alloc: Global, disk: D, page_count: u32, frames: u32) -> Result<Pool<D>, D>
        requires least { 16 ≤ frames }
        requires most { frames ≤ 4096 }
        requires some { 1 ≤ page_count }
        requires rest { IsTrue D.is_honest
            → IsAtRest D.is_honest D.is_durable page_count (D.bytes disk) (D.may_leave disk) (version_in [] 0 page_count (D.bytes disk)) }
        ensures last { IfOk result (λ pool. (versions_of pool).last ≡ 0) }
        ensures pages { IfOk result (λ pool. (versions_of pool).pages ≡ (λ c. known D.is_honest (pages_below page_count (place (D.bytes disk))))) }
        ensures pins { IfOk result (λ pool. (versions_of pool).pins ≡ (λ c. 0)) }
        ensures count { IfOk result (λ pool. count_of pool ≡ page_count) }
        ensures unwritten { IfOk result (λ pool. unwritten_of pool ≡ 0) }
        ensures written { IfOk result (λ pool. (n : ℕ) → unwritten_at pool n ≡ 0) }
        ensures images { IfOk result (λ pool. images_of pool ≡ 0) }
        ensures frames { IfOk result (λ pool. frames_of pool ≡ frames) }
        ensures rests { IfOk result (λ pool. is_at_rest pool ≡ true) }
        ensures refused { IfOk result (λ pool. refused_of pool ≡ D.refused disk) }
        ensures device { IfOk result (λ pool. device_of pool ≡ disk) }
        ensures left { IfErr result (λ back. back ≡ disk) }
    {
        match LastVersion::new(alloc, disk, page_count, frames) {
            Ok(file) => Ok(Pool {
                alloc,
                file,
                last: 0,
                slots: Items::new(alloc),
                images: 0,
                pins: Items::new(alloc),
                touched: Items::new(alloc),
            }),
            Err(disk) => Err(disk),
        }
    }

    /// Whether a commit was refused for the device: then each call is refused but pins and unpins.
    pub fn is_broken(&self) -> bool
        ensures { result ≡ is_broken self.now }
    {
        self.file.is_broken()
    }

    /// Answers a call with the cause for which a commit was refused, and counts it.
    pub fn refuse(&mut self) -> PoolError
        requires { is_broken self.old ≡ true }
        ensures versions { versions_of self.new ≡ versions_of self.old }
        ensures broken { is_broken self.new ≡ true }
        ensures unwritten { unwritten_of self.new ≡ unwritten_of self.old }
        ensures same { (n : ℕ) → unwritten_at self.new n ≡ unwritten_at self.old n }
        ensures count { count_of self.new ≡ count_of self.old }
        ensures holds { HoldsSame self.old self.new }
        ensures refusal { IsOfDevice (refused_of self.old) (refused_of self.new) result }
        ensures cause { IsTold (Tells self.new) result }
        ensures breaks { BreaksFor self.new result }
        ensures device { device_of self.new ≡ device_of self.old }
        ensures version { IsTrue D.is_honest → version_of self.new ≡ version_of self.old }
    {
        PoolError::Device(self.file.refuse())
    }

    /// Pins the last commit once more, and answers its number. Refuses for want of memory alone.
    pub fn pin(&mut self) -> Result<u64, PoolError>
        ensures number { IfOk result (λ c. c ≡ (versions_of self.old).last) }
        ensures pinned { OnOk result ((c : ℕ) → (versions_of self.new).pins c
            ≡ (if (versions_of self.old).last == c then (versions_of self.old).pins c + 1 else (versions_of self.old).pins c)) }
        ensures refused { OnErr result ((versions_of self.new).pins ≡ (versions_of self.old).pins) }
        ensures cause { IfErr result (λ e. e ≡ PoolError.Memory) }
        ensures last { (versions_of self.new).last ≡ (versions_of self.old).last }
        ensures pages { (versions_of self.new).pages ≡ (versions_of self.old).pages }
        ensures unwritten { unwritten_of self.new ≡ unwritten_of self.old }
        ensures same { (n : ℕ) → unwritten_at self.new n ≡ unwritten_at self.old n }
        ensures images { images_of self.new ≡ images_of self.old }
        ensures frames { frames_of self.new ≡ frames_of self.old }
        ensures device { device_of self.new ≡ device_of self.old }
        ensures refused_calls { refused_of self.new ≡ refused_of self.old }
        ensures broken { is_broken self.new ≡ is_broken self.old }
        ensures version { version_of self.new ≡ version_of self.old }
        ensures count { count_of self.new ≡ count_of self.old }
    {
        if self.touched.len() > self.pins.len() {
            return self.pin_listed();
        }
        match self.touched.push(Items::new(self.alloc)) {
            Ok(()) => self.pin_listed(),
            Err(_) => Err(PoolError::Memory),
        }
    }

    /// The same, where there is a list for one pin more.
    fn pin_listed(&mut self) -> Result<u64, PoolError>
        requires { length self.old.pins < length self.old.touched }
        ensures number { IfOk result (λ c. c ≡ (versions_of self.old).last) }
        ensures pinned { OnOk result ((c : ℕ) → (versions_of self.new).pins c
            ≡ (if (versions_of self.old).last == c then (versions_of self.old).pins c + 1 else (versions_of self.old).pins c)) }
        ensures refused { OnErr result ((versions_of self.new).pins ≡ (versions_of self.old).pins) }
        ensures cause { IfErr result (λ e. e ≡ PoolError.Memory) }
        ensures last { (versions_of self.new).last ≡ (versions_of self.old).last }
        ensures pages { (versions_of self.new).pages ≡ (versions_of self.old).pages }
        ensures unwritten { unwritten_of self.new ≡ unwritten_of self.old }
        ensures same { (n : ℕ) → unwritten_at self.new n ≡ unwritten_at self.old n }
        ensures images { images_of self.new ≡ images_of self.old }
        ensures frames { frames_of self.new ≡ frames_of self.old }
        ensures device { device_of self.new ≡ device_of self.old }
        ensures refused_calls { refused_of self.new ≡ refused_of self.old }
        ensures broken { is_broken self.new ≡ is_broken self.old }
        ensures version { version_of self.new ≡ version_of self.old }
        ensures count { count_of self.new ≡ count_of self.old }
    {
        match pin_once(&mut self.pins, self.last) {
            Ok(()) => Ok(self.last),
            Err(_) => Err(PoolError::Memory),
        }
    }

    /// Gives what lies at a page at a commit, and tells whether it is known to be a sound page of a
    /// tree. Refused where the device refuses, and as damaged where no page lies there; `into` then
    /// may hold anything but what it held before. It writes nothing.
    pub fn read(&mut self, at: u64, page: u32, into: &mut Page) -> Result<bool, PoolError>
        ensures node { IfOk result (λ known. known ≡ true → IsNode into.new) }
        ensures value { OnOk result ((bytes : List ℕ) → (versions_of self.old).pages at page ≡ Some bytes
            → into.new ≡ bytes) }
        ensures there { OnOk result (IsTrue D.is_honest → IsSome ((versions_of self.old).pages at page)) }
        ensures versions { versions_of self.new ≡ versions_of self.old }
        ensures version { IsTrue D.is_honest → version_of self.new ≡ version_of self.old }
        ensures unwritten { unwritten_of self.new ≡ unwritten_of self.old }
        ensures same { (n : ℕ) → unwritten_at self.new n ≡ unwritten_at self.old n }
        ensures holds { HoldsSame self.old self.new }
        ensures broken { is_broken self.new ≡ is_broken self.old }
        ensures refusal { IfErr result (ReadRefused ((versions_of self.old).pages at page ≡ None) (refused_of self.old) (refused_of self.new)) }
        ensures read_always { IsTrue D.is_honest → IsTrue D.always_reads → is_broken self.old ≡ false
            → IfErr result IsNotOfDevice }
        ensures cause { IfErr result (IsTold (Tells self.new)) }
        ensures rising { refused_of self.old ≤ refused_of self.new }
        ensures writes { D.writes (device_of self.new) ≡ D.writes (device_of self.old) }
        ensures reads { OnlyReads D.is_honest D.is_durable D.bytes D.synced D.writes D.settled D.moment D.left_since
            D.may_leave (device_of self.old) (device_of self.new) }
    {
        *into = [0; PAGE_SIZE];
        if self.file.is_broken() {
            return Err(self.refuse());
        }
        match read_at(&mut self.file, self.slots.as_slice(), page, at, into) {
            Ok(known) => Ok(known),
            Err(error) => Err(error),
        }
    }

    /// Makes one commit more, of the pages of a set laid over the last, and puts it on the medium.
    /// What is left of the last commit is written first. A commit of no pages calls no device.
    ///
    /// A crash at any moment leaves the version before or the new one; once it is answered, the new
    /// one. Refuses for want of memory, where the device refuses, as `Damaged` only for pages that
    /// no whole file has (`MayFollow`), as `Pages` where the numbers of commits have come to their
    /// end, and as `Kept` only where the pinned commits would need more than 4,096 old images; then
    /// all versions are as they were, and no image more is kept. Before it is refused as `Kept` the
    /// device is not asked. A refusal for the device breaks the pool: whether the file has the old
    /// version or the new one is found when it is opened again.
    pub fn commit(&mut self, set: PageSet) -> Result<u64, PoolError>
        requires few { length set ≤ 1024 }
        ensures number { IfOk result (λ c. c ≡ (versions_of self.new).last) }
        ensures last { OnOk result ((versions_of self.new).last ≡ (versions_of self.old).last + 1) }
        ensures written { OnOk result ((versions_of self.new).pages (versions_of self.new).last ≡ known D.is_honest (over (pages_in set) ((versions_of self.old).pages (versions_of self.old).last))) }
        ensures kept { OnOk result ((c : ℕ) → 0 < (versions_of self.old).pins c
            → (versions_of self.new).pages c ≡ (versions_of self.old).pages c) }
        ensures pins { (versions_of self.new).pins ≡ (versions_of self.old).pins }
        ensures refused { OnErr result (versions_of self.new ≡ versions_of self.old) }
        ensures dirty { OnOk result ((n : ℕ) → IsSome (pages_in set n) → unwritten_at self.new n ≡ 1) }
        ensures fewer { (n : ℕ) → is_some (pages_in set n) ≡ false
            → unwritten_at self.new n ≤ unwritten_at self.old n }
        ensures images { OnOk result (images_of self.new ≡ images_of self.old + needed_in self.old (numbers_of set)) }
        ensures same_images { OnErr result (images_of self.new ≡ images_of self.old) }
        ensures untouched { IfErr result (λ e. e ≡ PoolError.Kept → device_of self.new ≡ device_of self.old) }
        ensures frames { frames_of self.new ≡ frames_of self.old }
        ensures refusal { IfErr result (CommitRefused ((versions_of self.old).last ≡ 2 ^ 64 - 1)
            (NeedsImages self.old (pages_in set)) (IsTrue D.is_honest
            → MayFollow (pages_in set) ((versions_of self.old).pages (versions_of self.old).last) → ⊥)
            (refused_of self.old) (refused_of self.new)) }
        ensures cause { IfErr result (IsTold (Tells self.new)) }
        ensures breaks { IfErr result (BreaksFor self.new) }
        ensures whole { OnOk result (is_broken self.new ≡ false) }
        ensures rising { refused_of self.old ≤ refused_of self.new }
        ensures idle { pages_in set ≡ (λ n. None) → D.writes (device_of self.new) ≡ D.writes (device_of self.old) }
        ensures any_moment { IsTrue D.is_durable → IsTrue D.is_honest → is_broken self.old ≡ false → (count : ℕ)
            → IsCommittable (version_of self.old) set count
            → Always (D.may_leave (device_of self.new)) (IsAmong (version_of self.old) (committed (version_of self.old) set count))
            × LeavesOnly D.moment D.left_since (device_of self.old) (device_of self.new)
            (IsAmong (version_of self.old) (committed (version_of self.old) set count)) }
    {
        if self.file.is_broken() {
            return Err(self.refuse());
        }
        if self.has_ended() {
            return Err(PoolError::Pages);
        }
        match set.numbers(self.alloc) {
            Ok(numbers) => self.commit_numbers(set, numbers.as_slice()),
            Err(_) => Err(PoolError::Memory),
        }
    }

    /// Whether the numbers of commits have come to their end.
    fn has_ended(&self) -> bool
        ensures ended { result ≡ true → (versions_of self.now).last ≡ 2 ^ 64 - 1 }
        ensures more { result ≡ false → (versions_of self.now).last < 2 ^ 64 - 1 }
    {
        self.last == u64::MAX
    }

    /// The same, of these pages, where the numbers of commits have not come to their end.
    fn commit_numbers(&mut self, set: PageSet, numbers: &[u32]) -> Result<u64, PoolError>
        requires sound { is_broken self.old ≡ false }
        requires few { length set ≤ 1024 }
        requires numbered { (versions_of self.old).last < 2 ^ 64 - 1 }
        requires numbers { numbers.now ≡ numbers_of set }
        requires ascend { Ascend numbers.now }
        ensures number { IfOk result (λ c. c ≡ (versions_of self.new).last) }
        ensures last { OnOk result ((versions_of self.new).last ≡ (versions_of self.old).last + 1) }
        ensures written { OnOk result ((versions_of self.new).pages (versions_of self.new).last ≡ known D.is_honest (over (pages_in set) ((versions_of self.old).pages (versions_of self.old).last))) }
        ensures kept { OnOk result ((c : ℕ) → 0 < (versions_of self.old).pins c
            → (versions_of self.new).pages c ≡ (versions_of self.old).pages c) }
        ensures pins { (versions_of self.new).pins ≡ (versions_of self.old).pins }
        ensures refused { OnErr result (versions_of self.new ≡ versions_of self.old) }
        ensures dirty { OnOk result ((n : ℕ) → IsSome (pages_in set n) → unwritten_at self.new n ≡ 1) }
        ensures fewer { (n : ℕ) → is_some (pages_in set n) ≡ false
            → unwritten_at self.new n ≤ unwritten_at self.old n }
        ensures images { OnOk result (images_of self.new ≡ images_of self.old + needed_in self.old (numbers_of set)) }
        ensures same_images { OnErr result (images_of self.new ≡ images_of self.old) }
        ensures untouched { IfErr result (λ e. e ≡ PoolError.Kept → device_of self.new ≡ device_of self.old) }
        ensures frames { frames_of self.new ≡ frames_of self.old }
        ensures refusal { IfErr result (CommitRefused ⊥ (NeedsImages self.old (pages_in set))
            (IsTrue D.is_honest
            → MayFollow (pages_in set) ((versions_of self.old).pages (versions_of self.old).last) → ⊥)
            (refused_of self.old) (refused_of self.new)) }
        ensures cause { IfErr result (IsTold (Tells self.new)) }
        ensures breaks { IfErr result (BreaksFor self.new) }
        ensures whole { OnOk result (is_broken self.new ≡ false) }
        ensures rising { refused_of self.old ≤ refused_of self.new }
        ensures idle { pages_in set ≡ (λ n. None) → D.writes (device_of self.new) ≡ D.writes (device_of self.old) }
        ensures any_moment { IsTrue D.is_durable → IsTrue D.is_honest → (count : ℕ)
            → IsCommittable (version_of self.old) set count
            → Always (D.may_leave (device_of self.new)) (IsAmong (version_of self.old) (committed (version_of self.old) set count))
            × LeavesOnly D.moment D.left_since (device_of self.old) (device_of self.new)
            (IsAmong (version_of self.old) (committed (version_of self.old) set count)) }
    {
        let needed = count_needed(
            self.slots.as_slice(),
            self.file.count(),
            self.pins.as_slice(),
            numbers,
        );
        if self.images + needed > MOST_IMAGES {
            return Err(PoolError::Kept);
        }
        match set.into_images(self.alloc) {
            Ok(images) => match count_behind(self.file.count(), images.as_slice()) {
                Some(count) => self.commit_within(images, count, numbers, needed),
                None => Err(PoolError::Damaged),
            },
            Err(_) => Err(PoolError::Memory),
        }
    }

    /// Makes one commit more, where there is room for the images that it needs.
    fn commit_within(
        &mut self,
        images: Items<Image>,
        count: u32,
        numbers: &[u32],
        needed: u32,
    ) -> Result<u64, PoolError>
        requires sound { is_broken self.old ≡ false }
        requires small { length images ≤ 1024 }
        requires numbered { (versions_of self.old).last < 2 ^ 64 - 1 }
        requires numbers { numbers.now ≡ numbers_of images }
        requires ascend { Ascend numbers.now }
        requires rising { IsRising images }
        requires sized { (i : ℕ) → i < length images → length (image_in images i) ≡ 4096 }
        requires covered { IsCovered (count_of self.old) images count }
        requires zeros { HasZeros (pages_in images) }
        requires needed { needed ≡ needed_in self.old numbers.now }
        requires few { images_of self.old + needed ≤ 4096 }
        ensures number { IfOk result (λ c. c ≡ (versions_of self.new).last) }
        ensures last { OnOk result ((versions_of self.new).last ≡ (versions_of self.old).last + 1) }
        ensures written { OnOk result ((versions_of self.new).pages (versions_of self.new).last ≡ known D.is_honest (over (pages_in images) ((versions_of self.old).pages (versions_of self.old).last))) }
        ensures kept { OnOk result ((c : ℕ) → 0 < (versions_of self.old).pins c
            → (versions_of self.new).pages c ≡ (versions_of self.old).pages c) }
        ensures pins { (versions_of self.new).pins ≡ (versions_of self.old).pins }
        ensures refused { OnErr result (versions_of self.new ≡ versions_of self.old) }
        ensures dirty { OnOk result ((n : ℕ) → IsSome (pages_in images n) → unwritten_at self.new n ≡ 1) }
        ensures fewer { (n : ℕ) → is_some (pages_in images n) ≡ false
            → unwritten_at self.new n ≤ unwritten_at self.old n }
        ensures images { OnOk result (images_of self.new ≡ images_of self.old + needed) }
        ensures same_images { OnErr result (images_of self.new ≡ images_of self.old) }
        ensures frames { frames_of self.new ≡ frames_of self.old }
        ensures refusal { IfErr result (IsRefused ⊥ ⊥ (refused_of self.old) (refused_of self.new)) }
        ensures cause { IfErr result (IsTold (Tells self.new)) }
        ensures breaks { IfErr result (BreaksFor self.new) }
        ensures whole { OnOk result (is_broken self.new ≡ false) }
        ensures rising { refused_of self.old ≤ refused_of self.new }
        ensures idle { pages_in images ≡ (λ n. None) → D.writes (device_of self.new) ≡ D.writes (device_of self.old) }
        ensures any_moment { IsTrue D.is_durable → IsTrue D.is_honest
            → IsCommittable (version_of self.old) images count
            → Always (D.may_leave (device_of self.new)) (IsAmong (version_of self.old) (committed (version_of self.old) images count))
            × LeavesOnly D.moment D.left_since (device_of self.old) (device_of self.new)
            (IsAmong (version_of self.old) (committed (version_of self.old) images count)) }
    {
        match commit_over(
            self.alloc,
            &mut self.file,
            &mut self.slots,
            self.pins.as_slice(),
            &mut self.touched,
            images,
            count,
            numbers,
            self.last,
        ) {
            Ok(()) => {
                self.images += needed;
                self.last += 1;
                Ok(self.last)
            }
            Err(error) => Err(error),
        }
    }

    /// Takes one pin of a commit away; nothing where it is not pinned. The images that its commit
    /// read alone go. Takes no memory.
    pub fn unpin(&mut self, number: u64)
        ensures pins { (c : ℕ)
            → (versions_of self.new).pins c ≡ (if number == c then (versions_of self.old).pins c - 1 else (versions_of self.old).pins c) }
        ensures kept { (c : ℕ) → IsKept (versions_of self.new) c
            → (versions_of self.new).pages c ≡ (versions_of self.old).pages c }
        ensures last { (versions_of self.new).last ≡ (versions_of self.old).last }
        ensures unwritten { unwritten_of self.new ≡ unwritten_of self.old }
        ensures same { (n : ℕ) → unwritten_at self.new n ≡ unwritten_at self.old n }
        ensures images { images_of self.new ≤ images_of self.old }
        ensures needed { (n : ℕ) → AreNeeded (pinned_in self.new.pins) (slot_at self.new.slots n).images }
        ensures frames { frames_of self.new ≡ frames_of self.old }
        ensures device { device_of self.new ≡ device_of self.old }
        ensures refused_calls { refused_of self.new ≡ refused_of self.old }
        ensures broken { is_broken self.new ≡ is_broken self.old }
        ensures version { version_of self.new ≡ version_of self.old }
        ensures count { count_of self.new ≡ count_of self.old }
    {
        if let Some(place) = unpin_once(&mut self.pins, number) {
            let pages = self.touched.remove(place);
            drop_pages(
                &mut self.slots,
                self.pins.as_slice(),
                pages.as_slice(),
                &mut self.images,
            );
        }
    }

    /// Writes four of the pages that were committed and are not written yet, or all where fewer are
    /// left, and shuts the gate behind the last; answers how many are left (2^32 - 1 where there
    /// are more). Where the device refuses, the page is written again later, and so is the gate.
    ///
    /// A crash at any moment leaves the version of the last commit.
    pub fn flush_step(&mut self) -> Result<u32, PoolError>
        ensures left { IfOk result (λ left. left ≡ min (unwritten_of self.new) (2 ^ 32 - 1)) }
        ensures written { OnOk result (unwritten_of self.new ≡ unwritten_of self.old - 4) }
        ensures fewer { unwritten_of self.new ≤ unwritten_of self.old }
        ensures fewer_at { (n : ℕ) → unwritten_at self.new n ≤ unwritten_at self.old n }
        ensures none { unwritten_of self.new ≡ 0 → (n : ℕ) → unwritten_at self.new n ≡ 0 }
        ensures stored { (n : ℕ) (page : List ℕ) → unwritten_at self.new n ≡ 0 → IsTrue D.is_honest
            → is_broken self.new ≡ false → (versions_of self.new).pages (versions_of self.new).last n ≡ Some page
            → padded_of (D.bytes (device_of self.new)) n ≡ Some page }
        ensures idle { is_at_rest self.old ≡ true → IsOk result }
        ensures quiet { is_at_rest self.old ≡ true → device_of self.new ≡ device_of self.old }
        ensures versions { versions_of self.new ≡ versions_of self.old }
        ensures holds { HoldsSame self.old self.new }
        ensures count { count_of self.new ≡ count_of self.old }
        ensures broken { is_broken self.new ≡ is_broken self.old }
        ensures refusal { IfErr result (IsOfDevice (refused_of self.old) (refused_of self.new)) }
        ensures cause { IfErr result (IsTold (Tells self.new)) }
        ensures rising { refused_of self.old ≤ refused_of self.new }
        ensures keeps { IsTrue D.is_durable → IsTrue D.is_honest → is_broken self.old ≡ false
            → Always (D.may_leave (device_of self.new)) (IsAmong (version_of self.old) (version_of self.old))
            × LeavesOnly D.moment D.left_since (device_of self.old) (device_of self.new) (IsAmong (version_of self.old) (version_of self.old)) }
    {
        match self.file.flush(PAGES_A_STEP) {
            Ok(()) => Ok(self.file.left().min(u32::MAX as usize) as u32),
            Err(cause) => Err(PoolError::Device(cause)),
        }
    }

    /// Brings the file to its pages alone, and waits until it is on the medium.
    fn settle(&mut self) -> Result<(), PoolError>
        ensures versions { versions_of self.new ≡ versions_of self.old }
        ensures stored { OnOk result (IsTrue D.is_honest → (n : ℕ) (page : List ℕ)
            → (versions_of self.old).pages (versions_of self.old).last n ≡ Some page
            → padded_of (D.bytes (device_of self.new)) n ≡ Some page) }
        ensures exact { OnOk result (IsTrue D.is_honest
            → length (D.bytes (device_of self.new)) ≡ 4096 * count_of self.old) }
        ensures closed { OnOk result (IsTrue D.is_honest → gate_part (D.bytes (device_of self.new)) ≡ 0 ∷ []) }
        ensures whole { OnOk result (is_broken self.old ≡ false) }
        ensures settled { OnOk result (D.settled (device_of self.new)) }
        ensures refusal { IfErr result (IsOfDevice (refused_of self.old) (refused_of self.new)) }
        ensures same_refused { OnOk result (D.refused (device_of self.new) ≡ refused_of self.old) }
        ensures cause { IfErr result (IsTold (Tells self.new)) }
        ensures keeps { IsTrue D.is_durable → IsTrue D.is_honest → is_broken self.old ≡ false
            → Always (D.may_leave (device_of self.new)) (IsAmong (version_of self.old) (version_of self.old))
            × LeavesOnly D.moment D.left_since (device_of self.old) (device_of self.new) (IsAmong (version_of self.old) (version_of self.old)) }
    {
        match self.file.settle() {
            Ok(()) => Ok(()),
            Err(cause) => Err(PoolError::Device(cause)),
        }
    }

    /// Writes all pages that are not written yet, cuts off what lies behind the last of them, waits
    /// until all is on the medium, and hands the device back. The file then has the pages of the
    /// last commit and nothing else, and its gate is shut. Where the device refuses, the pool comes
    /// back with all versions as they were.
    ///
    /// A crash at any moment leaves the version of the last commit.
    pub fn close(mut self) -> Result<D, CloseRefused<D>>
        ensures stored { IfOk result (λ disk. IsTrue D.is_honest → (n : ℕ) (page : List ℕ)
            → (versions_of self).pages (versions_of self).last n ≡ Some page → padded_of (D.bytes disk) n ≡ Some page) }
        ensures size { IfOk result (λ disk. IsTrue D.is_honest → (m : ℕ)
            → ((n : ℕ) → m ≤ n → (versions_of self).pages (versions_of self).last n ≡ None)
            → length (D.bytes disk) ≤ 4096 * m) }
        ensures exact { IfOk result (λ disk. IsTrue D.is_honest → length (D.bytes disk) ≡ 4096 * count_of self) }
        ensures closed { IfOk result (λ disk. IsTrue D.is_honest → gate_part (D.bytes disk) ≡ 0 ∷ []) }
        ensures settled { IfOk result (λ disk. D.settled disk) }
        ensures rising { IfOk result (λ disk. refused_of self ≤ D.refused disk) }
        ensures keeps { IfOk result (λ disk. IsTrue D.is_durable → IsTrue D.is_honest
            → Always (D.may_leave disk) (IsAmong (version_of self) (version_of self))
            × LeavesOnly D.moment D.left_since (device_of self) disk (IsAmong (version_of self) (version_of self))) }
        ensures keeps_open { IfErr result (λ r. IsTrue D.is_durable → IsTrue D.is_honest → is_broken self ≡ false
            → Always (D.may_leave (device_of r.pool)) (IsAmong (version_of self) (version_of self))
            × LeavesOnly D.moment D.left_since (device_of self) (device_of r.pool) (IsAmong (version_of self) (version_of self))) }
        ensures versions { IfErr result (λ r. versions_of r.pool ≡ versions_of self) }
        ensures refusal { IfErr result (λ r. IsOfDevice (refused_of self) (refused_of r.pool) r.cause) }
        ensures cause { IfErr result (λ r. IsTold (Tells r.pool) r.cause) }
    {
        match self.settle() {
            Ok(()) => Ok(self.abandon()),
            Err(cause) => Err(CloseRefused { pool: self, cause }),
        }
    }

    /// Hands the device back as it is, and calls it no more. What is committed is in the file, as a
    /// crash would leave it.
    pub fn abandon(self) -> D
        ensures { result ≡ device_of self }
    {
        let Pool {
            alloc: _,
            file,
            last: _,
            slots: _,
            images: _,
            pins: _,
            touched: _,
        } = self;
        file.into_disk()
    }
}

/// A pool handed back by a close that was refused, and the cause.
#[derive(Drop)]
pub struct CloseRefused<D: Disk> {
    pub pool: Pool<D>,
    pub cause: PoolError,
}
