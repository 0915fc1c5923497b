//! What a commit reads of a page, and where it stands.
ghost use Rattle.std.specs.Prelude.{◌≡◌, ◌<◌, ◌≤◌, nat_lt, ℕ, List, Option, Some, None, MatchOption, OnOk, IfOk, IfErr, IsTrue, true, false};
ghost use Rattle.std.specs.Option.{is_some};
ghost use Rattle.journal.specs.Reading.{OnlyReads};
ghost use Rattle.sqlrecord.specs.Page.{IsNode};
ghost use Rattle.last_version.specs.Lasts.{device_under, count_of, shown_by, version_under, refused_of, is_broken, Tells, HoldsAs};
ghost use Rattle.pool.specs.Ready.{IsFound};
ghost use Rattle.pool.specs.Refused.{IsRefused, ReadRefused, IsNotOfDevice, IsTold};
ghost use Rattle.pool.specs.Slots.{slot_at, seen, pages_at};

use crate::PoolError;
use crate::slot::{OldImage, Slot};
use disk::Disk;
use last_version::LastVersion;
use page_cache::Frame;
use pagefile::{PAGE_SIZE, Page};
use std::alloc::Global;

/// Where a page was found.
pub(crate) enum Found {
    /// An old image of it is read, and was copied: whether it is known to be a sound page of a
    /// tree.
    Copied(bool),
    /// The newest version is read.
    Newest,
    /// There was no such page.
    Absent,
}

/// The image that a commit reads of a page; none where it reads the newest version.
fn image_for(images: &[OldImage], at: u64) -> Option<&OldImage>
    ensures { MatchOption result
        ((newest : Option (List ℕ)) → seen at images.now newest ≡ newest)
        (λ image. (newest : Option (List ℕ)) → seen at images.now newest ≡ image.now.page) }
{
    for image in images {
        if at < image.until {
            return Some(image);
        }
    }
    None
}

/// Copies a page that stands in memory, where one does.
fn copy_frame(frame: &Option<Frame>, into: &mut Page) -> Found
    ensures { IsFound (λ newest. frame.now) into.new result }
{
    match frame {
        Some(frame) => {
            *into = *frame.page();
            Found::Copied(frame.is_node())
        }
        None => Found::Absent,
    }
}

/// Finds what a commit reads of a page, and copies it where that is an old image.
fn find_in(images: &[OldImage], at: u64, into: &mut Page) -> Found
    ensures { IsFound (λ newest. seen at images.now newest) into.new result }
{
    match image_for(images, at) {
        Some(image) => copy_frame(&image.page, into),
        None => Found::Newest,
    }
}

/// The same of the page of this number.
fn find_at(slots: &[Slot], page: u32, at: u64, into: &mut Page) -> Found
    ensures { IsFound (λ newest. seen at (slot_at slots.now page).images newest) into.new result }
{
    match slots.get(page as usize) {
        Some(slot) => find_in(slot.images.as_slice(), at, into),
        None => Found::Newest,
    }
}

/// Gives the newest version of a page, and tells whether it is known to be a sound page of a tree.
/// Refused where the device refuses, and as damaged where there is no such page.
fn read_newest<D: Disk>(
    file: &mut LastVersion<D>,
    page: u32,
    into: &mut Page,
) -> Result<bool, PoolError>
    ensures node { IfOk result (λ known. known ≡ true → IsNode into.new) }
    ensures value { OnOk result (IsTrue D.is_honest → shown_by file.old page ≡ Some into.new) }
    ensures version { IsTrue D.is_honest → version_under file.new ≡ version_under file.old }
    ensures refusal { IfErr result (ReadRefused (shown_by file.old page ≡ None) (refused_of file.old) (refused_of file.new)) }
    ensures read_always { IsTrue D.is_honest → IsTrue D.always_reads → is_broken file.old ≡ false
        → IfErr result IsNotOfDevice }
    ensures cause { IfErr result (IsTold (Tells file.new)) }
    ensures rising { refused_of file.old ≤ refused_of file.new }
    ensures reads { OnlyReads D.is_honest D.is_durable D.bytes D.synced D.writes D.settled D.moment D.left_since
        D.may_leave (device_under file.old) (device_under file.new) }
    ensures holds { HoldsAs file.old file.new }
{
    if page >= file.count() {
        return Err(PoolError::Damaged);
    }
    match file.read(page, into) {
        Ok(known) => Ok(known),
        Err(cause) => Err(PoolError::Device(cause)),
    }
}

/// Gives what lies at a page at a commit, and tells whether it is known to be a sound page of a
/// tree. Refused where the device refuses, and as damaged where no page lies there.
pub(crate) fn read_at<D: Disk>(
    file: &mut LastVersion<D>,
    slots: &[Slot],
    page: u32,
    at: u64,
    into: &mut Page,
) -> Result<bool, PoolError>
    ensures node { IfOk result (λ known. known ≡ true → IsNode into.new) }
    ensures value { OnOk result (IsTrue D.is_honest
        → pages_at (shown_by file.old) slots.now at page ≡ Some into.new) }
    ensures version { IsTrue D.is_honest → version_under file.new ≡ version_under file.old }
    ensures refusal { IfErr result (ReadRefused (pages_at (shown_by file.old) slots.now at page ≡ None)
        (refused_of file.old) (refused_of file.new)) }
    ensures read_always { IsTrue D.is_honest → IsTrue D.always_reads → is_broken file.old ≡ false
        → IfErr result IsNotOfDevice }
    ensures cause { IfErr result (IsTold (Tells file.new)) }
    ensures rising { refused_of file.old ≤ refused_of file.new }
    ensures reads { OnlyReads D.is_honest D.is_durable D.bytes D.synced D.writes D.settled D.moment D.left_since
        D.may_leave (device_under file.old) (device_under file.new) }
    ensures holds { HoldsAs file.old file.new }
{
    match find_at(slots, page, at, into) {
        Found::Copied(known) => Ok(known),
        Found::Newest => read_newest(file, page, into),
        Found::Absent => Err(PoolError::Damaged),
    }
}

/// A page in memory, for an image.
fn some_frame(alloc: Global, page: &Page) -> Result<Option<Frame>, PoolError>
    ensures frame { IfOk result (λ frame. frame ≡ Some page.now) }
    ensures cause { IfErr result (λ e. e ≡ PoolError.Memory) }
{
    match Frame::new(alloc, page) {
        Ok(frame) => Ok(Some(frame)),
        Err(_) => Err(PoolError::Memory),
    }
}

/// The newest version of a page, for an image; none where there is no page.
pub(crate) fn newest_frame<D: Disk>(
    alloc: Global,
    file: &mut LastVersion<D>,
    page: u32,
) -> Result<Option<Frame>, PoolError>
    ensures value { IfOk result (λ frame. IsTrue D.is_honest → shown_by file.old page ≡ frame) }
    ensures there { IfOk result (λ frame. is_some frame ≡ nat_lt page (count_of file.old)) }
    ensures version { IsTrue D.is_honest → version_under file.new ≡ version_under file.old }
    ensures refusal { IfErr result (IsRefused ⊥ ⊥ (refused_of file.old) (refused_of file.new)) }
    ensures cause { IfErr result (IsTold (Tells file.new)) }
    ensures rising { refused_of file.old ≤ refused_of file.new }
    ensures reads { OnlyReads D.is_honest D.is_durable D.bytes D.synced D.writes D.settled D.moment D.left_since
        D.may_leave (device_under file.old) (device_under file.new) }
    ensures holds { HoldsAs file.old file.new }
{
    if page >= file.count() {
        return Ok(None);
    }
    let mut bytes = [0; PAGE_SIZE];
    match file.read(page, &mut bytes) {
        Ok(_) => some_frame(alloc, &bytes),
        Err(cause) => Err(PoolError::Device(cause)),
    }
}
