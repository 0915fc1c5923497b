//! Commits over the last version.
ghost use Rattle.std.specs.Prelude.{◌≡◌, ℕ, ◌+◌, ◌-◌, ◌<◌, ◌≤◌, ◌^◌, ◌⊎◌, nat_lt, [], length, slice_index, sum_by, IsTrue, IsSome, IsNone, IfSome, IfErr, OnOk, OnErr, true, false, None};
ghost use Rattle.std.specs.List.{list_any};
ghost use Rattle.std.specs.Option.{is_some};
ghost use Rattle.disk.specs.Crashes.{Always, LeavesOnly};
ghost use Rattle.disk.specs.Refused.{CountsRefusal};
ghost use Rattle.journal.specs.Lists.{IsRising, image_in};
ghost use Rattle.journal.specs.Versions.{IsAmong, IsCommittable, committed};
ghost use Rattle.last_version.specs.Lasts.{device_under, count_of, shown_by, version_under, refused_of, left_of, waits_at, room_of, is_broken, IsBrokenBy, Tells, HoldsAs};
ghost use Rattle.pool.specs.Follows.{MayFollow, IsCovered, HasZeros};
ghost use Rattle.pool.specs.Images.{covers, reads_newest, images_in, needs, pinned_in};
ghost use Rattle.pool.specs.Pages.{PageMap, over, pages_in};
ghost use Rattle.pool.specs.Ready.{Ascend, Grows, MayBeImaged};
ghost use Rattle.pool.specs.Refused.{IsRefused, IsTold, IsBrokenFor};
ghost use Rattle.pool.specs.Slots.{slot_at, pages_at};
ghost use Rattle.pool.specs.Zeros.{EndsInZeros};

use crate::PoolError;
use crate::images::take_back;
use crate::pins::Pin;
use crate::slot::Slot;
use crate::steps::make_ready;
use crate::zeros::ends_in_zeros;
use disk::{Disk, DiskError};
use items::Items;
use journal::Image;
use last_version::LastVersion;
use std::alloc::Global;

/// How many pages there are once one more is there; none where pages between would be lacking, or
/// the numbers of pages have come to their end.
fn count_with(count: u32, number: u32) -> Option<u32>
    ensures some { IfSome result (λ new. (count ≤ new) × (number < new)
        × ((n : ℕ) → count ≤ n → n < new → n ≡ number)) }
    ensures none { IsNone result → (count < number) ⊎ (number ≡ 2 ^ 32 - 1) }
{
    if number < count {
        return Some(count);
    }
    if number > count || number == u32::MAX {
        return None;
    }
    Some(number + 1)
}

/// How many pages there are once these are there too; none where pages between would be lacking, or
/// the numbers of pages have come to their end.
fn count_all(count: u32, images: &[Image]) -> Option<u32>
    requires { IsRising images.now }
    ensures some { IfSome result (λ new. IsCovered count images.now new) }
    ensures none { IsNone result → (pages : PageMap) → ((n : ℕ) → count ≤ n → pages n ≡ None)
        → MayFollow (pages_in images.now) pages → ⊥ }
{
    let mut next = count;
    for (number, _) in images {
        match count_with(next, *number) {
            Some(more) => next = more,
            None => return None,
        }
    }
    Some(next)
}

/// Whether behind the header of page 0 there are zeros, where this is page 0.
fn image_has_zeros(image: &Image) -> bool
    ensures zeros { result ≡ true → image.now.0 ≡ 0 → EndsInZeros image.now.1 }
    ensures first { result ≡ false → image.now.0 ≡ 0 }
    ensures others { result ≡ false → EndsInZeros image.now.1 → ⊥ }
{
    if image.0 != 0 {
        return true;
    }
    ends_in_zeros(image.1.get())
}

/// Whether behind the header of page 0 there are zeros, where it is one of these.
fn first_has_zeros(images: &[Image]) -> bool
    requires { IsRising images.now }
    ensures zeros { result ≡ true → HasZeros (pages_in images.now) }
    ensures others { result ≡ false → HasZeros (pages_in images.now) → ⊥ }
{
    match images.first() {
        Some(image) => image_has_zeros(image),
        None => true,
    }
}

/// How many pages there are once these are there too; none where they may not be committed.
pub(crate) fn count_behind(count: u32, images: &[Image]) -> Option<u32>
    requires { IsRising images.now }
    ensures some { IfSome result (λ new. IsCovered count images.now new) }
    ensures zeros { IfSome result (λ new. HasZeros (pages_in images.now)) }
    ensures none { IsNone result → (pages : PageMap) → ((n : ℕ) → count ≤ n → pages n ≡ None)
        → MayFollow (pages_in images.now) pages → ⊥ }
{
    if first_has_zeros(images) {
        return count_all(count, images);
    }
    None
}

/// Commits these pages, where the file is not broken; none needs no call of the device. Refused
/// where the device refuses, and then the file is broken.
fn commit_images<D: Disk>(
    file: &mut LastVersion<D>,
    images: Items<Image>,
    count: u32,
) -> Result<(), DiskError>
    requires whole { is_broken file.old ≡ false }
    requires few { length images ≤ 1024 }
    requires rising { IsRising images }
    requires sized { (i : ℕ) → i < length images → length (image_in images i) ≡ 4096 }
    requires covered { IsCovered (count_of file.old) images count }
    requires zeros { HasZeros (pages_in images) }
    ensures shown { OnOk result (IsTrue D.is_honest → (n : ℕ)
        → shown_by file.new n ≡ over (pages_in images) (shown_by file.old) n) }
    ensures same { OnErr result (IsTrue D.is_honest → (n : ℕ) → shown_by file.new n ≡ shown_by file.old n) }
    ensures waits { OnOk result ((n : ℕ) → IsSome (pages_in images n) → waits_at file.new n ≡ 1) }
    ensures fewer { (n : ℕ) → is_some (pages_in images n) ≡ false → waits_at file.new n ≤ waits_at file.old n }
    ensures any_moment { IsTrue D.is_durable → IsTrue D.is_honest
        → IsCommittable (version_under file.old) images count
        → Always (D.may_leave (device_under file.new)) (IsAmong (version_under file.old) (committed (version_under file.old) images count))
        × LeavesOnly D.moment D.left_since (device_under file.old) (device_under file.new)
        (IsAmong (version_under file.old) (committed (version_under file.old) images count)) }
    ensures idle { images ≡ [] → file.new ≡ file.old }
    ensures count { CountsRefusal result (refused_of file.old) (refused_of file.new) }
    ensures cause { IfErr result (D.told (device_under file.new)) }
    ensures broken { IfErr result (IsBrokenBy file.new) }
    ensures whole { OnOk result (is_broken file.new ≡ false) }
    ensures room { room_of file.new ≡ room_of file.old }
{
    if images.is_empty() {
        return Ok(());
    }
    file.commit(images, count)
}

/// Breaks a file where a commit was refused for the device.
fn break_for<D: Disk>(file: &mut LastVersion<D>, error: &PoolError)
    requires { is_broken file.old ≡ false }
    ensures version { IsTrue D.is_honest → version_under file.new ≡ version_under file.old }
    ensures breaks { IsBrokenFor (IsBrokenBy file.new) error.now }
    ensures device { device_under file.new ≡ device_under file.old }
    ensures refused { refused_of file.new ≡ refused_of file.old }
    ensures pages { count_of file.new ≡ count_of file.old }
    ensures left { left_of file.new ≡ left_of file.old }
    ensures waits { (n : ℕ) → waits_at file.new n ≡ waits_at file.old n }
    ensures room { room_of file.new ≡ room_of file.old }
{
    match error {
        PoolError::Memory => {}
        PoolError::Device(cause) => file.break_off(*cause),
        PoolError::Damaged => {}
        PoolError::Pages => {}
        PoolError::Kept => {}
    }
}

/// Makes a commit of these pages over the last version, whose number is `last`, and keeps the old
/// images that it needs. Where it is refused no image is kept; where the device refused, the file
/// is broken.
pub(crate) fn commit_over<D: Disk>(
    alloc: Global,
    file: &mut LastVersion<D>,
    slots: &mut Items<Slot>,
    pins: &[Pin],
    touched: &mut Items<Items<u32>>,
    images: Items<Image>,
    count: u32,
    numbers: &[u32],
    last: u64,
) -> Result<(), PoolError>
    requires whole { is_broken file.old ≡ false }
    requires few { length images ≤ 1024 }
    requires rising { IsRising images }
    requires sized { (i : ℕ) → i < length images → length (image_in images i) ≡ 4096 }
    requires covered { IsCovered (count_of file.old) images count }
    requires zeros { HasZeros (pages_in images) }
    requires lists { length pins.now ≤ length touched.old }
    requires numbered { last < 2 ^ 64 - 1 }
    requires ascend { Ascend numbers.now }
    requires before { list_any (λ c. nat_lt last c) (pinned_in pins.now) ≡ false }
    requires old { (n : ℕ) → covers last (slot_at slots.old n).images ≡ false }
    ensures newest { OnOk result (IsTrue D.is_honest → (n : ℕ)
        → shown_by file.new n ≡ over (pages_in images) (shown_by file.old) n) }
    ensures same { OnErr result (IsTrue D.is_honest → (n : ℕ) → shown_by file.new n ≡ shown_by file.old n) }
    ensures images { OnOk result ((n : ℕ)
        → MayBeImaged numbers.now (length numbers.now) last (pinned_in pins.now) touched.new n (slot_at slots.old n).images (slot_at slots.new n).images) }
    ensures left { OnErr result ((n : ℕ) → (slot_at slots.new n).images ≡ (slot_at slots.old n).images) }
    ensures ready { OnOk result ((k : ℕ) → k < length numbers.now
        → reads_newest (pinned_in pins.now) (slot_at slots.new (slice_index numbers.now k)).images ≡ false) }
    ensures count { OnOk result (images_in slots.new ≡ images_in slots.old + sum_by (needs (count_of file.old) (pinned_in pins.now) slots.old) numbers.now) }
    ensures grows { Grows touched.old touched.new }
    ensures lists { length touched.new ≡ length touched.old }
    ensures shown { OnOk result (IsTrue D.is_honest → (c n : ℕ)
        → pages_at (shown_by file.old) slots.new c n ≡ pages_at (shown_by file.old) slots.old c n) }
    ensures waits { OnOk result ((n : ℕ) → IsSome (pages_in images n) → waits_at file.new n ≡ 1) }
    ensures fewer { (n : ℕ) → is_some (pages_in images n) ≡ false → waits_at file.new n ≤ waits_at file.old n }
    ensures any_moment { IsTrue D.is_durable → IsTrue D.is_honest
        → IsCommittable (version_under file.old) images count
        → Always (D.may_leave (device_under file.new)) (IsAmong (version_under file.old) (committed (version_under file.old) images count))
        × LeavesOnly D.moment D.left_since (device_under file.old) (device_under file.new)
        (IsAmong (version_under file.old) (committed (version_under file.old) images count)) }
    ensures idle { images ≡ [] → D.writes (device_under file.new) ≡ D.writes (device_under file.old) }
    ensures refusal { IfErr result (IsRefused ⊥ ⊥ (refused_of file.old) (refused_of file.new)) }
    ensures cause { IfErr result (IsTold (Tells file.new)) }
    ensures breaks { IfErr result (IsBrokenFor (IsBrokenBy file.new)) }
    ensures whole { OnOk result (is_broken file.new ≡ false) }
    ensures rising { refused_of file.old ≤ refused_of file.new }
    ensures room { room_of file.new ≡ room_of file.old }
{
    match make_ready(alloc, file, slots, pins, touched, numbers, last) {
        Ok(()) => match commit_images(file, images, count) {
            Ok(()) => Ok(()),
            Err(cause) => {
                take_back(slots, numbers, last);
                Err(PoolError::Device(cause))
            }
        },
        Err(error) => {
            break_for(file, &error);
            Err(error)
        }
    }
}
