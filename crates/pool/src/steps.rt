//! The steps of commits.
ghost use Rattle.std.specs.Prelude.{◌≡◌, ◌≢◌, ℕ, ◌+◌, ◌-◌, ◌<◌, ◌≤◌, ◌^◌, nat_lt, [], length, slice_index, sum_by, IsTrue, IfOk, IfErr, OnOk, OnErr, false, if◌then◌else◌};
ghost use Rattle.std.specs.List.{list_any};
ghost use Rattle.std.specs.Option.{is_some};
ghost use Rattle.journal.specs.Reading.{OnlyReads};
ghost use Rattle.last_version.specs.Lasts.{device_under, count_of, shown_by, version_under, refused_of, Tells, HoldsAs};
ghost use Rattle.pool.specs.Images.{covers, reads_newest, images_in, needs, pinned_in};
ghost use Rattle.pool.specs.Ready.{Ascend, Grows, IsReadied, MayBeImaged};
ghost use Rattle.pool.specs.Refused.{IsRefused, IsTold};
ghost use Rattle.pool.specs.Slots.{slot_at, pages_at};

use crate::PoolError;
use crate::found::newest_frame;
use crate::images::{images_at, is_needed, note, take_back};
use crate::pins::Pin;
use crate::slot::{OldImage, Slot};
use crate::table::{keep_at, reach_all};
use disk::Disk;
use items::Items;
use last_version::LastVersion;
use std::alloc::Global;

/// Whether a commit of a page would need an old image of it.
fn needs_image(slots: &[Slot], count: u32, pins: &[Pin], page: u32) -> bool
    ensures { (if result then 1 else 0) ≡ needs count (pinned_in pins.now) slots.now page }
{
    match slots.get(page as usize) {
        None => page < count && is_pinned(pins),
        Some(slot) => page < count && is_needed(pins, slot.images.as_slice()),
    }
}

/// Whether a commit is pinned, and so reads the newest version of a page without old images.
fn is_pinned(pins: &[Pin]) -> bool
    ensures { result ≡ reads_newest (pinned_in pins.now) [] }
{
    pins.len() > 0
}

/// How many old images a commit of a page would need: one or none.
fn count_at(slots: &[Slot], count: u32, pins: &[Pin], page: u32) -> u32
    ensures needed { result ≡ needs count (pinned_in pins.now) slots.now page }
    ensures most { result ≤ 1 }
{
    if needs_image(slots, count, pins, page) {
        1
    } else {
        0
    }
}

/// How many old images a commit of these pages would need.
pub(crate) fn count_needed(slots: &[Slot], count: u32, pins: &[Pin], numbers: &[u32]) -> u32
    requires { length numbers.now ≤ 1024 }
    ensures needed { result ≡ sum_by (needs count (pinned_in pins.now) slots.now) numbers.now }
    ensures most { result ≤ length numbers.now }
{
    let mut needed = 0;
    for page in numbers {
        needed += count_at(slots, count, pins, *page);
    }
    needed
}

/// The newest version of a page, until the next commit.
fn image_of<D: Disk>(
    alloc: Global,
    file: &mut LastVersion<D>,
    page: u32,
    last: u64,
) -> Result<OldImage, PoolError>
    requires { last < 2 ^ 64 - 1 }
    ensures until { IfOk result (λ image. image.until ≡ last + 1) }
    ensures value { IfOk result (λ image. IsTrue D.is_honest → shown_by file.old page ≡ image.page) }
    ensures there { IfOk result (λ image. is_some image.page ≡ nat_lt page (count_of file.old)) }
    ensures version { IsTrue D.is_honest → version_under file.new ≡ version_under file.old }
    ensures refusal { IfErr result (IsRefused ⊥ ⊥ (refused_of file.old) (refused_of file.new)) }
    ensures cause { IfErr result (IsTold (Tells file.new)) }
    ensures rising { refused_of file.old ≤ refused_of file.new }
    ensures reads { OnlyReads D.is_honest D.is_durable D.bytes D.synced D.writes D.settled D.moment D.left_since
        D.may_leave (device_under file.old) (device_under file.new) }
    ensures holds { HoldsAs file.old file.new }
{
    match newest_frame(alloc, file, page) {
        Ok(page) => Ok(OldImage {
            until: last + 1,
            page,
        }),
        Err(error) => Err(error),
    }
}

/// Keeps an old image of a page where a pinned commit will read one, and notes it at each of these.
fn prepare_page<D: Disk>(
    alloc: Global,
    file: &mut LastVersion<D>,
    slots: &mut Items<Slot>,
    pins: &[Pin],
    touched: &mut Items<Items<u32>>,
    page: u32,
    last: u64,
) -> Result<(), PoolError>
    requires room { page < length slots.old }
    requires lists { length pins.now ≤ length touched.old }
    requires numbered { last < 2 ^ 64 - 1 }
    ensures len { length slots.new ≡ length slots.old }
    ensures readied { OnOk result (IsReadied last (pinned_in pins.now) touched.new page (slot_at slots.old page).images (slot_at slots.new page).images) }
    ensures others { (n : ℕ) → n ≢ page → (slot_at slots.new n).images ≡ (slot_at slots.old n).images }
    ensures refused { OnErr result ((slot_at slots.new page).images ≡ (slot_at slots.old page).images) }
    ensures count { OnOk result (images_in slots.new ≡ images_in slots.old + needs (count_of file.old) (pinned_in pins.now) slots.old page) }
    ensures grows { Grows touched.old touched.new }
    ensures lists { length touched.new ≡ length touched.old }
    ensures shown { IsTrue D.is_honest → (c n : ℕ)
        → pages_at (shown_by file.old) slots.new c n ≡ pages_at (shown_by file.old) slots.old c n }
    ensures version { IsTrue D.is_honest → version_under file.new ≡ version_under file.old }
    ensures refusal { IfErr result (IsRefused ⊥ ⊥ (refused_of file.old) (refused_of file.new)) }
    ensures cause { IfErr result (IsTold (Tells file.new)) }
    ensures rising { refused_of file.old ≤ refused_of file.new }
    ensures reads { OnlyReads D.is_honest D.is_durable D.bytes D.synced D.writes D.settled D.moment D.left_since
        D.may_leave (device_under file.old) (device_under file.new) }
    ensures holds { HoldsAs file.old file.new }
{
    if !is_needed(pins, images_at(slots.as_slice(), page)) {
        return Ok(());
    }
    note(touched, pins, images_at(slots.as_slice(), page), page)?;
    let image = image_of(alloc, file, page, last)?;
    keep_at(slots, page, image)?;
    Ok(())
}

/// Keeps the old images that a commit of these pages needs. Where it is refused some are kept.
fn prepare_all<D: Disk>(
    alloc: Global,
    file: &mut LastVersion<D>,
    slots: &mut Items<Slot>,
    pins: &[Pin],
    touched: &mut Items<Items<u32>>,
    numbers: &[u32],
    last: u64,
) -> Result<(), PoolError>
    requires room { (k : ℕ) → k < length numbers.now → slice_index numbers.now k < length slots.old }
    requires lists { length pins.now ≤ length touched.old }
    requires numbered { last < 2 ^ 64 - 1 }
    requires ascend { Ascend numbers.now }
    requires before { list_any (λ c. nat_lt last c) (pinned_in pins.now) ≡ false }
    ensures len { length slots.new ≡ length slots.old }
    ensures images { (n : ℕ)
        → MayBeImaged numbers.now (length numbers.now) last (pinned_in pins.now) touched.new n (slot_at slots.old n).images (slot_at slots.new n).images }
    ensures ready { OnOk result ((k : ℕ) → k < length numbers.now
        → reads_newest (pinned_in pins.now) (slot_at slots.new (slice_index numbers.now k)).images ≡ false) }
    ensures count { OnOk result (images_in slots.new ≡ images_in slots.old + sum_by (needs (count_of file.old) (pinned_in pins.now) slots.old) numbers.now) }
    ensures grows { Grows touched.old touched.new }
    ensures lists { length touched.new ≡ length touched.old }
    ensures shown { IsTrue D.is_honest → (c n : ℕ)
        → pages_at (shown_by file.old) slots.new c n ≡ pages_at (shown_by file.old) slots.old c n }
    ensures version { IsTrue D.is_honest → version_under file.new ≡ version_under file.old }
    ensures refusal { IfErr result (IsRefused ⊥ ⊥ (refused_of file.old) (refused_of file.new)) }
    ensures cause { IfErr result (IsTold (Tells file.new)) }
    ensures rising { refused_of file.old ≤ refused_of file.new }
    ensures reads { OnlyReads D.is_honest D.is_durable D.bytes D.synced D.writes D.settled D.moment D.left_since
        D.may_leave (device_under file.old) (device_under file.new) }
    ensures holds { HoldsAs file.old file.new }
{
    for page in numbers {
        prepare_page(alloc, file, slots, pins, touched, *page, last)?;
    }
    Ok(())
}

/// Keeps the old images that a commit of these pages needs. Where it is refused none of them stays.
fn prepare<D: Disk>(
    alloc: Global,
    file: &mut LastVersion<D>,
    slots: &mut Items<Slot>,
    pins: &[Pin],
    touched: &mut Items<Items<u32>>,
    numbers: &[u32],
    last: u64,
) -> Result<(), PoolError>
    requires room { (k : ℕ) → k < length numbers.now → slice_index numbers.now k < length slots.old }
    requires lists { length pins.now ≤ length touched.old }
    requires numbered { last < 2 ^ 64 - 1 }
    requires ascend { Ascend numbers.now }
    requires before { list_any (λ c. nat_lt last c) (pinned_in pins.now) ≡ false }
    requires old { (n : ℕ) → covers last (slot_at slots.old n).images ≡ false }
    ensures len { OnOk result (length slots.new ≡ length slots.old) }
    ensures images { OnOk result ((n : ℕ)
        → MayBeImaged numbers.now (length numbers.now) last (pinned_in pins.now) touched.new n (slot_at slots.old n).images (slot_at slots.new n).images) }
    ensures left { OnErr result ((n : ℕ) → (slot_at slots.new n).images ≡ (slot_at slots.old n).images) }
    ensures ready { OnOk result ((k : ℕ) → k < length numbers.now
        → reads_newest (pinned_in pins.now) (slot_at slots.new (slice_index numbers.now k)).images ≡ false) }
    ensures count { OnOk result (images_in slots.new ≡ images_in slots.old + sum_by (needs (count_of file.old) (pinned_in pins.now) slots.old) numbers.now) }
    ensures grows { Grows touched.old touched.new }
    ensures lists { length touched.new ≡ length touched.old }
    ensures shown { OnOk result (IsTrue D.is_honest → (c n : ℕ)
        → pages_at (shown_by file.old) slots.new c n ≡ pages_at (shown_by file.old) slots.old c n) }
    ensures version { IsTrue D.is_honest → version_under file.new ≡ version_under file.old }
    ensures refusal { IfErr result (IsRefused ⊥ ⊥ (refused_of file.old) (refused_of file.new)) }
    ensures cause { IfErr result (IsTold (Tells file.new)) }
    ensures rising { refused_of file.old ≤ refused_of file.new }
    ensures reads { OnlyReads D.is_honest D.is_durable D.bytes D.synced D.writes D.settled D.moment D.left_since
        D.may_leave (device_under file.old) (device_under file.new) }
    ensures holds { HoldsAs file.old file.new }
{
    match prepare_all(alloc, file, slots, pins, touched, numbers, last) {
        Ok(()) => Ok(()),
        Err(error) => {
            take_back(slots, numbers, last);
            Err(error)
        }
    }
}

/// Readies these pages for a commit: room for them, and the old images that it needs. Where it is
/// refused no image is kept.
pub(crate) fn make_ready<D: Disk>(
    alloc: Global,
    file: &mut LastVersion<D>,
    slots: &mut Items<Slot>,
    pins: &[Pin],
    touched: &mut Items<Items<u32>>,
    numbers: &[u32],
    last: u64,
) -> Result<(), PoolError>
    requires lists { length pins.now ≤ length touched.old }
    requires numbered { last < 2 ^ 64 - 1 }
    requires ascend { Ascend numbers.now }
    requires before { list_any (λ c. nat_lt last c) (pinned_in pins.now) ≡ false }
    requires old { (n : ℕ) → covers last (slot_at slots.old n).images ≡ false }
    ensures images { OnOk result ((n : ℕ)
        → MayBeImaged numbers.now (length numbers.now) last (pinned_in pins.now) touched.new n (slot_at slots.old n).images (slot_at slots.new n).images) }
    ensures left { OnErr result ((n : ℕ) → (slot_at slots.new n).images ≡ (slot_at slots.old n).images) }
    ensures ready { OnOk result ((k : ℕ) → k < length numbers.now
        → reads_newest (pinned_in pins.now) (slot_at slots.new (slice_index numbers.now k)).images ≡ false) }
    ensures count { OnOk result (images_in slots.new ≡ images_in slots.old + sum_by (needs (count_of file.old) (pinned_in pins.now) slots.old) numbers.now) }
    ensures grows { Grows touched.old touched.new }
    ensures lists { length touched.new ≡ length touched.old }
    ensures shown { OnOk result (IsTrue D.is_honest → (c n : ℕ)
        → pages_at (shown_by file.old) slots.new c n ≡ pages_at (shown_by file.old) slots.old c n) }
    ensures version { IsTrue D.is_honest → version_under file.new ≡ version_under file.old }
    ensures refusal { IfErr result (IsRefused ⊥ ⊥ (refused_of file.old) (refused_of file.new)) }
    ensures cause { IfErr result (IsTold (Tells file.new)) }
    ensures rising { refused_of file.old ≤ refused_of file.new }
    ensures reads { OnlyReads D.is_honest D.is_durable D.bytes D.synced D.writes D.settled D.moment D.left_since
        D.may_leave (device_under file.old) (device_under file.new) }
    ensures holds { HoldsAs file.old file.new }
{
    reach_all(alloc, slots, numbers)?;
    prepare(alloc, file, slots, pins, touched, numbers, last)
}
