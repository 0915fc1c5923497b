//! Which old images are needed.
ghost use Rattle.std.specs.Prelude.{◌≡◌, ◌≢◌, ◌==◌, ◌&&◌, ◌++◌, ◌∷◌, [], ℕ, ◌+◌, ◌-◌, ◌<◌, ◌≤◌, nat_lt, if◌then◌else◌, true, false, not, length, take, slice_index, slice_index_or, OnOk, None, Some, List, Option};
ghost use Rattle.std.specs.List.{list_any, remove};
ghost use Rattle.std.specs.Option.{is_some};
ghost use Rattle.pool.specs.declared.slot.OldImage.{OldImage};
ghost use Rattle.pool.specs.Images.{covers, reads_newest, reads, no_image, AreNeeded, with_bytes, images_in, pinned_in};
ghost use Rattle.pool.specs.Ready.{KeepsSeen, Grows, Ascend};
ghost use Rattle.pool.specs.Slots.{slot_at};

use crate::pins::Pin;
use crate::slot::{OldImage, Slot};
use items::Items;
use std::alloc::AllocError;

/// The images of a page.
pub(crate) fn images_at(slots: &[Slot], page: u32) -> &[OldImage]
    requires { page < length slots.now }
    ensures { result.now ≡ (slot_at slots.now page).images }
{
    slots[page as usize].images.as_slice()
}

/// Whether one of these images is of this commit.
fn is_covered(images: &[OldImage], number: u64) -> bool
    ensures { result ≡ covers number images.now }
{
    images.iter().any(|o| number < o.until)
}

/// Whether a pinned commit would read the newest version.
pub(crate) fn is_needed(pins: &[Pin], images: &[OldImage]) -> bool
    ensures { result ≡ reads_newest (pinned_in pins.now) images.now }
{
    for pin in pins {
        if !is_covered(images, pin.number) {
            return true;
        }
    }
    false
}

/// Puts a page into the list at this place.
fn note_at(touched: &mut Items<Items<u32>>, place: usize, page: u32) -> Result<(), AllocError>
    requires { place < length touched.old }
    ensures grows { Grows touched.old touched.new }
    ensures noted { OnOk result (list_any (λ m. m == page) (slice_index_or touched.new place []) ≡ true) }
    ensures len { length touched.new ≡ length touched.old }
{
    match touched.get_mut(place) {
        Some(pages) => pages.push(page),
        None => Ok(()),
    }
}

/// Notes a page at the pin of this place, where its commit would read the newest version.
fn note_pin(
    touched: &mut Items<Items<u32>>,
    place: usize,
    pin: &Pin,
    images: &[OldImage],
    page: u32,
) -> Result<(), AllocError>
    requires { place < length touched.old }
    ensures grows { Grows touched.old touched.new }
    ensures noted { OnOk result (covers pin.now.number images.now ≡ false
        → list_any (λ m. m == page) (slice_index_or touched.new place []) ≡ true) }
    ensures len { length touched.new ≡ length touched.old }
{
    if is_covered(images, pin.number) {
        return Ok(());
    }
    note_at(touched, place, page)
}

/// Notes at each pinned commit that would read the newest version of a page that it will read an
/// old image.
pub(crate) fn note(
    touched: &mut Items<Items<u32>>,
    pins: &[Pin],
    images: &[OldImage],
    page: u32,
) -> Result<(), AllocError>
    requires { length pins.now ≤ length touched.old }
    ensures grows { Grows touched.old touched.new }
    ensures noted { OnOk result ((k : ℕ) → k < length pins.now
        → covers (slice_index_or (pinned_in pins.now) k 0) images.now ≡ false
        → list_any (λ m. m == page) (slice_index_or touched.new k []) ≡ true) }
    ensures len { length touched.new ≡ length touched.old }
{
    let mut place = 0;
    for pin in pins {
        note_pin(touched, place, pin, images, page)?;
        place += 1;
    }
    Ok(())
}

/// Whether a commit reads the image at this place.
fn is_read_at(images: &[OldImage], place: usize, number: u64) -> bool
    requires { place < length images.now }
    ensures { result ≡ reads images.now place number }
{
    number < images[place].until && !is_covered(&images[..place], number)
}

/// Whether a pinned commit reads the image at this place.
fn is_read(images: &[OldImage], place: usize, pins: &[Pin]) -> bool
    requires { place < length images.now }
    ensures { result ≡ list_any (reads images.now place) (pinned_in pins.now) }
{
    for pin in pins {
        if is_read_at(images, place, pin.number) {
            return true;
        }
    }
    false
}

/// Whether an image has bytes.
fn has_bytes(image: &OldImage) -> bool
    ensures { result ≡ is_some image.now.page }
{
    image.page.is_some()
}

/// Lowers a count by one, or not.
fn lower(count: &mut u32, one: bool)
    requires { (if one then 1 else 0) ≤ count.old }
    ensures { count.new + (if one then 1 else 0) ≡ count.old }
{
    if one {
        *count -= 1;
    }
}

/// Takes an image out, and counts it off where it has bytes.
fn drop_image(images: &mut Items<OldImage>, place: usize, count: &mut u32)
    requires place { place < length images.old }
    requires few { with_bytes images.old ≤ count.old }
    ensures removed { images.new ≡ remove images.old place }
    ensures count { count.new + with_bytes images.old ≡ count.old + with_bytes images.new }
    ensures fewer { with_bytes images.new ≤ with_bytes images.old }
{
    let image = images.remove(place);
    lower(count, has_bytes(&image));
}

/// Drops the image at this place, where no pinned commit reads it. Answers the next place to look
/// at.
fn look_at(images: &mut Items<OldImage>, place: usize, pins: &[Pin], count: &mut u32) -> usize
    requires place { place < length images.old }
    requires few { with_bytes images.old ≤ count.old }
    ensures count { count.new + with_bytes images.old ≡ count.old + with_bytes images.new }
    ensures fewer { with_bytes images.new ≤ with_bytes images.old }
    ensures shown { KeepsSeen pins.now images.old images.new }
    ensures needed { ((i : ℕ) → i < place → list_any (reads images.old i) (pinned_in pins.now) ≡ true)
        → (i : ℕ) → i < result → list_any (reads images.new i) (pinned_in pins.now) ≡ true }
    ensures covers { (c : ℕ) → covers c images.new ≡ true → covers c images.old ≡ true }
    ensures nearer { length images.new - result < length images.old - place }
{
    if is_read(images.as_slice(), place, pins) {
        return place + 1;
    }
    drop_image(images, place, count);
    place
}

/// Drops the images that no pinned commit reads, and counts those off that have bytes. Takes no
/// memory.
fn drop_unread(images: &mut Items<OldImage>, pins: &[Pin], count: &mut u32)
    requires { with_bytes images.old ≤ count.old }
    ensures count { count.new + with_bytes images.old ≡ count.old + with_bytes images.new }
    ensures fewer { with_bytes images.new ≤ with_bytes images.old }
    ensures shown { KeepsSeen pins.now images.old images.new }
    ensures needed { AreNeeded (pinned_in pins.now) images.new }
    ensures covers { (c : ℕ) → covers c images.new ≡ true → covers c images.old ≡ true }
{
    let mut place = 0;
    'looked: while place < images.len() {
        place = look_at(images, place, pins, count);
    }
}

/// The same at one page.
fn drop_at(slots: &mut Items<Slot>, pins: &[Pin], page: u32, count: &mut u32)
    requires { with_bytes (slot_at slots.old page).images ≤ count.old }
    ensures len { length slots.new ≡ length slots.old }
    ensures others { (n : ℕ) → n ≢ page → (slot_at slots.new n).images ≡ (slot_at slots.old n).images }
    ensures count { count.new + with_bytes (slot_at slots.old page).images ≡ count.old + with_bytes (slot_at slots.new page).images }
    ensures fewer { with_bytes (slot_at slots.new page).images ≤ with_bytes (slot_at slots.old page).images }
    ensures shown { KeepsSeen pins.now (slot_at slots.old page).images (slot_at slots.new page).images }
    ensures needed { AreNeeded (pinned_in pins.now) (slot_at slots.new page).images }
    ensures covers { (c : ℕ) → covers c (slot_at slots.new page).images ≡ true
        → covers c (slot_at slots.old page).images ≡ true }
{
    match slots.get_mut(page as usize) {
        Some(slot) => drop_unread(&mut slot.images, pins, count),
        None => {}
    }
}

/// The same at each of these pages. Takes no memory.
pub(crate) fn drop_pages(slots: &mut Items<Slot>, pins: &[Pin], pages: &[u32], count: &mut u32)
    requires { count.old ≡ images_in slots.old }
    ensures count { count.new ≡ images_in slots.new }
    ensures fewer { count.new ≤ count.old }
    ensures shown { (n : ℕ) → KeepsSeen pins.now (slot_at slots.old n).images (slot_at slots.new n).images }
    ensures covers { (n c : ℕ) → covers c (slot_at slots.new n).images ≡ true
        → covers c (slot_at slots.old n).images ≡ true }
    ensures needed { (n : ℕ) → list_any (λ m. m == n) pages.now ≡ true
        → AreNeeded (pinned_in pins.now) (slot_at slots.new n).images }
    ensures others { (n : ℕ) → list_any (λ m. m == n) pages.now ≡ false
        → (slot_at slots.new n).images ≡ (slot_at slots.old n).images }
{
    for page in pages {
        drop_at(slots, pins, *page, count);
    }
}

/// Takes the last image out where it is from after this commit.
fn take_newest(images: &mut Items<OldImage>, last: u64)
    ensures same { covers last images.old ≡ false → images.new ≡ images.old }
    ensures taken { (others : List OldImage) (image : OldImage) → last < image.until
        → images.old ≡ others ++ image ∷ [] → images.new ≡ others }
{
    let len = images.len();
    if len > 0 && last < images.as_slice()[len - 1].until {
        let _ = images.pop();
    }
}

/// The same at one page.
fn take_at(slots: &mut Items<Slot>, page: u32, last: u64)
    ensures others { (n : ℕ) → n ≢ page → (slot_at slots.new n).images ≡ (slot_at slots.old n).images }
    ensures same { covers last (slot_at slots.old page).images ≡ false
        → (slot_at slots.new page).images ≡ (slot_at slots.old page).images }
    ensures taken { (others : List OldImage) (image : OldImage) → last < image.until
        → (slot_at slots.old page).images ≡ others ++ image ∷ [] → (slot_at slots.new page).images ≡ others }
{
    match slots.get_mut(page as usize) {
        Some(slot) => take_newest(&mut slot.images, last),
        None => {}
    }
}

/// Takes back the images that were kept for the commit after this one, of these pages.
pub(crate) fn take_back(slots: &mut Items<Slot>, numbers: &[u32], last: u64)
    requires { Ascend numbers.now }
    ensures same { (n : ℕ) → covers last (slot_at slots.old n).images ≡ false
        → (slot_at slots.new n).images ≡ (slot_at slots.old n).images }
    ensures taken { (k : ℕ) → k < length numbers.now → (others : List OldImage) (image : OldImage) → last < image.until
        → (slot_at slots.old (slice_index numbers.now k)).images ≡ others ++ image ∷ []
        → (slot_at slots.new (slice_index numbers.now k)).images ≡ others }
{
    for page in numbers {
        take_at(slots, *page, last);
    }
}
