//! The table of old images: a slot for each number up to the greatest that was committed.
ghost use Rattle.std.specs.Prelude.{◌≡◌, ◌≢◌, ℕ, ◌<◌, ◌≤◌, ◌++◌, ◌∷◌, [], length, OnOk, OnErr, slice_index};
ghost use Rattle.pool.specs.Slots.{slot_at};

use crate::slot::{OldImage, Slot};
use items::Items;
use std::alloc::{AllocError, Global};

/// Makes room for a page.
fn reach(alloc: Global, slots: &mut Items<Slot>, page: u32) -> Result<(), AllocError>
    ensures same { (n : ℕ) → slot_at slots.new n ≡ slot_at slots.old n }
    ensures room { OnOk result (page < length slots.new) }
    ensures longer { length slots.old ≤ length slots.new }
{
    let place = page as usize;
    'filled: while slots.len() <= place {
        slots.push(Slot {
            images: Items::new(alloc),
        })?;
    }
    Ok(())
}

/// Makes room for these pages.
pub(crate) fn reach_all(
    alloc: Global,
    slots: &mut Items<Slot>,
    numbers: &[u32],
) -> Result<(), AllocError>
    ensures same { (n : ℕ) → slot_at slots.new n ≡ slot_at slots.old n }
    ensures room { OnOk result ((k : ℕ) → k < length numbers.now → slice_index numbers.now k < length slots.new) }
{
    for page in numbers {
        reach(alloc, slots, *page)?;
    }
    Ok(())
}

/// Keeps an image of a page.
pub(crate) fn keep_at(slots: &mut Items<Slot>, page: u32, image: OldImage) -> Result<(), AllocError>
    requires { page < length slots.old }
    ensures kept { OnOk result ((slot_at slots.new page).images ≡ (slot_at slots.old page).images ++ image ∷ []) }
    ensures refused { OnErr result ((slot_at slots.new page).images ≡ (slot_at slots.old page).images) }
    ensures others { (n : ℕ) → n ≢ page → (slot_at slots.new n).images ≡ (slot_at slots.old n).images }
    ensures len { length slots.new ≡ length slots.old }
{
    match slots.get_mut(page as usize) {
        Some(slot) => slot.images.push(image),
        None => Ok(()),
    }
}
