//! Which commits are pinned.
ghost use Rattle.std.specs.Prelude.{◌≡◌, ◌⊎◌, ℕ, ◌<◌, ◌-◌, ◌+◌, ◌++◌, ◌∷◌, [], ◌==◌, if◌then◌else◌, length, slice_get, OnOk, OnErr, IfSome, IsNone, IsTrue, Some};
ghost use Rattle.std.specs.List.{remove};
ghost use Rattle.pool.specs.Images.{pinned_in};
ghost use Rattle.pool.specs.Pins.{pins_at};

use items::Items;
use std::alloc::AllocError;

/// A pinned commit.
#[derive(Drop)]
pub(crate) struct Pin {
    pub(crate) number: u64,
    /// How many pins it has besides one.
    pub(crate) more: u64,
}

/// Where a commit stands in the list, and how many pins it has there besides one.
fn place_of(pins: &[Pin], number: u64) -> Option<(usize, u64)>
    ensures some { IfSome result (λ found. slice_get pins.now found.0 ≡ Some (record { number = number; more = found.1 })) }
    ensures none { IsNone result → pins_at pins.now number ≡ 0 }
{
    for (place, pin) in pins.iter().enumerate() {
        if pin.number == number {
            return Some((place, pin.more));
        }
    }
    None
}

/// Pins a commit once more.
pub(crate) fn pin_once(pins: &mut Items<Pin>, number: u64) -> Result<(), AllocError>
    ensures pinned { OnOk result ((c : ℕ)
        → pins_at pins.new c ≡ (if number == c then pins_at pins.old c + 1 else pins_at pins.old c)) }
    ensures refused { OnErr result (pins.new ≡ pins.old) }
    ensures numbers { (pinned_in pins.new ≡ pinned_in pins.old)
        ⊎ (pinned_in pins.new ≡ pinned_in pins.old ++ number ∷ []) }
{
    match place_of(pins.as_slice(), number) {
        Some((place, more)) => {
            if more < u64::MAX {
                pins.set(
                    place,
                    Pin {
                        number,
                        more: more + 1,
                    },
                );
                return Ok(());
            }
            pins.push(Pin { number, more: 0 })
        }
        None => pins.push(Pin { number, more: 0 }),
    }
}

/// Takes one pin of a commit away. Answers its place where that was its last one, and it is out of
/// the list.
pub(crate) fn unpin_once(pins: &mut Items<Pin>, number: u64) -> Option<usize>
    ensures unpinned { (c : ℕ)
        → pins_at pins.new c ≡ (if number == c then pins_at pins.old c - 1 else pins_at pins.old c) }
    ensures same { IsNone result → pinned_in pins.new ≡ pinned_in pins.old }
    ensures removed { IfSome result (λ place. (place < length pins.old)
        × (pinned_in pins.new ≡ remove (pinned_in pins.old) place)) }
{
    match place_of(pins.as_slice(), number) {
        Some((place, more)) => {
            if more > 0 {
                pins.set(
                    place,
                    Pin {
                        number,
                        more: more - 1,
                    },
                );
                return None;
            }
            let _ = pins.remove(place);
            Some(place)
        }
        None => None,
    }
}
