//! The numbers of sessions.
ghost use Rattle.std.specs.Prelude.{◌≡◌, ⊤, ℕ, ◌<◌, length, slice_set, true, is_some, IsSome, MatchOption, None, Some};
ghost use Rattle.cursors.specs.ByName.{IsShut};
ghost use Rattle.transactions.specs.Shown.{fresh};
ghost use Rattle.sessions.specs.Numbers.{held_at, kept_of, no_slots};

use crate::falling::let_fall;
use ast::AccessMode;
use cursors::Cursors;
use std::alloc::Global;

/// The greatest number of sessions at a time.
pub const MOST_SESSIONS: usize = 64;

/// What is kept of a session: what its transaction may do, or its next one, and its cursors.
#[derive(Drop)]
pub struct Slot {
    pub(crate) mode: AccessMode,
    pub(crate) cursors: Cursors,
}

/// What is kept of a session that is new.
pub(crate) fn new_slot(alloc: Global) -> Slot
    ensures kept { kept_of result ≡ fresh }
    ensures shut { IsShut result.cursors }
{
    Slot {
        mode: AccessMode::ReadWrite,
        cursors: Cursors::new(alloc),
    }
}

/// Of each session that stands, by its number, what is kept of it.
#[derive(Drop)]
pub(crate) struct Slots {
    pub(crate) all: [Option<Slot>; MOST_SESSIONS],
    ghost sized: { length all ≡ 64 },
}

impl Slots {
    /// No session stands.
    pub(crate) fn new() -> Slots
        ensures { result.all ≡ no_slots }
    {
        Slots {
            all: [
                None, None, None, None, None, None, None, None, None, None, None, None, None, None,
                None, None, None, None, None, None, None, None, None, None, None, None, None, None,
                None, None, None, None, None, None, None, None, None, None, None, None, None, None,
                None, None, None, None, None, None, None, None, None, None, None, None, None, None,
                None, None, None, None, None, None, None, None,
            ],
        }
    }

    /// Whether the session of this number stands.
    pub(crate) fn stands(&self, number: u64) -> bool
        ensures is { result ≡ is_some (held_at self.now.all number) }
        ensures within { result ≡ true → number < 64 }
    {
        number < MOST_SESSIONS as u64 && self.all[number as usize].is_some()
    }

    /// Takes out what is kept of the session of this number, which stands.
    pub(crate) fn take(&mut self, alloc: Global, number: u64) -> Slot
        requires within { number < 64 }
        requires stands { is_some (held_at self.old.all number) ≡ true }
        ensures is { held_at self.old.all number ≡ Some result }
        ensures left { self.new.all ≡ slice_set self.old.all number None }
    {
        match std::mem::replace(&mut self.all[number as usize], None) {
            Some(slot) => slot,
            None => new_slot(alloc),
        }
    }

    /// Keeps this of a session, or nothing where it ends.
    pub(crate) fn set(&mut self, number: u64, slot: Option<Slot>)
        requires { number < 64 }
        ensures { self.new.all ≡ slice_set self.old.all number slot }
    {
        let was = std::mem::replace(&mut self.all[number as usize], slot);
        let_fall(was);
    }

    /// The least number without a session.
    pub(crate) fn first_free(&self) -> Option<u64>
        ensures full { MatchOption result ((k : ℕ) → k < 64 → IsSome (held_at self.now.all k)) (λ number. ⊤) }
        ensures free { MatchOption result ⊤ (λ number. held_at self.now.all number ≡ None) }
        ensures within { MatchOption result ⊤ (λ number. number < 64) }
        ensures sized { length self.now.all ≡ 64 }
        ensures least { MatchOption result ⊤ (λ number. (k : ℕ) → k < number → IsSome (held_at self.now.all k)) }
    {
        for number in 0..MOST_SESSIONS as u64 {
            if !self.stands(number) {
                return Some(number);
            }
        }
        None
    }
}
