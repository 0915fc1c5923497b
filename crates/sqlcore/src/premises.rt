//! What follows from the definitions. The function does nothing: its contract is the law.
ghost use Rattle.std.specs.Prelude.{◌≡◌, ℕ, Option, Some};
ghost use Rattle.denote.specs.Database.{CheckReading, IsGood};
ghost use Rattle.session_laws.specs.Sound.{IsGoodWorld};
ghost use Rattle.store.specs.Stored.{Stored};
ghost use Rattle.transactions.specs.Orderly.{IsOrderly};
ghost use Rattle.transactions.specs.Shown.{Kept, Slots, slot_at, shown};
ghost use Rattle.sessions.specs.Seen.{seen_in};

/// In a world whose databases are good each session sees a good database: what a call of a core
/// relies on. That databases stay good is a law of runs.
pub fn good_worlds_show_good_databases()
    ensures { (reading : CheckReading) (st : Stored) (writer : Option ℕ) (slots : Slots) (s : ℕ) (kept : Kept)
        → IsOrderly st writer → slot_at slots s ≡ Some kept
        → IsGoodWorld reading (shown st writer slots) → IsGood reading (seen_in st writer s) }
{}
