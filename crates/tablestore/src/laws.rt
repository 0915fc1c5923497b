//! What callers may rely on beside the calls.
ghost use Rattle.std.specs.Prelude.{◌≡◌, ℕ, List, IsSome};
ghost use Rattle.store.specs.Contents as stored;
ghost use Rattle.page_space.specs.Space.{PageMap};
ghost use Rattle.btree_read.specs.Lists.{Has};
ghost use Rattle.tablestore.specs.Held.{HoldsRows};

/// The rows that pages hold at a root are one list.
pub fn rows_are_one()
    ensures { (pages : PageMap) (root : ℕ) (owned also : List ℕ) (rows others : List stored.Entry)
        → HoldsRows pages root owned rows → HoldsRows pages root also others → rows ≡ others }
{}

/// Rows stay where no page that their tree owns changes; these pages are in use.
pub fn rows_stay()
    ensures stays { (old new : PageMap) (root : ℕ) (owned : List ℕ) (rows : List stored.Entry)
        → ((n : ℕ) → Has n owned → new n ≡ old n) → HoldsRows old root owned rows → HoldsRows new root owned rows }
    ensures used { (pages : PageMap) (root : ℕ) (owned : List ℕ) (rows : List stored.Entry)
        → HoldsRows pages root owned rows → (n : ℕ) → Has n owned → IsSome (pages n) }
{}
