//! What callers may rely on beside the calls.
ghost use Rattle.std.specs.Prelude.{◌≡◌, ℕ, List, IsSome};
ghost use Rattle.sqlval.specs.declared.schema.Table.{Table};
ghost use Rattle.page_space.specs.Space.{PageMap};
ghost use Rattle.btree_read.specs.Lists.{Has};
ghost use Rattle.catalog.specs.Held.{HoldsSchema};

/// The tables whose schema pages hold at a root are one list.
pub fn tables_are_one()
    ensures { (pages : PageMap) (root : ℕ) (owned also : List ℕ) (tables others : List Table)
        → HoldsSchema pages root owned tables → HoldsSchema pages root also others → tables ≡ others }
{}

/// A schema stays where no page that its tree owns changes; these pages are in use.
pub fn schemas_stay()
    ensures stays { (old new : PageMap) (root : ℕ) (owned : List ℕ) (tables : List Table)
        → ((n : ℕ) → Has n owned → new n ≡ old n) → HoldsSchema old root owned tables
        → HoldsSchema new root owned tables }
    ensures used { (pages : PageMap) (root : ℕ) (owned : List ℕ) (tables : List Table)
        → HoldsSchema pages root owned tables → (n : ℕ) → Has n owned → IsSome (pages n) }
{}
