//! What callers may rely on beside the calls.
ghost use Rattle.std.specs.Prelude.{◌≡◌, ℕ, List, IsSome};
ghost use Rattle.store.specs.Contents as stored;
ghost use Rattle.page_space.specs.Space.{PageMap};
ghost use Rattle.btree_read.specs.Lists.{Has};
ghost use Rattle.index_trees.specs.Indexed.{HoldsIndex, IsRow};

/// An index is one of the rows alone, in whatever order and however often they are listed.
pub fn same_rows_same_index()
    ensures { (pages : PageMap) (root : ℕ) (owned columns : List ℕ) (rows others : List stored.Entry)
        → ((row : stored.Entry) → IsRow row rows → IsRow row others)
        → ((row : stored.Entry) → IsRow row others → IsRow row rows)
        → HoldsIndex pages root owned columns rows → HoldsIndex pages root owned columns others }
{}

/// An index stays where no page that its tree owns changes; these pages are in use.
pub fn indexes_stay()
    ensures stays { (old new : PageMap) (root : ℕ) (owned columns : List ℕ) (rows : List stored.Entry)
        → ((n : ℕ) → Has n owned → new n ≡ old n) → HoldsIndex old root owned columns rows
        → HoldsIndex new root owned columns rows }
    ensures used { (pages : PageMap) (root : ℕ) (owned columns : List ℕ) (rows : List stored.Entry)
        → HoldsIndex pages root owned columns rows → (n : ℕ) → Has n owned → IsSome (pages n) }
{}
