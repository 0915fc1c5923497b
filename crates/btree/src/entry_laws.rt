//! What a tree's entries are known by.
ghost use Rattle.std.specs.Prelude.{◌≡◌, ℕ, List};
ghost use Rattle.page_space.specs.Space.{PageMap};
ghost use Rattle.btree_read.specs.declared.entry.Entry.{Entry};
ghost use Rattle.btree_read.specs.Sorted.{Ascends};
ghost use Rattle.btree_read.specs.Tree.{IsTree};

/// The keys of a tree's entries strictly rise.
pub fn entries_ascend()
    ensures { (pages : PageMap) (root : ℕ) (owned : List ℕ) (entries : List Entry) → IsTree pages root owned entries
        → Ascends entries }
{}

/// The trees that pages have at a root have the same entries, so there is one list of them at most.
pub fn entries_are_one()
    ensures { (pages : PageMap) (root : ℕ) (owned also : List ℕ) (entries others : List Entry)
        → IsTree pages root owned entries → IsTree pages root also others → entries ≡ others }
{}
