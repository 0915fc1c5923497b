//! What a tree's callers may rely on beside its calls.

ghost use Rattle.std.specs.Prelude.{◌≡◌, ℕ, ◌⊎◌, List, IsSome};
ghost use Rattle.page_space.specs.Space.{PageMap};
ghost use Rattle.btree_read.specs.declared.entry.Entry.{Entry};
ghost use Rattle.btree_read.specs.Lists.{Has, Apart};
ghost use Rattle.btree_read.specs.Tree.{IsTree};
ghost use Rattle.btree.specs.Grow.{AreKept};
ghost use Rattle.btree.specs.Written.{IsWritten};

/// A tree stays while no page that it owns changes; so one that shares no page with a changed tree
/// stays.
pub fn other_trees_stay()
    ensures stays { (old new : PageMap) (root : ℕ) (owned : List ℕ) (entries : List Entry)
        → ((n : ℕ) → Has n owned → new n ≡ old n) → IsTree old root owned entries → IsTree new root owned entries }
    ensures apart { (pages : PageMap) (root : ℕ) (owned : List ℕ) (entries : List Entry)
        → IsTree pages root owned entries → Apart owned }
    ensures used { (pages : PageMap) (root : ℕ) (owned : List ℕ) (entries : List Entry)
        → IsTree pages root owned entries → (n : ℕ) → Has n owned → IsSome (pages n) }
{}

/// No page is lost, and none is at once free and of a tree: behind an insertion just those pages
/// are in use that the tree owns now, and those that were in use and not its own.
pub fn insertions_lose_no_page()
    ensures used { (old new : PageMap) (owned : List ℕ) (entries : List Entry) (root : ℕ) (w : IsWritten old new owned entries root)
        → AreKept old new owned w.now_owned
        → (n : ℕ) → IsSome (new n) → Has n w.now_owned ⊎ (IsSome (old n) × (Has n owned → ⊥)) }
    ensures kept { (old new : PageMap) (owned : List ℕ) (entries : List Entry) (root : ℕ) (w : IsWritten old new owned entries root)
        → (n : ℕ) → Has n w.now_owned ⊎ (IsSome (old n) × (Has n owned → ⊥)) → IsSome (new n) }
{}
