//! What callers may rely on beside the calls.

ghost use Rattle.std.specs.Prelude.{◌≡◌, ◌≢◌, ℕ, ◌⊎◌, List, None, IsSome};
ghost use Rattle.page_space.specs.Space.{PageMap};
ghost use Rattle.btree_read.specs.declared.entry.Entry.{Entry};
ghost use Rattle.btree_read.specs.Lists.{Has};
ghost use Rattle.btree_read.specs.Nodes.{Key};
ghost use Rattle.btree_read.specs.Sorted.{Ascends, get_of};
ghost use Rattle.btree_read.specs.Tree.{IsTree};
ghost use Rattle.btree_remove.specs.Dropped.{AreDropped};
ghost use Rattle.btree_remove.specs.Removed.{IsLess, IsRemoved};

/// Where one entry is gone from entries in order, its key is not found, and every other key finds
/// what it found.
pub fn one_key_is_gone()
    ensures gone { (k : Key) (was now : List Entry) → Ascends was → IsLess k was now → get_of k now ≡ None }
    ensures others { (k j : Key) (was now : List Entry) → Ascends was → IsLess k was now → j ≢ k
        → get_of j now ≡ get_of j was }
{}

/// No page is lost, and none is at once free and of a tree: behind a removal, and behind the drop
/// of a tree, just those pages are in use that the tree owns now, and those that were in use and
/// not its own.
pub fn no_page_is_lost()
    ensures removed { (old new : PageMap) (owned : List ℕ) (entries : List Entry) (k : Key) (root : ℕ) (w : IsRemoved old new owned entries k root) (n : ℕ)
        → IsSome (new n) → Has n w.now_owned ⊎ (IsSome (old n) × (Has n owned → ⊥)) }
    ensures kept { (old new : PageMap) (owned : List ℕ) (entries : List Entry) (k : Key) (root : ℕ) (w : IsRemoved old new owned entries k root) (n : ℕ)
        → Has n w.now_owned ⊎ (IsSome (old n) × (Has n owned → ⊥)) → IsSome (new n) }
    ensures dropped { (old new : PageMap) (owned : List ℕ) → AreDropped old new owned → (n : ℕ) → IsSome (new n)
        → IsSome (old n) × (Has n owned → ⊥) }
    ensures beside { (old new : PageMap) (owned : List ℕ) → AreDropped old new owned → (n : ℕ)
        → IsSome (old n) × (Has n owned → ⊥) → IsSome (new n) }
{}

/// A tree that shares no page with the one of which an entry is removed stays, and shares no page
/// with what is left of it.
pub fn trees_beside_stay()
    ensures stays { (old new : PageMap) (owned : List ℕ) (entries : List Entry) (k : Key) (root : ℕ)
        → IsRemoved old new owned entries k root
        → (other : ℕ) (theirs : List ℕ) (kept : List Entry) → ((n : ℕ) → Has n theirs → Has n owned → ⊥)
        → IsTree old other theirs kept → IsTree new other theirs kept }
    ensures apart { (old new : PageMap) (owned : List ℕ) (entries : List Entry) (k : Key) (root : ℕ) (w : IsRemoved old new owned entries k root)
        → (other : ℕ) (theirs : List ℕ) (kept : List Entry) → ((n : ℕ) → Has n theirs → Has n owned → ⊥)
        → IsTree old other theirs kept
        → (n : ℕ) → Has n theirs → Has n w.now_owned → ⊥ }
{}
