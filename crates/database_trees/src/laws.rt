//! What callers may rely on beside the calls.
ghost use Rattle.std.specs.Prelude.{◌≡◌, ◌++◌, ℕ, [], List, None, IsSome};
ghost use Rattle.std.specs.FinMap.{empty};
ghost use Rattle.page_space.specs.Space.{PageMap};
ghost use Rattle.store.specs.Contents.{Contents};
ghost use Rattle.btree_read.specs.Lists.{Has};
ghost use Rattle.stored_tables.specs.Held.{HoldsTables, contents_of as contents_of_rows};
ghost use Rattle.database_trees.specs.Trees.{pages_of};
ghost use Rattle.database_trees.specs.Held.{TableAt, trees_of, rows_of_tables, HoldsDatabase, IsAllOwned, contents_of};
ghost use Rattle.database_trees.specs.Changed.{DatabaseWritten, DatabaseOwned};

/// A database stays where no page in use changes.
pub fn database_stays()
    ensures { (old new : PageMap) (root : ℕ) (tables : List TableAt) → ((n : ℕ) → IsSome (old n) → new n ≡ old n)
        → HoldsDatabase old root tables → HoldsDatabase new root tables }
{}

/// At root 0 pages hold the database without tables, and where none is in use, all are owned.
pub fn no_database_at_first()
    ensures holds { (pages : PageMap) → HoldsDatabase pages 0 [] }
    ensures owned { (pages : PageMap) → ((n : ℕ) → pages n ≡ None) → IsAllOwned pages 0 [] }
    ensures shows { contents_of [] ≡ empty }
{}

/// A database is read by the calls on tables without indexes, and shows the same.
pub fn reads_as_tables()
    ensures holds { (pages : PageMap) (root : ℕ) (tables : List TableAt) → HoldsDatabase pages root tables
        → HoldsTables pages root (rows_of_tables tables) }
    ensures shows { (tables : List TableAt) → contents_of_rows (rows_of_tables tables) ≡ contents_of tables }
{}

/// Where all pages are owned, those in use are just the pages of the trees of the database, which
/// lies there as ever; so it does behind a change that leaves all pages owned.
pub fn owned_pages_are_of_trees()
    ensures holds { (pages : PageMap) (root : ℕ) (tables : List TableAt) → IsAllOwned pages root tables
        → HoldsDatabase pages root tables }
    ensures owned { (pages : PageMap) (root : ℕ) (tables : List TableAt) (h : IsAllOwned pages root tables) (n : ℕ)
        → IsSome (pages n) → Has n (h.owned ++ pages_of (trees_of tables)) }
    ensures used { (pages : PageMap) (root : ℕ) (tables : List TableAt) (h : IsAllOwned pages root tables) (n : ℕ)
        → Has n (h.owned ++ pages_of (trees_of tables)) → IsSome (pages n) }
    ensures stays { (old new : PageMap) (root : ℕ) (tables : List TableAt) → ((n : ℕ) → new n ≡ old n)
        → IsAllOwned old root tables → IsAllOwned new root tables }
    ensures written { (new : PageMap) (contents : Contents) (root : ℕ) → DatabaseOwned new contents root
        → DatabaseWritten new contents root }
{}
