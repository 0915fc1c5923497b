//! What callers may rely on beside the calls.
ghost use Rattle.std.specs.Prelude.{◌≡◌, ◌⊎◌, ◌++◌, ℕ, List, Some, IsSome};
ghost use Rattle.denote.specs.Database.{Database};
ghost use Rattle.btree_read.specs.Lists.{Has};
ghost use Rattle.database_trees.specs.Held.{trees_of};
ghost use Rattle.database_trees.specs.Trees.{pages_of};
ghost use Rattle.pool.specs.Pages.{PageMap};
ghost use Rattle.overlay.specs.Whole.{IsIn};
ghost use Rattle.pool.specs.Zeros.{EndsInZeros};
ghost use Rattle.database_versions.specs.Databases.{nothing, IsOwned};
ghost use Rattle.database_versions.specs.Saved.{HoldsDatabase, opened_pages};

/// Where no page is lost, each page is page 0, one of the trees of the database, or one of the list
/// of free pages.
pub fn each_page_has_its_place()
    ensures { (version : PageMap) (d : IsOwned version nothing) (n : ℕ) → IsSome (version n)
        → (n ≡ 0) ⊎ (Has n (d.owned.owned ++ pages_of (trees_of d.tables)) ⊎ IsIn n d.start.1.free) }
{}

/// Page 0 of a saved file, as it is shown once the file is opened, ends in zeros.
pub fn saved_files_end_in_zeros()
    ensures { (file first : List ℕ) (db : Database) (held : HoldsDatabase file db)
        → opened_pages held.version held.good.header.page_count 0 ≡ Some first → EndsInZeros first }
{}
