//! What callers may rely on beside the calls.
ghost use Rattle.std.specs.Prelude.{◌≡◌, ℕ, [], List, Some, IsSome};
ghost use Rattle.std.specs.FinMap.{get, empty};
ghost use Rattle.denote.specs.Database.{Name};
ghost use Rattle.store.specs.Contents.{StoredTable, Rises};
ghost use Rattle.page_space.specs.Space.{PageMap};
ghost use Rattle.stored_tables.specs.Held.{TableAt, HoldsTables, contents_of};

/// Tables stay where no page in use changes.
pub fn tables_stay()
    ensures { (old new : PageMap) (root : ℕ) (tables : List TableAt) → ((n : ℕ) → IsSome (old n) → new n ≡ old n)
        → HoldsTables old root tables → HoldsTables new root tables }
{}

/// At root 0 pages hold no tables.
pub fn no_tables_at_first()
    ensures holds { (pages : PageMap) → HoldsTables pages 0 [] }
    ensures shows { contents_of [] ≡ empty }
{}

/// The rows of each table stand in the order of their numbers, none of which comes twice.
pub fn numbers_rise()
    ensures { (pages : PageMap) (root : ℕ) (tables : List TableAt) (name : Name) (table : StoredTable)
        → HoldsTables pages root tables → get (contents_of tables) name ≡ Some table → Rises table.entries }
{}
