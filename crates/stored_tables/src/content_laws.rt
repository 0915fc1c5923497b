ghost use Rattle.std.specs.Prelude.{◌≡◌, ◌<◌, ℕ, List, IsSome};
ghost use Rattle.page_space.specs.Space.{PageMap};
ghost use Rattle.stored_tables.specs.Held.{TableAt, HoldsTables, contents_of};
ghost use Rattle.stored_tables.specs.Contents.{contents_at};

/// Where pages hold tables, these are what is read there.
pub fn contents_are_read()
    ensures { (pages : PageMap) (root : ℕ) (tables : List TableAt)
        → ((n : ℕ) → IsSome (pages n) → (0 < n) × (n < 65536)) → HoldsTables pages root tables
        → contents_at pages root ≡ contents_of tables }
{}
