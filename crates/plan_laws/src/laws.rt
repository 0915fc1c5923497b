//! How many rows the plans read that are sure to be chosen.

ghost use Rattle.std.specs.Prelude.{◌≡◌, ◌≤◌, ◌+◌, true, length};
ghost use Rattle.algebra.specs.declared.tree.Condition.{Condition};
ghost use Rattle.algebra.specs.declared.tree.StoredTable.{StoredTable};
ghost use Rattle.algebra.specs.declared.tree.Tree.{Tree};
ghost use Rattle.places.specs.Left.{Entries};
ghost use Rattle.plan_laws.specs.Matches.{ReadsMatches};
ghost use Rattle.plan_listings.specs.Loops.{loops_by_no_index};
ghost use Rattle.planner.specs.Joins.{JoinsByKeys};
ghost use Rattle.planner.specs.Looks.{LooksUp};
ghost use Rattle.streams.specs.Reads.{to_begin};

/// A plan that looks a key up in an index reads the rows of the table that have the key, and
/// nothing besides.
pub fn look_ups_read_what_matches()
    ensures { (condition : Condition) (table : StoredTable) (plan : Tree) (looks : LooksUp condition table plan)
        → ReadsMatches table looks.columns looks.key plan }
{}

/// A plan that joins two tables by a table of keys reads no more rows than both have together.
pub fn joins_read_each_table_once()
    ensures { (entries : Entries) (left right : StoredTable) (plan : Tree) → JoinsByKeys left right plan
        → loops_by_no_index plan ≡ true → to_begin entries plan ≤ length (entries left.name) + length (entries right.name) }
{}
