//! That rules keep the outcome of a tree.

ghost use Rattle.std.specs.Prelude.{◌≡◌, ℕ, List, Some, Contains, Result};
ghost use Rattle.algebra.specs.OrderKeys.{ordered_outcome};
ghost use Rattle.algebra.specs.declared.tree.StoredTable.{StoredTable};
ghost use Rattle.algebra.specs.declared.tree.Tree.{Tree};
ghost use Rattle.denote.specs.Answer.{Answers};
ghost use Rattle.denote.specs.Database.{CheckReading, Database, IsGood, rows_in};
ghost use Rattle.denote.specs.Meaning.{Tables};
ghost use Rattle.denote.specs.declared.fault.Fault.{Fault};
ghost use Rattle.rules.specs.declared.rule.Rule.{Rule};
ghost use Rattle.rules.specs.declared.rule.Step.{Step};
ghost use Rattle.rules.specs.Applied.{applied, replayed};
ghost use Rattle.rules.specs.Same.{Fits, Has, IsSameTree, Keeps};
ghost use Rattle.rules.specs.Stored.{stored_in_tree};
ghost use Rattle.sqlval.specs.Value.{Row};

use algebra_laws::denials_are_certain;
use key_lookups::look_ups_miss_no_row;

/// What a rule makes of a tree, at whatever path, may stand for the tree; and so may what any list
/// of steps makes that can be replayed.
pub fn rules_keep_the_outcome()
    ensures applied { (rule : Rule) (path : List ℕ) (old new : Tree) → applied rule path old ≡ Some new
        → Keeps new old }
    ensures replayed { (steps : List Step) (old new : Tree) → replayed steps old ≡ Some new → Keeps new old }
{
    denials_are_certain();
    look_ups_miss_no_row();
}

/// Over every good database that has the tables as the tree knows them, a tree that may stand for
/// it has the same rows and the same faults in whatever rows outside, and its order keys begin with
/// those of the old tree.
pub fn good_databases_fit()
    ensures { (reading : CheckReading) (db : Database) (new old : Tree) → IsGood reading db
        → ((table : StoredTable) → Contains (stored_in_tree old) table → Has db table)
        → Keeps new old → IsSameTree (rows_in db) new old }
{}

/// What answers the outcome of a tree answers that of the tree for which it may stand.
pub fn answers_stay()
    ensures { (tables : Tables) (new old : Tree) (reply : Result (List Row) Fault) → Keeps new old → Fits tables old
        → Answers reply (ordered_outcome tables new) → Answers reply (ordered_outcome tables old) }
{}
