//! That the order of rows never matters.

ghost use Rattle.std.specs.Prelude.{List, Result};
ghost use Rattle.sqlval.specs.Value.{Row};
ghost use Rattle.typing.specs.declared.statement.Change.{Change};
ghost use Rattle.typing.specs.declared.typed.OrderedQuery.{OrderedQuery};
ghost use Rattle.denote.specs.declared.fault.Fault.{Fault};
ghost use Rattle.denote.specs.Bag.{IsSame};
ghost use Rattle.denote.specs.Answer.{Answers};
ghost use Rattle.denote.specs.Query.{denotes};
ghost use Rattle.denote.specs.Database.{Database, CheckReading, IsSameDatabase};
ghost use Rattle.denote.specs.Change.{changed};
ghost use Rattle.denote_laws.specs.Changed.{IsSameChange};

/// A query denotes the same rows and faults over databases that are the same up to the order of
/// rows, and the same replies answer it.
pub fn queries_depend_on_bags_alone()
    ensures outcome { (db new : Database) (query : OrderedQuery) → IsSameDatabase db new → IsSame (denotes db query).unordered (denotes new query).unordered }
    ensures answers { (db new : Database) (query : OrderedQuery) (reply : Result (List Row) Fault) → IsSameDatabase db new → Answers reply (denotes db query) → Answers reply (denotes new query) }
{}

/// Of databases that are the same up to the order of rows a change makes such databases again, with
/// the same count; or it raises the same faults; or it names the same violated constraints.
pub fn changes_depend_on_bags_alone()
    ensures { (reading : CheckReading) (db new : Database) (change : Change) → IsSameDatabase db new → IsSameChange (changed reading db change) (changed reading new change) }
{}
