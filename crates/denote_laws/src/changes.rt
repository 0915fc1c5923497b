//! Good databases, and what a refused change leaves.

ghost use Rattle.std.specs.Prelude.{◌≡◌, ℕ, true, false, Contains, List, [], Option, Some};
ghost use Rattle.std.specs.FinMap.{get, insert};
ghost use Rattle.std.specs.List.{list_all};
ghost use Rattle.sqlval.specs.declared.schema.Constraint.{Constraint};
ghost use Rattle.sqlval.specs.declared.schema.Reference.{Reference};
ghost use Rattle.sqlval.specs.declared.schema.Rule.TheVariants.{ForeignKey};
ghost use Rattle.sqlval.specs.Value.{Row};
ghost use Rattle.typing.specs.declared.statement.Change.{Change};
ghost use Rattle.denote.specs.declared.fault.Fault.{Fault};
ghost use Rattle.denote.specs.Database.{Name, Table, Database, CheckReading, rows_in, violated_by, violated_at, violated_in, is_matched, fits_columns, IsGood, IsSameDatabase};
ghost use Rattle.denote.specs.Change.{Makes, changed, IsAccepted, IsRaised, IsNamed};
ghost use Rattle.denote_laws.specs.Changed.{DeclaresRightly, after, with_table_rows};
ghost use Rattle.denote_laws.specs.Difference.{Differs, AreMatched, may_go, MayGo};

/// A change of a good database makes a good database, where what it declares is right: the CHECKs
/// of a table that it creates can be read, constraints and indexes name columns of their table,
/// foreign keys reference what is there, and no table that is dropped is referenced by another one.
pub fn changes_keep_databases_good()
    ensures { (reading : CheckReading) (db new : Database) (change : Change) (count : Option ℕ) → DeclaresRightly db change → IsGood reading db → changed reading db change ≡ Makes new count → IsGood reading new }
{}

/// A would-be database, a good one in which a table has other rows, is good where these fit their
/// columns and the database violates nothing.
pub fn what_violates_nothing_is_good()
    ensures { (reading : CheckReading) (db : Database) (name : Name) (table : Table) (rows : List Row)
        → IsGood reading db → get db name ≡ Some table → list_all (fits_columns table.columns) rows ≡ true
        → violated_in reading (insert db name (with_table_rows table rows)) ≡ []
        → IsGood reading (insert db name (with_table_rows table rows)) }
{}

/// What a database violates is what is violated in its tables, and nothing else.
pub fn a_database_violates_what_its_tables_violate()
    ensures at { (reading : CheckReading) (db : Database) (name : Name) (table : Table) (constraint : Name)
        → get db name ≡ Some table → Contains (violated_at reading db name (Some table)) constraint
        → Contains (violated_in reading db) constraint }
    ensures only { (reading : CheckReading) (db : Database) (constraint : Name)
        → Contains (violated_in reading db) constraint
        → (name : Name)
        × ((table : Table) × (get db name ≡ Some table)
        × Contains (violated_at reading db name (Some table)) constraint) }
    ensures nothing { (reading : CheckReading) (db : Database)
        → ((name : Name) (table : Table) → get db name ≡ Some table → violated_at reading db name (Some table) ≡ [])
        → violated_in reading db ≡ [] }
{}

/// In one table of a good database rows came and others went. The database violates nothing then if
/// the table violates nothing by its own rows, the rows that came satisfy its foreign keys, and of
/// each row that went the key is there again or is referenced by no row.
pub fn what_comes_and_goes_decides()
    ensures { (reading : CheckReading) (old new : Database) (name : Name) (came gone : List Row)
        → IsGood reading old → Differs old new name came gone
        → ((table : Table) → get new name ≡ Some table → violated_by reading name table ≡ [])
        → AreMatched new name came → MayGo new name gone → violated_in reading new ≡ [] }
{}

/// A row that does not satisfy a foreign key of its table shows that this is violated, and so does
/// a row that is not there, and that a row of the table references.
pub fn what_is_not_matched_is_violated()
    ensures came { (reading : CheckReading) (db : Database) (name : Name) (table : Table) (c : Constraint) (reference : Reference) (row : Row)
        → get db name ≡ Some table → Contains table.constraints c → c.rule ≡ ForeignKey reference
        → Contains table.rows row → is_matched reference (rows_in db reference.table) row ≡ false
        → Contains (violated_in reading db) c.name }
    ensures went { (reading : CheckReading) (db : Database) (name : Name) (table : Table) (c : Constraint) (reference : Reference) (gone : Row)
        → get db name ≡ Some table → Contains table.constraints c → c.rule ≡ ForeignKey reference
        → may_go reference (rows_in db reference.table) table.rows gone ≡ false
        → Contains (violated_in reading db) c.name }
{}

/// A change that is refused, by a fault or by a constraint, leaves the database as it was, and is
/// not accepted too; one that is accepted leaves the database that it made, up to the order of
/// rows.
pub fn refused_changes_leave_the_database()
    ensures raised { (reading : CheckReading) (db : Database) (change : Change) (fault : Fault) → IsRaised (changed reading db change) fault → after db (changed reading db change) ≡ db }
    ensures named { (reading : CheckReading) (db : Database) (change : Change) (name : Name)
        → IsNamed (changed reading db change) name → after db (changed reading db change) ≡ db }
    ensures raised_alone { (reading : CheckReading) (db new : Database) (change : Change) (fault : Fault) (count : Option ℕ)
        → IsRaised (changed reading db change) fault → IsAccepted (changed reading db change) new count → ⊥ }
    ensures named_alone { (reading : CheckReading) (db new : Database) (change : Change) (name : Name) (count : Option ℕ) → IsNamed (changed reading db change) name → IsAccepted (changed reading db change) new count → ⊥ }
    ensures accepted { (reading : CheckReading) (db new : Database) (change : Change) (count : Option ℕ) → IsAccepted (changed reading db change) new count → IsSameDatabase (after db (changed reading db change)) new }
{}
