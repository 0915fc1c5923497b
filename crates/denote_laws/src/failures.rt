//! That no meaning is an empty failure.

ghost use Rattle.std.specs.Prelude.{◌≡◌, ℕ, List};
ghost use Rattle.sqlval.specs.declared.storing.ColumnType.{ColumnType};
ghost use Rattle.sqlval.specs.declared.value.Value.{Value};
ghost use Rattle.sqlval.specs.Concatenation.{concatenation};
ghost use Rattle.sqlval.specs.Storing.{stored};
ghost use Rattle.sqlval.specs.Value.{Row};
ghost use Rattle.typing.specs.declared.statement.Change.{Change};
ghost use Rattle.typing.specs.declared.typed.Arithmetic.{Arithmetic};
ghost use Rattle.typing.specs.declared.typed.Condition.{Condition};
ghost use Rattle.typing.specs.declared.typed.Expression.{Expression};
ghost use Rattle.typing.specs.declared.typed.SetFunction.{SetFunction};
ghost use Rattle.denote.specs.declared.fault.Fault.{Fault};
ghost use Rattle.denote.specs.Evaluation.{Env, Evaluation, given, unless, together};
ghost use Rattle.denote.specs.Expression.{calculated};
ghost use Rattle.denote.specs.Meaning.{Tables, value_of, truth_at, function_value};
ghost use Rattle.denote.specs.Database.{Database, CheckReading};
ghost use Rattle.denote.specs.Change.{changed};
ghost use Rattle.denote_laws.specs.Law.{IsSound, AreSound, followed};
ghost use Rattle.denote_laws.specs.Sound.{IsDecided};

/// No operator makes a failure without a fault of operands that have none.
pub fn no_failure_is_empty()
    ensures operand { (x : Evaluation Value) (next : Value → Evaluation Value) → IsSound x → ((v : Value) → IsSound (next v)) → IsSound (followed x next) }
    ensures rows { (faults : List Fault) (rows : List Row) → IsSound (unless faults rows) }
    ensures list { (xs : List (Evaluation Value)) → AreSound xs → IsSound (together xs) }
    ensures arithmetic { (op : Arithmetic) (x y : Value) → IsSound (calculated op x y) }
    ensures concatenation { (x y : Value) → IsSound (given (concatenation x y)) }
    ensures storing { (x : Value) (column : ColumnType) → IsSound (given (stored x column)) }
{}

/// Each expression, condition and set function of a typed tree, whatever stands in it, is at each
/// row a value or at least one fault; and each change makes a database, or raises at least one
/// fault, or names at least one violated constraint.
pub fn no_meaning_is_an_empty_failure()
    ensures expression { (tables : Tables) (expression : Expression) (env : Env)
        → IsSound (value_of tables expression env) }
    ensures condition { (tables : Tables) (condition : Condition) (env : Env)
        → IsSound (truth_at tables condition env) }
    ensures function { (tables : Tables) (function : SetFunction) (env : Env) (rows : List Row)
        → IsSound (function_value tables function env rows) }
    ensures change { (reading : CheckReading) (db : Database) (change : Change)
        → IsDecided (changed reading db change) }
{}
