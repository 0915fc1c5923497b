//! That theorems which begin with rules of names and types, or with a reading of the texts of
//! CHECKs, speak of something. These functions do nothing: their contracts are the laws.

ghost use Rattle.std.specs.Prelude.{◌≡◌, ℕ, List};
ghost use Rattle.ast.specs.declared.statement.Statement.{Statement};
ghost use Rattle.denote.specs.Database.{CheckReading, Database, IsGood};
ghost use Rattle.lexer.specs.Token.{Bytes};
ghost use Rattle.replies.specs.declared.reply.Reply.{Reply};
ghost use Rattle.session_definitions.specs.Engine.{IsRun, IsScript, IsStep};
ghost use Rattle.session_definitions.specs.Rules.{AreRules, Rules};
ghost use Rattle.session_definitions.specs.Run.{Moment, Run};
ghost use Rattle.session_definitions.specs.Script.{IsPlayed};
ghost use Rattle.session_definitions.specs.Step.{Step};
ghost use Rattle.session_definitions.specs.World.{World, new_world};
ghost use Rattle.session_laws.specs.Sound.{IsGoodWorld, IsSound};
ghost use Rattle.sqlval.specs.declared.schema.Column.{Column};
ghost use Rattle.sqlval.specs.declared.schema.Schema.{Schema};
ghost use Rattle.typing.specs.declared.typed.Condition.{Condition};
ghost use Rattle.typing.specs.Check.{IsCheckReading, ReadsCheck};

use session_laws::{databases_stay_good, worlds_stay_sound};

/// There is a reading of the texts of CHECKs: a function that gives for each text that stands for a
/// condition, of whatever length and however deep its parentheses nest, this condition.
pub fn there_is_a_reading()
    ensures { (reading : CheckReading) × IsCheckReading reading }
{}

/// Some text stands for a condition, in every table.
pub fn a_text_stands_for_a_condition()
    ensures { (text : List ℕ) × (condition : Condition)
        × ((name : List ℕ) (columns : List Column) → ReadsCheck name columns text condition) }
{}

/// There are rules of names and types.
pub fn there_are_rules()
    ensures { (rules : Rules) × AreRules rules }
{}

/// Rules of names and types find the same of each statement, and read each text that stands for a
/// condition alike.
pub fn rules_agree()
    ensures statements { (rules others : Rules) (schema : Schema) (x : Statement) → AreRules rules → AreRules others
        → rules.statement schema x ≡ others.statement schema x }
    ensures checks { (rules others : Rules) (name : List ℕ) (columns : List Column) (text : List ℕ) (condition : Condition)
        → AreRules rules → AreRules others
        → ReadsCheck name columns text condition → rules.check name columns text ≡ others.check name columns text }
{}

/// A database that is good by one reading of the texts of CHECKs is good by every one: what its
/// CHECKs are does not depend on what is read where a text stands for no condition.
pub fn good_databases_are_good_by_every_reading()
    ensures { (reading other : CheckReading) (db : Database) → IsCheckReading reading → IsCheckReading other → IsGood reading db → IsGood other db }
{}

/// What theorems about SQL begin with can be met, all at once: rules of names and types, and a
/// world that is sound, whose databases are good by them: that of a new database.
pub fn premises_can_be_met()
    ensures { (rules : Rules) × AreRules rules × IsGoodWorld rules.check new_world × IsSound new_world }
{
    there_are_rules();
    databases_stay_good();
    worlds_stay_sound();
}

/// What holds by all rules of names and types, as the contracts of calls, runs and scripts say it,
/// is what an engine may do.
pub fn what_holds_by_all_rules_is_of_an_engine()
    ensures step { (old new : World) (s : ℕ) (text : Bytes) (reply : Reply)
        → ((rules : Rules) → AreRules rules → Step rules old s text reply new)
        → IsStep old s text reply new }
    ensures run { (start end : World) (moments : List Moment)
        → ((rules : Rules) → AreRules rules → Run rules start moments end) → IsRun start moments end }
    ensures script { (old new : World) (pieces : List (List ℕ)) (printed : List ℕ)
        → ((rules : Rules) → AreRules rules → IsPlayed rules old pieces printed new)
        → IsScript old pieces printed new }
{
    there_are_rules();
}

/// And what an engine may do from a good world on holds by all rules of names and types, whatever
/// they read where a text stands for no condition.
pub fn what_is_of_an_engine_holds_by_all_rules()
    ensures step { (rules : Rules) (old new : World) (s : ℕ) (text : Bytes) (reply : Reply) → AreRules rules → IsGoodWorld rules.check old
        → IsStep old s text reply new → Step rules old s text reply new }
    ensures run { (rules : Rules) (start end : World) (moments : List Moment) → AreRules rules
        → IsGoodWorld rules.check start
        → IsRun start moments end → Run rules start moments end }
    ensures script { (rules : Rules) (old new : World) (pieces : List (List ℕ)) (printed : List ℕ) → AreRules rules
        → IsGoodWorld rules.check old
        → IsScript old pieces printed new → IsPlayed rules old pieces printed new }
{
    databases_stay_good();
}
