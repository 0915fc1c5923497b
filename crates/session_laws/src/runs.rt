//! What follows from the definitions of calls and runs. These functions do nothing: their contracts
//! are the laws.

ghost use Rattle.std.specs.Prelude.{◌≡◌, ◌≢◌, ℕ, ◌+◌, List, length, slice_get, All, Contains, Ok, true, false};
ghost use Rattle.refusals.specs.declared.refusal.Refusal.{Refusal};
ghost use Rattle.refusals.specs.declared.refusal.Refusal.TheVariants.{SerializationFailure};
ghost use Rattle.lexer.specs.Token.{Bytes};
ghost use Rattle.denote.specs.Database.{Database, CheckReading, IsGood};
ghost use Rattle.replies.specs.declared.reply.Reply.{Reply};
ghost use Rattle.replies.specs.declared.reply.Reply.TheVariants as says;
ghost use Rattle.session_laws.specs.Left.{IsFetch, LeavesAlmostAll};
ghost use Rattle.session_definitions.specs.Asked.{Asked};
ghost use Rattle.session_definitions.specs.Rules.{Rules, AreRules};
ghost use Rattle.session_definitions.specs.Run.{Event, Happens, MakesSession, DropsSession, Moment, Run, history};
ghost use Rattle.session_definitions.specs.Script.{IsPlayed};
ghost use Rattle.session_definitions.specs.Serial.{Committed, transactions, IsWriter, IsSerializable};
ghost use Rattle.session_laws.specs.Sound.{IsSound, IsGoodWorld};
ghost use Rattle.session_definitions.specs.Step.{Step, StepOf};
ghost use Rattle.session_definitions.specs.World.{World, is_live, new_world, opened};

use check_laws::{
    declared_columns_are_there, kept_checks_can_be_read, what_is_referenced_is_there,
};

/// A refused call leaves the world as it was; but a serialization failure has rolled back the
/// session's transaction, and a FETCH has closed its cursor.
pub fn refusals_leave_the_world()
    ensures unchanged { (rules : Rules) (old new : World) (s : ℕ) (text : Bytes) (refusal : Refusal)
        → Step rules old s text (says.Refused refusal) new
        → refusal ≢ SerializationFailure → (IsFetch text → ⊥) → new ≡ old }
    ensures almost_all { (rules : Rules) (old new : World) (s : ℕ) (text : Bytes) (refusal : Refusal)
        → Step rules old s text (says.Refused refusal) new
        → LeavesAlmostAll old s text refusal new }
{}

/// A call keeps which sessions stand; a new session is one that did not stand before; the end of a
/// session is the end of that one alone.
pub fn sessions_stand_until_they_end()
    ensures calls { (rules : Rules) (old new : World) (s : ℕ) (text : Bytes) (reply : Reply)
        → Step rules old s text reply new
        → (k : ℕ) → is_live new k ≡ is_live old k }
    ensures asked { (rules : Rules) (old new : World) (s : ℕ) (asked : Asked) (reply : Reply)
        → StepOf rules old s asked reply new
        → (k : ℕ) → is_live new k ≡ is_live old k }
    ensures made { (old new : World) (s : ℕ) → MakesSession old (Ok s) new → is_live new s ≡ true }
    ensures was_free { (old new : World) (s : ℕ) → MakesSession old (Ok s) new → is_live old s ≡ false }
    ensures made_alone { (old new : World) (s k : ℕ) → MakesSession old (Ok s) new → k ≢ s
        → is_live new k ≡ is_live old k }
    ensures dropped { (old new : World) (s : ℕ) → DropsSession old s new → is_live new s ≡ false }
    ensures dropped_alone { (old new : World) (s k : ℕ) → DropsSession old s new → k ≢ s
        → is_live new k ≡ is_live old k }
{}

/// Every event leaves a sound world sound: an idle session is not the writer, one that is not the
/// writer works on the database of its beginning, and the writer's transaction began at the last
/// commit. So every world of a run is sound.
pub fn worlds_stay_sound()
    ensures event { (rules : Rules) (old new : World) (event : Event) → IsSound old → Happens rules old event new
        → IsSound new }
    ensures run { (rules : Rules) (db : Database) (moments : List Moment) (end : World)
        → Run rules (opened db) moments end → IsSound end }
{}

/// In every world of a run, by the rules of names and types, that begins with good databases all
/// databases are good: the last committed one, and of each session with a transaction the one that
/// it found and its working one. So is each database of the history. A new world begins so, and so
/// does a good database that was opened.
pub fn databases_stay_good()
    ensures new_world { (reading : CheckReading) → IsGoodWorld reading new_world }
    ensures opened { (reading : CheckReading) (db : Database) → IsGood reading db → IsGoodWorld reading (opened db) }
    ensures run { (rules : Rules) (start end : World) (moments : List Moment) → AreRules rules → IsGoodWorld rules.check start → Run rules start moments end
        → IsGoodWorld rules.check end }
    ensures committed { (rules : Rules) (start end : World) (moments : List Moment) → AreRules rules
        → IsGoodWorld rules.check start → Run rules start moments end
        → All (IsGood rules.check) (history start moments) }
{
    kept_checks_can_be_read();
    declared_columns_are_there();
    what_is_referenced_is_there();
}

/// The committed databases of a run form one list, whose last one is the last committed; each is
/// made from the one before by one transaction, which found the one and, run alone, makes the
/// other.
pub fn committed_databases_form_one_list()
    ensures counted { (rules : Rules) (db : Database) (moments : List Moment) (end : World)
        → Run rules (opened db) moments end
        → length (history (opened db) moments) ≡ end.commits + 1 }
    ensures latest { (rules : Rules) (db : Database) (moments : List Moment) (end : World)
        → Run rules (opened db) moments end
        → slice_get (history (opened db) moments) end.commits ≡ Some end.last }
    ensures made_by { (rules : Rules) (db : Database) (moments : List Moment) (end : World) (k : ℕ) (before next : Database)
        → Run rules (opened db) moments end
        → slice_get (history (opened db) moments) k ≡ Some before
        → slice_get (history (opened db) moments) (k + 1) ≡ Some next
        → (c : Committed) × Contains (transactions moments) c × IsWriter rules k before c × (c.made ≡ next) }
{}

/// Every run is serializable: the transactions that ended by COMMIT have an order in which, run one
/// after another from the first database of the history, each finds and makes the databases that it
/// found and made among the others, and gets the same replies.
pub fn runs_are_serializable()
    ensures { (rules : Rules) (db : Database) (moments : List Moment) (end : World) → Run rules (opened db) moments end
        → IsSerializable rules (opened db) moments }
{}

/// What a script does is a run: sessions are made, called and ended, and pages flushed, in the
/// order of its pieces.
pub fn scripts_are_runs()
    ensures { (rules : Rules) (old new : World) (pieces : List (List ℕ)) (printed : List ℕ)
        → IsPlayed rules old pieces printed new
        → (moments : List Moment) × Run rules old moments new }
{}
