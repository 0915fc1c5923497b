//! Scripts over a device that is closed and opened again. These functions do nothing: their
//! contracts are the laws.

ghost use Rattle.std.specs.Prelude.{◌≡◌, ℕ, false, List, ◌∷◌, ◌++◌, Option};
ghost use Rattle.lexer.specs.Token.{Bytes};
ghost use Rattle.replies.specs.declared.reply.Reply.{Reply};
ghost use Rattle.session_definitions.specs.Rules.{Rules, AreRules};
ghost use Rattle.session_definitions.specs.Run.{Moment, Run};
ghost use Rattle.session_definitions.specs.Script.{Scene, ArePlayed, IsStopped};
ghost use Rattle.session_definitions.specs.Step.{Step};
ghost use Rattle.session_definitions.specs.World.{World, opened};
ghost use Rattle.session_laws.specs.Damage.{has_damage, tells_damage};
ghost use Rattle.session_laws.specs.Reopening.{reopening};

use crate::runs::scripts_are_runs;
use typing_laws::refusals_have_reasons;

/// No reply to a call is X0004, and none that a script prints: the definitions raise it nowhere.
pub fn no_reply_is_damaged()
    ensures call { (rules : Rules) → AreRules rules → (old new : World) (s : ℕ) (text : Bytes) (reply : Reply)
        → Step rules old s text reply new
        → tells_damage reply ≡ false }
    ensures script { (rules : Rules) → AreRules rules
        → (old new : Scene) (pieces : List (List ℕ)) (replies : List (Option Reply))
        → ArePlayed rules old pieces replies new
        → has_damage replies ≡ false }
{
    refusals_have_reasons();
}

/// What a script does is a run, also where its writer refuses.
pub fn stopped_scripts_are_runs()
    ensures { (rules : Rules) (old new : World) (pieces : List (List ℕ)) (written : List ℕ)
        → IsStopped rules old pieces written new
        → (moments : List Moment) × Run rules old moments new }
{
    scripts_are_runs();
}

/// A run, then close and a later open, and then a run in the world of the database that was
/// committed last: this is one run.
pub fn reopened_runs_are_runs()
    ensures { (rules : Rules) (start mid end : World) (first second : List Moment) → Run rules start first mid
        → Run rules (opened mid.last) second end
        → Run rules start (second ++ reopening mid ∷ first) end }
{}
