//! What follows for a query in turns from the history of all callers. The function does nothing:
//! its contract is the law.

ghost use Rattle.std.specs.Prelude.{ℕ, List};
ghost use Rattle.lexer.specs.Token.{Bytes};
ghost use Rattle.refusals.specs.declared.refusal.Refusal.{Refusal};
ghost use Rattle.replies.specs.declared.reply.Reply.TheVariants as says;
ghost use Rattle.sqlval.specs.Value.{Row};
ghost use Rattle.session_definitions.specs.Rules.{Rules};
ghost use Rattle.session_definitions.specs.World.{World};
ghost use Rattle.shared.specs.History.{IsTold};
ghost use Rattle.shared.specs.Turned.{InAllTurns};
ghost use Rattle.shared.specs.Views.{Past};
ghost use Rattle.turn_histories.specs.Standing.{AreAnswered, AreRefused};

use shared::Room;
use turn_laws::{parts_of_runs_are_runs, turns_answer_the_query};

/// The rows that a caller puts together from the turns of a query could have been the reply to the
/// whole text at the first of its turns, in any run of the definitions that tells the history which
/// the caller has seen behind the last one, whatever calls of others stand between. A refusal is
/// one that the whole text could have been told, or one that may stand in place of nearly any
/// reply, or that a query without a name was open before.
pub fn turns_in_histories_answer<J: Room>()
    ensures rows { (rules : Rules) (v w : Past) (text : Bytes) (n : ℕ) (rows : List Row) (end : World)
        → InAllTurns J.premise J.start J.refused v text n (says.Rows rows) w
        → IsTold rules J.start w.seen end
        → AreAnswered rules J.start text n rows end }
    ensures refused { (rules : Rules) (v w : Past) (text : Bytes) (n : ℕ) (refusal : Refusal) (end : World)
        → InAllTurns J.premise J.start J.refused v text n (says.Refused refusal) w
        → IsTold rules J.start w.seen end
        → AreRefused rules J.start text n refusal end }
{
    parts_of_runs_are_runs();
    turns_answer_the_query();
}
