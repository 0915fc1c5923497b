//! What follows from the definition of a query in turns. These functions do nothing: their
//! contracts are the laws.

ghost use Rattle.std.specs.Prelude.{◌≡◌, ◌⊎◌, ℕ, List, [], ◌∷◌, ◌++◌, true, false};
ghost use Rattle.std.specs.FinMap.{get};
ghost use Rattle.lexer.specs.Token.{Bytes};
ghost use Rattle.refusals.specs.declared.refusal.Refusal.{Refusal};
ghost use Rattle.replies.specs.declared.reply.Reply.{Reply};
ghost use Rattle.replies.specs.declared.reply.Reply.TheVariants as says;
ghost use Rattle.session_definitions.specs.Asked.{Asked};
ghost use Rattle.session_definitions.specs.Rules.{Rules};
ghost use Rattle.session_definitions.specs.Run.{Event, Happens, Moment, Run};
ghost use Rattle.session_definitions.specs.Turns.{Exchange, TakesTurns, exchange, exchange_in, exchanges_in, is_end_of};
ghost use Rattle.session_definitions.specs.World.{World, is_live};
ghost use Rattle.sqlval.specs.Value.{Row};
ghost use Rattle.turn_laws.specs.Answered.{CouldBeTold, HasClosed, IsAnswered, IsAsBefore, IsRefused};

/// An event that is no call of a session that stands, and does not end it, leaves it as it was,
/// with its transaction and the cursors in it: calls of others, also COMMIT, sessions that are made
/// and ended, flushes and settings.
pub fn other_events_leave_the_session()
    ensures { (rules : Rules) (old new : World) (s : ℕ) (event : Event) → Happens rules old event new
        → exchange_in s event ≡ [] → is_end_of s event ≡ false → is_live old s ≡ true
        → get new.sessions s ≡ get old.sessions s }
{}

/// A part of a run is a run, and so is what came before it.
pub fn parts_of_runs_are_runs()
    ensures { (rules : Rules) (start end : World) (earlier later : List Moment) → Run rules start (later ++ earlier) end
        → (mid : World) × Run rules start earlier mid × Run rules mid later end }
{}

/// The rows of a query in turns are what the whole text could have been told at the first turn,
/// over the tables that the session saw there; and the session is left as that would have left it.
/// A refusal is one that the whole text could have been told, or want of memory, the device or a
/// limit of the store; or it came at the first turn, of a text that is no query, or since another
/// one was open. What happened between, and before and after, is no matter.
pub fn turns_answer_the_query()
    ensures rows { (rules : Rules) (s : ℕ) (text : Bytes) (n : ℕ) (start end : World) (turns : List Moment) (rows : List Row)
        → Run rules start turns end
        → TakesTurns s text n turns (says.Rows rows)
        → IsAnswered rules s text turns (says.Rows rows) end }
    ensures refused { (rules : Rules) (s : ℕ) (text : Bytes) (n : ℕ) (start end : World) (turns : List Moment) (refusal : Refusal)
        → Run rules start turns end
        → TakesTurns s text n turns (says.Refused refusal)
        → IsRefused rules s text turns refusal }
    ensures anywhere { (rules : Rules) (s : ℕ) (text : Bytes) (n : ℕ) (start end : World) (earlier turns later : List Moment) (rows : List Row)
        → Run rules start (later ++ (turns ++ earlier)) end
        → TakesTurns s text n turns (says.Rows rows)
        → CouldBeTold rules s text turns (says.Rows rows) }
{}

/// Behind the turns the query is closed, and the transaction stays; but where the first turn was
/// refused the session is as it was. The call that closes it is not refused.
pub fn turns_close_the_query()
    ensures rows { (rules : Rules) (s : ℕ) (text : Bytes) (n : ℕ) (start end : World) (turns : List Moment) (rows : List Row)
        → Run rules start turns end
        → TakesTurns s text n turns (says.Rows rows)
        → HasClosed end s }
    ensures refused { (rules : Rules) (s : ℕ) (text : Bytes) (n : ℕ) (start end : World) (turns : List Moment) (refusal : Refusal)
        → Run rules start turns end
        → TakesTurns s text n turns (says.Refused refusal)
        → HasClosed end s ⊎ IsAsBefore s text turns end }
    ensures closing { (rules : Rules) (s : ℕ) (text : Bytes) (n : ℕ) (start end : World) (turns : List Moment) (reply closing : Reply) (others : List Exchange)
        → Run rules start turns end
        → TakesTurns s text n turns reply
        → exchanges_in s turns ≡ exchange Asked.Close closing ∷ others
        → closing ≡ says.Done }
{}
