//! From the text of a call to its reply.
ghost use Rattle.std.specs.Prelude.{◌≡◌, ◌≢◌, ◌⊎◌, ℕ, true, false, [], ◌∷◌, Option};
ghost use Rattle.std.specs.FinMap.{get};
ghost use Rattle.ast.specs.declared.statement.OrderedQuery.{OrderedQuery};
ghost use Rattle.ast.specs.declared.statement.Statement.{Statement as Tree};
ghost use Rattle.ast.specs.declared.statement.Statement.TheVariants as asks;
ghost use Rattle.lexer.specs.Token.{Bytes};
ghost use Rattle.denote.specs.Database.{IsGood};
ghost use Rattle.session_definitions.specs.Asked.{Asked};
ghost use Rattle.session_definitions.specs.Rules.{Rules, AreRules};
ghost use Rattle.statement_definitions.specs.Reading.{IsRead};
ghost use Rattle.statement_definitions.specs.Rollback.{IsRollback};
ghost use Rattle.session_definitions.specs.World.{is_session};
ghost use Rattle.refusals.specs.declared.refusal.Refusal.TheVariants.{SerializationFailure};
ghost use Rattle.store.specs.Going.{Going};
ghost use Rattle.store.specs.Stored.{SameButMark};
ghost use Rattle.transactions.specs.Orderly.{IsOrderly};
ghost use Rattle.transactions.specs.Refused.{Counts, IfRefused, TellsDamage, TellsReached};
ghost use Rattle.transactions.specs.Shown.{settled};
ghost use Rattle.sessions.specs.Committing.{CommitsAsWriter, IsCommitOfWriter};
ghost use Rattle.sessions.specs.Explained.{IfLines, ShowsLines};
ghost use Rattle.sessions.specs.Held.{FitsIn, Holds, Leaves};
ghost use Rattle.sessions.specs.Kinds.{IsFetchText, is_change, is_declare, is_fetch, is_of_transaction};
ghost use Rattle.sessions.specs.Limits.{CallReaches, StatementReaches};
ghost use Rattle.sessions.specs.Numbers.{kept_of};
ghost use Rattle.sessions.specs.Seen.{seen_in};
ghost use Rattle.sessions.specs.ToldLimits.{IsActive, IsSaidBetween, StatementTells};

use crate::change::change;
use crate::changes::Changes;
use crate::cursor_calls::{cursor_call, declare, declared_in};
use crate::explaining::explain_query;
use crate::falling::let_fall;
use crate::kind::{Kind, kind_of};
use crate::language::Language;
use crate::query::query;
use crate::slots::Slot;
use ast::Statement;
use replies::Reply;
use std::alloc::Global;
use store::Store;
use transactions::{commit, roll_back, set_mode};

/// Closes the cursors of a session that has no transaction. Takes no memory.
pub(crate) fn settle<S: Store>(store: &S, slot: &mut Slot, session: u64)
    ensures kept { kept_of slot.new ≡ settled (get (S.shows store.now).readers session) (kept_of slot.old) }
    ensures holds { (w : Option ℕ)
        → FitsIn (S.shows store.now) w session (get (S.shows store.now).readers session) slot.old.cursors
        → Holds (S.shows store.now) w session slot.new.cursors }
{
    if store.number(session).is_some() {
        return;
    }
    slot.cursors.close_all();
}

/// Carries out the statement in a text. ROLLBACK takes no memory and always succeeds.
pub(crate) fn call<S: Store, L: Language + Changes<S>>(
    alloc: Global,
    language: &L,
    store: &mut S,
    writer: &mut Option<u64>,
    slot: &mut Slot,
    session: u64,
    text: &[u8],
) -> Reply
    ensures leaves { (rules : Rules) → AreRules rules → S.is_sound store.old → IsOrderly (S.shows store.old) writer.old
        → Holds (S.shows store.old) writer.old session slot.old.cursors
        → IsGood rules.check (seen_in (S.shows store.old) writer.old session)
        → Leaves rules session (Asked.Text text.now) result (S.shows store.old) writer.old slot.old (S.shows store.new) writer.new slot.new }
    ensures explained { (x : OrderedQuery) → IsRead text.now (asks.Explain x) → S.is_sound store.old
        → IfLines result (ShowsLines (seen_in (S.shows store.old) writer.old session) x) }
    ensures device { Counts result (S.refused store.old) (S.refused store.new) }
    ensures limits { IfRefused result (TellsReached (CallReaches (S.counted store.old) (S.shows store.old).commits text.now)) }
    ensures reached { (x : Tree) → IsRead text.now x → is_change x ≡ true
        → IfRefused result (IsSaidBetween S.goes_on (IsActive (S.shows store.old) session) store.old store.new (λ middle.
        TellsReached (StatementTells (S.counted middle) (S.is_sound store.old) (S.shows store.old).working x))) }
    ensures damage { (x : Tree) → IsRead text.now x → is_of_transaction x ≡ true
        → TellsDamage result (S.damaged store.old) (S.damaged store.new) }
    ensures rolled_back { IsRollback text.now → result ≡ Reply.Done }
    ensures kept { IfRefused result (λ refusal. refusal ≢ SerializationFailure → (IsFetchText text.now → ⊥)
        → SameButMark (S.shows store.old) (S.shows store.new) × (writer.new ≡ writer.old)
        × (kept_of slot.new ≡ kept_of slot.old)) }
    ensures idle { S.unchanged store.old → S.writes store.new ≡ S.writes store.old }
    ensures goes { S.goes_on store.old store.new (Going.writes ((S.shows store.old).working ∷ [])) }
    ensures commits { S.goes_on store.old store.new Going.changes
        ⊎ CommitsAsWriter text.now (is_session session writer.old) }
{
    if language.is_rollback(text) {
        return roll_back(store, writer, &mut slot.mode, session);
    }
    match language.read(alloc, text) {
        Ok(statement) => match declared_in(statement) {
            Ok(cursor) => declare(slot, cursor),
            Err(statement) => {
                let reply = carry_out(alloc, language, store, writer, slot, session, &statement);
                let_fall(statement);
                reply
            }
        },
        Err(refusal) => Reply::Refused(refusal),
    }
}

/// Carries out a statement.
fn carry_out<S: Store, L: Language + Changes<S>>(
    alloc: Global,
    language: &L,
    store: &mut S,
    writer: &mut Option<u64>,
    slot: &mut Slot,
    session: u64,
    statement: &Statement,
) -> Reply
    ensures leaves { (rules : Rules) (text : Bytes) → AreRules rules → IsRead text statement.now
        → is_declare statement.now ≡ false
        → (IsRollback text → ⊥)
        → S.is_sound store.old → IsOrderly (S.shows store.old) writer.old
        → Holds (S.shows store.old) writer.old session slot.old.cursors
        → IsGood rules.check (seen_in (S.shows store.old) writer.old session)
        → Leaves rules session (Asked.Text text) result (S.shows store.old) writer.old slot.old (S.shows store.new) writer.new slot.new }
    ensures explained { (x : OrderedQuery) → statement.now ≡ asks.Explain x → S.is_sound store.old
        → IfLines result (ShowsLines (seen_in (S.shows store.old) writer.old session) x) }
    ensures device { Counts result (S.refused store.old) (S.refused store.new) }
    ensures limits { IfRefused result (TellsReached (StatementReaches (S.counted store.old) (S.shows store.old).commits statement.now)) }
    ensures reached { is_change statement.now ≡ true
        → IfRefused result (IsSaidBetween S.goes_on (IsActive (S.shows store.old) session) store.old store.new (λ middle.
        TellsReached (StatementTells (S.counted middle) (S.is_sound store.old) (S.shows store.old).working statement.now))) }
    ensures damage { is_of_transaction statement.now ≡ true
        → TellsDamage result (S.damaged store.old) (S.damaged store.new) }
    ensures kept { IfRefused result (λ refusal. refusal ≢ SerializationFailure → is_fetch statement.now ≡ false
        → SameButMark (S.shows store.old) (S.shows store.new) × (writer.new ≡ writer.old)
        × (kept_of slot.new ≡ kept_of slot.old)) }
    ensures idle { S.unchanged store.old → S.writes store.new ≡ S.writes store.old }
    ensures goes { S.goes_on store.old store.new (Going.writes ((S.shows store.old).working ∷ [])) }
    ensures commits { S.goes_on store.old store.new Going.changes
        ⊎ IsCommitOfWriter statement.now (is_session session writer.old) }
{
    match kind_of(statement) {
        Kind::Query => query(alloc, language, store, *writer, session, statement),
        Kind::Change => change(alloc, language, store, writer, slot, session, statement),
        Kind::Commit => commit(store, writer, &mut slot.mode, session),
        Kind::Rollback => roll_back(store, writer, &mut slot.mode, session),
        Kind::SetTransaction(set) => set_mode(store, *writer, &mut slot.mode, session, set),
        Kind::Cursor => cursor_call(alloc, language, store, *writer, slot, session, statement),
        Kind::Explain => explain_query(alloc, language, store, *writer, session, statement),
    }
}
