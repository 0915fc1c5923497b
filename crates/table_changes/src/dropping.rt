//! DROP TABLE and DROP INDEX.
ghost use Rattle.std.specs.Prelude.{◌≡◌, IfOk, IfErr, OnErr};
ghost use Rattle.refusals.specs.declared.refusal.Refusal.TheVariants.{Disk};
ghost use Rattle.session_definitions.specs.Refusals.{IsReserved};
ghost use Rattle.typing.specs.declared.statement.Change.TheVariants as does;
ghost use Rattle.denote.specs.Database.{CheckReading};
ghost use Rattle.store.specs.Errors.{ChangingReaches, HasRisen};
ghost use Rattle.store.specs.Going.{Going};
ghost use Rattle.store.specs.Stored.{SameButMark};
ghost use Rattle.transactions.specs.Refused.{IfRefused, TellsReached};
ghost use Rattle.constraints.specs.Changed.{HasChanged};

use constraints::begin;
use items::Text;
use refusals::Refusal;
use replies::Reply;
use store::Store;
use transactions::refusal_of;

/// DROP TABLE: the table of this name goes, with its indexes. It sets the mark. It is refused for
/// want of memory, by the device or by a limit of the store that it reached; all is then as it was,
/// but for the mark.
pub fn drop_table<S: Store>(store: &mut S, name: &Text) -> Result<Reply, Refusal>
    ensures changes { IfOk result (λ reply. (reading : CheckReading) → S.is_sound store.old
        → HasChanged reading (S.shows store.old) (does.DropTable name.now) reply (S.shows store.new)) }
    ensures refused { IfErr result (λ refusal. S.is_sound store.old → IsReserved refusal) }
    ensures accepted { IfOk result (λ reply. IfRefused reply (λ refusal. ⊥)) }
    ensures limits { IfErr result (TellsReached (ChangingReaches (S.counted store.new))) }
    ensures device { IfErr result (λ refusal. refusal ≡ Disk → HasRisen (S.refused store.old) (S.refused store.new)) }
    ensures same { OnErr result (SameButMark (S.shows store.old) (S.shows store.new)) }
    ensures goes { S.goes_on store.old store.new Going.changes }
{
    if let Err(refusal) = begin(store) {
        return Err(refusal);
    }
    match store.drop_table(name) {
        Ok(()) => Ok(Reply::Done),
        Err(error) => Err(refusal_of(error)),
    }
}

/// DROP INDEX: the index of this name goes. It sets the mark. It is refused for want of memory, by
/// the device or by a limit of the store that it reached; all is then as it was, but for the mark.
pub fn drop_index<S: Store>(store: &mut S, name: &Text) -> Result<Reply, Refusal>
    ensures changes { IfOk result (λ reply. (reading : CheckReading) → S.is_sound store.old
        → HasChanged reading (S.shows store.old) (does.DropIndex name.now) reply (S.shows store.new)) }
    ensures refused { IfErr result (λ refusal. S.is_sound store.old → IsReserved refusal) }
    ensures accepted { IfOk result (λ reply. IfRefused reply (λ refusal. ⊥)) }
    ensures limits { IfErr result (TellsReached (ChangingReaches (S.counted store.new))) }
    ensures device { IfErr result (λ refusal. refusal ≡ Disk → HasRisen (S.refused store.old) (S.refused store.new)) }
    ensures same { OnErr result (SameButMark (S.shows store.old) (S.shows store.new)) }
    ensures goes { S.goes_on store.old store.new Going.changes }
{
    if let Err(refusal) = begin(store) {
        return Err(refusal);
    }
    match store.drop_index(name) {
        Ok(()) => Ok(Reply::Done),
        Err(error) => Err(refusal_of(error)),
    }
}
