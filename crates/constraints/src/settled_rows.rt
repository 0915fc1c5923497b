//! Keeps a change of some rows of a table by a look at these alone.
ghost use Rattle.std.specs.Prelude.{◌≡◌, IfErr, OnOk, OnErr};
ghost use Rattle.refusals.specs.declared.refusal.Refusal.TheVariants.{Disk};
ghost use Rattle.denote.specs.Database.{CheckReading};
ghost use Rattle.store.specs.Contents.{database_of};
ghost use Rattle.store.specs.Errors.{HasRisen};
ghost use Rattle.store.specs.Going.{Going};
ghost use Rattle.store.specs.Stored.{undone};
ghost use Rattle.transactions.specs.Refused.{TellsNoLimit};
ghost use Rattle.constraints.specs.Settled.{AreAmong, Breaks, Decided, Holds, OthersHold};

use crate::checks::Checks;
use crate::foreseeing::look_again;
use crate::foreseen::Foreseen;
use crate::frame::settle;
use denote::Row;
use items::Text;
use refusals::Refusal;
use std::alloc::Global;
use store::Store;

/// Keeps what was changed since the mark, where the table of this name now violates no constraint;
/// else goes back to the mark. These rows are some of its own, and the others violate none: so the
/// keys of these alone are looked up, and the table is looked at as a whole only where a key has no
/// index. It is refused by a constraint that the table violates (23000), for want of memory or by
/// the device. CHECKs are decided by what is given for them.
pub fn settle_rows<S: Store, C: Checks>(
    alloc: Global,
    store: &mut S,
    name: &Text,
    rows: &[Row],
    checks: &C,
) -> Result<(), Refusal>
    ensures kept { OnOk result (S.shows store.new ≡ S.shows store.old) }
    ensures holds { OnOk result ((reading : CheckReading) → S.is_sound store.old
        → Decided (C.decides checks.now reading) (database_of (S.shows store.old).working) name.now
        → OthersHold reading (database_of (S.shows store.old).working) name.now rows.now
        → Holds reading (database_of (S.shows store.old).working) name.now) }
    ensures undone { OnErr result (S.shows store.new ≡ undone (S.shows store.old)) }
    ensures refused { IfErr result (λ refusal. (reading : CheckReading) → S.is_sound store.old
        → Decided (C.decides checks.now reading) (database_of (S.shows store.old).working) name.now
        → AreAmong (database_of (S.shows store.old).working) name.now rows.now
        → Breaks reading (database_of (S.shows store.old).working) name.now refusal) }
    ensures limits { IfErr result TellsNoLimit }
    ensures device { IfErr result (λ refusal. refusal ≡ Disk → HasRisen (S.refused store.old) (S.refused store.new)) }
    ensures goes { S.goes_on store.old store.new Going.keeps }
{
    match look_again(alloc, store, name, rows, checks) {
        Ok(Foreseen::Fits) => Ok(()),
        Ok(Foreseen::Violates(constraint)) => {
            store.undo();
            Err(Refusal::Violated(constraint))
        }
        Ok(Foreseen::Open) => match settle(alloc, store, name, checks) {
            Ok(()) => Ok(()),
            Err(refusal) => Err(refusal),
        },
        Err(refusal) => {
            store.undo();
            Err(refusal)
        }
    }
}
