//! Whether a table holds with rows at its end, looked at before these come there.
ghost use Rattle.std.specs.Prelude.{◌≡◌, true, IfOk, IfErr};
ghost use Rattle.refusals.specs.declared.refusal.Refusal.TheVariants.{Disk};
ghost use Rattle.denote.specs.Database.{CheckReading, Database};
ghost use Rattle.store.specs.Contents.{database_of};
ghost use Rattle.store.specs.Errors.{HasRisen};
ghost use Rattle.store.specs.Going.{Going};
ghost use Rattle.transactions.specs.Refused.{TellsNoLimit};
ghost use Rattle.constraints.specs.Settled.{Decided, Holds, Breaks};
ghost use Rattle.table_changes.specs.Given.{HasMore};

use constraints::{Checks, Foreseen, foresee};
use denote::Row;
use items::Text;
use refusals::Refusal;
use std::alloc::Global;
use store::Store;

/// Whether it is known that the table of this name, which violates no constraint, violates none
/// with these rows at its end. It is refused by a constraint that it then violates (23000), for
/// want of memory or by the device. The store is left as it was. CHECKs are decided by what is
/// given for them.
pub(crate) fn known_to_hold<S: Store, C: Checks>(
    alloc: Global,
    store: &mut S,
    name: &Text,
    rows: &[Row],
    checks: &C,
) -> Result<bool, Refusal>
    ensures known { IfOk result (λ known. (reading : CheckReading) (made : Database) → S.is_sound store.old
        → Decided (C.decides checks.now reading) (database_of (S.shows store.old).working) name.now
        → Holds reading (database_of (S.shows store.old).working) name.now
        → HasMore (database_of (S.shows store.old).working) name.now rows.now made → known ≡ true
        → Holds reading made name.now) }
    ensures refused { IfErr result (λ refusal. (reading : CheckReading) (made : Database) → S.is_sound store.old
        → Decided (C.decides checks.now reading) (database_of (S.shows store.old).working) name.now
        → Holds reading (database_of (S.shows store.old).working) name.now
        → HasMore (database_of (S.shows store.old).working) name.now rows.now made
        → Breaks reading made name.now refusal) }
    ensures shows { S.shows store.new ≡ S.shows store.old }
    ensures limits { IfErr result TellsNoLimit }
    ensures device { IfErr result (λ refusal. refusal ≡ Disk → HasRisen (S.refused store.old) (S.refused store.new)) }
    ensures goes { S.goes_on store.old store.new Going.keeps }
{
    match foresee(alloc, store, name, rows, checks) {
        Ok(Foreseen::Fits) => Ok(true),
        Ok(Foreseen::Violates(constraint)) => Err(Refusal::Violated(constraint)),
        Ok(Foreseen::Open) => Ok(false),
        Err(refusal) => Err(refusal),
    }
}
