//! Changes of rows, one after another.
ghost use Rattle.std.specs.Prelude.{◌≡◌, ◌≤◌, [], ◌∷◌, IfErr, OnOk, OnErr, count_by, if◌then◌else◌};
ghost use Rattle.std.specs.FinMap.{get};
ghost use Rattle.refusals.specs.declared.refusal.Refusal.TheVariants.{Disk};
ghost use Rattle.operator_laws.specs.Same.{Every};
ghost use Rattle.session_definitions.specs.Refusals.{IsReserved};
ghost use Rattle.store.specs.Errors.{HasRisen, indexes_of};
ghost use Rattle.store.specs.Going.{Going};
ghost use Rattle.store.specs.Stored.{IsAlone, undone, working_on};
ghost use Rattle.transactions.specs.Refused.{TellsReached};
ghost use Rattle.update_delete.specs.Reached.{IsNumberedOut, MakingReaches};
ghost use Rattle.update_delete.specs.RowChanges.{is_change, IsShort};
ghost use Rattle.update_delete.specs.Made.{made_one, all_made};

use crate::change::RowChange;
use items::{Items, Text};
use refusals::Refusal;
use store::Store;
use transactions::refusal_of;

/// Makes of the rows with these numbers what they become, the n-th by the n-th change. It is
/// refused for want of memory, by the device or by a limit of the store: of rows and keys only
/// where some row is too long.
pub(crate) fn make_changes<S: Store>(
    store: &mut S,
    name: &Text,
    numbers: &[u64],
    changes: Items<RowChange>,
) -> Result<(), Refusal>
    ensures shows { S.is_sound store.old
        → OnOk result (S.shows store.new ≡ working_on (S.shows store.old) (all_made name.now numbers.now changes (S.shows store.old).working)) }
    ensures undone { OnErr result (S.shows store.new ≡ undone (S.shows store.old)) }
    ensures alone { OnOk result (IsAlone (S.shows store.old) (S.shows store.new)) }
    ensures refused { IfErr result (λ refusal. S.is_sound store.old
        → Every (IsShort (indexes_of (get (S.shows store.old).working name.now))) changes → IsReserved refusal) }
    ensures limits { IfErr result (TellsReached (MakingReaches (S.counted store.new) changes (S.is_sound store.old
        → IsNumberedOut (get (S.shows store.old).working name.now)))) }
    ensures device { IfErr result (λ refusal. refusal ≡ Disk → HasRisen (S.refused store.old) (S.refused store.new)) }
    ensures goes { S.goes_on store.old store.new Going.changes }
{
    let mut rest = numbers;
    for change in changes.into_vec() {
        let Some((number, others)) = rest.split_first() else {
            return Ok(());
        };
        if let Err(refusal) = make_change(store, name, *number, change) {
            return Err(refusal);
        }
        rest = others;
    }
    Ok(())
}

fn make_change<S: Store>(
    store: &mut S,
    name: &Text,
    number: u64,
    change: RowChange,
) -> Result<(), Refusal>
    ensures shows { S.is_sound store.old
        → OnOk result (S.shows store.new ≡ working_on (S.shows store.old) (made_one name.now number change (S.shows store.old).working)) }
    ensures undone { OnErr result (S.shows store.new ≡ undone (S.shows store.old)) }
    ensures alone { OnOk result (IsAlone (S.shows store.old) (S.shows store.new)) }
    ensures refused { IfErr result (λ refusal. S.is_sound store.old
        → IsShort (indexes_of (get (S.shows store.old).working name.now)) change → IsReserved refusal) }
    ensures limits { IfErr result (TellsReached (MakingReaches (S.counted store.new) (change ∷ []) (IsNumberedOut (get (S.shows store.old).working name.now)))) }
    ensures device { IfErr result (λ refusal. refusal ≡ Disk → HasRisen (S.refused store.old) (S.refused store.new)) }
    ensures goes { S.goes_on store.old store.new Going.changes }
{
    match change {
        RowChange::Stays => Ok(()),
        RowChange::Goes => match store.delete(name, number) {
            Ok(()) => Ok(()),
            Err(error) => Err(refusal_of(error)),
        },
        RowChange::Becomes(row) => match store.replace(name, number, row) {
            Ok(()) => Ok(()),
            Err(error) => Err(refusal_of(error)),
        },
    }
}

/// How many rows are touched.
pub(crate) fn touched(changes: &[RowChange]) -> usize
    ensures { result ≡ count_by is_change changes.now }
{
    let mut count = 0;
    for change in changes {
        let more = one_if_touched(change);
        count += more;
    }
    count
}

fn one_if_touched(change: &RowChange) -> usize
    ensures count { result ≡ (if is_change change.now then 1 else 0) }
    ensures few { result ≤ 1 }
{
    match change {
        RowChange::Stays => 0,
        RowChange::Goes => 1,
        RowChange::Becomes(_) => 1,
    }
}
