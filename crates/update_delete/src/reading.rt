//! The tables that the trees of a statement name, as they stand in the newest version.
ghost use Rattle.std.specs.Prelude.{◌≡◌, IfOk, IfErr};
ghost use Rattle.refusals.specs.declared.refusal.Refusal.TheVariants.{Disk};
ghost use Rattle.denote.specs.Database.{rows_in};
ghost use Rattle.session_definitions.specs.Refusals.{IsReserved};
ghost use Rattle.store.specs.Contents.{database_of};
ghost use Rattle.store.specs.Errors.{HasRisen};
ghost use Rattle.store.specs.Going.{Going};
ghost use Rattle.tree_tables.specs.TablesRead.{Agree};
ghost use Rattle.transactions.specs.Refused.{TellsNoLimit};
ghost use Rattle.query_answers.specs.Lent.{rows_lent};
ghost use Rattle.update_delete.specs.Statements.{tables_in_filter, tables_in_update};

use crate::change::RowUpdate;
use crate::trees::{tables_for_filter, tables_for_update};
use algebra::Condition;
use query_answers::LentTables;
use refusals::Refusal;
use std::alloc::Global;
use store::{Seen, Store, View};

/// Those that the condition of a DELETE names.
pub(crate) fn lent_to_delete<S: Store>(
    alloc: Global,
    store: &mut S,
    filter: &Option<Condition>,
) -> Result<LentTables, Refusal>
    ensures lent { S.is_sound store.old
        → IfOk result (λ lent. Agree (rows_lent lent.tables) (rows_in (database_of (S.shows store.old).working)) (tables_in_filter filter.now)) }
    ensures refused { IfErr result (λ refusal. S.is_sound store.old → IsReserved refusal) }
    ensures limits { IfErr result TellsNoLimit }
    ensures device { IfErr result (λ refusal. refusal ≡ Disk → HasRisen (S.refused store.old) (S.refused store.new)) }
    ensures prepared { S.prepared store.new ≡ S.prepared store.old }
    ensures shows { S.shows store.new ≡ S.shows store.old }
    ensures goes { S.goes_on store.old store.new Going.reads }
{
    let mut seen = Seen {
        store,
        view: View::Working,
    };
    tables_for_filter(alloc, &mut seen, filter)
}

/// Those that the trees of an UPDATE name.
pub(crate) fn lent_to_update<S: Store>(
    alloc: Global,
    store: &mut S,
    update: &RowUpdate,
) -> Result<LentTables, Refusal>
    ensures lent { S.is_sound store.old
        → IfOk result (λ lent. Agree (rows_lent lent.tables) (rows_in (database_of (S.shows store.old).working)) (tables_in_update update.now)) }
    ensures refused { IfErr result (λ refusal. S.is_sound store.old → IsReserved refusal) }
    ensures limits { IfErr result TellsNoLimit }
    ensures device { IfErr result (λ refusal. refusal ≡ Disk → HasRisen (S.refused store.old) (S.refused store.new)) }
    ensures prepared { S.prepared store.new ≡ S.prepared store.old }
    ensures shows { S.shows store.new ≡ S.shows store.old }
    ensures goes { S.goes_on store.old store.new Going.reads }
{
    let mut seen = Seen {
        store,
        view: View::Working,
    };
    tables_for_update(alloc, &mut seen, update)
}
