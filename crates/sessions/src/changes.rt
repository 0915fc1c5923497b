//! How changes of tables are carried out, which sessions take as it is.
ghost use Rattle.std.specs.Prelude.{◌≡◌, true, IfOk, IfErr, OnErr};
ghost use Rattle.ast.specs.declared.statement.Statement.{Statement as Tree};
ghost use Rattle.refusals.specs.declared.refusal.Refusal.TheVariants.{Disk};
ghost use Rattle.denote.specs.Database.{IsGood};
ghost use Rattle.denote.specs.SchemaOf.{IsSchemaOf};
ghost use Rattle.session_definitions.specs.InsertedRows.{inserting};
ghost use Rattle.session_definitions.specs.Rules.{Rules, AreRules, Means};
ghost use Rattle.store.specs.Contents.{database_of};
ghost use Rattle.store.specs.Errors.{HasRisen};
ghost use Rattle.store.specs.Going.{Going};
ghost use Rattle.store.specs.Stored.{SameButMark};
ghost use Rattle.transactions.specs.Refused.{IfRefused, TellsReached};
ghost use Rattle.typing.specs.declared.statement.Typed.TheVariants as does;
ghost use Rattle.sessions.specs.Changed.{HasChanged, MakesChange, RefusesChange, RefusesStatement};
ghost use Rattle.sessions.specs.ToldLimits.{ChangeTells, RowsTell};

use denote::Rows;
use items::Text;
use refusals::Refusal;
use replies::Reply;
use std::alloc::Global;
use store::Store;
use typing::Change;

/// What carries out changes of the tables of a store.
pub trait Changes<S: Store>: Drop {
    /// Carries out a change that was typed over the newest version with its changes, whose schema
    /// is the one that is ready. What is answered is no refusal. A refusal leaves all as it was,
    /// but for the mark; it is that of the device only where a call of the device was refused, and
    /// a limit of what the store counts only where the store counts that it is reached, or row
    /// numbers end.
    fn make(&self, alloc: Global, store: &mut S, change: Change) -> Result<Reply, Refusal>
        ensures changes { IfOk result (λ reply. (rules : Rules) (x : Tree) → AreRules rules → S.is_sound store.old
            → IsSchemaOf (S.prepared store.old) (database_of (S.shows store.old).working)
            → IsGood rules.check (database_of (S.shows store.old).working)
            → Means rules (database_of (S.shows store.old).working) x (does.Change change)
            → HasChanged rules (S.shows store.old) change reply (S.shows store.new)) }
        ensures refused { IfErr result (λ refusal. (rules : Rules) (x : Tree) → AreRules rules → S.is_sound store.old
            → IsSchemaOf (S.prepared store.old) (database_of (S.shows store.old).working)
            → IsGood rules.check (database_of (S.shows store.old).working)
            → Means rules (database_of (S.shows store.old).working) x (does.Change change)
            → RefusesChange rules (database_of (S.shows store.old).working) change refusal) }
        ensures reached { IfErr result (TellsReached (ChangeTells (S.counted store.new) (S.is_sound store.old) (S.prepared store.old) (S.shows store.old).working change)) }
        ensures accepted { IfOk result (λ reply. IfRefused reply (λ refusal. ⊥)) }
        ensures device { IfErr result (λ refusal. refusal ≡ Disk
            → HasRisen (S.refused store.old) (S.refused store.new)) }
        ensures same { OnErr result (SameButMark (S.shows store.old) (S.shows store.new)) }
        ensures goes { S.goes_on store.old store.new Going.changes };

    /// Carries out the INSERT of these rows into all columns of the table of this name, over the
    /// newest version with its changes, whose schema is the one that is ready. The rows are looked
    /// at by the rules of names and types. What is answered is no refusal. A refusal leaves all as
    /// it was, but for the mark; it is that of the device only where a call of the device was
    /// refused, and a limit of what the store counts only where the store counts that it is
    /// reached, or row numbers end.
    fn insert(
        &self,
        alloc: Global,
        store: &mut S,
        table: &Text,
        rows: Rows,
    ) -> Result<Reply, Refusal>
        ensures changes { IfOk result (λ reply. (rules : Rules) (x : Tree) → AreRules rules → S.is_sound store.old
            → IsSchemaOf (S.prepared store.old) (database_of (S.shows store.old).working)
            → IsGood rules.check (database_of (S.shows store.old).working)
            → MakesChange (inserting rules table.now rows) (S.shows store.old) x reply (S.shows store.new)) }
        ensures refused { IfErr result (λ refusal. (rules : Rules) (x : Tree) → AreRules rules → S.is_sound store.old
            → IsSchemaOf (S.prepared store.old) (database_of (S.shows store.old).working)
            → IsGood rules.check (database_of (S.shows store.old).working)
            → RefusesStatement (inserting rules table.now rows) (database_of (S.shows store.old).working) x refusal) }
        ensures reached { IfErr result (TellsReached (RowsTell (S.counted store.new) (S.is_sound store.old) (S.prepared store.old) (S.shows store.old).working table.now rows)) }
        ensures accepted { IfOk result (λ reply. IfRefused reply (λ refusal. ⊥)) }
        ensures device { IfErr result (λ refusal. refusal ≡ Disk
            → HasRisen (S.refused store.old) (S.refused store.new)) }
        ensures same { OnErr result (SameButMark (S.shows store.old) (S.shows store.new)) }
        ensures goes { S.goes_on store.old store.new Going.changes };
}
