//! What decides CHECKs, which are evaluated above this crate.
ghost use Rattle.std.specs.Prelude.{◌≡◌, List, [], IfOk, IfErr, MatchOption, Contains};
ghost use Rattle.refusals.specs.declared.refusal.Refusal.TheVariants.{Memory};
ghost use Rattle.sqlval.specs.declared.schema.Column.{Column};
ghost use Rattle.sqlval.specs.declared.schema.Constraint.{Constraint as Declared};
ghost use Rattle.denote.specs.Database.{Name, CheckReading, table_of};
ghost use Rattle.constraints.specs.Rules.{broken_checks};

use crate::constraints::has_check;
use denote::Row;
use items::Text;
use refusals::Refusal;
use sqlval::Table;
use std::alloc::Global;

/// What decides whether rows violate the CHECKs of a table.
pub trait Checks {
    /// That it decides by this reading of their texts, in the table of this name with these columns
    /// and constraints.
    ghost decides: { Self → CheckReading → Name → List Column → List Declared → Type 0 };

    /// The name of a CHECK of a table that is false at one of these rows. It is refused for want of
    /// memory alone.
    fn violated(&self, alloc: Global, table: &Table, rows: &[Row]) -> Result<Option<Text>, Refusal>
        ensures found { IfOk result (λ found. (reading : CheckReading) (name : Name)
            → decides self.now reading name table.now.columns table.now.constraints
            → MatchOption found (broken_checks reading name (table_of table.now rows.now) ≡ []) (λ constraint. Contains (broken_checks reading name (table_of table.now rows.now)) constraint)) }
        ensures refused { IfErr result (λ refusal. refusal ≡ Memory) };
}

/// For tables without CHECKs. A table with one is refused as for want of memory.
pub struct NoChecks;

impl Checks for NoChecks {
    ghost use Rattle.std.specs.Prelude.{⊤};

    ghost decides = { λ _ _ _ _ _. ⊤ };

    fn violated(
        &self,
        _alloc: Global,
        table: &Table,
        _rows: &[Row],
    ) -> Result<Option<Text>, Refusal> {
        if has_check(table.constraints.as_slice()) {
            return Err(Refusal::Memory);
        }
        Ok(None)
    }
}
