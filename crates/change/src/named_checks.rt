//! The CHECKs of the table that a change names.
ghost use Rattle.std.specs.Prelude.{◌≡◌, ◌⊎◌, Some, IfOk, IfErr};
ghost use Rattle.std.specs.FinMap.{get};
ghost use Rattle.refusals.specs.declared.refusal.Refusal.TheVariants.{Damaged, Memory};
ghost use Rattle.typing.specs.Check.{IsCheckReading};
ghost use Rattle.denote.specs.Database.{Database, Table, CheckReading, IsGood};
ghost use Rattle.denote.specs.SchemaOf.{IsSchemaOf};
ghost use Rattle.transactions.specs.Refused.{TellsNoLimit};
ghost use Rattle.check_constraints.specs.declared.reading.CheckFault.TheVariants as fault_of_checks;
ghost use Rattle.update_delete.specs.Checked.{AreChecksFor};

use check_constraints::{CheckFault, TableChecks, table_checks};
use constraints::table_named;
use items::Text;
use refusals::Refusal;
use sqlval::Schema;
use std::alloc::Global;

/// The CHECKs of the table of this name. Refuses for want of memory; a name that no table has is
/// refused as for that. A text that cannot be read is `Damaged`: a good database has none.
pub(crate) fn named_checks(
    alloc: Global,
    schema: &Schema,
    name: &Text,
) -> Result<TableChecks, Refusal>
    ensures there { IfOk result (λ _. (db : Database) → IsSchemaOf schema.now db
        → (table : Table) × (get db name.now ≡ Some table)) }
    ensures decides { IfOk result (λ checks. (reading : CheckReading) (db : Database) → IsCheckReading reading
        → IsSchemaOf schema.now db → AreChecksFor reading db name.now checks.conditions) }
    ensures refused { IfErr result (λ refusal. (refusal ≡ Memory) ⊎ (refusal ≡ Damaged)) }
    ensures limits { IfErr result TellsNoLimit }
    ensures good { IfErr result (λ refusal. (reading : CheckReading) (db : Database) → IsSchemaOf schema.now db
        → IsGood reading db → refusal ≡ Memory) }
{
    match table_named(schema, name) {
        Some(table) => match table_checks(alloc, schema, table) {
            Ok(checks) => Ok(checks),
            Err(fault) => Err(refusal_of(fault)),
        },
        None => Err(Refusal::Memory),
    }
}

/// The refusal that says why CHECKs are not read.
fn refusal_of(fault: CheckFault) -> Refusal
    ensures memory { fault ≡ fault_of_checks.Memory → result ≡ Memory }
    ensures damaged { fault ≡ fault_of_checks.Unreadable → result ≡ Damaged }
{
    match fault {
        CheckFault::Memory => Refusal::Memory,
        CheckFault::Unreadable => Refusal::Damaged,
    }
}
