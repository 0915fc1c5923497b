//! Reading the CHECKs of a table.
ghost use Rattle.std.specs.Prelude.{◌≡◌, ◌≢◌, IfOk, IfErr, map};
ghost use Rattle.algebra.specs.Described.{described_in};
ghost use Rattle.algebra.specs.Translated.{tree_of_condition};
ghost use Rattle.denote.specs.Database.{CheckReading, IsReadable, AreReadable};
ghost use Rattle.query_answers.specs.Sources.{AreChecksOf};
ghost use Rattle.refusals.specs.declared.refusal.Refusal.TheVariants as refused;
ghost use Rattle.typing.specs.Check.{IsCheckReading};
ghost use Rattle.check_constraints.specs.Conditions.{AllStand, AreOfSome, Stands, conditions_of};
ghost use Rattle.check_constraints.specs.declared.reading.CheckFault.TheVariants.{Memory, Unreadable};

use crate::decided::TableChecks;
use algebra::Condition;
use check_reader::read_check;
use items::{Items, Text};
use refusals::Refusal;
use sqlval::{Rule, Schema, Table};
use std::alloc::{AllocError, Global};
use thiserror::Error;
use translation::translate_condition;

/// Why the CHECKs of a table are not read.
#[derive(Clone, Copy, Debug, PartialEq, Eq, Error)]
pub enum CheckFault {
    /// Memory was wanting.
    #[error("out of memory")]
    Memory,
    /// The kept text of a CHECK stands for no condition of the table's rows, or nests too deep. No
    /// statement keeps one.
    #[error("the text of a CHECK cannot be read")]
    Unreadable,
}

impl From<AllocError> for CheckFault {
    ghost use Rattle.std.specs.Prelude.{◌≡◌};
    ghost use Rattle.check_constraints.specs.declared.reading.CheckFault.TheVariants.{Memory};

    ghost from_gives = { λ _ fault. fault ≡ Memory };

    fn from(_refused: AllocError) -> CheckFault {
        CheckFault::Memory
    }
}

/// The CHECKs of a table of this schema, each read once from its text. Refuses for want of memory,
/// and where a text cannot be read.
pub fn table_checks(
    alloc: Global,
    schema: &Schema,
    table: &Table,
) -> Result<TableChecks, CheckFault>
    ensures some { IfOk result (λ checks. AreOfSome checks.conditions) }
    ensures decides { IfOk result (λ checks. (reading : CheckReading) → IsCheckReading reading
        → AreChecksOf (conditions_of reading table.now.name table.now.columns table.now.constraints) checks.conditions) }
    // Where a text stands for no condition nothing is given.
    ensures stand { IfOk result (λ _. AllStand table.now.name table.now.columns table.now.constraints) }
    // Where all can be read, none is said to be unreadable.
    ensures unreadable { IfErr result (λ fault. fault ≡ Unreadable
        → AreReadable table.now.name table.now.columns table.now.constraints → ⊥) }
{
    let conditions = read_checks(alloc, table)?;
    let trees = trees_of(alloc, schema, conditions.as_slice())?;
    Ok(TableChecks { conditions: trees })
}

/// The conditions that the texts of a table's CHECKs stand for.
fn read_checks(alloc: Global, table: &Table) -> Result<Items<typing::Condition>, CheckFault>
    ensures rules { IfOk result (λ conditions. (reading : CheckReading) → IsCheckReading reading
        → conditions ≡ conditions_of reading table.now.name table.now.columns table.now.constraints) }
    ensures stand { IfOk result (λ _. AllStand table.now.name table.now.columns table.now.constraints) }
    ensures unreadable { IfErr result (λ fault. fault ≡ Unreadable
        → AreReadable table.now.name table.now.columns table.now.constraints → ⊥) }
{
    let mut conditions = Items::new(alloc);
    for constraint in table.constraints.as_slice() {
        if let Rule::Check(text) = &constraint.rule {
            match read(alloc, table, text) {
                Ok(condition) => conditions.push(condition)?,
                Err(fault) => return Err(fault),
            }
        }
    }
    Ok(conditions)
}

fn read(alloc: Global, table: &Table, text: &Text) -> Result<typing::Condition, CheckFault>
    ensures rules { IfOk result (λ condition. (reading : CheckReading) → IsCheckReading reading
        → condition ≡ reading table.now.name table.now.columns text.now) }
    ensures stands { IfOk result (λ _. Stands table.now.name table.now.columns text.now) }
    ensures unreadable { IfErr result (λ fault. fault ≡ Unreadable
        → IsReadable table.now.name table.now.columns text.now → ⊥) }
{
    match read_check(alloc, table, text) {
        Ok(condition) => Ok(condition),
        Err(refusal) => Err(fault_of(refusal)),
    }
}

/// Unreadable, but for want of memory.
fn fault_of(refusal: Refusal) -> CheckFault
    ensures memory { refusal ≡ refused.Memory → result ≡ Memory }
    ensures others { refusal ≢ refused.Memory → result ≡ Unreadable }
{
    match refusal {
        Refusal::Memory => CheckFault::Memory,
        _ => CheckFault::Unreadable,
    }
}

/// The trees of conditions.
fn trees_of(
    alloc: Global,
    schema: &Schema,
    conditions: &[typing::Condition],
) -> Result<Items<Condition>, AllocError>
    ensures { IfOk result (λ trees. trees ≡ map (tree_of_condition (described_in schema.now)) conditions.now) }
{
    let mut trees = Items::new(alloc);
    for condition in conditions {
        trees.push(translate_condition(alloc, schema, condition)?)?;
    }
    Ok(trees)
}
