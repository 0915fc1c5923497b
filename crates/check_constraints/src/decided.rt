//! Deciding the CHECKs of a table at its rows.
ghost use Rattle.std.specs.Prelude.{◌≡◌, [], IfOk, IfErr, MatchOption, Contains};
ghost use Rattle.std.specs.List.{list_any};
ghost use Rattle.refusals.specs.declared.refusal.Refusal.TheVariants.{Memory};
ghost use Rattle.denote.specs.Database.{CheckReading, Name, is_false, table_of};
ghost use Rattle.constraints.specs.Rules.{broken_checks};
ghost use Rattle.query_answers.specs.Sources.{AreChecksOf, check_truth};
ghost use Rattle.check_constraints.specs.Conditions.{conditions_of};

use algebra::Condition;
use algebra_laws::evaluation_keeps_the_meaning;
use constraints::Checks;
use denote::{Row, Stop, Tables};
use executor::{Env, condition_truth};
use items::{Items, Text};
use refusals::Refusal;
use sqlval::{Rule, Table, Value};
use std::alloc::Global;

/// The conditions of a table's CHECKs as trees, in the order of its constraints.
#[derive(Drop)]
pub struct TableChecks {
    pub conditions: Items<Condition>,
}

impl Checks for TableChecks {
    ghost decides = { λ checks reading name columns constraints. AreChecksOf (conditions_of reading name columns constraints) checks.conditions };

    fn violated(
        &self,
        alloc: Global,
        table: &Table,
        rows: &[Row],
    ) -> Result<Option<Text>, Refusal> {
        match violated_check(alloc, table, self.conditions.as_slice(), rows) {
            Ok(None) => Ok(None),
            Ok(Some(name)) => match name.copy(alloc) {
                Ok(name) => Ok(Some(name)),
                Err(_) => Err(Refusal::Memory),
            },
            Err(refusal) => Err(refusal),
        }
    }
}

/// What a CHECK sees of stored tables: nothing.
struct NoTables;

impl Tables for NoTables {
    ghost rows_of = { λ _ _. [] };

    fn rows(&self, _name: &Text) -> &[Row] {
        &[]
    }
}

/// The name of a CHECK of a table that is false at one of these rows. The conditions are those of
/// its CHECKs, in their order.
fn violated_check<'a>(
    alloc: Global,
    table: &'a Table,
    conditions: &[Condition],
    rows: &[Row],
) -> Result<Option<&'a Text>, Refusal>
    ensures found { IfOk result (λ found. (reading : CheckReading) (name : Name)
        → AreChecksOf (conditions_of reading name table.now.columns table.now.constraints) conditions.now
        → MatchOption found (broken_checks reading name (table_of table.now rows.now) ≡ []) (λ constraint. Contains (broken_checks reading name (table_of table.now rows.now)) constraint.now)) }
    ensures refused { IfErr result (λ refusal. refusal ≡ Memory) }
{
    evaluation_keeps_the_meaning();
    let mut left = conditions;
    for constraint in table.constraints.as_slice() {
        if let Rule::Check(_) = &constraint.rule {
            let Some((condition, others)) = left.split_first() else {
                return Err(Refusal::Memory);
            };
            if is_false_somewhere(alloc, condition, rows)? {
                return Ok(Some(&constraint.name));
            }
            left = others;
        }
    }
    Ok(None)
}

/// Whether a CHECK is false at one of these rows.
fn is_false_somewhere(alloc: Global, condition: &Condition, rows: &[Row]) -> Result<bool, Refusal>
    ensures found { IfOk result (λ found. found ≡ list_any (λ row. is_false (check_truth row condition.now)) rows.now) }
    ensures refused { IfErr result (λ refusal. refusal ≡ Memory) }
{
    for row in rows {
        if is_false_at(alloc, condition, row.as_slice())? {
            return Ok(true);
        }
    }
    Ok(false)
}

/// Whether a CHECK is false at a row, which is all that it sees. Where it cannot be evaluated it is
/// not.
fn is_false_at(alloc: Global, condition: &Condition, row: &[Value]) -> Result<bool, Refusal>
    ensures found { IfOk result (λ found. found ≡ is_false (check_truth row.now condition.now)) }
    ensures refused { IfErr result (λ refusal. refusal ≡ Memory) }
{
    let env = Env::Inside(row, &Env::Outermost);
    match condition_truth(alloc, &NoTables, &env, condition) {
        Ok(truth) => Ok(truth.is_false()),
        Err(Stop::Fault(_)) => Ok(false),
        Err(Stop::Memory) => Err(Refusal::Memory),
    }
}
