//! What a table may hold.
ghost use Rattle.std.specs.Prelude.{[]};
ghost use Rattle.denote.specs.Database.{table_of};
ghost use Rattle.denote.specs.Stop.{Gives, Passes};
ghost use Rattle.query_answers.specs.Sources.{check_truth, check_faults, faults_at};

use crate::touched::truth_at;
use algebra::Condition;
use constraints::admit;
use denote::Stop;
use items::Items;
use query_answers::LentTables;
use sqlval::{Table, Truth, Value};
use std::alloc::Global;

/// Whether a table may hold a row, but for its constraints: each CHECK can be evaluated there, and
/// the row and its keys are short enough; or one of the faults.
pub(crate) fn may_hold(
    alloc: Global,
    table: &Table,
    checks: &[Condition],
    row: &[Value],
) -> Result<(), Stop>
    ensures { Passes result (faults_at checks.now (table_of table.now []) row.now) }
{
    evaluate_checks(alloc, checks, row)?;
    admit(alloc, table, row)
}

/// Whether each CHECK can be evaluated at a row.
fn evaluate_checks(alloc: Global, checks: &[Condition], row: &[Value]) -> Result<(), Stop>
    ensures { Passes result (check_faults checks.now row.now) }
{
    for check in checks {
        check_truth(alloc, row, check)?;
    }
    Ok(())
}

/// A CHECK at a row, which is all that it sees.
fn check_truth(alloc: Global, row: &[Value], check: &Condition) -> Result<Truth, Stop>
    ensures { Gives result (check_truth row.now check.now) }
{
    let nothing = LentTables {
        tables: Items::new(alloc),
    };
    truth_at(alloc, &nothing, check, row)
}
