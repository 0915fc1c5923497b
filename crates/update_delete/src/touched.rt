//! Whether a row is touched.
ghost use Rattle.std.specs.Prelude.{[], ◌∷◌};
ghost use Rattle.algebra.specs.Listing.{truth_listing};
ghost use Rattle.denote.specs.Stop.{Gives};
ghost use Rattle.query_answers.specs.Lent.{rows_lent};
ghost use Rattle.update_delete.specs.Given.{touched_given};

use algebra::Condition;
use denote::Stop;
use executor::{Env, condition_truth};
use query_answers::LentTables;
use sqlval::{Truth, Value};
use std::alloc::Global;

/// Whether a row is touched: without a condition each is, else those at which it is true; or one of
/// the faults of the condition.
pub(crate) fn is_touched(
    alloc: Global,
    lent: &LentTables,
    filter: &Option<Condition>,
    row: &[Value],
) -> Result<bool, Stop>
    ensures { Gives result (touched_given (rows_lent lent.now.tables) filter.now row.now) }
{
    match filter {
        None => Ok(true),
        Some(condition) => match truth_at(alloc, lent, condition, row) {
            Ok(truth) => Ok(truth.is_true()),
            Err(stop) => Err(stop),
        },
    }
}

/// A condition at a row.
pub(crate) fn truth_at(
    alloc: Global,
    lent: &LentTables,
    condition: &Condition,
    row: &[Value],
) -> Result<Truth, Stop>
    ensures { Gives result (truth_listing (rows_lent lent.now.tables) condition.now (row.now ∷ [])) }
{
    let env = Env::Inside(row, &Env::Outermost);
    condition_truth(alloc, lent, &env, condition)
}
