//! What a step of a plan gives.
ghost use Rattle.std.specs.Prelude.{◌≡◌, ℕ, IfOk, IfErr, Ok, Err, Some};
ghost use Rattle.places.specs.declared.place.Place.TheVariants as p;
ghost use Rattle.algebra.specs.declared.tree.Tree.{Tree};
ghost use Rattle.denote.specs.Outcome.{Outcome};
ghost use Rattle.places.specs.Left.{Entries};
ghost use Rattle.streams.specs.Ahead.{RowsAhead, StepAhead};
ghost use Rattle.streams.specs.Reads.{RowsRead, StepReads};
ghost use Rattle.streams.specs.Steps.{IsPassed, RowsGive, StepGives};

use denote::{Fault, Rows};
use places::Place;
use store::StoreError;

/// Rows that a step gives, and how far the list is given then.
#[derive(Drop)]
pub(crate) struct Step {
    pub rows: Rows,
    pub place: Place,
}

/// What a step gives; its place is put where the plan stands.
pub(crate) fn put_step(
    place: &mut Place,
    step: Result<Step, StoreError>,
) -> Result<Rows, StoreError>
    ensures rows { (entries : Entries) (tree : Tree) (whole : Outcome) → StepGives entries tree whole step
        → RowsGive entries tree whole result place.new }
    ensures reads { (entries : Entries) (tree : Tree) (count limit : ℕ) → StepReads entries tree count limit step
        → RowsRead entries tree count limit result place.new }
    ensures ahead { (entries : Entries) (tree : Tree) (to_come was count most : ℕ)
        → StepAhead entries tree to_come was count most step
        → RowsAhead entries tree to_come was count most result place.new }
    ensures refused { IfErr result (IsPassed step) }
{
    match step {
        Ok(step) => {
            *place = step.place;
            Ok(step.rows)
        }
        Err(error) => Err(error),
    }
}

/// What was made; what was there to make it goes.
pub(crate) fn beside<A, T: Drop>(made: A, _rest: T) -> A
    ensures { result ≡ made }
{
    made
}

/// A refusal; what was there for the step goes.
pub(crate) fn refused<T: Drop>(error: StoreError, _rest: T) -> Result<Step, StoreError>
    ensures { result ≡ Err error }
{
    Err(error)
}

/// A step whose list a fault ends; what was there for more of it goes.
pub(crate) fn ended<T: Drop>(rows: Rows, fault: Fault, _rest: T) -> Result<Step, StoreError>
    ensures { result ≡ Ok (record { rows = rows; place = p.Ended (Some fault) }) }
{
    Ok(Step {
        rows,
        place: Place::Ended(Some(fault)),
    })
}
