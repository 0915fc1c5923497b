ghost use Rattle.std.specs.Prelude.{◌≡◌};
ghost use Rattle.session_definitions.specs.Refusals.{refusal_of as refusal_for};

use denote::Fault;
use refusals::{Limit, Refusal};

/// The refusal of a statement for a fault of its evaluation.
pub fn refusal_of_fault(fault: Fault) -> Refusal
    ensures { result ≡ refusal_for fault }
{
    match fault {
        Fault::ManyRows => Refusal::ManyRows,
        Fault::TextTooLong => Refusal::TextTooLong,
        Fault::OutOfRange => Refusal::OutOfRange,
        Fault::DivisionByZero => Refusal::DivisionByZero,
        Fault::Record => Refusal::Exceeded(Limit::Record),
        Fault::Key => Refusal::Exceeded(Limit::Key),
    }
}
