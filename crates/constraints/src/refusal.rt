//! The refusal of a statement whose evaluation stops.
ghost use Rattle.std.specs.Prelude.{◌≡◌};
ghost use Rattle.constraints.specs.Stopped.{refused_by};

use denote::{Fault, Stop};
use refusals::{Limit, Refusal};

/// The refusal that a stop is shown as: want of memory, or the fault's own.
pub fn refusal_of_stop(stop: Stop) -> Refusal
    ensures { result ≡ refused_by stop }
{
    match stop {
        Stop::Memory => Refusal::Memory,
        Stop::Fault(fault) => refusal_of_fault(fault),
    }
}

fn refusal_of_fault(fault: Fault) -> Refusal
    ensures { result ≡ refused_by (Stop.Fault fault) }
{
    match fault {
        Fault::ManyRows => Refusal::ManyRows,
        Fault::TextTooLong => Refusal::TextTooLong,
        Fault::OutOfRange => Refusal::OutOfRange,
        Fault::DivisionByZero => Refusal::DivisionByZero,
        Fault::Record => Refusal::Exceeded(Limit::Record),
        Fault::Key => Refusal::Exceeded(Limit::Key),
    }
}
