//! What is printed once scripts have run.
ghost use Rattle.std.specs.Prelude.{◌≡◌, ⊤, ◌≤◌, ℕ, IfOk, MatchBool};
ghost use Rattle.session_definitions.specs.World.{World};
ghost use Rattle.sessions.specs.OfCore.{IsSound, world_of};
ghost use Rattle.store.specs.Errors.{HasRisen};
ghost use Rattle.parallel_scripts.specs.Ends.{IsStatus, Puts};
ghost use Rattle.parallel_scripts.specs.Handed.{BeginsGood, HandsAny, HandsBack, HasRefused, IsUnopened, Left, is_closed, store_of};
ghost use Rattle.parallel_scripts.specs.Many.{Shows, status_for};

use crate::ending::say_unless_closed;
use crate::handed::{HandedBack, Printed};
use crate::part::Part;
use crate::show::show_all;
use shared::Answers;
use sqlcore::Core;
use std::io::Write;
use store::Store;

/// The exit status where a reply was a refusal, or the scripts were refused.
pub(crate) const REFUSED: u8 = 1;

/// Prints the scripts' replies, and closes the core, also where the writer refuses; tells of a core
/// that could not be closed.
pub(crate) fn print_all<S: Store, W: Write>(
    core: Core<S>,
    parts: &[Vec<Part>],
    answers: Vec<Answers>,
    writer: &mut W,
) -> Printed<S>
    ensures shows { (before : ℕ) (start : World) → before ≤ S.refused (store_of core)
        → (BeginsGood start → IsSound S.is_sound S.shows core)
        → Puts (Shows (HandsBack S.saved S.saved S.settled S.calls_refused S.refused before start result.back) (world_of S.shows core) parts.now answers.items)
        (W.contents writer.old) (W.contents writer.new) result.outcome }
    ensures any_device { (before : ℕ) → before ≤ S.refused (store_of core)
        → HandsAny ⊤ S.settled S.calls_refused S.refused before result.back }
    ensures counts { (before : ℕ) → HasRisen before (S.refused (store_of core))
        → HasRefused S.calls_refused S.refused before result.back }
    ensures opened { IsUnopened result.back → ⊥ }
    ensures status { IfOk result.outcome IsStatus }
{
    let shown = show_all(parts, answers, writer);
    let back = close(core);
    match shown {
        Ok(refused) => Printed {
            outcome: say_unless_closed(&back, status_for(refused), writer),
            back,
        },
        Err(error) => Printed {
            outcome: Err(error),
            back,
        },
    }
}

/// The exit status where all replies were printed.
fn status_for(refused: bool) -> u8
    ensures is { result ≡ status_for refused }
    ensures status { IsStatus result }
{
    if refused { REFUSED } else { 0 }
}

/// Closes the core, and hands its device back, or the core where the device refuses that.
fn close<S: Store>(core: Core<S>) -> HandedBack<S>
    ensures closes { (before : ℕ) (start : World) → before ≤ S.refused (store_of core)
        → (BeginsGood start → IsSound S.is_sound S.shows core)
        → MatchBool (is_closed result) (HandsBack S.saved S.saved S.settled S.calls_refused S.refused before start result (Left.closed (world_of S.shows core)))
        (HandsBack S.saved S.saved S.settled S.calls_refused S.refused before start result Left.unclosed) }
    ensures any_device { (before : ℕ) → before ≤ S.refused (store_of core)
        → HandsAny ⊤ S.settled S.calls_refused S.refused before result }
    ensures counts { (before : ℕ) → HasRisen before (S.refused (store_of core))
        → HasRefused S.calls_refused S.refused before result }
    ensures opened { IsUnopened result → ⊥ }
{
    match core.close() {
        Ok(device) => HandedBack::Closed(device),
        Err(refused) => HandedBack::Unclosed(refused.value),
    }
}
