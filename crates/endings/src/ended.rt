//! What a command over a store hands back.
ghost use Rattle.std.specs.Prelude.{◌≡◌};
ghost use Rattle.endings.specs.Ended.{TellsBehind};

use crate::telling::tell;
use refusals::Refusal;
use sqlcore::Core;
use std::io::Write;
use store::Store;

/// The exit status where a reply was a refusal.
pub const REFUSED: u8 = 1;

/// The exit status where a store could not be opened or closed, or a script was not read or printed
/// to its end.
pub const FAILED: u8 = 3;

/// How a run ended.
#[derive(Drop)]
pub struct EndedRun<S: Store> {
    /// The exit status.
    pub status: u8,
    /// Whether each line `ERROR` that had to be said of a fault was written whole and passed on:
    /// also where none had to be.
    pub is_told: bool,
    /// The device: as its opening left it where the store could not be opened, with all that is
    /// committed, and synced, where it was closed, and none where it could not be closed.
    pub device: Option<S::Device>,
    /// The core whose store could not be closed.
    pub unclosed: Option<Core<S>>,
}

/// Says why a store was not opened or closed, behind what was said before, and hands back the
/// device or the core that there is.
pub fn failed<S: Store, W: Write>(
    refusal: Refusal,
    was_told: bool,
    device: Option<S::Device>,
    unclosed: Option<Core<S>>,
    writer: &mut W,
) -> EndedRun<S>
    ensures status { result.status ≡ 3 }
    ensures device { result.device ≡ device }
    ensures unclosed { result.unclosed ≡ unclosed }
    ensures tells { TellsBehind was_told result.is_told refusal (W.contents writer.old) (W.contents writer.new) }
{
    let line = tell(refusal, writer).is_ok();
    EndedRun {
        status: FAILED,
        is_told: was_told && line,
        device,
        unclosed,
    }
}
