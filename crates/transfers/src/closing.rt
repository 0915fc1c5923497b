//! The store is closed behind a command.
ghost use Rattle.std.specs.Prelude.{◌≡◌, IfSome};
ghost use Rattle.sessions.specs.OfCore.{IsSound, world_of};
ghost use Rattle.scripts.specs.Settled.{store_of};
ghost use Rattle.transfers.specs.Transfers.{Closes, HandsBack, LacksCsv};

use endings::{EndedRun, FAILED, failed, tell};
use refusals::Refusal;
use sqlcore::Core;
use std::io::Write;
use store::Store;

/// The exit status of a command, and whether its lines were written whole and passed on.
#[derive(Clone, Copy)]
pub(crate) struct Said {
    /// The exit status.
    pub status: u8,
    /// Whether what had to be said was written whole and passed on.
    pub is_told: bool,
}

/// Says that a CSV could not be opened, and closes the store, which stays as it was.
pub fn without_csv<S: Store, W: Write>(core: Core<S>, writer: &mut W) -> EndedRun<S>
    ensures lacks { LacksCsv (W.contents writer.old) (W.contents writer.new) result.status result.is_told result.device result.unclosed }
    ensures saved { IsSound S.is_sound S.shows core
        → IfSome result.device (λ device. S.saved device (world_of S.shows core).last) }
    ensures handed { HandsBack S.settled S.calls_refused (λ core. S.refused (store_of core)) (S.refused (store_of core)) result.device result.unclosed }
    ensures failed { result.status ≡ 3 }
{
    let said = Said {
        status: FAILED,
        is_told: tell(Refusal::Disk, writer).is_ok(),
    };
    close_behind(core, said, writer)
}

/// Closes the store behind what was said. Where the device refuses that, it is told.
pub(crate) fn close_behind<S: Store, W: Write>(
    core: Core<S>,
    said: Said,
    writer: &mut W,
) -> EndedRun<S>
    ensures closes { Closes said.status said.is_told (W.contents writer.old) (W.contents writer.new) result.status result.is_told result.device result.unclosed }
    ensures saved { IsSound S.is_sound S.shows core
        → IfSome result.device (λ device. S.saved device (world_of S.shows core).last) }
    ensures handed { HandsBack S.settled S.calls_refused (λ core. S.refused (store_of core)) (S.refused (store_of core)) result.device result.unclosed }
{
    match core.close() {
        Ok(device) => EndedRun {
            status: said.status,
            is_told: said.is_told,
            device: Some(device),
            unclosed: None,
        },
        Err(refused) => failed(
            refused.refusal,
            said.is_told,
            None,
            Some(refused.value),
            writer,
        ),
    }
}
