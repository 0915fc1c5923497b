//! The store of FILE, opened.
ghost use Rattle.std.specs.Prelude.{◌≡◌, ◌≤◌, None, IfOk, IfErr};
ghost use Rattle.denote.specs.Database.{Database};
ghost use Rattle.session_definitions.specs.World.{new_world, opened};
ghost use Rattle.sessions.specs.OfCore.{IsSound, world_of};
ghost use Rattle.sessions.specs.Opening.{Stays};
ghost use Rattle.scripts.specs.Played.{between};
ghost use Rattle.scripts.specs.Settled.{HasNoSession, store_of};
ghost use Rattle.endings.specs.Ended.{HasRefused, HasSameBytes, IsNotOpened, IsSavedOn};

use endings::{EndedRun, failed};
use sqlcore::{Core, Sql};
use std::alloc::Global;
use std::io::Write;
use store::Store;

/// How many pages the pool may keep in memory.
const FRAMES: usize = 256;

/// The core of the store on a device, without sessions. Where that cannot be opened, it is told,
/// the exit status is 3, and the device is handed back: with what was saved on it, and where it is
/// damaged with the bytes that it had; only one that was empty may be left as one that opens as
/// empty, or is refused as damaged.
pub fn opened_core<S: Store, W: Write>(
    alloc: Global,
    device: S::Device,
    writer: &mut W,
) -> Result<Core<S>, EndedRun<S>>
    ensures opened { IfOk result (λ core. (db : Database) → S.saved device db
        → IsSound S.is_sound S.shows core × (world_of S.shows core ≡ opened db)) }
    ensures begun { S.is_begun device
        → IfOk result (λ core. IsSound S.is_sound S.shows core × (world_of S.shows core ≡ new_world)) }
    ensures empty { IfOk result (λ core. HasNoSession (world_of S.shows core)) }
    ensures counts { IfOk result (λ core. S.calls_refused device ≤ S.refused (store_of core)) }
    ensures silent { IfOk result (λ core. W.contents writer.new ≡ W.contents writer.old) }
    ensures refused { IfErr result (λ ended. IsNotOpened (between None None (W.contents writer.old) (W.contents writer.new)) ended.status ended.is_told
        (HasRefused S.calls_refused (S.calls_refused device) ended.device) (HasSameBytes S.is_honest S.same device ended.device)) }
    ensures left { IfErr result (λ ended. (db : Database) → S.saved device db
        → IsSavedOn (Stays S.saved S.is_new S.is_begun device) ended.device db) }
{
    match Core::open(alloc, Sql, device, FRAMES) {
        Ok(core) => Ok(core),
        Err(back) => Err(failed(back.refusal, true, Some(back.value), None, writer)),
    }
}
