//! What `sqlsh run` does over any store.
ghost use Rattle.std.specs.Prelude.{◌≡◌, ◌≤◌, ◌⊎◌, IfOk, IfErr};
ghost use Rattle.denote.specs.Database.{Database, IsGood};
ghost use Rattle.refusals.specs.declared.refusal.Refusal.TheVariants.{Damaged, Disk};
ghost use Rattle.session_definitions.specs.Refusals.{StopsFlush};
ghost use Rattle.session_definitions.specs.Rules.{Rules, AreRules};
ghost use Rattle.session_definitions.specs.World.{new_world, opened};
ghost use Rattle.sessions.specs.OfCore.{IsSound, world_of};
ghost use Rattle.scripts.specs.Played.{between};
ghost use Rattle.scripts.specs.Settled.{HasNoSession, IsSettled, store_of};
ghost use Rattle.store.specs.Errors.{HasRisen};
ghost use Rattle.sessions.specs.Opening.{Stays};
ghost use Rattle.endings.specs.Ended.{HasRefused, HasSameBytes, IsNotOpened};
ghost use Rattle.endings.specs.Status.{IsStatus};
ghost use Rattle.shell.specs.Status.{refusal_of, status_of};
ghost use Rattle.shell.specs.Runs.{CarriesOutOver, Ends, Leaves, Runs, Says, ScriptEnds};

use crate::options::Settings;
use endings::{EndedRun, FAILED, REFUSED, failed, tell};
use refusals::Refusal;
use scripts::{ScriptFault, run};
use session_laws::{databases_stay_good, no_reply_is_damaged};
use sessions::Refused;
use sqlcore::{Core, Sql};
use std::alloc::Global;
use std::io::{Read, Write};
use store::Store;

/// How a script ended.
#[derive(Clone, Copy)]
struct EndedScript {
    /// The exit status.
    status: u8,
    /// Whether the line that had to be said of a fault was written whole and passed on: also where
    /// none had to be.
    is_told: bool,
}

/// Does what `sqlsh run` does over the store on this device, from reader to writer: opens it,
/// carries out the script and closes it. The exit status is 0; 1 where a reply was a refusal; 3
/// where the store could not be opened or closed, or the script was not read or printed to its end,
/// which a line `ERROR` and the code then says where it can be written: `is_told` tells whether it
/// was. The device is handed back, with what was committed last saved on it for the next run, and
/// synced behind the last write; where the store could not be closed, the core is. Where it could
/// not be opened, what was saved stays, and where it is refused as damaged, so do the bytes; only
/// an empty device may be left as one that opens as empty, or is refused as damaged (`begun`).
///
/// Where a database was saved on the device, the store is refused for want of memory or by the
/// device alone, and no reply is that the file is damaged. The device is said to have refused that
/// the store was opened or closed, or a call of the script, only where what is handed back counts
/// more refused calls than the device did. A device that cannot be read as a store's is not opened.
pub fn run_to_end<S: Store, R: Read, W: Write>(
    alloc: Global,
    settings: &Settings<'_>,
    device: S::Device,
    reader: &mut R,
    writer: &mut W,
) -> EndedRun<S>
    ensures status { IsStatus result.status }
    ensures runs { (rules : Rules) (db : Database) → AreRules rules → S.saved device db → IsGood rules.check db
        → Runs rules (opened db) (between (R.remaining reader.old) (R.remaining reader.new) (W.contents writer.old) (W.contents writer.new)) result.status result.is_told
        (Leaves S.saved (Stays S.saved S.is_new S.is_begun device) S.settled S.calls_refused (λ core. S.refused (store_of core)) rules.check (S.calls_refused device) result.device result.unclosed) }
    ensures ends { Ends (HasSameBytes S.is_honest S.same device) S.settled S.calls_refused (λ core. S.refused (store_of core)) (S.calls_refused device)
        (between (R.remaining reader.old) (R.remaining reader.new) (W.contents writer.old) (W.contents writer.new)) result.status result.is_told result.device result.unclosed }
    ensures unreadable { (S.readable device → ⊥)
        → IsNotOpened (between (R.remaining reader.old) (R.remaining reader.new) (W.contents writer.old) (W.contents writer.new)) result.status result.is_told
        (HasRefused S.calls_refused (S.calls_refused device) result.device) (HasSameBytes S.is_honest S.same device result.device) }
    ensures begun { (rules : Rules) → AreRules rules → S.is_begun device
        → IsNotOpened (between (R.remaining reader.old) (R.remaining reader.new) (W.contents writer.old) (W.contents writer.new)) result.status result.is_told
        (HasRefused S.calls_refused (S.calls_refused device) result.device) (HasSameBytes S.is_honest S.same device result.device)
        ⊎ Runs rules new_world (between (R.remaining reader.old) (R.remaining reader.new) (W.contents writer.old) (W.contents writer.new)) result.status result.is_told
        (Leaves S.saved (Stays S.saved S.is_new S.is_begun device) S.settled S.calls_refused (λ core. S.refused (store_of core)) rules.check (S.calls_refused device) result.device result.unclosed) }
{
    databases_stay_good();
    let mut core: Core<S> = match opened(alloc, settings, device) {
        Ok(core) => core,
        Err(refused) => return failed(refused.refusal, true, Some(refused.value), None, writer),
    };
    let EndedScript { status, is_told } = carry_out(alloc, &mut core, reader, writer);
    match core.close() {
        Ok(device) => EndedRun {
            status,
            is_told,
            device: Some(device),
            unclosed: None,
        },
        Err(refused) => failed(refused.refusal, is_told, None, Some(refused.value), writer),
    }
}

/// The core of the store on a device, with room for as many pages as the settings ask for.
fn opened<S: Store>(
    alloc: Global,
    settings: &Settings<'_>,
    device: S::Device,
) -> Result<Core<S>, Refused<S::Device>>
    ensures frames { IfOk result (λ core. S.room (store_of core) ≡ settings.now.frames.count) }
    ensures opened { IfOk result (λ core. (db : Database) → S.saved device db
        → IsSound S.is_sound S.shows core × (world_of S.shows core ≡ opened db)) }
    ensures empty { IfOk result (λ core. HasNoSession (world_of S.shows core)) }
    ensures readable { IfOk result (λ core. S.readable device) }
    ensures counts { IfOk result (λ core. S.calls_refused device ≤ S.refused (store_of core)) }
    ensures refused { IfErr result (λ back. (db : Database) → S.saved device db → StopsFlush back.refusal) }
    ensures device { IfErr result (λ back. back.refusal ≡ Disk
        → HasRisen (S.calls_refused device) (S.calls_refused back.value)) }
    ensures begun { S.is_begun device
        → IfOk result (λ core. IsSound S.is_sound S.shows core × (world_of S.shows core ≡ new_world)) }
    ensures same { S.is_honest device → IfErr result (λ back. back.refusal ≡ Damaged → S.same device back.value) }
    ensures left { IfErr result (λ back. (db : Database) → S.saved device db
        → Stays S.saved S.is_new S.is_begun device back.value db) }
{
    Core::open(alloc, Sql, device, frames_of(settings))
}

/// How many pages the pool may keep in memory.
fn frames_of(settings: &Settings<'_>) -> usize
    ensures count { result ≡ settings.now.frames.count }
    ensures enough { 16 ≤ result }
    ensures bounded { result ≤ 4096 }
{
    settings.frames.get() as usize
}

/// Carries out the script, and answers how it ended.
fn carry_out<S: Store, R: Read, W: Write>(
    alloc: Global,
    core: &mut Core<S>,
    reader: &mut R,
    writer: &mut W,
) -> EndedScript
    ensures status { IsStatus result.status }
    ensures carries_out { (rules : Rules) → AreRules rules → IsSettled S.is_sound S.shows rules.check core.old
        → CarriesOutOver rules (between (R.remaining reader.old) (R.remaining reader.new) (W.contents writer.old) (W.contents writer.new)) (world_of S.shows core.old)
        (S.refused (store_of core.old)) result.status result.is_told (world_of S.shows core.new) (S.refused (store_of core.new)) }
    ensures ends { ScriptEnds (between (R.remaining reader.old) (R.remaining reader.new) (W.contents writer.old) (W.contents writer.new)) (S.refused (store_of core.old))
        result.status result.is_told (S.refused (store_of core.new)) }
    ensures settled { (rules : Rules) → AreRules rules → IsSettled S.is_sound S.shows rules.check core.old
        → IsSettled S.is_sound S.shows rules.check core.new }
    ensures counts { S.refused (store_of core.old) ≤ S.refused (store_of core.new) }
{
    no_reply_is_damaged();
    let outcome = run(alloc, core, reader, writer);
    ended(outcome, writer)
}

/// How a script ends that ended so. Of a fault it says `ERROR` and the code, where it can be
/// written.
fn ended<W: Write>(outcome: Result<bool, ScriptFault>, writer: &mut W) -> EndedScript
    ensures status { result.status ≡ status_of outcome }
    ensures says { Says outcome result.is_told (W.contents writer.old) (W.contents writer.new) }
{
    match outcome {
        Ok(true) => EndedScript {
            status: REFUSED,
            is_told: true,
        },
        Ok(false) => EndedScript {
            status: 0,
            is_told: true,
        },
        Err(fault) => {
            let is_told = tell(refusal_of(&fault), writer).is_ok();
            EndedScript {
                status: FAILED,
                is_told,
            }
        }
    }
}

/// What is said of a fault.
fn refusal_of(fault: &ScriptFault) -> Refusal
    ensures { result ≡ refusal_of fault.now }
{
    match fault {
        ScriptFault::Memory => Refusal::Memory,
        ScriptFault::Reader(_) => Refusal::Disk,
        ScriptFault::Writer(_) => Refusal::Disk,
    }
}
