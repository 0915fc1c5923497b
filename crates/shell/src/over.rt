//! A run over a device that was opened, or was not.
ghost use Rattle.std.specs.Prelude.{◌≡◌, ◌⊎◌, None, IfOk, OnErr};
ghost use Rattle.denote.specs.Database.{Database, IsGood};
ghost use Rattle.refusals.specs.declared.refusal.Refusal.TheVariants.{Disk};
ghost use Rattle.session_definitions.specs.Rules.{Rules, AreRules};
ghost use Rattle.session_definitions.specs.World.{new_world, opened};
ghost use Rattle.scripts.specs.Played.{between};
ghost use Rattle.scripts.specs.Settled.{store_of};
ghost use Rattle.sessions.specs.Opening.{Stays};
ghost use Rattle.endings.specs.Ended.{HasRefused, HasSameBytes, IsNotOpened};
ghost use Rattle.endings.specs.Status.{IsStatus};
ghost use Rattle.endings.specs.Tells.{Tells};
ghost use Rattle.shell.specs.Runs.{Ends, Leaves, Runs};

use crate::options::Settings;
use crate::run::run_to_end;
use disk::DiskError;
use endings::{EndedRun, failed};
use refusals::Refusal;
use std::alloc::Global;
use std::io::{Read, Write};
use store::Store;

/// Does what `run_to_end` does over the store on a device, or says that this could not be opened.
pub(crate) fn run_over<S: Store, R: Read, W: Write>(
    alloc: Global,
    settings: &Settings<'_>,
    device: Result<S::Device, DiskError>,
    reader: &mut R,
    writer: &mut W,
) -> EndedRun<S>
    ensures status { IsStatus result.status }
    ensures runs { IfOk device (λ device. (rules : Rules) (db : Database) → AreRules rules → S.saved device db
        → IsGood rules.check db
        → Runs rules (opened db) (between (R.remaining reader.old) (R.remaining reader.new) (W.contents writer.old) (W.contents writer.new)) result.status result.is_told
        (Leaves S.saved (Stays S.saved S.is_new S.is_begun device) S.settled S.calls_refused (λ core. S.refused (store_of core)) rules.check (S.calls_refused device) result.device result.unclosed)) }
    ensures ends { IfOk device (λ device. Ends (HasSameBytes S.is_honest S.same device) S.settled S.calls_refused (λ core. S.refused (store_of core)) (S.calls_refused device)
        (between (R.remaining reader.old) (R.remaining reader.new) (W.contents writer.old) (W.contents writer.new)) result.status result.is_told result.device result.unclosed) }
    ensures unreadable { IfOk device (λ device. (S.readable device → ⊥)
        → IsNotOpened (between (R.remaining reader.old) (R.remaining reader.new) (W.contents writer.old) (W.contents writer.new)) result.status result.is_told
        (HasRefused S.calls_refused (S.calls_refused device) result.device) (HasSameBytes S.is_honest S.same device result.device)) }
    ensures begun { IfOk device (λ device. (rules : Rules) → AreRules rules → S.is_begun device
        → IsNotOpened (between (R.remaining reader.old) (R.remaining reader.new) (W.contents writer.old) (W.contents writer.new)) result.status result.is_told
        (HasRefused S.calls_refused (S.calls_refused device) result.device) (HasSameBytes S.is_honest S.same device result.device)
        ⊎ Runs rules new_world (between (R.remaining reader.old) (R.remaining reader.new) (W.contents writer.old) (W.contents writer.new)) result.status result.is_told
        (Leaves S.saved (Stays S.saved S.is_new S.is_begun device) S.settled S.calls_refused (λ core. S.refused (store_of core)) rules.check (S.calls_refused device) result.device result.unclosed)) }
    ensures not_opened { OnErr device ((R.remaining reader.new ≡ R.remaining reader.old)
        × Tells Disk result.is_told (W.contents writer.old) (W.contents writer.new) × (result.status ≡ 3)) }
    ensures nothing { OnErr device ((result.device ≡ None) × (result.unclosed ≡ None)) }
{
    match device {
        Ok(device) => run_to_end::<S, R, W>(alloc, settings, device, reader, writer),
        Err(_) => failed(Refusal::Disk, true, None, None, writer),
    }
}
