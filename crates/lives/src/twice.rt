//! Two runs over one device.
ghost use Rattle.std.specs.Prelude.{◌≡◌, ◌⊎◌, ℕ, [], List, Option, IsTrue};
ghost use Rattle.std.specs.FinMap.{empty};
ghost use Rattle.denote.specs.Database.{Database, IsGood};
ghost use Rattle.session_definitions.specs.Rules.{Rules, AreRules};
ghost use Rattle.scripts.specs.Played.{between};
ghost use Rattle.scripts.specs.Settled.{store_of};
ghost use Rattle.sessions.specs.Opening.{Stays};
ghost use Rattle.endings.specs.Ended.{HasRefused, HasSameBytes};
ghost use Rattle.shell.specs.Runs.{HandsBack, Leaves};
ghost use Rattle.lives.specs.Twice.{BeginsAgain, EndTwice, RunsTwice, calls_from, last_device};

use disk::Disk;
use paged_store::Paged;
use session_laws::{databases_stay_good, reopened_runs_are_runs};
use shell::{EndedRun, Settings, run_to_end};
use sqlcore::Core;
use std::alloc::Global;
use std::io::{Read, Write};
use store::Store;

/// How two runs over one device ended.
#[derive(Drop)]
pub struct EndedRuns<S: Store> {
    /// The exit status of the first.
    pub first: u8,
    /// Whether each line that the first had to say of a fault was written whole and passed on.
    pub first_is_told: bool,
    /// The exit status of the second; none where the store could not be closed after the first.
    pub second: Option<u8>,
    /// Whether each line that the second had to say of a fault was written whole and passed on:
    /// also where there was no second.
    pub second_is_told: bool,
    /// The device; none where the store could not be closed.
    pub device: Option<S::Device>,
    /// The core whose store could not be closed.
    pub unclosed: Option<Core<S>>,
}

/// Does what `sqlsh run` does over the store on a device, and then once more over the device that
/// is handed back, with another reader.
///
/// Where a good database is saved on the device, the second run begins with the database that the
/// first committed last, and all that both do is one run of the definitions, whose calls are those
/// of the two scripts, each with the reply that was printed. The databases that were committed are
/// one list, each made from the one before by one transaction, and the last is saved on the device
/// that is handed back, which was synced behind the last write where it was closed. No reply is
/// that the file is damaged, the store is opened unless memory or the device refuses, and closed
/// unless the device does: the device that is handed back, or the core that was not closed, has
/// then counted a refused call. So it has where a reply is that the device refused. Only where the
/// device was empty and the first run opened no store on it, the second may find it damaged: else
/// it begins with no tables then.
pub fn run_twice<S: Store, A: Read, B: Read, W: Write>(
    alloc: Global,
    settings: &Settings<'_>,
    device: S::Device,
    first: &mut A,
    second: &mut B,
    writer: &mut W,
) -> EndedRuns<S>
    ensures runs { (rules : Rules) (db : Database) → AreRules rules → S.saved device db → IsGood rules.check db
        → (mid : Option (List ℕ)) × (again : Option S.Device)
        × (RunsTwice rules db (between (A.remaining first.old) (A.remaining first.new) (W.contents writer.old) mid)
        (between (B.remaining second.old) (B.remaining second.new) mid (W.contents writer.new))
        result.first result.first_is_told result.second result.second_is_told
        (HandsBack S.saved (Stays S.saved S.is_new S.is_begun device) S.settled S.calls_refused (λ core. S.refused (store_of core)) (S.calls_refused device) again result.unclosed)
        (Leaves S.saved (Stays S.saved S.is_new S.is_begun (last_device device again)) S.settled S.calls_refused (λ core. S.refused (store_of core)) rules.check (calls_from S.calls_refused device again) result.device result.unclosed)
        ⊎ BeginsAgain rules db (S.is_new device) (between (A.remaining first.old) (A.remaining first.new) (W.contents writer.old) mid)
        (between (B.remaining second.old) (B.remaining second.new) mid (W.contents writer.new))
        result.first result.first_is_told result.second result.second_is_told
        (HasRefused S.calls_refused (calls_from S.calls_refused device again) result.device) (HasSameBytes S.is_honest S.same (last_device device again) result.device)
        (Leaves S.saved (Stays S.saved S.is_new S.is_begun (last_device device again)) S.settled S.calls_refused (λ core. S.refused (store_of core)) rules.check (calls_from S.calls_refused device again) result.device result.unclosed)) }
    ensures ends { (mid : Option (List ℕ))
        × EndTwice (HasSameBytes S.is_honest S.same) S.settled S.calls_refused (λ core. S.refused (store_of core)) device
        (between (A.remaining first.old) (A.remaining first.new) (W.contents writer.old) mid)
        (between (B.remaining second.old) (B.remaining second.new) mid (W.contents writer.new))
        result.first result.first_is_told result.second result.second_is_told result.device result.unclosed }
{
    reopened_runs_are_runs();
    let EndedRun {
        status: first_status,
        is_told: first_is_told,
        device,
        unclosed,
    } = run_to_end::<S, A, W>(alloc, settings, device, first, writer);
    match device {
        Some(device) => {
            let again = run_to_end::<S, B, W>(alloc, settings, device, second, writer);
            EndedRuns {
                first: first_status,
                first_is_told,
                second: Some(again.status),
                second_is_told: again.is_told,
                device: again.device,
                unclosed: again.unclosed,
            }
        }
        None => EndedRuns {
            first: first_status,
            first_is_told,
            second: None,
            second_is_told: true,
            device: None,
            unclosed,
        },
    }
}

/// Does what `run_twice` does over the tables in the pages of a device.
///
/// The one premise is on the device: it gives back what was written, and is empty (`new`), or as an
/// earlier run left it (`saved`). How the runs end and what is handed back is said of any device
/// (`ends`).
pub fn run_twice_over_pages<D: Disk + Drop, A: Read, B: Read, W: Write>(
    alloc: Global,
    settings: &Settings<'_>,
    device: D,
    first: &mut A,
    second: &mut B,
    writer: &mut W,
) -> EndedRuns<Paged<D>>
    ensures saved { (rules : Rules) (db : Database) → AreRules rules → ⟦<Paged<D> as Store>⟧.saved device db
        → IsGood rules.check db
        → (mid : Option (List ℕ)) × (again : Option D)
        × (RunsTwice rules db (between (A.remaining first.old) (A.remaining first.new) (W.contents writer.old) mid)
        (between (B.remaining second.old) (B.remaining second.new) mid (W.contents writer.new))
        result.first result.first_is_told result.second result.second_is_told
        (HandsBack ⟦<Paged<D> as Store>⟧.saved (Stays ⟦<Paged<D> as Store>⟧.saved ⟦<Paged<D> as Store>⟧.is_new ⟦<Paged<D> as Store>⟧.is_begun device) D.settled D.refused (λ core. ⟦<Paged<D> as Store>⟧.refused (store_of core)) (D.refused device) again result.unclosed)
        (Leaves ⟦<Paged<D> as Store>⟧.saved (Stays ⟦<Paged<D> as Store>⟧.saved ⟦<Paged<D> as Store>⟧.is_new ⟦<Paged<D> as Store>⟧.is_begun (last_device device again)) D.settled D.refused (λ core. ⟦<Paged<D> as Store>⟧.refused (store_of core)) rules.check (calls_from D.refused device again) result.device result.unclosed)
        ⊎ BeginsAgain rules db (⟦<Paged<D> as Store>⟧.is_new device) (between (A.remaining first.old) (A.remaining first.new) (W.contents writer.old) mid)
        (between (B.remaining second.old) (B.remaining second.new) mid (W.contents writer.new))
        result.first result.first_is_told result.second result.second_is_told
        (HasRefused D.refused (calls_from D.refused device again) result.device) (HasSameBytes ⟦<Paged<D> as Store>⟧.is_honest ⟦<Paged<D> as Store>⟧.same (last_device device again) result.device)
        (Leaves ⟦<Paged<D> as Store>⟧.saved (Stays ⟦<Paged<D> as Store>⟧.saved ⟦<Paged<D> as Store>⟧.is_new ⟦<Paged<D> as Store>⟧.is_begun (last_device device again)) D.settled D.refused (λ core. ⟦<Paged<D> as Store>⟧.refused (store_of core)) rules.check (calls_from D.refused device again) result.device result.unclosed)) }
    ensures new { (rules : Rules) → AreRules rules → IsTrue D.is_honest → D.bytes device ≡ []
        → (mid : Option (List ℕ)) × (again : Option D)
        × (RunsTwice rules empty (between (A.remaining first.old) (A.remaining first.new) (W.contents writer.old) mid)
        (between (B.remaining second.old) (B.remaining second.new) mid (W.contents writer.new))
        result.first result.first_is_told result.second result.second_is_told
        (HandsBack ⟦<Paged<D> as Store>⟧.saved (Stays ⟦<Paged<D> as Store>⟧.saved ⟦<Paged<D> as Store>⟧.is_new ⟦<Paged<D> as Store>⟧.is_begun device) D.settled D.refused (λ core. ⟦<Paged<D> as Store>⟧.refused (store_of core)) (D.refused device) again result.unclosed)
        (Leaves ⟦<Paged<D> as Store>⟧.saved (Stays ⟦<Paged<D> as Store>⟧.saved ⟦<Paged<D> as Store>⟧.is_new ⟦<Paged<D> as Store>⟧.is_begun (last_device device again)) D.settled D.refused (λ core. ⟦<Paged<D> as Store>⟧.refused (store_of core)) rules.check (calls_from D.refused device again) result.device result.unclosed)
        ⊎ BeginsAgain rules empty (⟦<Paged<D> as Store>⟧.is_new device) (between (A.remaining first.old) (A.remaining first.new) (W.contents writer.old) mid)
        (between (B.remaining second.old) (B.remaining second.new) mid (W.contents writer.new))
        result.first result.first_is_told result.second result.second_is_told
        (HasRefused D.refused (calls_from D.refused device again) result.device) (HasSameBytes ⟦<Paged<D> as Store>⟧.is_honest ⟦<Paged<D> as Store>⟧.same (last_device device again) result.device)
        (Leaves ⟦<Paged<D> as Store>⟧.saved (Stays ⟦<Paged<D> as Store>⟧.saved ⟦<Paged<D> as Store>⟧.is_new ⟦<Paged<D> as Store>⟧.is_begun (last_device device again)) D.settled D.refused (λ core. ⟦<Paged<D> as Store>⟧.refused (store_of core)) rules.check (calls_from D.refused device again) result.device result.unclosed)) }
    ensures ends { (mid : Option (List ℕ))
        × EndTwice (HasSameBytes ⟦<Paged<D> as Store>⟧.is_honest ⟦<Paged<D> as Store>⟧.same) D.settled D.refused (λ core. ⟦<Paged<D> as Store>⟧.refused (store_of core)) device
        (between (A.remaining first.old) (A.remaining first.new) (W.contents writer.old) mid)
        (between (B.remaining second.old) (B.remaining second.new) mid (W.contents writer.new))
        result.first result.first_is_told result.second result.second_is_told result.device result.unclosed }
{
    databases_stay_good();
    run_twice::<Paged<D>, A, B, W>(alloc, settings, device, first, second, writer)
}
