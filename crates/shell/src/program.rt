//! The program.
ghost use Rattle.std.specs.Prelude.{◌≡◌, ◌≢◌, ◌⊎◌, ℕ, List, [], Option, None, false, map, IfOk, OnErr, IsTrue};
ghost use Rattle.clap.specs.Words.{kind_of};
ghost use Rattle.denote.specs.Database.{Database, IsGood};
ghost use Rattle.session_definitions.specs.Rules.{Rules, AreRules};
ghost use Rattle.session_definitions.specs.World.{new_world, opened};
ghost use Rattle.scripts.specs.Played.{between};
ghost use Rattle.scripts.specs.Settled.{store_of};
ghost use Rattle.sessions.specs.Opening.{Stays};
ghost use Rattle.endings.specs.Ended.{HasRefused, HasSameBytes, IsNotOpened};
ghost use Rattle.endings.specs.Status.{IsStatus};
ghost use Rattle.endings.specs.Tells.{Tells};
ghost use Rattle.shell.specs.Alone.{EndsAlone, IsRefused, RunsInMemory};
ghost use Rattle.shell.specs.Runs.{Ends, EndsOverFile, Leaves, Runs};
ghost use Rattle.shell.specs.Words.{Asks, name_of};

use crate::command_line::settings;
use crate::options::Settings;
use crate::over::run_over;
use clap::Error;
use clap::error::ErrorKind;
use disk::{Disk, DiskError, FileDisk, MemDisk};
use endings::{EndedRun, FAILED, is_output, opened_file, tell};
use paged_store::Paged;
use refusals::Refusal;
use session_laws::databases_stay_good;
use std::alloc::Global;
use std::convert::AsStr;
use std::fs::{File, Files};
use std::io::{Read, Write};
use store::Store;

/// The exit status of a command line that asks for nothing that there is.
const WRONG_WORDS: u8 = 2;

/// Does what the words of a command line of `sqlsh` ask for, of which the first is the program's
/// name, from reader to writer, and answers the exit status. Words that ask for nothing that there
/// is are told of on the runtime's own streams, with nothing read or written here: status 2, or 0
/// where they ask for help. Where standard input or output is not open (`are_open`), nothing is
/// read or opened, X0002 is said and the status is 3. Others run a script over the tables in FILE,
/// where they name one, and else over new tables on a device in memory, and the status is that of
/// the run.
///
/// What a run leaves of its device, `run_over_pages` says, which hands it back, and so does
/// `run_file`; the device ends here. That it is FILE that is opened, and by one line made a
/// `FileDisk`, is tested: what a file is, no contract of the runtime says.
pub fn sqlsh<P: Files<File = File> + Print + Eprint + AllocGlobal, S: AsStr, R: Read, W: Write>(
    rt: &P,
    words: &[S],
    are_open: bool,
    reader: &mut R,
    writer: &mut W,
) -> u8
    ensures asked { (count : ℕ) (file : Option (List ℕ)) → Asks (map S.text words.now) count file
        → EndsAlone (between (R.remaining reader.old) (R.remaining reader.new) (W.contents writer.old) (W.contents writer.new)) result }
    ensures in_memory { (count : ℕ) → Asks (map S.text words.now) count None → (rules : Rules) → AreRules rules
        → RunsInMemory rules new_world (between (R.remaining reader.old) (R.remaining reader.new) (W.contents writer.old) (W.contents writer.new)) result }
    ensures closed { are_open ≡ false → (count : ℕ) (file : Option (List ℕ)) → Asks (map S.text words.now) count file
        → IsRefused (between (R.remaining reader.old) (R.remaining reader.new) (W.contents writer.old) (W.contents writer.new)) result }
    ensures others { ((count : ℕ) (file : Option (List ℕ)) → Asks (map S.text words.now) count file → ⊥)
        → (R.remaining reader.new ≡ R.remaining reader.old) × (W.contents writer.new ≡ W.contents writer.old)
        × ((result ≡ 0) ⊎ (result ≡ 2)) }
{
    match settings(rt.alloc(), words) {
        Ok(settings) => {
            if !are_open {
                return refuse_closed(writer);
            }
            run_asked(rt, &settings, reader, writer)
        }
        Err(error) => told(rt, &error),
    }
}

/// Says that standard input or output is not open, and answers the exit status.
fn refuse_closed<W: Write>(writer: &mut W) -> u8
    ensures refused { (given : Option (List ℕ))
        → IsRefused (between given given (W.contents writer.old) (W.contents writer.new)) result }
    ensures in_memory { (given : Option (List ℕ)) (rules : Rules)
        → RunsInMemory rules new_world (between given given (W.contents writer.old) (W.contents writer.new)) result }
{
    databases_stay_good();
    let _ = tell(Refusal::Disk, writer);
    FAILED
}

/// Does what `sqlsh run` does: over the tables in FILE, where it is asked for, and else over tables
/// on a device in memory.
fn run_asked<P: Files<File = File> + AllocGlobal, R: Read, W: Write>(
    rt: &P,
    settings: &Settings<'_>,
    reader: &mut R,
    writer: &mut W,
) -> u8
    ensures ends { EndsAlone (between (R.remaining reader.old) (R.remaining reader.new) (W.contents writer.old) (W.contents writer.new)) result }
    ensures in_memory { name_of settings.now.file ≡ None → (rules : Rules) → AreRules rules
        → RunsInMemory rules new_world (between (R.remaining reader.old) (R.remaining reader.new) (W.contents writer.old) (W.contents writer.new)) result }
{
    match settings.file {
        Some(path) => {
            let ended = run_file(rt, settings, path, reader, writer);
            status_of(ended)
        }
        None => {
            let device: Result<MemDisk, DiskError> = Ok(MemDisk::new(rt.alloc()));
            let ended = run_over_pages(rt.alloc(), settings, device, reader, writer);
            status_of(ended)
        }
    }
}

/// Does what `sqlsh run` does over the tables in a file, and hands back what that hands back. Where
/// the file is where standard output goes, nothing is read, opened or written.
fn run_file<P: Files<File = File> + AllocGlobal, R: Read, W: Write>(
    rt: &P,
    settings: &Settings<'_>,
    path: &str,
    reader: &mut R,
    writer: &mut W,
) -> EndedRun<Paged<FileDisk>>
    ensures ends { EndsOverFile ⟦<Paged<FileDisk> as Store>⟧.is_honest ⟦<Paged<FileDisk> as Store>⟧.same ⟦<FileDisk as Disk>⟧.settled ⟦<FileDisk as Disk>⟧.refused (λ core. ⟦<Paged<FileDisk> as Store>⟧.refused (store_of core))
        (between (R.remaining reader.old) (R.remaining reader.new) (W.contents writer.old) (W.contents writer.new)) result.status result.is_told result.device result.unclosed }
{
    if is_output(rt, path) {
        return EndedRun {
            status: FAILED,
            is_told: false,
            device: None,
            unclosed: None,
        };
    }
    let file = opened_file(rt, path);
    let ended = run_over_pages(rt.alloc(), settings, file, reader, writer);
    ended
}

/// The status of a run. What it hands back of its device ends here.
fn status_of<S: Store>(ended: EndedRun<S>) -> u8
    ensures { result ≡ ended.status }
{
    ended.status
}

/// Does what `sqlsh run` does over the tables in the pages of a device, as `run_to_end` does over
/// any store, or says that the device could not be opened.
pub fn run_over_pages<D: Disk + Drop, R: Read, W: Write>(
    alloc: Global,
    settings: &Settings<'_>,
    device: Result<D, DiskError>,
    reader: &mut R,
    writer: &mut W,
) -> EndedRun<Paged<D>>
    ensures status { IsStatus result.status }
    ensures runs { IfOk device (λ device. (rules : Rules) (db : Database) → AreRules rules
        → ⟦<Paged<D> as Store>⟧.saved device db → IsGood rules.check db
        → Runs rules (opened db) (between (R.remaining reader.old) (R.remaining reader.new) (W.contents writer.old) (W.contents writer.new)) result.status result.is_told
        (Leaves ⟦<Paged<D> as Store>⟧.saved (Stays ⟦<Paged<D> as Store>⟧.saved ⟦<Paged<D> as Store>⟧.is_new ⟦<Paged<D> as Store>⟧.is_begun device) D.settled D.refused (λ core. ⟦<Paged<D> as Store>⟧.refused (store_of core)) rules.check (D.refused device) result.device result.unclosed)) }
    ensures new { IfOk device (λ device. (rules : Rules) → AreRules rules → IsTrue D.is_honest → D.bytes device ≡ []
        → Runs rules new_world (between (R.remaining reader.old) (R.remaining reader.new) (W.contents writer.old) (W.contents writer.new)) result.status result.is_told
        (Leaves ⟦<Paged<D> as Store>⟧.saved (Stays ⟦<Paged<D> as Store>⟧.saved ⟦<Paged<D> as Store>⟧.is_new ⟦<Paged<D> as Store>⟧.is_begun device) D.settled D.refused (λ core. ⟦<Paged<D> as Store>⟧.refused (store_of core)) rules.check (D.refused device) result.device result.unclosed)) }
    ensures ends { IfOk device (λ device. Ends (HasSameBytes ⟦<Paged<D> as Store>⟧.is_honest ⟦<Paged<D> as Store>⟧.same device) D.settled D.refused (λ core. ⟦<Paged<D> as Store>⟧.refused (store_of core)) (D.refused device)
        (between (R.remaining reader.old) (R.remaining reader.new) (W.contents writer.old) (W.contents writer.new)) result.status result.is_told result.device result.unclosed) }
    ensures unreadable { IfOk device (λ device. (⟦<Paged<D> as Store>⟧.readable device → ⊥)
        → IsNotOpened (between (R.remaining reader.old) (R.remaining reader.new) (W.contents writer.old) (W.contents writer.new)) result.status result.is_told
        (HasRefused D.refused (D.refused device) result.device) (HasSameBytes ⟦<Paged<D> as Store>⟧.is_honest ⟦<Paged<D> as Store>⟧.same device result.device)) }
    ensures begun { IfOk device (λ device. (rules : Rules) → AreRules rules → ⟦<Paged<D> as Store>⟧.is_begun device
        → IsNotOpened (between (R.remaining reader.old) (R.remaining reader.new) (W.contents writer.old) (W.contents writer.new)) result.status result.is_told
        (HasRefused D.refused (D.refused device) result.device) (HasSameBytes ⟦<Paged<D> as Store>⟧.is_honest ⟦<Paged<D> as Store>⟧.same device result.device)
        ⊎ Runs rules new_world (between (R.remaining reader.old) (R.remaining reader.new) (W.contents writer.old) (W.contents writer.new)) result.status result.is_told
        (Leaves ⟦<Paged<D> as Store>⟧.saved (Stays ⟦<Paged<D> as Store>⟧.saved ⟦<Paged<D> as Store>⟧.is_new ⟦<Paged<D> as Store>⟧.is_begun device) D.settled D.refused (λ core. ⟦<Paged<D> as Store>⟧.refused (store_of core)) rules.check (D.refused device) result.device result.unclosed)) }
    ensures not_opened { OnErr device ((R.remaining reader.new ≡ R.remaining reader.old)
        × Tells Refusal.Disk result.is_told (W.contents writer.old) (W.contents writer.new) × (result.status ≡ 3)) }
    ensures nothing { OnErr device ((result.device ≡ None) × (result.unclosed ≡ None)) }
{
    databases_stay_good();
    run_over::<Paged<D>, R, W>(alloc, settings, device, reader, writer)
}

/// Prints help, or what is wrong with the words, and answers the exit status: 0 for help and 2 for
/// a fault.
fn told<R: Print + Eprint>(rt: &R, error: &Error) -> u8
    ensures help { (kind_of error.now ≡ ErrorKind.DisplayHelp) ⊎ (kind_of error.now ≡ ErrorKind.DisplayVersion)
        → result ≡ 0 }
    ensures fault { kind_of error.now ≢ ErrorKind.DisplayHelp → kind_of error.now ≢ ErrorKind.DisplayVersion
        → result ≡ 2 }
    ensures status { (result ≡ 0) ⊎ (result ≡ 2) }
{
    let _ = error.print(rt);
    if error.use_stderr() { WRONG_WORDS } else { 0 }
}
