//! The commands over a store that was opened.
ghost use Rattle.std.specs.Prelude.{◌≡◌, ◌≤◌};
ghost use Rattle.session_definitions.specs.Rules.{Rules, AreRules};
ghost use Rattle.sessions.specs.OfCore.{world_of};
ghost use Rattle.scripts.specs.Settled.{IsKept, store_of};
ghost use Rattle.endings.specs.Status.{IsStatus};
ghost use Rattle.transfers.specs.Transfers.{Answers, DumpsAlone, HandsBack, LoadsAlone, LoadsBatchesAlone, LoadsNoted, Transfers, status_with};

use crate::closing::{Said, close_behind};
use crate::note::note;
use csvio::{LoadedBatches, dump, load, load_batches};
use endings::{EndedRun, FAILED, REFUSED, say};
use replies::Reply;
use sqlcore::Core;
use std::alloc::Global;
use std::io::{Read, Write};
use store::Store;

/// Does what `sqlsh load` does over the store of a core in which no session stands: makes a
/// session, loads the CSV into the table that a text names, prints the reply and closes the store.
/// The exit status is 0; 1 where the reply is a refusal; 3 where it was not printed whole, or the
/// store could not be closed, which is then told. The device is handed back, with what was
/// committed last saved on it; or the core, where it could not be closed.
pub fn load_to_end<S: Store, R: Read + Drop, W: Write>(
    alloc: Global,
    core: Core<S>,
    table: &[u8],
    csv: R,
    writer: &mut W,
) -> EndedRun<S>
    ensures status { IsStatus result.status }
    ensures loads { (rules : Rules) → AreRules rules → IsKept S.is_sound S.shows rules.check core
        → Transfers (LoadsAlone rules table.now (R.remaining csv)) S.saved rules.check (world_of S.shows core) (W.contents writer.old) (W.contents writer.new) result.status result.is_told result.device result.unclosed }
    ensures handed { HandsBack S.settled S.calls_refused (λ core. S.refused (store_of core)) (S.refused (store_of core)) result.device result.unclosed }
{
    let mut core = core;
    let reply = load_alone(alloc, &mut core, table, csv);
    let said = answer(&reply, writer);
    close_behind(core, said, writer)
}

/// Does what `sqlsh load --batch` does over the store of a core in which no session stands: as
/// where a table is loaded, but by batches of so many records; and where it was refused, says in a
/// note behind how many records it stopped, which stay. A note that is refused changes nothing.
pub fn load_batches_to_end<S: Store, R: Read + Drop, W: Write, V: Write>(
    alloc: Global,
    core: Core<S>,
    table: &[u8],
    most: u32,
    csv: R,
    writer: &mut W,
    notes: &mut V,
) -> EndedRun<S>
    ensures status { IsStatus result.status }
    ensures loads { 1 ≤ most → (rules : Rules) → AreRules rules → IsKept S.is_sound S.shows rules.check core
        → Transfers (LoadsNoted rules table.now most (R.remaining csv) (V.contents notes.old) (V.contents notes.new)) S.saved rules.check (world_of S.shows core) (W.contents writer.old) (W.contents writer.new) result.status result.is_told result.device result.unclosed }
    ensures handed { HandsBack S.settled S.calls_refused (λ core. S.refused (store_of core)) (S.refused (store_of core)) result.device result.unclosed }
{
    let mut core = core;
    let loaded = load_batches_alone(alloc, &mut core, table, most, csv);
    note(alloc, &loaded, notes);
    let said = answer(&loaded.reply, writer);
    close_behind(core, said, writer)
}

/// Does what `sqlsh dump` does over the store of a core in which no session stands: makes a
/// session, dumps the table that a text names into the CSV, prints the reply and closes the store.
/// The exit status, and what is handed back, are as where a table is loaded.
pub fn dump_to_end<S: Store, V: Write, W: Write>(
    alloc: Global,
    core: Core<S>,
    table: &[u8],
    csv: &mut V,
    writer: &mut W,
) -> EndedRun<S>
    ensures status { IsStatus result.status }
    ensures dumps { (rules : Rules) → AreRules rules → IsKept S.is_sound S.shows rules.check core
        → Transfers (DumpsAlone rules table.now (V.contents csv.old) (V.contents csv.new)) S.saved rules.check (world_of S.shows core) (W.contents writer.old) (W.contents writer.new) result.status result.is_told result.device result.unclosed }
    ensures handed { HandsBack S.settled S.calls_refused (λ core. S.refused (store_of core)) (S.refused (store_of core)) result.device result.unclosed }
{
    let mut core = core;
    let reply = dump_alone(alloc, &mut core, table, csv);
    let said = answer(&reply, writer);
    close_behind(core, said, writer)
}

/// Loads a CSV into a table, in a session that is made for it.
fn load_alone<S: Store, R: Read + Drop>(
    alloc: Global,
    core: &mut Core<S>,
    table: &[u8],
    csv: R,
) -> Reply
    ensures loads { (rules : Rules) → AreRules rules → IsKept S.is_sound S.shows rules.check core.old
        → LoadsAlone rules table.now (R.remaining csv) (world_of S.shows core.old) result (world_of S.shows core.new) }
    ensures kept { (rules : Rules) → AreRules rules → IsKept S.is_sound S.shows rules.check core.old
        → IsKept S.is_sound S.shows rules.check core.new }
    ensures counts { S.refused (store_of core.old) ≤ S.refused (store_of core.new) }
{
    match core.new_session() {
        Ok(session) => load(alloc, core, session, table, csv),
        Err(refusal) => Reply::Refused(refusal),
    }
}

/// Loads a CSV into a table by batches, in a session that is made for it.
fn load_batches_alone<S: Store, R: Read + Drop>(
    alloc: Global,
    core: &mut Core<S>,
    table: &[u8],
    most: u32,
    csv: R,
) -> LoadedBatches
    ensures loads { 1 ≤ most → (rules : Rules) → AreRules rules → IsKept S.is_sound S.shows rules.check core.old
        → LoadsBatchesAlone rules table.now most (R.remaining csv) (world_of S.shows core.old) result.reply result.committed (world_of S.shows core.new) }
    ensures kept { (rules : Rules) → AreRules rules → IsKept S.is_sound S.shows rules.check core.old
        → IsKept S.is_sound S.shows rules.check core.new }
    ensures counts { S.refused (store_of core.old) ≤ S.refused (store_of core.new) }
{
    match core.new_session() {
        Ok(session) => load_batches(alloc, core, session, table, most as usize, csv),
        Err(refusal) => LoadedBatches {
            reply: Reply::Refused(refusal),
            committed: 0,
        },
    }
}

/// Dumps a table into a CSV, in a session that is made for it.
fn dump_alone<S: Store, V: Write>(
    alloc: Global,
    core: &mut Core<S>,
    table: &[u8],
    csv: &mut V,
) -> Reply
    ensures dumps { (rules : Rules) → AreRules rules → IsKept S.is_sound S.shows rules.check core.old
        → DumpsAlone rules table.now (V.contents csv.old) (V.contents csv.new) (world_of S.shows core.old) result (world_of S.shows core.new) }
    ensures kept { (rules : Rules) → AreRules rules → IsKept S.is_sound S.shows rules.check core.old
        → IsKept S.is_sound S.shows rules.check core.new }
    ensures counts { S.refused (store_of core.old) ≤ S.refused (store_of core.new) }
{
    match core.new_session() {
        Ok(session) => dump(alloc, core, session, table, csv),
        Err(refusal) => Reply::Refused(refusal),
    }
}

/// Prints a reply, and says what the exit status is by it.
pub(crate) fn answer<W: Write>(reply: &Reply, writer: &mut W) -> Said
    ensures answers { Answers reply.now result.status result.is_told (W.contents writer.old) (W.contents writer.new) }
    ensures status { IsStatus result.status }
{
    let is_told = say(reply, writer).is_ok();
    let status = status_with(is_told, reply.is_refused());
    Said { status, is_told }
}

/// The exit status where a reply was printed or not, and is a refusal or not.
fn status_with(is_told: bool, refused: bool) -> u8
    ensures is { result ≡ status_with is_told refused }
    ensures status { IsStatus result }
{
    if !is_told {
        return FAILED;
    }
    if refused { REFUSED } else { 0 }
}
