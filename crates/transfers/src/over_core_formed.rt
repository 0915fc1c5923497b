//! The commands over a store that was opened, for a text of a form.
ghost use Rattle.std.specs.Prelude.{◌≡◌, ◌≤◌};
ghost use Rattle.session_definitions.specs.Rules.{Rules, AreRules};
ghost use Rattle.sessions.specs.OfCore.{world_of};
ghost use Rattle.scripts.specs.Settled.{IsKept, store_of};
ghost use Rattle.endings.specs.Status.{IsStatus};
ghost use Rattle.transfers.specs.Formed.{DumpsFormedAlone, LoadsFormedAlone, LoadsFormedBatchesAlone, LoadsFormedNoted};
ghost use Rattle.transfers.specs.Transfers.{HandsBack, Transfers};

use crate::closing::close_behind;
use crate::note::note;
use crate::over_core::answer;
use csvio::{Form, LoadedBatches, dump_formed, load_formed, load_formed_batches};
use endings::EndedRun;
use replies::Reply;
use sqlcore::Core;
use std::alloc::Global;
use std::io::{Read, Write};
use store::Store;

/// Does what `load_to_end` does, with a text of this form.
pub fn load_formed_to_end<S: Store, R: Read + Drop, W: Write>(
    alloc: Global,
    core: Core<S>,
    form: Form,
    table: &[u8],
    csv: R,
    writer: &mut W,
) -> EndedRun<S>
    ensures status { IsStatus result.status }
    ensures loads { (rules : Rules) → AreRules rules → IsKept S.is_sound S.shows rules.check core
        → Transfers (LoadsFormedAlone rules form table.now (R.remaining csv)) S.saved rules.check (world_of S.shows core) (W.contents writer.old) (W.contents writer.new) result.status result.is_told result.device result.unclosed }
    ensures handed { HandsBack S.settled S.calls_refused (λ core. S.refused (store_of core)) (S.refused (store_of core)) result.device result.unclosed }
{
    let mut core = core;
    let reply = load_alone(alloc, &mut core, form, table, csv);
    let said = answer(&reply, writer);
    close_behind(core, said, writer)
}

/// Does what `load_batches_to_end` does, with a text of this form.
pub fn load_formed_batches_to_end<S: Store, R: Read + Drop, W: Write, V: Write>(
    alloc: Global,
    core: Core<S>,
    form: Form,
    table: &[u8],
    most: u32,
    csv: R,
    writer: &mut W,
    notes: &mut V,
) -> EndedRun<S>
    ensures status { IsStatus result.status }
    ensures loads { 1 ≤ most → (rules : Rules) → AreRules rules → IsKept S.is_sound S.shows rules.check core
        → Transfers (LoadsFormedNoted rules form table.now most (R.remaining csv) (V.contents notes.old) (V.contents notes.new)) S.saved rules.check (world_of S.shows core) (W.contents writer.old) (W.contents writer.new) result.status result.is_told result.device result.unclosed }
    ensures handed { HandsBack S.settled S.calls_refused (λ core. S.refused (store_of core)) (S.refused (store_of core)) result.device result.unclosed }
{
    let mut core = core;
    let loaded = load_batches_alone(alloc, &mut core, form, table, most, csv);
    note(alloc, &loaded, notes);
    let said = answer(&loaded.reply, writer);
    close_behind(core, said, writer)
}

/// Does what `dump_to_end` does, with a text of this form.
pub fn dump_formed_to_end<S: Store, V: Write, W: Write>(
    alloc: Global,
    core: Core<S>,
    form: Form,
    table: &[u8],
    csv: &mut V,
    writer: &mut W,
) -> EndedRun<S>
    ensures status { IsStatus result.status }
    ensures dumps { (rules : Rules) → AreRules rules → IsKept S.is_sound S.shows rules.check core
        → Transfers (DumpsFormedAlone rules form table.now (V.contents csv.old) (V.contents csv.new)) S.saved rules.check (world_of S.shows core) (W.contents writer.old) (W.contents writer.new) result.status result.is_told result.device result.unclosed }
    ensures handed { HandsBack S.settled S.calls_refused (λ core. S.refused (store_of core)) (S.refused (store_of core)) result.device result.unclosed }
{
    let mut core = core;
    let reply = dump_alone(alloc, &mut core, form, table, csv);
    let said = answer(&reply, writer);
    close_behind(core, said, writer)
}

/// Loads a text into a table, in a session that is made for it.
fn load_alone<S: Store, R: Read + Drop>(
    alloc: Global,
    core: &mut Core<S>,
    form: Form,
    table: &[u8],
    csv: R,
) -> Reply
    ensures loads { (rules : Rules) → AreRules rules → IsKept S.is_sound S.shows rules.check core.old
        → LoadsFormedAlone rules form table.now (R.remaining csv) (world_of S.shows core.old) result (world_of S.shows core.new) }
    ensures kept { (rules : Rules) → AreRules rules → IsKept S.is_sound S.shows rules.check core.old
        → IsKept S.is_sound S.shows rules.check core.new }
    ensures counts { S.refused (store_of core.old) ≤ S.refused (store_of core.new) }
{
    match core.new_session() {
        Ok(session) => load_formed(alloc, core, session, form, table, csv),
        Err(refusal) => Reply::Refused(refusal),
    }
}

/// Loads a text into a table by batches, in a session that is made for it.
fn load_batches_alone<S: Store, R: Read + Drop>(
    alloc: Global,
    core: &mut Core<S>,
    form: Form,
    table: &[u8],
    most: u32,
    csv: R,
) -> LoadedBatches
    ensures loads { 1 ≤ most → (rules : Rules) → AreRules rules → IsKept S.is_sound S.shows rules.check core.old
        → LoadsFormedBatchesAlone rules form table.now most (R.remaining csv) (world_of S.shows core.old) result.reply result.committed (world_of S.shows core.new) }
    ensures kept { (rules : Rules) → AreRules rules → IsKept S.is_sound S.shows rules.check core.old
        → IsKept S.is_sound S.shows rules.check core.new }
    ensures counts { S.refused (store_of core.old) ≤ S.refused (store_of core.new) }
{
    match core.new_session() {
        Ok(session) => {
            load_formed_batches(alloc, core, session, form, table, most as usize, csv)
        }
        Err(refusal) => LoadedBatches {
            reply: Reply::Refused(refusal),
            committed: 0,
        },
    }
}

/// Dumps a table as a text, in a session that is made for it.
fn dump_alone<S: Store, V: Write>(
    alloc: Global,
    core: &mut Core<S>,
    form: Form,
    table: &[u8],
    csv: &mut V,
) -> Reply
    ensures dumps { (rules : Rules) → AreRules rules → IsKept S.is_sound S.shows rules.check core.old
        → DumpsFormedAlone rules form table.now (V.contents csv.old) (V.contents csv.new) (world_of S.shows core.old) result (world_of S.shows core.new) }
    ensures kept { (rules : Rules) → AreRules rules → IsKept S.is_sound S.shows rules.check core.old
        → IsKept S.is_sound S.shows rules.check core.new }
    ensures counts { S.refused (store_of core.old) ≤ S.refused (store_of core.new) }
{
    match core.new_session() {
        Ok(session) => dump_formed(alloc, core, session, form, table, csv),
        Err(refusal) => Reply::Refused(refusal),
    }
}
