//! A table from CSV, by batches.
ghost use Rattle.std.specs.Prelude.{◌≡◌, ◌≤◌, ◌⊎◌, true};
ghost use Rattle.refusals.specs.declared.refusal.Refusal.TheVariants.{Disk};
ghost use Rattle.session_definitions.specs.Rules.{Rules, AreRules};
ghost use Rattle.session_definitions.specs.World.{is_live};
ghost use Rattle.sessions.specs.OfCore.{StandAlike, number_of, world_of};
ghost use Rattle.scripts.specs.Settled.{IsKept, store_of};
ghost use Rattle.store.specs.Errors.{HasRisen};
ghost use Rattle.transactions.specs.Refused.{Counts, IfRefused};
ghost use Rattle.csvio.specs.Batches.{LoadsBatches, PutsBatches, PutsCut, rows_in};

use crate::cut::cut;
use crate::loading::{put_in, refusal_of};
use crate::table_name::table_name;
use csv_rows::read_rows;
use denote::Rows;
use items::{Items, Text};
use refusals::Refusal;
use replies::Reply;
use sessions::{Changes, Core, Language, SessionId};
use std::alloc::Global;
use std::io::Read;
use store::Store;
use table_changes::reply_for;

/// How far a load by batches came.
#[derive(Drop)]
pub struct LoadedBatches {
    /// The first refusal, or how many rows were put in.
    pub reply: Reply,
    /// How many rows were put in and stand committed.
    pub committed: usize,
}

/// Puts the rows of a CSV text into the table that a text names, in this session, by batches of
/// `most` of them, at least one, of which the last may have fewer, and commits behind each; answers
/// the first refusal, or how many rows it put in, and how many stand committed. The text is read to
/// its end before the first batch, and is one that `load` takes.
///
/// What is refused, and by what, is as of `load`.
pub fn load_batches<S: Store, L: Language + Changes<S>, R: Read + Drop>(
    alloc: Global,
    core: &mut Core<S, L>,
    session: SessionId,
    table: &[u8],
    most: usize,
    reader: R,
) -> LoadedBatches
    ensures loads { 1 ≤ most → (rules : Rules) → AreRules rules → IsKept S.is_sound S.shows rules.check core.old
        → is_live (world_of S.shows core.old) (number_of session) ≡ true
        → LoadsBatches rules (world_of S.shows core.old) (number_of session) table.now most (R.remaining reader) result.reply result.committed (world_of S.shows core.new) }
    ensures device { IfRefused result.reply (λ refusal. refusal ≡ Disk
        → HasRisen (S.refused (store_of core.old)) (S.refused (store_of core.new)) ⊎ (core.new ≡ core.old)) }
    ensures kept { (rules : Rules) → AreRules rules → IsKept S.is_sound S.shows rules.check core.old
        → IsKept S.is_sound S.shows rules.check core.new }
    ensures live { StandAlike (world_of S.shows core.old) (world_of S.shows core.new) }
    ensures counts { S.refused (store_of core.old) ≤ S.refused (store_of core.new) }
{
    let name = match table_name(alloc, table) {
        Ok(name) => name,
        Err(refusal) => return unloaded(refusal),
    };
    match read_rows(alloc, reader) {
        Ok(rows) => put_cut(alloc, core, session, &name, rows, most),
        Err(error) => unloaded(refusal_of(error)),
    }
}

/// The answer where no row was put in.
pub(crate) fn unloaded(refusal: Refusal) -> LoadedBatches
    ensures reply { result.reply ≡ Reply.Refused refusal }
    ensures none { result.committed ≡ 0 }
{
    LoadedBatches {
        reply: Reply::Refused(refusal),
        committed: 0,
    }
}

/// Cuts rows into batches, and puts these into a table.
pub(crate) fn put_cut<S: Store, L: Language + Changes<S>>(
    alloc: Global,
    core: &mut Core<S, L>,
    session: SessionId,
    table: &Text,
    rows: Rows,
    most: usize,
) -> LoadedBatches
    ensures puts { 1 ≤ most → (rules : Rules) → AreRules rules → IsKept S.is_sound S.shows rules.check core.old
        → is_live (world_of S.shows core.old) (number_of session) ≡ true
        → PutsCut rules (world_of S.shows core.old) (number_of session) table.now most rows result.reply result.committed (world_of S.shows core.new) }
    ensures device { Counts result.reply (S.refused (store_of core.old)) (S.refused (store_of core.new)) }
    ensures kept { (rules : Rules) → AreRules rules → IsKept S.is_sound S.shows rules.check core.old
        → IsKept S.is_sound S.shows rules.check core.new }
    ensures live { StandAlike (world_of S.shows core.old) (world_of S.shows core.new) }
    ensures counts { S.refused (store_of core.old) ≤ S.refused (store_of core.new) }
{
    let count = rows.len();
    match cut(alloc, rows, most) {
        Ok(batches) => put_batches(core, session, table, batches, count),
        Err(_) => unloaded(Refusal::Memory),
    }
}

/// Puts batches into a table one after another, and commits behind each, up to the first that is
/// refused.
fn put_batches<S: Store, L: Language + Changes<S>>(
    core: &mut Core<S, L>,
    session: SessionId,
    table: &Text,
    batches: Items<Rows>,
    count: usize,
) -> LoadedBatches
    requires { rows_in batches ≡ count }
    ensures puts { (rules : Rules) → AreRules rules → IsKept S.is_sound S.shows rules.check core.old
        → is_live (world_of S.shows core.old) (number_of session) ≡ true
        → PutsBatches rules (world_of S.shows core.old) (number_of session) table.now batches result.reply result.committed (world_of S.shows core.new) }
    ensures device { Counts result.reply (S.refused (store_of core.old)) (S.refused (store_of core.new)) }
    ensures kept { (rules : Rules) → AreRules rules → IsKept S.is_sound S.shows rules.check core.old
        → IsKept S.is_sound S.shows rules.check core.new }
    ensures live { StandAlike (world_of S.shows core.old) (world_of S.shows core.new) }
    ensures counts { S.refused (store_of core.old) ≤ S.refused (store_of core.new) }
{
    let mut committed = 0;
    for batch in batches.into_vec() {
        let size = batch.len();
        let reply = put_in(core, session, table, batch);
        if reply.is_refused() {
            return LoadedBatches { reply, committed };
        }
        committed += size;
    }
    LoadedBatches {
        reply: reply_for(count),
        committed,
    }
}
