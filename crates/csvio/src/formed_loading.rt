//! A table from a text of a form.
ghost use Rattle.std.specs.Prelude.{◌≡◌, ◌≤◌, ◌⊎◌, true, IfOk, IfErr};
ghost use Rattle.refusals.specs.declared.refusal.Refusal.TheVariants.{Disk};
ghost use Rattle.session_definitions.specs.Rules.{Rules, AreRules};
ghost use Rattle.session_definitions.specs.World.{is_live};
ghost use Rattle.sessions.specs.OfCore.{IsSound, StandAlike, number_of, world_of};
ghost use Rattle.scripts.specs.Settled.{IsKept, store_of};
ghost use Rattle.store.specs.Errors.{HasRisen};
ghost use Rattle.transactions.specs.Refused.{Counts, IfRefused};
ghost use Rattle.csvio.specs.Formed.{FindsNone, FindsRows, LoadsFormed, LoadsFormedBatches};

use crate::batches::{LoadedBatches, put_cut, unloaded};
use crate::finding::find_in;
use crate::form::Form;
use crate::loading::put_in;
use crate::table_name::table_name;
use denote::Rows;
use items::Text;
use refusals::Refusal;
use replies::Reply;
use sessions::{Changes, Core, Language, SessionId};
use std::alloc::Global;
use std::io::Read;
use store::Store;

/// Puts the rows of a text of this form into the table that a text names, in this session, and then
/// commits; answers the first refusal, or how many rows it put in.
///
/// Before that the columns of the table are looked up, as the session sees it; it begins no
/// transaction for this, so a caller that shares the core begins one before. What is no single
/// name, or names no table, is refused by `name`; so is a field of a header that names no column,
/// and by `duplicate` one that names a column twice. Else what is refused, and by what, is as of
/// `load`.
pub fn load_formed<S: Store, L: Language + Changes<S>, R: Read + Drop>(
    alloc: Global,
    core: &mut Core<S, L>,
    session: SessionId,
    form: Form,
    table: &[u8],
    reader: R,
) -> Reply
    ensures loads { (rules : Rules) → AreRules rules → IsKept S.is_sound S.shows rules.check core.old
        → is_live (world_of S.shows core.old) (number_of session) ≡ true
        → LoadsFormed rules form (world_of S.shows core.old) (number_of session) table.now (R.remaining reader) result (world_of S.shows core.new) }
    ensures kept { (rules : Rules) → AreRules rules → IsKept S.is_sound S.shows rules.check core.old
        → IsKept S.is_sound S.shows rules.check core.new }
    ensures live { StandAlike (world_of S.shows core.old) (world_of S.shows core.new) }
    ensures counts { S.refused (store_of core.old) ≤ S.refused (store_of core.new) }
{
    match find_rows(alloc, core, session, form, table, reader) {
        Ok(found) => {
            let rows = found.rows;
            put_in(core, session, &found.table, rows)
        }
        Err(refusal) => Reply::Refused(refusal),
    }
}

/// Does so by batches of `most` rows, at least one, as `load_batches` does.
pub fn load_formed_batches<S: Store, L: Language + Changes<S>, R: Read + Drop>(
    alloc: Global,
    core: &mut Core<S, L>,
    session: SessionId,
    form: Form,
    table: &[u8],
    most: usize,
    reader: R,
) -> LoadedBatches
    ensures loads { 1 ≤ most → (rules : Rules) → AreRules rules → IsKept S.is_sound S.shows rules.check core.old
        → is_live (world_of S.shows core.old) (number_of session) ≡ true
        → LoadsFormedBatches rules form (world_of S.shows core.old) (number_of session) table.now most (R.remaining reader) result.reply result.committed (world_of S.shows core.new) }
    ensures kept { (rules : Rules) → AreRules rules → IsKept S.is_sound S.shows rules.check core.old
        → IsKept S.is_sound S.shows rules.check core.new }
    ensures live { StandAlike (world_of S.shows core.old) (world_of S.shows core.new) }
    ensures counts { S.refused (store_of core.old) ≤ S.refused (store_of core.new) }
{
    match find_rows(alloc, core, session, form, table, reader) {
        Ok(found) => {
            let rows = found.rows;
            put_cut(alloc, core, session, &found.table, rows, most)
        }
        Err(refusal) => unloaded(refusal),
    }
}

/// The rows of a text, and the name of the table that they are for.
#[derive(Drop)]
struct FoundRows {
    table: Text,
    rows: Rows,
}

/// The rows of a text, for the table that a text names, as the session sees it. The world stays.
fn find_rows<S: Store, L: Language + Changes<S>, R: Read + Drop>(
    alloc: Global,
    core: &mut Core<S, L>,
    session: SessionId,
    form: Form,
    table: &[u8],
    reader: R,
) -> Result<FoundRows, Refusal>
    ensures rows { IfOk result (λ found. IsSound S.is_sound S.shows core.old
        → is_live (world_of S.shows core.old) (number_of session) ≡ true
        → FindsRows (world_of S.shows core.old) (number_of session) form table.now (R.remaining reader) found.table found.rows) }
    ensures refused { IfErr result (λ refusal. IsSound S.is_sound S.shows core.old
        → is_live (world_of S.shows core.old) (number_of session) ≡ true
        → FindsNone (world_of S.shows core.old) (number_of session) form table.now (R.remaining reader) refusal) }
    ensures world { world_of S.shows core.new ≡ world_of S.shows core.old }
    ensures sound { IsSound S.is_sound S.shows core.old → IsSound S.is_sound S.shows core.new }
    ensures counts { S.refused (store_of core.old) ≤ S.refused (store_of core.new) }
{
    let name = match table_name(alloc, table) {
        Ok(name) => name,
        Err(refusal) => return Err(refusal),
    };
    match core.prepare_schema(session) {
        Ok(()) => {}
        Err(refusal) => return Err(refusal),
    }
    match find_in(alloc, core.schema(), form, &name, reader) {
        Ok(rows) => Ok(FoundRows { table: name, rows }),
        Err(refusal) => Err(refusal),
    }
}
