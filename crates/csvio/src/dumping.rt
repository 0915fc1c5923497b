//! A table as CSV.
ghost use Rattle.std.specs.Prelude.{◌≡◌, ◌≤◌, false, true, IfErr, IfOk};
ghost use Rattle.lexer.specs.Token.{Bytes};
ghost use Rattle.session_definitions.specs.Rules.{Rules, AreRules};
ghost use Rattle.session_definitions.specs.World.{is_live};
ghost use Rattle.sessions.specs.OfCore.{StandAlike, number_of, world_of};
ghost use Rattle.scripts.specs.Settled.{IsKept, store_of};
ghost use Rattle.csvio.specs.Dumping.{Asks, AsksAll, Dumps, WritesRows, is_rows, width_of};

use crate::query_text::query_text;
use crate::record::rows_text;
use crate::table_name::table_name;
use crate::writing::put;
use denote::{Row, Rows};
use items::Text;
use refusals::Refusal;
use replies::Reply;
use session_laws::databases_stay_good;
use sessions::{Changes, Core, Language, SessionId};
use std::alloc::{AllocError, Global};
use std::io::Write;
use store::Store;
use table_changes::reply_for;

/// Writes all rows of the table that a text names, ordered by all its columns, as CSV without a
/// header, each field in the form in which a value is printed; answers how many there are. The
/// transaction that this began stays.
///
/// What is no single name is refused by `name`, a writer that refuses is X0002; a beginning of the
/// text was then written.
pub fn dump<S: Store, L: Language + Changes<S>, W: Write>(
    alloc: Global,
    core: &mut Core<S, L>,
    session: SessionId,
    table: &[u8],
    writer: &mut W,
) -> Reply
    ensures dumps { (rules : Rules) → AreRules rules → IsKept S.is_sound S.shows rules.check core.old
        → is_live (world_of S.shows core.old) (number_of session) ≡ true
        → Dumps rules (world_of S.shows core.old) (number_of session) table.now (W.contents writer.old) (W.contents writer.new) result (world_of S.shows core.new) }
    ensures kept { (rules : Rules) → AreRules rules → IsKept S.is_sound S.shows rules.check core.old
        → IsKept S.is_sound S.shows rules.check core.new }
    ensures live { StandAlike (world_of S.shows core.old) (world_of S.shows core.new) }
    ensures counts { S.refused (store_of core.old) ≤ S.refused (store_of core.new) }
{
    let name = match table_name(alloc, table) {
        Ok(name) => name,
        Err(refusal) => return Reply::Refused(refusal),
    };
    match rows_of(ask_all(alloc, core, session, &name)) {
        Ok(rows) => write_rows(alloc, rows.as_slice(), writer),
        Err(reply) => reply,
    }
}

/// The rows of a reply, or the reply where it has none.
pub(crate) fn rows_of(reply: Reply) -> Result<Rows, Reply>
    ensures rows { IfOk result (λ rows. reply ≡ Reply.Rows rows) }
    ensures other { IfErr result (λ other. (other ≡ reply) × (is_rows reply ≡ false)) }
{
    match reply {
        Reply::Rows(rows) => Ok(rows),
        reply => Err(reply),
    }
}

/// Asks for all rows of a table, ordered by all its columns.
pub(crate) fn ask_all<S: Store, L: Language + Changes<S>>(
    alloc: Global,
    core: &mut Core<S, L>,
    session: SessionId,
    table: &Text,
) -> Reply
    ensures asks { (rules : Rules) → AreRules rules → IsKept S.is_sound S.shows rules.check core.old
        → is_live (world_of S.shows core.old) (number_of session) ≡ true
        → AsksAll rules (world_of S.shows core.old) (number_of session) table.now result (world_of S.shows core.new) }
    ensures kept { (rules : Rules) → AreRules rules → IsKept S.is_sound S.shows rules.check core.old
        → IsKept S.is_sound S.shows rules.check core.new }
    ensures live { StandAlike (world_of S.shows core.old) (world_of S.shows core.new) }
    ensures counts { S.refused (store_of core.old) ≤ S.refused (store_of core.new) }
{
    let found = ask(core, session, query_text(alloc, table, 0));
    let width = width_of(&found);
    if width == 0 {
        return found;
    }
    ask(core, session, query_text(alloc, table, width))
}

/// The reply to a text; want of memory where there was none for it.
fn ask<S: Store, L: Language + Changes<S>>(
    core: &mut Core<S, L>,
    session: SessionId,
    text: Result<Vec<u8>, AllocError>,
) -> Reply
    ensures asks { (rules : Rules) (asked : Bytes) → AreRules rules → IsKept S.is_sound S.shows rules.check core.old
        → is_live (world_of S.shows core.old) (number_of session) ≡ true → IfOk text (λ made. made.items ≡ asked)
        → Asks rules (world_of S.shows core.old) (number_of session) asked result (world_of S.shows core.new) }
    ensures kept { (rules : Rules) → AreRules rules → IsKept S.is_sound S.shows rules.check core.old
        → IsKept S.is_sound S.shows rules.check core.new }
    ensures live { StandAlike (world_of S.shows core.old) (world_of S.shows core.new) }
    ensures counts { S.refused (store_of core.old) ≤ S.refused (store_of core.new) }
{
    databases_stay_good();
    match text {
        Ok(text) => core.step(session, text.as_slice()),
        Err(_) => Reply::Refused(Refusal::Memory),
    }
}

/// How many values the rows of a reply have; 0 where it has no rows.
fn width_of(reply: &Reply) -> usize
    ensures { result ≡ width_of reply.now }
{
    match reply {
        Reply::Rows(rows) => match rows.as_slice() {
            [] => 0,
            [row, ..] => row.len(),
        },
        _ => 0,
    }
}

/// Writes the text of rows, and answers how many there are.
fn write_rows<W: Write>(alloc: Global, rows: &[Row], writer: &mut W) -> Reply
    ensures writes { WritesRows rows.now (W.contents writer.old) (W.contents writer.new) result }
{
    let Some(text) = rows_text(alloc, rows) else {
        return Reply::Refused(Refusal::Memory);
    };
    if put(writer, text.as_slice()) {
        reply_for(rows.len())
    } else {
        Reply::Refused(Refusal::Disk)
    }
}
