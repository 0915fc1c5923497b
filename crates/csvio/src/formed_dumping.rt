//! A table as a text of a form.
ghost use Rattle.std.specs.Prelude.{◌≡◌, ◌≤◌, ◌&&◌, true};
ghost use Rattle.std.specs.List.{list_any};
ghost use Rattle.session_definitions.specs.Rules.{Rules, AreRules};
ghost use Rattle.session_definitions.specs.World.{is_live};
ghost use Rattle.sessions.specs.OfCore.{IsSound, StandAlike, number_of, world_of};
ghost use Rattle.scripts.specs.Settled.{IsKept, store_of};
ghost use Rattle.csvio.specs.Formed.{DumpsFormed, WritesFormed, WritesSeen, has_empty_text, is_empty_text};

use crate::dumping::{ask_all, rows_of};
use crate::form::Form;
use crate::formed::columns_named;
use crate::formed_text::formed_text;
use crate::table_name::table_name;
use crate::writing::put;
use denote::Row;
use items::Text;
use refusals::{Reason, Refusal};
use replies::Reply;
use sessions::{Changes, Core, Language, SessionId};
use sqlval::{Column, Value};
use std::alloc::Global;
use std::io::Write;
use store::Store;
use table_changes::reply_for;

/// Writes all rows of the table that a text names, ordered by all its columns, as a text of this
/// form; answers how many there are. The transaction that this began stays.
///
/// Where fields are to be written plainly and a row holds the empty text, it is refused by `field`
/// and nothing is written, since that would come back as null. Else what is refused, and by what,
/// is as of `dump`.
pub fn dump_formed<S: Store, L: Language + Changes<S>, W: Write>(
    alloc: Global,
    core: &mut Core<S, L>,
    session: SessionId,
    form: Form,
    table: &[u8],
    writer: &mut W,
) -> Reply
    ensures dumps { (rules : Rules) → AreRules rules → IsKept S.is_sound S.shows rules.check core.old
        → is_live (world_of S.shows core.old) (number_of session) ≡ true
        → DumpsFormed rules form (world_of S.shows core.old) (number_of session) table.now (W.contents writer.old) (W.contents writer.new) result (world_of S.shows core.new) }
    ensures kept { (rules : Rules) → AreRules rules → IsKept S.is_sound S.shows rules.check core.old
        → IsKept S.is_sound S.shows rules.check core.new }
    ensures live { StandAlike (world_of S.shows core.old) (world_of S.shows core.new) }
    ensures counts { S.refused (store_of core.old) ≤ S.refused (store_of core.new) }
{
    let name = match table_name(alloc, table) {
        Ok(name) => name,
        Err(refusal) => return Reply::Refused(refusal),
    };
    match rows_of(ask_all(alloc, core, session, &name)) {
        Ok(rows) => write_seen(alloc, core, session, form, &name, rows.as_slice(), writer),
        Err(reply) => reply,
    }
}

/// Writes the text of rows, for the columns of the table of this name, as the session sees it.
fn write_seen<S: Store, L: Language + Changes<S>, W: Write>(
    alloc: Global,
    core: &mut Core<S, L>,
    session: SessionId,
    form: Form,
    name: &Text,
    rows: &[Row],
    writer: &mut W,
) -> Reply
    ensures writes { IsSound S.is_sound S.shows core.old
        → is_live (world_of S.shows core.old) (number_of session) ≡ true
        → WritesSeen form (world_of S.shows core.old) (number_of session) name.now rows.now (W.contents writer.old) (W.contents writer.new) result }
    ensures world { world_of S.shows core.new ≡ world_of S.shows core.old }
    ensures sound { IsSound S.is_sound S.shows core.old → IsSound S.is_sound S.shows core.new }
    ensures counts { S.refused (store_of core.old) ≤ S.refused (store_of core.new) }
{
    match core.prepare_schema(session) {
        Ok(()) => {}
        Err(refusal) => return Reply::Refused(refusal),
    }
    match columns_named(core.schema(), name) {
        Some(columns) => write_formed(alloc, form, columns, rows, writer),
        None => Reply::Refused(Refusal::Invalid(Reason::Name)),
    }
}

/// Writes the text of rows of these columns, and answers how many there are.
fn write_formed<W: Write>(
    alloc: Global,
    form: Form,
    columns: &[Column],
    rows: &[Row],
    writer: &mut W,
) -> Reply
    ensures writes { WritesFormed form columns.now rows.now (W.contents writer.old) (W.contents writer.new) result }
{
    if loses_text(form.plain, rows) {
        return Reply::Refused(Refusal::Invalid(Reason::Field));
    }
    let Some(text) = formed_text(alloc, form, columns, rows) else {
        return Reply::Refused(Refusal::Memory);
    };
    if put(writer, text.as_slice()) {
        reply_for(rows.len())
    } else {
        Reply::Refused(Refusal::Disk)
    }
}

/// Whether a row would come back as another one: written plainly, the empty text would be null.
fn loses_text(plain: bool, rows: &[Row]) -> bool
    ensures { result ≡ (plain && has_empty_text rows.now) }
{
    if plain { has_empty_text(rows) } else { false }
}

/// Whether a row holds the empty text.
fn has_empty_text(rows: &[Row]) -> bool
    ensures { result ≡ has_empty_text rows.now }
{
    for row in rows {
        if has_empty(row.as_slice()) {
            return true;
        }
    }
    false
}

/// Whether one of these values is the empty text.
fn has_empty(row: &[Value]) -> bool
    ensures { result ≡ list_any is_empty_text row.now }
{
    for value in row {
        if is_empty_text(value) {
            return true;
        }
    }
    false
}

/// Whether a value is the empty text.
fn is_empty_text(value: &Value) -> bool
    ensures { result ≡ is_empty_text value.now }
{
    match value {
        Value::Null => false,
        Value::Int(_) => false,
        Value::Text(text) => text.as_slice().is_empty(),
    }
}
