//! A table from CSV.
ghost use Rattle.std.specs.Prelude.{◌≡◌, ◌≤◌, ◌⊎◌, true};
ghost use Rattle.refusals.specs.declared.refusal.Refusal.TheVariants.{Disk, Invalid, Memory};
ghost use Rattle.refusals.specs.declared.reason.Reason.TheVariants as reason;
ghost use Rattle.session_definitions.specs.Rules.{Rules, AreRules};
ghost use Rattle.session_definitions.specs.World.{is_live};
ghost use Rattle.sessions.specs.OfCore.{StandAlike, number_of, world_of};
ghost use Rattle.scripts.specs.Settled.{IsKept, store_of};
ghost use Rattle.store.specs.Errors.{HasRisen};
ghost use Rattle.transactions.specs.Refused.{Counts, IfRefused};
ghost use Rattle.csv_rows.specs.declared.error.ReadError.TheVariants as why;
ghost use Rattle.csvio.specs.Loading.{Loads, PutsIn, first_refusal};

use crate::table_name::table_name;
use csv_rows::{ReadError, read_rows};
use denote::Rows;
use items::Text;
use refusals::{Reason, Refusal};
use replies::Reply;
use session_laws::databases_stay_good;
use sessions::{Changes, Core, Language, SessionId};
use std::alloc::Global;
use std::io::Read;
use store::Store;

/// Puts the rows of a CSV text into the table that a text names, in this session, and then commits;
/// answers the first refusal, or how many rows it put in. The text has no header, and each field
/// the form in which a value is printed.
///
/// What is no single name is refused by `name`; a field that is no printed value, and a record of
/// another length than the first, by `field`; a reader that refuses is X0002. That comes only where
/// the device's count of refused calls rose, or no call of the core was made.
pub fn load<S: Store, L: Language + Changes<S>, R: Read + Drop>(
    alloc: Global,
    core: &mut Core<S, L>,
    session: SessionId,
    table: &[u8],
    reader: R,
) -> Reply
    ensures loads { (rules : Rules) → AreRules rules → IsKept S.is_sound S.shows rules.check core.old
        → is_live (world_of S.shows core.old) (number_of session) ≡ true
        → Loads rules (world_of S.shows core.old) (number_of session) table.now (R.remaining reader) result (world_of S.shows core.new) }
    ensures device { IfRefused result (λ refusal. refusal ≡ Disk
        → HasRisen (S.refused (store_of core.old)) (S.refused (store_of core.new)) ⊎ (core.new ≡ core.old)) }
    ensures kept { (rules : Rules) → AreRules rules → IsKept S.is_sound S.shows rules.check core.old
        → IsKept S.is_sound S.shows rules.check core.new }
    ensures live { StandAlike (world_of S.shows core.old) (world_of S.shows core.new) }
    ensures counts { S.refused (store_of core.old) ≤ S.refused (store_of core.new) }
{
    let name = match table_name(alloc, table) {
        Ok(name) => name,
        Err(refusal) => return Reply::Refused(refusal),
    };
    match read_rows(alloc, reader) {
        Ok(rows) => put_in(core, session, &name, rows),
        Err(error) => Reply::Refused(refusal_of(error)),
    }
}

/// The refusal that says why a text gives no rows.
pub(crate) fn refusal_of(error: ReadError) -> Refusal
    ensures memory { error ≡ why.Memory → result ≡ Memory }
    ensures reader { error ≡ why.Reader → result ≡ Disk }
    ensures field { error ≡ why.Field → result ≡ Invalid reason.Field }
{
    match error {
        ReadError::Memory => Refusal::Memory,
        ReadError::Reader => Refusal::Disk,
        ReadError::Field => Refusal::Invalid(Reason::Field),
    }
}

/// Puts rows into a table, and commits where that is accepted.
pub(crate) fn put_in<S: Store, L: Language + Changes<S>>(
    core: &mut Core<S, L>,
    session: SessionId,
    table: &Text,
    rows: Rows,
) -> Reply
    ensures puts_in { (rules : Rules) → AreRules rules → IsKept S.is_sound S.shows rules.check core.old
        → is_live (world_of S.shows core.old) (number_of session) ≡ true
        → PutsIn rules (world_of S.shows core.old) (number_of session) table.now rows result (world_of S.shows core.new) }
    ensures device { Counts result (S.refused (store_of core.old)) (S.refused (store_of core.new)) }
    ensures kept { (rules : Rules) → AreRules rules → IsKept S.is_sound S.shows rules.check core.old
        → IsKept S.is_sound S.shows rules.check core.new }
    ensures live { StandAlike (world_of S.shows core.old) (world_of S.shows core.new) }
    ensures counts { S.refused (store_of core.old) ≤ S.refused (store_of core.new) }
{
    databases_stay_good();
    let inserted = core.insert_rows(session, table, rows);
    if inserted.is_refused() {
        return inserted;
    }
    let committed = core.step(session, b"COMMIT");
    first_refusal(inserted, committed)
}

/// Of two replies the first refusal, else the first reply.
fn first_refusal(first: Reply, second: Reply) -> Reply
    ensures { result ≡ first_refusal first second }
{
    if second.is_refused() { second } else { first }
}
