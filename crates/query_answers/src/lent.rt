//! The rows of stored tables, lent to a tree.
ghost use Rattle.std.specs.Prelude.{◌≡◌, ◌≤◌, ◌+◌, ℕ, List, [], ◌∷◌, ◌++◌, length, IfOk, IfErr, OnOk};
ghost use Rattle.refusals.specs.declared.refusal.Refusal.TheVariants.{Disk};
ghost use Rattle.session_definitions.specs.Refusals.{IsReserved};
ghost use Rattle.store.specs.Errors.{HasRisen};
ghost use Rattle.tree_tables.specs.TablesRead.{Agree};
ghost use Rattle.transactions.specs.Refused.{TellsNoLimit};
ghost use Rattle.query_answers.specs.Answered.{rows_found};
ghost use Rattle.query_answers.specs.Lent.{rows_lent, rows_under, is_lent, newly_read, IsLending};

use denote::{Row, Rows, Tables};
use items::{Items, Text};
use refusals::Refusal;
use std::alloc::Global;
use store::Reading;
use transactions::refusal_of;

/// A stored table's name and its rows.
#[derive(Drop)]
pub struct LentTable {
    pub name: Text,
    pub rows: Rows,
}

/// Stored tables, each with all its rows.
#[derive(Drop)]
pub struct LentTables {
    pub tables: Items<LentTable>,
}

impl Tables for LentTables {
    ghost rows_of = { λ lent. rows_lent lent.tables };

    fn rows(&self, name: &Text) -> &[Row] {
        for table in self.tables.as_slice() {
            if table.name.as_slice() == name.as_slice() {
                return table.rows.as_slice();
            }
        }
        &[]
    }
}

/// No tables: each name has no rows.
pub(crate) struct NoTables;

impl Tables for NoTables {
    ghost rows_of = { λ _ _. [] };

    fn rows(&self, _name: &Text) -> &[Row] {
        &[]
    }
}

/// Whether the table of this name is among these.
fn is_lent(tables: &[LentTable], name: &Text) -> bool
    ensures { result ≡ is_lent tables.now name.now }
{
    for table in tables {
        if table.name.as_slice() == name.as_slice() {
            return true;
        }
    }
    false
}

/// A stored table with all its rows; where no table has this name, it has none.
fn read_table<R: Reading>(alloc: Global, reading: &mut R, name: &Text) -> Result<LentTable, Refusal>
    ensures name { IfOk result (λ table. table.name ≡ name.now) }
    ensures rows { R.is_sound reading.old
        → IfOk result (λ table. table.rows ≡ rows_found (R.shows reading.old).contents name.now) }
    ensures read { R.is_sound reading.old
        → IfOk result (λ _. (R.shows reading.new).read ≤ (R.shows reading.old).read + length (rows_found (R.shows reading.old).contents name.now)) }
    ensures refused { IfErr result (λ refusal. R.is_sound reading.old → IsReserved refusal) }
    ensures limits { IfErr result TellsNoLimit }
    ensures counts { IfErr result (λ refusal. refusal ≡ Disk
        → HasRisen (R.shows reading.old).refused (R.shows reading.new).refused) }
    ensures follows { R.follows reading.old reading.new }
{
    let name_kept = name.copy(alloc);
    match reading.scan(alloc, name) {
        Ok(found) => Ok(LentTable {
            name: name_kept?,
            rows: found.rows,
        }),
        Err(error) => Err(refusal_of(error)),
    }
}

/// One more table, unless it is there already. A refusal leaves the tables as they were.
fn lend<R: Reading>(
    alloc: Global,
    reading: &mut R,
    tables: &mut Items<LentTable>,
    name: &Text,
) -> Result<(), Refusal>
    ensures lent { R.is_sound reading.old
        → OnOk result ((names : List (List ℕ)) → IsLending tables.old (rows_found (R.shows reading.old).contents) names
        → IsLending tables.new (rows_found (R.shows reading.old).contents) (names ++ name.now ∷ [])) }
    ensures read { R.is_sound reading.old
        → OnOk result ((R.shows reading.new).read ≤ (R.shows reading.old).read + newly_read tables.old (rows_found (R.shows reading.old).contents) name.now) }
    ensures refused { IfErr result (λ refusal. R.is_sound reading.old → IsReserved refusal) }
    ensures limits { IfErr result TellsNoLimit }
    ensures counts { IfErr result (λ refusal. refusal ≡ Disk
        → HasRisen (R.shows reading.old).refused (R.shows reading.new).refused) }
    ensures follows { R.follows reading.old reading.new }
{
    if is_lent(tables.as_slice(), name) {
        return Ok(());
    }
    let table = read_table(alloc, reading, name)?;
    match tables.push(table) {
        Ok(()) => Ok(()),
        Err(_) => Err(Refusal::Memory),
    }
}

/// The tables of these names, each read once: no more rows are read than these tables have. It is
/// refused for what the store is refused for.
pub fn lent_tables<R: Reading>(
    alloc: Global,
    reading: &mut R,
    names: &[Text],
) -> Result<LentTables, Refusal>
    ensures lent { R.is_sound reading.old
        → IfOk result (λ lent. Agree (rows_lent lent.tables) (rows_found (R.shows reading.old).contents) names.now) }
    ensures read { R.is_sound reading.old
        → IfOk result (λ _. (R.shows reading.new).read ≤ (R.shows reading.old).read + rows_under (rows_found (R.shows reading.old).contents) names.now) }
    ensures refused { IfErr result (λ refusal. R.is_sound reading.old → IsReserved refusal) }
    ensures limits { IfErr result TellsNoLimit }
    ensures counts { IfErr result (λ refusal. refusal ≡ Disk
        → HasRisen (R.shows reading.old).refused (R.shows reading.new).refused) }
    ensures follows { R.follows reading.old reading.new }
{
    let mut tables = Items::new(alloc);
    for name in names {
        lend(alloc, reading, &mut tables, name)?;
    }
    Ok(LentTables { tables })
}
