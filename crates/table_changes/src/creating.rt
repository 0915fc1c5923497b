//! CREATE TABLE.
ghost use Rattle.std.specs.Prelude.{◌≡◌, IfOk, IfErr, OnErr, map};
ghost use Rattle.std.specs.List.{filter_map};
ghost use Rattle.std.specs.Option.{option_map};
ghost use Rattle.refusals.specs.declared.refusal.Refusal.TheVariants.{Disk};
ghost use Rattle.session_definitions.specs.Refusals.{IsReserved};
ghost use Rattle.typing.specs.declared.statement.Change.TheVariants as does;
ghost use Rattle.denote.specs.Change.{owned_index};
ghost use Rattle.denote.specs.Database.{CheckReading, IndexDeclaration};
ghost use Rattle.denote.specs.SchemaOf.{IsSchemaOf, index_of};
ghost use Rattle.store.specs.Contents.{database_of};
ghost use Rattle.store.specs.Errors.{ChangingReaches, HasRisen};
ghost use Rattle.store.specs.Going.{Going};
ghost use Rattle.store.specs.Stored.{SameButMark};
ghost use Rattle.transactions.specs.Refused.{IfRefused, TellsReached};
ghost use Rattle.constraints.specs.Changed.{HasChanged};
ghost use Rattle.table_changes.specs.Indexes.{key_index, AreOwned};

use constraints::{begin, key_columns, table_named};
use items::Items;
use refusals::Refusal;
use replies::Reply;
use sqlval::{Constraint, Index, Rule, Table};
use std::alloc::{AllocError, Global};
use store::Store;
use transactions::refusal_of;
use typing::CreateTable;

/// CREATE TABLE: the table without rows, with an index for each PRIMARY KEY and each UNIQUE. It
/// sets the mark. It is refused for want of memory, by the device or by a limit of the store; all
/// is then as it was, but for the mark. A name that a table has, which the rules of names exclude,
/// is refused as for want of memory. A table without rows violates no CHECK.
pub fn create_table<S: Store>(
    alloc: Global,
    store: &mut S,
    table: CreateTable,
) -> Result<Reply, Refusal>
    ensures changes { IfOk result (λ reply. (reading : CheckReading) → S.is_sound store.old
        → IsSchemaOf (S.prepared store.old) (database_of (S.shows store.old).working)
        → HasChanged reading (S.shows store.old) (does.CreateTable table) reply (S.shows store.new)) }
    ensures refused { IfErr result (λ refusal. S.is_sound store.old → IsReserved refusal) }
    ensures accepted { IfOk result (λ reply. IfRefused reply (λ refusal. ⊥)) }
    ensures limits { IfErr result (TellsReached (ChangingReaches (S.counted store.new))) }
    ensures device { IfErr result (λ refusal. refusal ≡ Disk → HasRisen (S.refused store.old) (S.refused store.new)) }
    ensures same { OnErr result (SameButMark (S.shows store.old) (S.shows store.new)) }
    ensures goes { S.goes_on store.old store.new Going.changes }
{
    if let Some(_) = table_named(store.schema(), &table.name) {
        return Err(Refusal::Memory);
    }
    let declared = declared_table(alloc, table)?;
    if let Err(refusal) = begin(store) {
        return Err(refusal);
    }
    match store.create_table(declared) {
        Ok(()) => Ok(Reply::Done),
        Err(error) => Err(refusal_of(error)),
    }
}

/// The table as a store is given it.
fn declared_table(alloc: Global, table: CreateTable) -> Result<Table, AllocError>
    ensures name { IfOk result (λ t. t.name ≡ table.name) }
    ensures columns { IfOk result (λ t. t.columns ≡ table.columns) }
    ensures constraints { IfOk result (λ t. t.constraints ≡ table.constraints) }
    ensures indexes { IfOk result (λ t. map index_of t.indexes ≡ filter_map (λ k. owned_index k.rule) table.constraints) }
    ensures owners { IfOk result (λ t. AreOwned table.constraints t.indexes) }
{
    let CreateTable {
        name,
        columns,
        constraints,
    } = table;
    let indexes = owned_indexes(alloc, constraints.as_slice())?;
    Ok(Table {
        name,
        columns,
        constraints,
        indexes,
        root: 0,
    })
}

/// The indexes that PRIMARY KEY and UNIQUE own, each with the place of its constraint.
fn owned_indexes(alloc: Global, constraints: &[Constraint]) -> Result<Items<Index>, AllocError>
    ensures indexes { IfOk result (λ indexes. map index_of indexes ≡ filter_map (λ k. owned_index k.rule) constraints.now) }
    ensures owners { IfOk result (λ indexes. AreOwned constraints.now indexes) }
{
    let mut indexes = Items::new(alloc);
    for (place, constraint) in constraints.iter().enumerate() {
        if let Some(columns) = owned_columns(&constraint.rule) {
            indexes.push(Index {
                name: None,
                columns: copied(alloc, columns)?,
                owner: Some(place),
                root: 0,
            })?;
        }
    }
    Ok(indexes)
}

/// The columns of the index that a PRIMARY KEY or a UNIQUE owns.
fn owned_columns(rule: &Rule) -> Option<&[usize]>
    ensures { option_map (λ columns. key_index columns.now) result ≡ owned_index rule.now }
{
    key_columns(rule)
}

fn copied(alloc: Global, places: &[usize]) -> Result<Items<usize>, AllocError>
    ensures { IfOk result (λ copied. copied ≡ places.now) }
{
    let mut copied = Items::new(alloc);
    for place in places {
        copied.push(*place)?;
    }
    Ok(copied)
}
