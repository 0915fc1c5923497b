//! The records of a table taken out of a schema.
ghost use Rattle.std.specs.Prelude.{◌≡◌, ◌≤◌, ◌∷◌, ◌++◌, ℕ, false, List, IfOk, IfErr, OnOk};
ghost use Rattle.sqlval.specs.declared.schema.Table.{Table as AnyTable};
ghost use Rattle.sqlrecord.specs.Key.{key_code};
ghost use Rattle.btree_read.specs.declared.entry.Entry.{Entry};
ghost use Rattle.btree_read.specs.Tree.{IsTree};
ghost use Rattle.btree.specs.Overfull.{IsNoTreeIn};
ghost use Rattle.btree.specs.Kept.{LosesNoPage};
ghost use Rattle.catalog_records.specs.Records.{table_records};
ghost use Rattle.catalog_records.specs.References.{is_referenced};
ghost use Rattle.catalog.specs.Held.{HoldsSchema, entries_of};
ghost use Rattle.catalog.specs.Changed.{MayRefuse, HoldsNoSchemaIn, IsOfRecord};
ghost use Rattle.catalog.specs.Left.{EntriesLeft, HasTree, SchemaLeft};

use crate::error::ChangeError;
use btree_remove::remove;
use catalog_records::{Record, WriteError, records_of_table};
use items::Items;
use page_space::{PageSpace, SpaceError};
use sqlrecord::{EncodeError, encode_key};
use sqlval::{Table, Value};
use std::alloc::Global;

/// The code of a record's key.
fn code_of_key(alloc: Global, key: &[Value]) -> Result<Items<u8>, ChangeError>
    ensures code { IfOk result (λ code. code ≡ key_code key.now) }
    ensures refusal { IfErr result IsOfRecord }
{
    match encode_key(alloc, key) {
        Ok(code) => Ok(code),
        Err(EncodeError::OutOfMemory) => Err(ChangeError::Space(SpaceError::Memory)),
        Err(_) => Err(ChangeError::Key),
    }
}

/// Takes a record out of the tree at a root, and answers the root; where it is not there, all
/// stays.
fn remove_record<S: PageSpace>(
    space: &mut S,
    alloc: Global,
    root: u32,
    r: &Record,
) -> Result<u32, ChangeError>
    ensures removed { (owned : List ℕ) (before behind : List Entry) (value : List ℕ)
        → IsTree (S.pages space.old) root owned (before ++ record { key = key_code r.now.key; value = value } ∷ behind)
        → IfOk result (EntriesLeft (S.pages space.old) (S.pages space.new) owned (before ++ behind)) }
    ensures tree { HasTree (S.pages space.old) root → IfOk result (HasTree (S.pages space.new)) }
    ensures keeps { IfOk result (LosesNoPage (S.pages space.old) (S.pages space.new) root) }
    ensures whole { OnOk result (S.is_whole space.old → S.is_whole space.new) }
    ensures refusal { IfErr result (MayRefuse (S.at_limit space.new) (IsNoTreeIn (S.pages space.old) root (S.is_whole space.old)) (S.refused space.old) (S.refused space.new)) }
    ensures rising { S.refused space.old ≤ S.refused space.new }
    ensures follows { S.follows space.old space.new }
{
    let key = code_of_key(alloc, r.key.as_slice())?;
    match remove(space, alloc, root, key.as_slice()) {
        Ok(Some(top)) => Ok(top),
        Ok(None) => Ok(root),
        Err(fault) => Err(ChangeError::Space(fault)),
    }
}

/// Takes records out of the tree at a root, one after another, and answers the root.
fn remove_records<S: PageSpace>(
    space: &mut S,
    alloc: Global,
    root: u32,
    records: &[Record],
) -> Result<u32, ChangeError>
    ensures removed { (owned : List ℕ) (before behind : List Entry)
        → IsTree (S.pages space.old) root owned (before ++ (entries_of records.now ++ behind))
        → IfOk result (EntriesLeft (S.pages space.old) (S.pages space.new) owned (before ++ behind)) }
    ensures keeps { IfOk result (LosesNoPage (S.pages space.old) (S.pages space.new) root) }
    ensures whole { OnOk result (S.is_whole space.old → S.is_whole space.new) }
    ensures refusal { IfErr result (MayRefuse (S.at_limit space.new) (IsNoTreeIn (S.pages space.old) root (S.is_whole space.old)) (S.refused space.old) (S.refused space.new)) }
    ensures rising { S.refused space.old ≤ S.refused space.new }
    ensures follows { S.follows space.old space.new }
{
    let mut top = root;
    for r in records {
        top = remove_record(space, alloc, top, r)?;
    }
    Ok(top)
}

/// The records of a table.
fn records_of(alloc: Global, table: &Table) -> Result<Items<Record>, ChangeError>
    ensures records { IfOk result (λ records. records ≡ table_records table.now) }
    ensures refusal { IfErr result IsOfRecord }
{
    match records_of_table(alloc, table) {
        Ok(records) => Ok(records),
        Err(WriteError::Memory) => Err(ChangeError::Space(SpaceError::Memory)),
        Err(WriteError::TooLong) => Err(ChangeError::Record),
    }
}

/// Takes the records of a table out of the tree at a root, and answers the root.
pub(crate) fn take_table<S: PageSpace>(
    space: &mut S,
    alloc: Global,
    root: u32,
    table: &Table,
) -> Result<u32, ChangeError>
    ensures taken { (owned : List ℕ) (before behind : List Entry)
        → IsTree (S.pages space.old) root owned (before ++ (entries_of (table_records table.now) ++ behind))
        → IfOk result (EntriesLeft (S.pages space.old) (S.pages space.new) owned (before ++ behind)) }
    ensures keeps { IfOk result (LosesNoPage (S.pages space.old) (S.pages space.new) root) }
    ensures whole { OnOk result (S.is_whole space.old → S.is_whole space.new) }
    ensures refusal { IfErr result (MayRefuse (S.at_limit space.new) (IsNoTreeIn (S.pages space.old) root (S.is_whole space.old)) (S.refused space.old) (S.refused space.new)) }
    ensures rising { S.refused space.old ≤ S.refused space.new }
    ensures follows { S.follows space.old space.new }
{
    let records = records_of(alloc, table)?;
    remove_records(space, alloc, root, records.as_slice())
}

/// Takes a table, as `read_schema` gave it, which no other one references, out of the schema that
/// the tree at a root holds, and answers the root; 0 where that was its only one. The trees of its
/// rows and indexes stay as they are.
///
/// Refused as `add_table` of `catalog` is.
pub fn drop_table<S: PageSpace>(
    space: &mut S,
    alloc: Global,
    root: u32,
    table: &Table,
) -> Result<u32, ChangeError>
    ensures dropped { (owned : List ℕ) (before behind : List AnyTable)
        → HoldsSchema (S.pages space.old) root owned (before ++ table.now ∷ behind)
        → is_referenced table.now.name (before ++ table.now ∷ behind) ≡ false
        → IfOk result (SchemaLeft (S.pages space.old) (S.pages space.new) owned (before ++ behind)) }
    ensures keeps { IfOk result (LosesNoPage (S.pages space.old) (S.pages space.new) root) }
    ensures whole { OnOk result (S.is_whole space.old → S.is_whole space.new) }
    ensures refusal { IfErr result (MayRefuse (S.at_limit space.new) (HoldsNoSchemaIn (S.pages space.old) root (S.is_whole space.old)) (S.refused space.old) (S.refused space.new)) }
    ensures rising { S.refused space.old ≤ S.refused space.new }
    ensures follows { S.follows space.old space.new }
{
    take_table(space, alloc, root, table)
}
