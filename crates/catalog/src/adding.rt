//! Tables put into the schema that pages hold.
ghost use Rattle.std.specs.Prelude.{◌≡◌, ◌+◌, ◌≤◌, ◌∷◌, ◌++◌, ℕ, List, length, IfOk, IfErr, OnOk};
ghost use Rattle.sqlval.specs.declared.schema.Table.{Table as AnyTable};
ghost use Rattle.sqlrecord.specs.Storable.{AllStorable};
ghost use Rattle.sqlrecord.specs.Key.{key_code};
ghost use Rattle.sqlrecord.specs.Row.{row_code};
ghost use Rattle.btree_read.specs.declared.entry.Entry.{Entry};
ghost use Rattle.btree_read.specs.Sorted.{put};
ghost use Rattle.btree_read.specs.Tree.{IsTree};
ghost use Rattle.btree.specs.Overfull.{IsNoTreeIn};
ghost use Rattle.btree.specs.Written.{IsWritten};
ghost use Rattle.btree.specs.Kept.{LosesNoPage};
ghost use Rattle.catalog_records.specs.Records.{table_records, table_record as table_record_of};
ghost use Rattle.catalog_records.specs.Keepable.{IsTable};
ghost use Rattle.catalog_records.specs.References.{AreReferencesWith};
ghost use Rattle.catalog.specs.Held.{IsCoded, AreCoded, HoldsSchema};
ghost use Rattle.catalog.specs.Changed.{with_table, with_root, IsFree, put_all, SchemaWritten, MayRefuse, HoldsNoSchemaIn, IsOfRecord};

use crate::ChangeError;
use btree::insert;
use catalog_records::{Record, WriteError, records_of_table, table_record};
use items::{Items, Text};
use page_space::{PageSpace, SpaceError};
use sqlrecord::{EncodeError, MAXIMUM_KEY, encode_key, encode_row};
use sqlval::{Table, Value};
use std::alloc::Global;

/// The most bytes of a record's key and row together: with the cell's and the slot's own 6 bytes a
/// quarter of a page.
const MAXIMUM_RECORD: usize = 1008;

/// The code of a record's key.
fn code_of_key(alloc: Global, key: &[Value]) -> Result<Items<u8>, ChangeError>
    ensures code { IfOk result (λ code. code ≡ key_code key.now) }
    ensures storable { OnOk result (AllStorable key.now) }
    ensures short { IfOk result (λ code. length code ≤ 600) }
    ensures refusal { IfErr result IsOfRecord }
{
    match encode_key(alloc, key) {
        Ok(code) => {
            if code.len() > MAXIMUM_KEY {
                return Err(ChangeError::Key);
            }
            Ok(code)
        }
        Err(EncodeError::OutOfMemory) => Err(ChangeError::Space(SpaceError::Memory)),
        Err(_) => Err(ChangeError::Key),
    }
}

/// The code of a record's row.
fn code_of_row(alloc: Global, row: &[Value]) -> Result<Items<u8>, ChangeError>
    ensures code { IfOk result (λ code. code ≡ row_code row.now) }
    ensures storable { OnOk result (AllStorable row.now) }
    ensures short { IfOk result (λ code. length code ≤ 1000) }
    ensures refusal { IfErr result IsOfRecord }
{
    match encode_row(alloc, row) {
        Ok(code) => Ok(code),
        Err(EncodeError::OutOfMemory) => Err(ChangeError::Space(SpaceError::Memory)),
        Err(_) => Err(ChangeError::Record),
    }
}

/// Puts a record into the tree at a root, and answers the root.
fn put_record<S: PageSpace>(
    space: &mut S,
    alloc: Global,
    root: u32,
    r: &Record,
) -> Result<u32, ChangeError>
    ensures put { (owned : List ℕ) (entries : List Entry) → IsTree (S.pages space.old) root owned entries
        → IfOk result (IsWritten (S.pages space.old) (S.pages space.new) owned (put (key_code r.now.key) (row_code r.now.row) entries)) }
    ensures coded { OnOk result (IsCoded r.now) }
    ensures keeps { IfOk result (LosesNoPage (S.pages space.old) (S.pages space.new) root) }
    ensures whole { OnOk result (S.is_whole space.old → S.is_whole space.new) }
    ensures refusal { IfErr result (MayRefuse (S.at_limit space.new) (IsNoTreeIn (S.pages space.old) root (S.is_whole space.old)) (S.refused space.old) (S.refused space.new)) }
    ensures rising { S.refused space.old ≤ S.refused space.new }
    ensures follows { S.follows space.old space.new }
{
    let key = code_of_key(alloc, r.key.as_slice())?;
    let row = code_of_row(alloc, r.row.as_slice())?;
    if key.len() + row.len() > MAXIMUM_RECORD {
        return Err(ChangeError::Record);
    }
    match insert(space, alloc, root, key.as_slice(), row.as_slice()) {
        Ok(root) => Ok(root),
        Err(fault) => Err(ChangeError::Space(fault)),
    }
}

/// Puts records into the tree at a root, one after another, and answers the root.
fn put_records<S: PageSpace>(
    space: &mut S,
    alloc: Global,
    root: u32,
    records: &[Record],
) -> Result<u32, ChangeError>
    ensures put { (owned : List ℕ) (entries : List Entry) → IsTree (S.pages space.old) root owned entries
        → IfOk result (IsWritten (S.pages space.old) (S.pages space.new) owned (put_all records.now entries)) }
    ensures coded { OnOk result (AreCoded records.now) }
    ensures keeps { IfOk result (LosesNoPage (S.pages space.old) (S.pages space.new) root) }
    ensures whole { OnOk result (S.is_whole space.old → S.is_whole space.new) }
    ensures refusal { IfErr result (MayRefuse (S.at_limit space.new) (IsNoTreeIn (S.pages space.old) root (S.is_whole space.old)) (S.refused space.old) (S.refused space.new)) }
    ensures rising { S.refused space.old ≤ S.refused space.new }
    ensures follows { S.follows space.old space.new }
{
    let mut top = root;
    for r in records {
        top = put_record(space, alloc, top, r)?;
    }
    Ok(top)
}

/// The records of a table.
fn records_of(alloc: Global, table: &Table) -> Result<Items<Record>, ChangeError>
    ensures records { IfOk result (λ records. records ≡ table_records table.now) }
    ensures refusal { IfErr result IsOfRecord }
{
    match records_of_table(alloc, table) {
        Ok(records) => Ok(records),
        Err(WriteError::Memory) => Err(ChangeError::Space(SpaceError::Memory)),
        Err(WriteError::TooLong) => Err(ChangeError::Record),
    }
}

/// Puts the records of a table into the tree at a root, and answers the root.
pub(crate) fn put_table<S: PageSpace>(
    space: &mut S,
    alloc: Global,
    root: u32,
    table: &Table,
) -> Result<u32, ChangeError>
    ensures put { (owned : List ℕ) (entries : List Entry) → IsTree (S.pages space.old) root owned entries
        → IfOk result (IsWritten (S.pages space.old) (S.pages space.new) owned (put_all (table_records table.now) entries)) }
    ensures coded { OnOk result (AreCoded (table_records table.now)) }
    ensures keeps { IfOk result (LosesNoPage (S.pages space.old) (S.pages space.new) root) }
    ensures whole { OnOk result (S.is_whole space.old → S.is_whole space.new) }
    ensures refusal { IfErr result (MayRefuse (S.at_limit space.new) (IsNoTreeIn (S.pages space.old) root (S.is_whole space.old)) (S.refused space.old) (S.refused space.new)) }
    ensures rising { S.refused space.old ≤ S.refused space.new }
    ensures follows { S.follows space.old space.new }
{
    let records = records_of(alloc, table)?;
    put_records(space, alloc, root, records.as_slice())
}

/// Puts a table whose name is free, and whose foreign keys reference columns of it or of the others,
/// into the schema that the tree at a root holds, and answers the root; root 0 is the schema without
/// tables.
///
/// Refused for want of memory, where the device refuses a call, at the limits of pages, as damaged
/// only where no schema is held there or the list of free pages is none, and where one of the
/// table's records is too long. After a refusal nothing is said of the pages but what every call of
/// the space keeps.
pub fn add_table<S: PageSpace>(
    space: &mut S,
    alloc: Global,
    root: u32,
    table: &Table,
) -> Result<u32, ChangeError>
    ensures added { (owned : List ℕ) (tables : List AnyTable) → HoldsSchema (S.pages space.old) root owned tables
        → IsTable table.now → IsFree table.now.name tables → AreReferencesWith table.now tables
        → IfOk result (SchemaWritten (S.pages space.old) (S.pages space.new) owned (with_table table.now tables)) }
    ensures keeps { IfOk result (LosesNoPage (S.pages space.old) (S.pages space.new) root) }
    ensures whole { OnOk result (S.is_whole space.old → S.is_whole space.new) }
    ensures refusal { IfErr result (MayRefuse (S.at_limit space.new) (HoldsNoSchemaIn (S.pages space.old) root (S.is_whole space.old)) (S.refused space.old) (S.refused space.new)) }
    ensures rising { S.refused space.old ≤ S.refused space.new }
    ensures follows { S.follows space.old space.new }
{
    put_table(space, alloc, root, table)
}

/// Puts the root of a table's tree of rows into the schema that the tree at a root holds, and
/// answers the root.
///
/// Refused as `add_table` is.
pub fn set_root<S: PageSpace>(
    space: &mut S,
    alloc: Global,
    root: u32,
    name: &Text,
    rows: u32,
) -> Result<u32, ChangeError>
    ensures set { (owned : List ℕ) (before behind : List AnyTable) (table : AnyTable)
        → HoldsSchema (S.pages space.old) root owned (before ++ table ∷ behind) → table.name ≡ name.now
        → IfOk result (SchemaWritten (S.pages space.old) (S.pages space.new) owned (before ++ with_root rows table ∷ behind)) }
    ensures keeps { IfOk result (LosesNoPage (S.pages space.old) (S.pages space.new) root) }
    ensures whole { OnOk result (S.is_whole space.old → S.is_whole space.new) }
    ensures refusal { IfErr result (MayRefuse (S.at_limit space.new) (HoldsNoSchemaIn (S.pages space.old) root (S.is_whole space.old)) (S.refused space.old) (S.refused space.new)) }
    ensures rising { S.refused space.old ≤ S.refused space.new }
    ensures follows { S.follows space.old space.new }
{
    let r = record_of_table(alloc, name, rows)?;
    put_record(space, alloc, root, &r)
}

/// The record of a table's name and root.
fn record_of_table(alloc: Global, name: &Text, root: u32) -> Result<Record, ChangeError>
    ensures made { IfOk result (λ made. made ≡ table_record_of name.now root) }
    ensures refusal { IfErr result IsOfRecord }
{
    match table_record(alloc, name, root) {
        Ok(made) => Ok(made),
        Err(WriteError::Memory) => Err(ChangeError::Space(SpaceError::Memory)),
        Err(WriteError::TooLong) => Err(ChangeError::Record),
    }
}
