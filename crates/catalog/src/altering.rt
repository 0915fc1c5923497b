//! A table of a schema exchanged for another of its name.
ghost use Rattle.std.specs.Prelude.{◌≡◌, ◌≤◌, ◌∷◌, ◌++◌, ℕ, List, IfOk, IfErr, OnOk};
ghost use Rattle.sqlval.specs.declared.schema.Table.{Table as AnyTable};
ghost use Rattle.btree.specs.Kept.{LosesNoPage};
ghost use Rattle.catalog_records.specs.Keepable.{IsTable};
ghost use Rattle.catalog_records.specs.References.{AreReferencesOver};
ghost use Rattle.catalog.specs.Held.{HoldsSchema};
ghost use Rattle.catalog.specs.Changed.{MayRefuse, SchemaWritten};
ghost use Rattle.catalog.specs.Left.{HoldsNoneWith};

use crate::adding::put_table;
use crate::error::ChangeError;
use crate::removing::take_table;
use page_space::PageSpace;
use sqlval::Table;
use std::alloc::Global;

/// Exchanges a table, as `read_schema` gave it, for another of its name in the schema that the tree
/// at a root holds, and answers the root: with an index more or without one, say, or with other
/// roots.
///
/// Refused as `add_table` of `catalog` is, and as damaged only where no schema with this table is
/// held there or the list of free pages is none.
pub fn alter_table<S: PageSpace>(
    space: &mut S,
    alloc: Global,
    root: u32,
    table: &Table,
    changed: &Table,
) -> Result<u32, ChangeError>
    ensures altered { (owned : List ℕ) (before behind : List AnyTable)
        → HoldsSchema (S.pages space.old) root owned (before ++ table.now ∷ behind) → changed.now.name ≡ table.now.name
        → AreReferencesOver (before ++ changed.now ∷ behind) → IsTable changed.now
        → IfOk result (SchemaWritten (S.pages space.old) (S.pages space.new) owned (before ++ changed.now ∷ behind)) }
    ensures keeps { IfOk result (LosesNoPage (S.pages space.old) (S.pages space.new) root) }
    ensures whole { OnOk result (S.is_whole space.old → S.is_whole space.new) }
    ensures refusal { IfErr result (MayRefuse (S.at_limit space.new) (HoldsNoneWith (S.pages space.old) root table.now (S.is_whole space.old)) (S.refused space.old) (S.refused space.new)) }
    ensures rising { S.refused space.old ≤ S.refused space.new }
    ensures follows { S.follows space.old space.new }
{
    let top = take_table(space, alloc, root, table)?;
    put_table(space, alloc, top, changed)
}
