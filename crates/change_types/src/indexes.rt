//! CREATE INDEX.

ghost use Rattle.std.specs.Prelude.{◌≡◌, List, length, map};
ghost use Rattle.refusals.specs.declared.limit.Limit.TheVariants as limit;
ghost use Rattle.typing.specs.Finding.{Finding};
ghost use Rattle.typing.specs.Finds.{Finds};
ghost use Rattle.typing.specs.Index.{index_found, room_for_one};
ghost use Rattle.typing.specs.Known.{has_index, known, known_table};
ghost use Rattle.typing.specs.Table.{at_most, is_new, places_named};
ghost use Rattle.change_types.specs.Parts.{IndexParts, index_of, place_named, places_in};

use crate::drops::has_index;
use crate::names::distinct_names;
use items::{Items, Text};
use lexer::Name;
use refusals::{Limit, Reason, Refusal};
use sqlval::{Schema, Table};
use std::alloc::Global;
use type_rules::{both, table_named};
use typing::CreateIndex;

/// The greatest number of columns of an index.
const MAXIMUM_KEY_COLUMNS: usize = 4;

/// The greatest number of indexes of a table.
const MAXIMUM_INDEXES: usize = 8;

/// What a CREATE INDEX stands for over a schema.
///
/// Refused by a reason of names, or a limit of columns or indexes, that holds of it; where several
/// hold, by any of these. Refuses for want of memory too.
pub fn typed_create_index(
    alloc: Global,
    tree: &ast::CreateIndex,
    schema: &Schema,
) -> Result<CreateIndex, Refusal>
    ensures { Finds result (index_found (known schema.now) tree.now) }
{
    let columns = tree.columns.as_slice();
    let key = both(few_columns(columns), distinct_names(alloc, columns));
    let name = both(new_index(schema, tree.index.as_text()), key);
    let places = places_in(alloc, schema, &tree.table, columns);
    index_of(alloc, &tree.index, &tree.table, both(name, places))
}

fn index_of(
    alloc: Global,
    name: &Name,
    table: &Name,
    parts: Result<(((), ((), ())), ((), Items<usize>)), Refusal>,
) -> Result<CreateIndex, Refusal>
    ensures { (x : Finding IndexParts) → Finds parts x → Finds result (index_of name.now table.now x) }
{
    let (_, (_, columns)) = parts?;
    Ok(CreateIndex {
        name: name.as_text().copy(alloc)?,
        table: table.as_text().copy(alloc)?,
        columns,
    })
}

fn new_index(schema: &Schema, name: &Text) -> Result<(), Refusal>
    ensures { Finds result (is_new (has_index schema.now name.now)) }
{
    if has_index(schema, name) {
        return Err(Refusal::Invalid(Reason::Duplicate));
    }
    Ok(())
}

fn few_columns(names: &[Name]) -> Result<(), Refusal>
    ensures { Finds result (at_most 4 limit.KeyColumns (length names.now)) }
{
    if names.len() > MAXIMUM_KEY_COLUMNS {
        return Err(Refusal::Exceeded(Limit::KeyColumns));
    }
    Ok(())
}

/// The places of the columns in the table, which must have room for an index.
fn places_in(
    alloc: Global,
    schema: &Schema,
    table: &Name,
    columns: &[Name],
) -> Result<((), Items<usize>), Refusal>
    ensures { Finds result (places_in (known schema.now) table.now columns.now) }
{
    let table = table_named(schema, table.as_text())?;
    both(room_for_one(table), places_named(alloc, table, columns))
}

fn room_for_one(table: &Table) -> Result<(), Refusal>
    ensures { Finds result (room_for_one (known_table table.now)) }
{
    if table.indexes.len() >= MAXIMUM_INDEXES {
        return Err(Refusal::Exceeded(Limit::Indexes));
    }
    Ok(())
}

fn places_named(alloc: Global, table: &Table, names: &[Name]) -> Result<Items<usize>, Refusal>
    ensures { Finds result (places_named table.now.columns names.now) }
{
    let mut places = Items::new(alloc);
    for name in names {
        places.push(place_named(table, name)?)?;
    }
    Ok(places)
}

fn place_named(table: &Table, name: &Name) -> Result<usize, Refusal>
    ensures { Finds result (place_named table.now.columns name.now) }
{
    match table.find_column(name.as_text().as_slice()) {
        Some(place) => Ok(place),
        None => Err(Refusal::Invalid(Reason::Name)),
    }
}
