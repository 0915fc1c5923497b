//! Tables of a FROM, and joins.

ghost use Rattle.std.specs.Prelude.{◌≡◌, [], ◌∷◌, map, Ok, IfOk, IfErr};
ghost use Rattle.typing.specs.Finding.{Finding, reasons_in};
ghost use Rattle.typing.specs.Finds.{Finds, IsReasonOf};
ghost use Rattle.typing.specs.From.{from_found, inner_join, left_join, result_offer, shown_name, stored_table};
ghost use Rattle.typing.specs.Known.{known, known_table};
ghost use Rattle.typing.specs.Scope.{Scope as Frames};
ghost use Rattle.typing.specs.Table.{frame_of, offer_of, table_found, type_in};
ghost use Rattle.type_rules.specs.Tables.{CrossedFinds, DerivedFinds, join_sides, product, side_by_side, stored_columns};

use crate::findings::both;
use ast::Alias;
use items::{Boxed, Items, Text};
use lexer::Name;
use refusals::{Reason, Refusal};
use sqlval::{Column, ColumnType, Schema, Table, ValueType};
use std::alloc::{AllocError, Global};
use typing::{Frame, Offer, ResultColumn, Sides, Source, TypedFrom, TypedQuery};

/// The stored table of a name.
pub fn table_named<'a>(schema: &'a Schema, name: &Text) -> Result<&'a Table, Refusal>
    ensures ok { IfOk result (λ table. table_found (known schema.now) name.now ≡ Ok (known_table table.now)) }
    ensures err { IfErr result (IsReasonOf (reasons_in (table_found (known schema.now) name.now))) }
{
    let Some(place) = schema.find_table(name.as_slice()) else {
        return Err(Refusal::Invalid(Reason::Name));
    };
    match schema.tables.get(place) {
        Some(table) => Ok(table),
        None => Err(Refusal::Invalid(Reason::Name)),
    }
}

/// A stored table, under its alias if it has one.
pub fn stored(
    alloc: Global,
    schema: &Schema,
    name: &Name,
    alias: &Option<Alias>,
) -> Result<TypedFrom, Refusal>
    ensures { (outer : Frames)
        → Finds result (from_found (stored_table (stored_columns (known schema.now)) name.now (shown_name name.now alias.now)) outer) }
{
    let table = table_named(schema, name.as_text())?;
    let frame = frame_of(alloc, shown_name(name, alias), table)?;
    Ok(TypedFrom {
        frame,
        source: Source::Table(name.as_text().copy(alloc)?),
    })
}

/// The name that a table has in a FROM.
pub fn shown_name<'a>(name: &'a Name, alias: &'a Option<Alias>) -> &'a Text
    ensures { result.now ≡ shown_name name.now alias.now }
{
    match alias {
        Some(alias) => alias.name.as_text(),
        None => name.as_text(),
    }
}

/// What a FROM of one stored table offers under the name that the table has there.
pub fn frame_of(alloc: Global, shown: &Text, table: &Table) -> Result<Frame, AllocError>
    ensures { IfOk result (λ frame. frame ≡ frame_of shown.now table.now.columns) }
{
    let tables = only(alloc, shown)?;
    Ok(Frame {
        tables,
        columns: offers_of(alloc, shown, table.columns.as_slice())?,
        key: None,
    })
}

fn only(alloc: Global, name: &Text) -> Result<Items<Text>, AllocError>
    ensures { IfOk result (λ names. names ≡ name.now ∷ []) }
{
    let mut names = Items::with_capacity(alloc, 1)?;
    names.push(name.copy(alloc)?)?;
    Ok(names)
}

fn offers_of(alloc: Global, shown: &Text, columns: &[Column]) -> Result<Items<Offer>, AllocError>
    ensures { IfOk result (λ offers. offers ≡ map (offer_of shown.now) columns.now) }
{
    let mut offers = Items::with_capacity(alloc, columns.len())?;
    for column in columns {
        offers.push(offer_of(alloc, shown, column)?)?;
    }
    Ok(offers)
}

fn offer_of(alloc: Global, shown: &Text, column: &Column) -> Result<Offer, AllocError>
    ensures { IfOk result (λ offer. offer ≡ offer_of shown.now column.now) }
{
    let table = shown.copy(alloc)?;
    Ok(Offer {
        table,
        name: Some(column.name.copy(alloc)?),
        value_type: value_type_of(column.column_type),
    })
}

/// The type of a column's values.
pub fn value_type_of(column: ColumnType) -> ValueType
    ensures { result ≡ type_in column }
{
    match column {
        ColumnType::Integer => ValueType::Integer,
        ColumnType::Varchar(_) => ValueType::Text,
    }
}

/// A derived table, under its name.
pub fn derived(
    alloc: Global,
    query: Result<TypedQuery, Refusal>,
    shown: &Text,
) -> Result<TypedFrom, Refusal>
    ensures { DerivedFinds query result shown.now }
{
    let TypedQuery { query, columns } = query?;
    let tables = only(alloc, shown)?;
    let frame = Frame {
        tables,
        columns: result_offers(alloc, shown, columns.as_slice())?,
        key: None,
    };
    let source = Source::Derived(Boxed::new(alloc, query)?);
    Ok(TypedFrom { frame, source })
}

fn result_offers(
    alloc: Global,
    shown: &Text,
    columns: &[ResultColumn],
) -> Result<Items<Offer>, AllocError>
    ensures { IfOk result (λ offers. offers ≡ map (result_offer shown.now) columns.now) }
{
    let mut offers = Items::with_capacity(alloc, columns.len())?;
    for column in columns {
        offers.push(result_offer(alloc, shown, column)?)?;
    }
    Ok(offers)
}

fn result_offer(alloc: Global, shown: &Text, column: &ResultColumn) -> Result<Offer, AllocError>
    ensures { IfOk result (λ offer. offer ≡ result_offer shown.now column.now) }
{
    let table = shown.copy(alloc)?;
    let name = match &column.name {
        Some(name) => Some(name.copy(alloc)?),
        None => None,
    };
    Ok(Offer {
        table,
        name,
        value_type: column.value_type,
    })
}

/// `,` and CROSS JOIN.
pub fn crossed(
    alloc: Global,
    left: Result<TypedFrom, Refusal>,
    right: Result<TypedFrom, Refusal>,
) -> Result<TypedFrom, Refusal>
    ensures { CrossedFinds left right result }
{
    product(alloc, both(left, right))
}

#[tactic(auto, using(crate::proofs::FindsLemmas::part_steps))]
fn product(
    alloc: Global,
    sides: Result<(TypedFrom, TypedFrom), Refusal>,
) -> Result<TypedFrom, Refusal>
    ensures { (p : Finding (TypedFrom × TypedFrom)) → Finds sides p → Finds result (product p) }
{
    let (left, right) = sides?;
    let source = Source::Product(
        Boxed::new(alloc, left.source)?,
        Boxed::new(alloc, right.source)?,
    );
    let frame = side_by_side(left.frame, right.frame)?;
    Ok(TypedFrom { frame, source })
}

/// The tables and columns of the left side and then those of the right one.
pub fn side_by_side(left: Frame, right: Frame) -> Result<Frame, AllocError>
    ensures { IfOk result (λ frame. frame ≡ side_by_side left right) }
{
    let Frame {
        mut tables,
        mut columns,
        key: _,
    } = left;
    tables.append(right.tables)?;
    columns.append(right.columns)?;
    Ok(Frame {
        tables,
        columns,
        key: None,
    })
}

/// Both sides of a join, before its ON is looked at: what ON sees, and what gives their rows.
#[derive(Drop)]
pub struct Joined {
    pub frame: Frame,
    pub left: Source,
    pub right: Source,
    pub right_width: usize,
}

/// The sides of a join put together.
#[tactic(auto, using(crate::proofs::FindsLemmas::part_steps))]
pub fn join_sides(sides: Result<(TypedFrom, TypedFrom), Refusal>) -> Result<Joined, Refusal>
    ensures { (p : Finding (TypedFrom × TypedFrom)) → Finds sides p → Finds result (join_sides p) }
{
    let (left, right) = sides?;
    let right_width = right.frame.columns.len();
    let frame = side_by_side(left.frame, right.frame)?;
    Ok(Joined {
        frame,
        left: left.source,
        right: right.source,
        right_width,
    })
}

/// INNER JOIN.
pub fn inner(alloc: Global, sides: Sides) -> Result<Source, AllocError>
    ensures { IfOk result (λ source. source ≡ inner_join sides) }
{
    let on = Boxed::new(alloc, sides.on)?;
    let left = Boxed::new(alloc, sides.left)?;
    Ok(Source::Inner(on, left, Boxed::new(alloc, sides.right)?))
}

/// LEFT JOIN.
pub fn left(alloc: Global, sides: Sides) -> Result<Source, AllocError>
    ensures { IfOk result (λ source. source ≡ left_join sides) }
{
    let on = Boxed::new(alloc, sides.on)?;
    let left = Boxed::new(alloc, sides.left)?;
    Ok(Source::Left {
        on,
        left,
        right: Boxed::new(alloc, sides.right)?,
        width: sides.right_width,
    })
}
