//! Which column a name means.

ghost use Rattle.std.specs.Prelude.{◌≡◌, ◌==◌, Ok, IfOk, IfErr};
ghost use Rattle.std.specs.List.{position_from};
ghost use Rattle.std.specs.Option.{option_copied};
ghost use Rattle.typing.specs.Finding.{reasons_in};
ghost use Rattle.typing.specs.Finds.{Finds, IsReasonOf};
ghost use Rattle.typing.specs.Scope.{as_matches, column_at, has_table, is_meant, located_from, meant, own_column, seen_in};
ghost use Rattle.typing.specs.SetFunction.{column_seen};
ghost use Rattle.scopes.specs.Seen.{clause_of, frames, located_of, scope_of};

use crate::names::is_among;
use crate::view::{Clause, Scope, View};
use ast::Column;
use items::Items;
use lexer::Name;
use refusals::{Reason, Refusal};
use typing::{Expression, Found, Frame, Matches, Offer, TypedExpression};

/// A column that is found: how many SELECTs outwards, in which FROM, with which grouping columns,
/// and which of its columns.
#[derive(Clone, Copy)]
struct Located<'a> {
    depth: usize,
    frame: &'a Frame,
    key: Option<&'a Items<usize>>,
    column: Found,
}

/// The column that a name means.
pub fn column(view: &View, name: &Column) -> Result<TypedExpression, Refusal>
    ensures { Finds result (column_seen (clause_of view.now) name.now (scope_of view.now)) }
{
    if view.clause == Clause::Argument {
        let found = own_column(view.scope, name)?;
        return Ok(column_at(0, found));
    }
    let located = locate(view.scope, name, 0)?;
    seen_in(located.key, located.depth, located.column)
}

/// The column of the innermost FROM that a name means, which no other may be.
pub fn own_column(scope: &Scope, name: &Column) -> Result<Found, Refusal>
    ensures { Finds result (own_column name.now (frames scope.now)) }
{
    let located = locate(scope, name, 0)?;
    if located.depth > 0 {
        return Err(Refusal::Invalid(Reason::Grouping));
    }
    Ok(located.column)
}

/// Where the column stands: in the innermost FROM that has it, or has the table that is named.
fn locate<'a>(scope: &'a Scope<'a>, name: &Column, depth: usize) -> Result<Located<'a>, Refusal>
    ensures ok { IfOk result (λ l. located_from depth name.now (frames scope.now) ≡ Ok (located_of l)) }
    ensures err { IfErr result (IsReasonOf (reasons_in (located_from depth name.now (frames scope.now)))) }
{
    let Scope::Inside(frame, key, outer) = scope else {
        return Err(Refusal::Invalid(Reason::Name));
    };
    match matches_in(frame.columns.as_slice(), name) {
        Matches::One(column) => Ok(Located {
            depth,
            frame,
            key: *key,
            column,
        }),
        Matches::Several => Err(Refusal::Invalid(Reason::Ambiguous)),
        Matches::Nothing => {
            if has_table(frame, &name.table) {
                return Err(Refusal::Invalid(Reason::Name));
            }
            let Some(depth) = depth.checked_add(1) else {
                return Err(Refusal::Memory);
            };
            locate(outer, name, depth)
        }
    }
}

/// Whether the FROM has the table that is named before a column.
fn has_table(frame: &Frame, table: &Option<Name>) -> bool
    ensures { result ≡ has_table table.now frame.now }
{
    match table {
        Some(table) => is_among(frame.tables.as_slice(), table.as_text()),
        None => false,
    }
}

fn matches_in(offers: &[Offer], name: &Column) -> Matches
    ensures { result ≡ as_matches (meant name.now 0 offers.now) }
{
    let mut first = None;
    for (place, offer) in offers.iter().enumerate() {
        if is_meant_by(offer, name) {
            if first.is_some() {
                return Matches::Several;
            }
            first = Some(Found {
                place,
                value_type: offer.value_type,
            });
        }
    }
    match first {
        Some(found) => Matches::One(found),
        None => Matches::Nothing,
    }
}

fn is_meant_by(offer: &Offer, name: &Column) -> bool
    ensures { result ≡ is_meant name.now offer.now }
{
    let is_of_table = match &name.table {
        Some(table) => offer.table.as_slice() == table.as_text().as_slice(),
        None => true,
    };
    match &offer.name {
        Some(own) => is_of_table && own.as_slice() == name.name.as_text().as_slice(),
        None => false,
    }
}

/// Where the value of a column stands: in the row of FROM, or in the row that begins with the
/// grouping columns, of which it must be one.
pub fn seen_in(
    key: Option<&Items<usize>>,
    depth: usize,
    column: Found,
) -> Result<TypedExpression, Refusal>
    ensures { Finds result (seen_in (option_copied key.entry) depth column) }
{
    let Some(key) = key else {
        return Ok(column_at(depth, column));
    };
    match place_in_key(key.as_slice(), column.place) {
        Some(place) => Ok(column_at(
            depth,
            Found {
                place,
                value_type: column.value_type,
            },
        )),
        None => Err(Refusal::Invalid(Reason::Grouping)),
    }
}

fn place_in_key(key: &[usize], wanted: usize) -> Option<usize>
    ensures { result ≡ position_from (λ place. place == wanted) 0 key.now }
{
    for (at, place) in key.iter().enumerate() {
        if *place == wanted {
            return Some(at);
        }
    }
    None
}

fn column_at(depth: usize, column: Found) -> TypedExpression
    ensures { result ≡ column_at column.value_type depth column.place }
{
    TypedExpression {
        expression: Expression::Column {
            depth,
            place: column.place,
        },
        value_type: column.value_type,
    }
}
