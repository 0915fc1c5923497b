//! Rows taken off lists, and lists that are kept.
ghost use Rattle.std.specs.Prelude.{◌≡◌, ◌++◌, ◌∷◌, [], true, IfOk, IfErr, MatchOption};
ghost use Rattle.std.specs.Vec.Iter.{into_iter_items};
ghost use Rattle.algebra.specs.declared.tree.Tree.{Tree};
ghost use Rattle.places.specs.declared.place.Place.TheVariants.{Ended};
ghost use Rattle.places.specs.Left.{Entries, before, left};
ghost use Rattle.places.specs.Views.{is_whole};

use crate::place::Place;
use denote::{Fault, Row, Rows};
use items::Items;
use std::alloc::{AllocError, Global};
use std::vec::IntoIter;

/// The first row of a list, which is taken off it.
pub fn first_row(rows: &mut IntoIter<Row>) -> Option<Row>
    ensures { MatchOption result ((into_iter_items rows.old ≡ []) × (into_iter_items rows.new ≡ []))
        (λ row. into_iter_items rows.old ≡ row ∷ into_iter_items rows.new) }
{
    match rows.next() {
        Some(row) => Some(row),
        None => None,
    }
}

/// A row and the next ones of a list, so many in all where there are as many.
fn taken(
    alloc: Global,
    first: Row,
    rows: &mut IntoIter<Row>,
    most: usize,
) -> Result<Rows, AllocError>
    ensures { IfOk result (λ found. found ++ into_iter_items rows.new ≡ first ∷ into_iter_items rows.old) }
{
    let mut found = Items::new(alloc);
    found.push(first)?;
    for _ in 1..most {
        match first_row(rows) {
            Some(row) => found.push(row)?,
            None => return Ok(found),
        }
    }
    Ok(found)
}

/// The place where no row is left.
fn end_at(place: &mut Place, fault: Option<Fault>)
    ensures { place.new ≡ Ended fault }
{
    *place = Place::Ended(fault);
}

/// The next rows of a list that is kept, at most so many and at least one where one is left; then
/// the list has ended. Refuses for want of memory alone.
#[tactic(auto, using(crate::proofs::Wholes::wholes))]
pub fn kept_rows(alloc: Global, place: &mut Place, most: usize) -> Result<Rows, AllocError>
    ensures rows { (entries : Entries) (tree : Tree) → is_whole place.old ≡ true
        → IfOk result (λ rows. before rows (left entries place.new tree) ≡ left entries place.old tree) }
    ensures kept { is_whole place.old ≡ true → IfOk result (λ _. is_whole place.new ≡ true) }
{
    match place {
        Place::Kept(rows, fault) => match first_row(rows) {
            Some(first) => taken(alloc, first, rows, most),
            None => {
                let fault = fault.take();
                end_at(place, fault);
                Ok(Items::new(alloc))
            }
        },
        Place::Ended(_) => Ok(Items::new(alloc)),
        Place::Start => Ok(Items::new(alloc)),
        Place::After(_) => Ok(Items::new(alloc)),
        Place::Beyond(_) => Ok(Items::new(alloc)),
        Place::Through(_) => Ok(Items::new(alloc)),
        Place::Among(_, _) => Ok(Items::new(alloc)),
        Place::Seen(_, _) => Ok(Items::new(alloc)),
        Place::Testing(_) => Ok(Items::new(alloc)),
        Place::Pairs { .. } => Ok(Items::new(alloc)),
        Place::Keyed { .. } => Ok(Items::new(alloc)),
    }
}
