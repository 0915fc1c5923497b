//! Places of columns, read from a text.
ghost use Rattle.std.specs.Prelude.{◌≡◌, ◌++◌, ◌<◌, ◌^◌, ℕ, List, decimal, IfOk};
ghost use Rattle.std.specs.List.{flat_map};
ghost use Rattle.catalog_records.specs.Places.{next_place, places_text};
ghost use Rattle.catalog_records.specs.Given.{Gives, GivesFront};
ghost use Rattle.catalog_records.specs.Keepable.{ArePlaces};
ghost use Rattle.catalog_records.specs.Cuts.{IsCut, IsAtComma};

use crate::numbers::number_of;
use crate::read_error::ReadError;
use items::Items;
use std::alloc::Global;

/// What stands before the first comma, and the rest from that comma on.
fn cut_at_comma(text: &[u8]) -> (&[u8], &[u8])
    ensures { IsCut text.now result.0.now result.1.now }
{
    for (at, code) in text.iter().enumerate() {
        if *code == b',' {
            return text.split_at(at);
        }
    }
    (text, &[])
}

/// The number before the first comma, and the rest from that comma on.
fn first_place(text: &[u8]) -> Result<(usize, &[u8]), ReadError>
    ensures sound { IfOk result (λ given. decimal given.0 ++ given.1.now ≡ text.now) }
    ensures kept { IfOk result (λ given. given.0 < 2 ^ 64) }
    ensures again { (place : ℕ) (rest : List ℕ) → place < 2 ^ 64 → IsAtComma rest → decimal place ++ rest ≡ text.now
        → GivesFront result place rest }
{
    let (digits, rest) = cut_at_comma(text);
    match number_of(digits) {
        Some(place) => Ok((place, rest)),
        None => Err(ReadError::Damaged),
    }
}

/// The places of a text in which each stands behind a comma.
fn next_places(alloc: Global, text: &[u8]) -> Result<Items<usize>, ReadError>
    ensures sound { IfOk result (λ places. flat_map next_place places ≡ text.now) }
    ensures kept { IfOk result ArePlaces }
    ensures again { (places : List ℕ) → ArePlaces places → flat_map next_place places ≡ text.now → Gives result places }
{
    let mut places = Items::new(alloc);
    let mut rest = text;
    while let Some((comma, behind)) = rest.split_first() {
        if *comma != b',' {
            return Err(ReadError::Damaged);
        }
        let (place, others) = first_place(behind)?;
        places.push(place)?;
        rest = others;
    }
    Ok(places)
}

/// The places of a text.
///
/// Refused for want of memory, and as damaged just where it is the text of no places.
pub(crate) fn places_of_text(alloc: Global, text: &[u8]) -> Result<Items<usize>, ReadError>
    ensures sound { IfOk result (λ places. places_text places ≡ text.now) }
    ensures kept { IfOk result ArePlaces }
    ensures again { (places : List ℕ) → ArePlaces places → places_text places ≡ text.now → Gives result places }
{
    let mut places = Items::new(alloc);
    if text.is_empty() {
        return Ok(places);
    }
    let (place, rest) = first_place(text)?;
    places.push(place)?;
    places.append(next_places(alloc, rest)?)?;
    Ok(places)
}
