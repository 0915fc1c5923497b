//! Places of columns as a text.
ghost use Rattle.std.specs.Prelude.{◌≡◌, ◌++◌, decimal, IfOk, OnOk};
ghost use Rattle.std.specs.List.{flat_map};
ghost use Rattle.catalog_records.specs.Places.{next_place, places_text};

use crate::error::WriteError;
use items::{Items, Text};
use itoa::Buffer;
use std::alloc::{AllocError, Global};

/// Puts a number in decimal at the end of a text.
fn put_decimal(text: &mut Vec<u8>, number: usize) -> Result<(), AllocError>
    ensures { OnOk result (text.new.items ≡ text.old.items ++ decimal number) }
{
    let mut buffer = Buffer::new();
    text.extend_from_slice(buffer.format(number).as_bytes())
}

/// The places as a text, whatever its length.
fn places_as_bytes(alloc: Global, places: &[usize]) -> Result<Vec<u8>, AllocError>
    ensures { IfOk result (λ text. text.items ≡ places_text places.now) }
{
    let mut text = Vec::new(alloc);
    if let Some((first, others)) = places.split_first() {
        put_decimal(&mut text, *first)?;
        put_others(&mut text, others)?;
    }
    Ok(text)
}

/// Puts the places that are not the first at the end of a text.
fn put_others(text: &mut Vec<u8>, places: &[usize]) -> Result<(), AllocError>
    ensures { OnOk result (text.new.items ≡ text.old.items ++ flat_map next_place places.now) }
{
    for place in places {
        text.push(b',')?;
        put_decimal(text, *place)?;
    }
    Ok(())
}

/// The places as a text.
pub(crate) fn text_of_places(alloc: Global, places: &[usize]) -> Result<Text, WriteError>
    ensures { IfOk result (λ text. text ≡ places_text places.now) }
{
    let codes = places_as_bytes(alloc, places)?;
    match Text::from_items(Items::from_vec(codes)) {
        Some(text) => Ok(text),
        None => Err(WriteError::TooLong),
    }
}
