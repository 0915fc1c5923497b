//! Lists of names.

ghost use Rattle.std.specs.Prelude.{◌≡◌, IfOk};
ghost use Rattle.typing.specs.Finds.{Finds};
ghost use Rattle.typing.specs.Table.{distinct_found};

use items::{Items, Text};
use lexer::Name;
use refusals::{Reason, Refusal};
use scopes::are_distinct;
use std::alloc::{AllocError, Global};

/// No name stands twice. `Duplicate` where one does.
pub fn distinct_names(alloc: Global, names: &[Name]) -> Result<(), Refusal>
    ensures { Finds result (distinct_found names.now) }
{
    let texts = texts_of(alloc, names)?;
    distinct_texts(texts.as_slice())
}

/// The same of names as texts.
pub fn distinct_texts(names: &[Text]) -> Result<(), Refusal>
    ensures { Finds result (distinct_found names.now) }
{
    if !are_distinct(names) {
        return Err(Refusal::Invalid(Reason::Duplicate));
    }
    Ok(())
}

fn texts_of(alloc: Global, names: &[Name]) -> Result<Items<Text>, AllocError>
    ensures { IfOk result (λ texts. texts ≡ names.now) }
{
    let mut texts = Items::with_capacity(alloc, names.len())?;
    for name in names {
        texts.push(name.as_text().copy(alloc)?)?;
    }
    Ok(texts)
}
