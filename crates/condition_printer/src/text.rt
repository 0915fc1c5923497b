//! The text of a whole condition.

ghost use Rattle.std.specs.Prelude.{◌≡◌, IfOk};
ghost use Rattle.typing.specs.Printed.{condition_tokens, printed};

use crate::writer::Writer;
use ast::Condition;
use items::Items;
use lexer::{Kind, print_kinds};
use std::alloc::{AllocError, Global};

/// The text of a condition: its tokens with one space between two, words and names in upper case.
/// Refuses for want of memory alone.
pub fn text_of_condition(alloc: Global, condition: &Condition) -> Result<Items<u8>, AllocError>
    ensures { IfOk result (λ text. text ≡ printed condition.now) }
{
    let kinds = tokens_of(alloc, condition)?;
    let text = print_kinds(alloc, kinds.as_slice())?;
    Ok(Items::from_vec(text))
}

fn tokens_of(alloc: Global, condition: &Condition) -> Result<Items<Kind>, AllocError>
    ensures { IfOk result (λ kinds. kinds ≡ condition_tokens condition.now) }
{
    let mut writer = Writer::new(alloc);
    writer.condition(condition)?;
    Ok(writer.into_kinds())
}
