//! Whole statements, and conditions alone.

ghost use Rattle.std.specs.Prelude.{IfOk};
ghost use Rattle.printer.specs.Printed.{AreConditionTokensOf, AreTokensOf, IsConditionTextOf, IsTextOf};

use crate::writer::{Part, Writer};
use ast::{Condition, Statement};
use items::Items;
use lexer::{Kind, print_kinds};
use std::alloc::{AllocError, Global};

/// The tokens of a statement, without a `;` after it. Refuses for want of memory alone.
pub fn print_tokens(alloc: Global, statement: &Statement) -> Result<Items<Kind>, AllocError>
    ensures { IfOk result (AreTokensOf statement.now) }
{
    let mut writer = Writer::new(alloc);
    statement.write(&mut writer)?;
    Ok(writer.into_kinds())
}

/// The tokens of a condition. Refuses for want of memory alone.
pub fn print_condition_tokens(
    alloc: Global,
    condition: &Condition,
) -> Result<Items<Kind>, AllocError>
    ensures { IfOk result (AreConditionTokensOf condition.now) }
{
    let mut writer = Writer::new(alloc);
    writer.condition(condition)?;
    Ok(writer.into_kinds())
}

/// The text of a statement: its tokens with one space between two, words in upper case, without a
/// `;` after it. Refuses for want of memory alone.
pub fn print(alloc: Global, statement: &Statement) -> Result<Items<u8>, AllocError>
    ensures { IfOk result (IsTextOf statement.now) }
{
    let kinds = print_tokens(alloc, statement)?;
    let text = print_kinds(alloc, kinds.as_slice())?;
    Ok(Items::from_vec(text))
}

/// The text of a condition: its tokens with one space between two, words in upper case.
/// Refuses for want of memory alone.
pub fn print_condition(alloc: Global, condition: &Condition) -> Result<Items<u8>, AllocError>
    ensures { IfOk result (IsConditionTextOf condition.now) }
{
    let kinds = print_condition_tokens(alloc, condition)?;
    let text = print_kinds(alloc, kinds.as_slice())?;
    Ok(Items::from_vec(text))
}
