//! A statement that is printed and read again is the statement that it was.
#![tactic(auto)]

ghost use Rattle.std.specs.Prelude.{◌≡◌, Some, Ok, Err, MatchResult};
ghost use Rattle.refusals.specs.declared.refusal.Refusal.TheVariants.{Memory};
ghost use Rattle.ast.specs.Grammar.{IsText};
ghost use Rattle.ast.specs.Nesting.{IsNestedWithin};
ghost use Rattle.ast.specs.Notation.{Tokens};
ghost use Rattle.ast.specs.Parts.{StandsIn};
ghost use Rattle.lexer.specs.Token.{Bytes};
ghost use Rattle.printer.specs.Printed.{BeginsWithCondition, IsConditionTextOf, IsTextOf};
ghost use Rattle.round_trip.specs.ReadAs.{IsReadAs, IsReadAsCondition};

use ast::{Condition, Statement};
use lexer::tokens;
use parser::{parse, parse_condition};
use printer::{print, print_condition};
use refusals::Refusal;
use std::alloc::Global;

/// Prints a statement, and reads what is printed.
///
/// A statement that `parse` gave comes out as it was, if memory suffices: its tokens have it in the
/// grammar, and nest within the limit.
pub fn read_again(alloc: Global, statement: &Statement) -> Result<Statement, Refusal>
    ensures { (kinds : Tokens) → IsNestedWithin 64 kinds → IsText (Some 64) kinds statement.now
        → MatchResult result (λ again. again ≡ statement.now) (λ refusal. refusal ≡ Memory) }
{
    let text = print(alloc, statement)?;
    let found = tokens(alloc, text.as_slice())?;
    parse(alloc, found.as_slice())
}

/// Prints a condition, and reads what is printed: how a CHECK is stored and read again.
///
/// It comes out as it was, if memory suffices, where tokens that nest within the limit begin with
/// it (`begins`). So does each condition that stands, at any depth, inside a statement that `parse`
/// gave (`inside`).
pub fn read_condition_again(alloc: Global, condition: &Condition) -> Result<Condition, Refusal>
    ensures begins { (kinds rest : Tokens) → IsNestedWithin 64 kinds
        → BeginsWithCondition (Some 64) kinds condition.now rest
        → MatchResult result (λ again. again ≡ condition.now) (λ refusal. refusal ≡ Memory) }
    ensures inside { (statement : Statement) (kinds : Tokens) → IsNestedWithin 64 kinds
        → IsText (Some 64) kinds statement
        → StandsIn condition.now statement
        → MatchResult result (λ again. again ≡ condition.now) (λ refusal. refusal ≡ Memory) }
{
    let text = print_condition(alloc, condition)?;
    let found = tokens(alloc, text.as_slice())?;
    parse_condition(alloc, found.as_slice())
}

/// The text that is printed of a statement, or of a condition, has tokens that are this statement,
/// or condition, and nest within the limit, where any tokens are so. So it is the text alone that
/// is read again. A law: it does nothing.
pub fn printed_texts_are_read_as_what_they_are_of()
    ensures statement { (x : Statement) (text : Bytes) (kinds : Tokens) → IsTextOf x text → IsNestedWithin 64 kinds
        → IsText (Some 64) kinds x → IsReadAs text x }
    ensures condition { (x : Condition) (text : Bytes) (kinds rest : Tokens) → IsConditionTextOf x text
        → IsNestedWithin 64 kinds
        → BeginsWithCondition (Some 64) kinds x rest → IsReadAsCondition text x }
{}
