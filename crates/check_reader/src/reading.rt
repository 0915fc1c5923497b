//! From the text that is kept of a CHECK to its condition.

ghost use Rattle.std.specs.Prelude.{◌≡◌, ◌⊎◌, ℕ, List, Some, IfOk, IfErr, MatchResult};
ghost use Rattle.ast.specs.Grammar.{IsConditionText};
ghost use Rattle.ast.specs.Nesting.{IsNestedWithin};
ghost use Rattle.ast.specs.Notation.{Tokens};
ghost use Rattle.ast.specs.declared.tree.Condition.{Condition as Tree};
ghost use Rattle.lexer.specs.Printing.{HasKinds};
ghost use Rattle.refusals.specs.declared.refusal.Refusal.TheVariants.{Damaged, Memory};
ghost use Rattle.sqlval.specs.declared.schema.Column.{Column};
ghost use Rattle.typing.specs.declared.typed.Condition.{Condition as Typed};
ghost use Rattle.typing.specs.Check.{IsCheckReading, ReadsCheck, check_found};
ghost use Rattle.typing.specs.Finds.{Finds};
ghost use Rattle.typing.specs.Table.{frame_of};
ghost use Rattle.check_reader.specs.Texts.{HasTree};

use items::Text;
use lexer::tokens;
use parser::parse_condition;
use refusals::Refusal;
use sqlval::Table;
use std::alloc::Global;
use table_types::typed_check;
use type_rules::frame_of;
use typing::Condition;

/// The condition that the kept text of a CHECK stands for, over the rows of its table.
///
/// A text that is no condition, whose parentheses stand more than 64 deep, or that the rules of
/// names and types refuse, is `Damaged`: no statement keeps one. Refuses for want of memory too.
pub fn read_check(alloc: Global, table: &Table, text: &Text) -> Result<Condition, Refusal>
    // What is read is what the text stands for.
    ensures reads { IfOk result (λ condition. ReadsCheck table.now.name table.now.columns text.now condition) }
    // It is what any rules read that read the texts of CHECKs as they are.
    ensures rules { (reading : List ℕ → List Column → List ℕ → Typed) → IsCheckReading reading
        → IfOk result (λ condition. reading table.now.name table.now.columns text.now ≡ condition) }
    // A text that stands for a condition is read.
    ensures only { (condition : Typed) (read : ReadsCheck table.now.name table.now.columns text.now condition)
        → IsNestedWithin 64 read.kinds
        → MatchResult result (λ found. found ≡ condition) (λ refusal. refusal ≡ Memory) }
    ensures refused { IfErr result (λ refusal. (refusal ≡ Memory) ⊎ (refusal ≡ Damaged)) }
{
    match condition_of(alloc, table, text) {
        Ok(condition) => Ok(condition),
        Err(refusal) => Err(as_damage(refusal)),
    }
}

/// Damage, but for want of memory.
fn as_damage(refusal: Refusal) -> Refusal
    ensures memory { refusal ≡ Memory → result ≡ Memory }
    ensures either { (result ≡ Memory) ⊎ (result ≡ Damaged) }
{
    match refusal {
        Refusal::Memory => Refusal::Memory,
        _ => Refusal::Damaged,
    }
}

fn condition_of(alloc: Global, table: &Table, text: &Text) -> Result<Condition, Refusal>
    ensures reads { IfOk result (λ condition. ReadsCheck table.now.name table.now.columns text.now condition) }
    ensures only { (condition : Typed) (read : ReadsCheck table.now.name table.now.columns text.now condition)
        → IsNestedWithin 64 read.kinds
        → MatchResult result (λ found. found ≡ condition) (λ refusal. refusal ≡ Memory) }
{
    match tree_of(alloc, text.as_slice()) {
        Ok(tree) => typed_in(alloc, table, &tree),
        Err(refusal) => Err(refusal),
    }
}

/// The tree of a text.
fn tree_of(alloc: Global, text: &[u8]) -> Result<ast::Condition, Refusal>
    ensures found { IfOk result (λ tree. HasTree text.now tree) }
    ensures only { (kinds : Tokens) (tree : Tree) → HasKinds text.now kinds → IsConditionText (Some 64) kinds tree
        → IsNestedWithin 64 kinds
        → MatchResult result (λ found. found ≡ tree) (λ refusal. refusal ≡ Memory) }
{
    match tokens(alloc, text) {
        Ok(tokens) => parse_condition(alloc, tokens.as_slice()),
        Err(refusal) => Err(refusal),
    }
}

/// The condition over the rows of a table.
fn typed_in(alloc: Global, table: &Table, tree: &ast::Condition) -> Result<Condition, Refusal>
    ensures { Finds result (check_found (frame_of table.now.name table.now.columns) tree.now) }
{
    let frame = frame_of(alloc, &table.name, table)?;
    typed_check(alloc, &frame, tree)
}
