//! Whole texts of tokens.

ghost use Rattle.std.specs.Prelude.{◌≡◌, ◌⊎◌, ◌↔◌, if◌then◌else◌, true, false, IfOk, IfErr, IfSome, IsOk, Some, None, Ok, Err};
ghost use Rattle.ast.specs.Grammar.{IsText, IsConditionText};
ghost use Rattle.ast.specs.Nesting.{IsNestedWithin};
ghost use Rattle.ast.specs.declared.statement.Statement.{Statement};
ghost use Rattle.ast.specs.declared.tree.Condition.{Condition};
ghost use Rattle.refusals.specs.declared.reason.Reason.TheVariants.{Syntax};
ghost use Rattle.refusals.specs.declared.refusal.Refusal.TheVariants.{Exceeded, Invalid, Memory};
ghost use Rattle.refusals.specs.declared.limit.Limit.TheVariants.{Chain, Nesting};
ghost use Rattle.parse_terminals.specs.declared.error.ParseError.TheVariants.{Syntax as NotFound};
ghost use Rattle.parse_terminals.specs.Readers.{kinds, GivesAll};
ghost use Rattle.parse_statements.specs.ReadStatements as statements;
ghost use Rattle.parser.specs.Shallow.{is_shallow};
ghost use Rattle.parser.specs.Trees.{HasStatement, HasCondition};
ghost use Rattle.parse_expressions.specs.Levels.{inner_at};

use ast::{Condition, Statement};
use lexer::{Symbol, Token};
use parse_statements::Statements;
use parse_terminals::{ParseError, is_symbol};
use refusals::{Limit, Reason, Refusal};
use std::alloc::Global;

/// How many parentheses may be open at once.
pub const MAXIMUM_NESTING: usize = 64;

/// How many operands a chain may have.
pub const MAXIMUM_OPERANDS: usize = 64;

fn is_nested_deeper(tokens: &[Token]) -> bool
    ensures { is_shallow (kinds tokens.now) 64 ≡ (if result then false else true) }
{
    let mut rest = tokens;
    let mut left = MAXIMUM_NESTING;
    while let [first, after @ ..] = rest {
        rest = after;
        if is_symbol(first, Symbol::LeftParenthesis) {
            if left == 0 {
                return true;
            }
            left -= 1;
        } else if is_symbol(first, Symbol::RightParenthesis) {
            left += 1;
        }
    }
    false
}

/// The statement that the tokens are, where no chain has more operands than `limit`.
fn text(
    alloc: Global,
    limit: Option<usize>,
    depth: usize,
    tokens: &[Token],
) -> Result<Statement, ParseError>
    ensures { GivesAll result (statements.text (inner_at limit depth) (kinds tokens.now)) }
{
    let statements = Statements {
        alloc,
        limit,
        depth,
    };
    let (statement, _rest) = statements.text(tokens)?;
    Ok(statement)
}

/// The condition that the tokens are, where no chain has more operands than `limit`.
fn condition_text(
    alloc: Global,
    limit: Option<usize>,
    depth: usize,
    tokens: &[Token],
) -> Result<Condition, ParseError>
    ensures { GivesAll result (statements.condition_text (inner_at limit depth) (kinds tokens.now)) }
{
    let statements = Statements {
        alloc,
        limit,
        depth,
    };
    let (condition, _rest) = statements.condition_text(tokens)?;
    Ok(condition)
}

/// Why nothing was found, where that is so. What was found goes.
fn refused<T: Drop>(found: Result<T, ParseError>) -> Option<ParseError>
    ensures found { result ≡ None → IsOk found }
    ensures refused { IfSome result (λ refused. found ≡ Err refused) }
{
    match found {
        Ok(_) => None,
        Err(refused) => Some(refused),
    }
}

/// What is told where nothing was found.
fn refusal_of(refused: ParseError) -> Refusal
    ensures syntax { result ≡ Invalid Syntax → refused ≡ NotFound }
    ensures refusal { (result ≡ Memory) ⊎ (result ≡ Invalid Syntax) }
{
    match refused {
        ParseError::Memory => Refusal::Memory,
        ParseError::Syntax => Refusal::Invalid(Reason::Syntax),
    }
}

/// Why the tokens are no statement with chains within the limit.
fn statement_refusal(alloc: Global, tokens: &[Token]) -> Refusal
    ensures chain { result ≡ Exceeded Chain → HasStatement None (kinds tokens.now) }
    ensures syntax { result ≡ Invalid Syntax → is_shallow (kinds tokens.now) 64 ≡ true
        → ¬ HasStatement None (kinds tokens.now) }
    ensures refusal { (result ≡ Memory) ⊎ (result ≡ Invalid Syntax) ⊎ (result ≡ Exceeded Chain) }
{
    let found = text(alloc, None, MAXIMUM_NESTING + 1, tokens);
    match refused(found) {
        None => Refusal::Exceeded(Limit::Chain),
        Some(refused) => refusal_of(refused),
    }
}

/// Why the tokens are no condition with chains within the limit.
fn condition_refusal(alloc: Global, tokens: &[Token]) -> Refusal
    ensures chain { result ≡ Exceeded Chain → HasCondition None (kinds tokens.now) }
    ensures syntax { result ≡ Invalid Syntax → is_shallow (kinds tokens.now) 64 ≡ true
        → ¬ HasCondition None (kinds tokens.now) }
    ensures refusal { (result ≡ Memory) ⊎ (result ≡ Invalid Syntax) ⊎ (result ≡ Exceeded Chain) }
{
    let found = condition_text(alloc, None, MAXIMUM_NESTING + 1, tokens);
    match refused(found) {
        None => Refusal::Exceeded(Limit::Chain),
        Some(refused) => refusal_of(refused),
    }
}

/// The statement that the tokens are, without the `;` that may end them.
///
/// Refuses `Exceeded(Nesting)` where more than 64 parentheses are open at once, whatever else the
/// tokens are; otherwise `Exceeded(Chain)` where the tokens are a statement only with more than 64
/// operands in a chain, and `Invalid(Syntax)` where they are no statement; `Memory` for want of
/// memory.
pub fn parse(alloc: Global, tokens: &[Token]) -> Result<Statement, Refusal>
    // What is parsed is in the grammar.
    ensures found { IfOk result (λ x. IsText (Some 64) (kinds tokens.now) x) }
    // What is in the grammar is parsed, so it has no other tree.
    ensures only { (x : Statement) → IsText (Some 64) (kinds tokens.now) x
        → (result ≡ Ok x) ⊎ (result ≡ Err Memory) ⊎ (result ≡ Err (Exceeded Nesting)) }
    // No tree has these tokens, however many operands its chains may have.
    ensures syntax { result ≡ Err (Invalid Syntax)
        → (¬ HasStatement (Some 64) (kinds tokens.now)) × (¬ HasStatement None (kinds tokens.now)) }
    // A tree has them, but none with 64 operands at most in a chain.
    ensures chain { result ≡ Err (Exceeded Chain)
        → (¬ HasStatement (Some 64) (kinds tokens.now)) × HasStatement None (kinds tokens.now) }
    ensures nesting { (result ≡ Err (Exceeded Nesting)) ↔ (¬ IsNestedWithin 64 (kinds tokens.now)) }
    ensures refusal { IfErr result (λ e. (e ≡ Memory) ⊎ (e ≡ Invalid Syntax) ⊎ (e ≡ Exceeded Chain)
        ⊎ (e ≡ Exceeded Nesting)) }
{
    if is_nested_deeper(tokens) {
        return Err(Refusal::Exceeded(Limit::Nesting));
    }
    match text(alloc, Some(MAXIMUM_OPERANDS), MAXIMUM_NESTING + 1, tokens) {
        Ok(statement) => Ok(statement),
        Err(ParseError::Memory) => Err(Refusal::Memory),
        Err(ParseError::Syntax) => Err(statement_refusal(alloc, tokens)),
    }
}

/// The condition that the tokens are. Refuses as `parse` does.
pub fn parse_condition(alloc: Global, tokens: &[Token]) -> Result<Condition, Refusal>
    ensures found { IfOk result (λ x. IsConditionText (Some 64) (kinds tokens.now) x) }
    ensures only { (x : Condition) → IsConditionText (Some 64) (kinds tokens.now) x
        → (result ≡ Ok x) ⊎ (result ≡ Err Memory) ⊎ (result ≡ Err (Exceeded Nesting)) }
    ensures syntax { result ≡ Err (Invalid Syntax)
        → (¬ HasCondition (Some 64) (kinds tokens.now)) × (¬ HasCondition None (kinds tokens.now)) }
    ensures chain { result ≡ Err (Exceeded Chain)
        → (¬ HasCondition (Some 64) (kinds tokens.now)) × HasCondition None (kinds tokens.now) }
    ensures nesting { (result ≡ Err (Exceeded Nesting)) ↔ (¬ IsNestedWithin 64 (kinds tokens.now)) }
    ensures refusal { IfErr result (λ e. (e ≡ Memory) ⊎ (e ≡ Invalid Syntax) ⊎ (e ≡ Exceeded Chain)
        ⊎ (e ≡ Exceeded Nesting)) }
{
    if is_nested_deeper(tokens) {
        return Err(Refusal::Exceeded(Limit::Nesting));
    }
    match condition_text(alloc, Some(MAXIMUM_OPERANDS), MAXIMUM_NESTING + 1, tokens) {
        Ok(condition) => Ok(condition),
        Err(ParseError::Memory) => Err(Refusal::Memory),
        Err(ParseError::Syntax) => Err(condition_refusal(alloc, tokens)),
    }
}
