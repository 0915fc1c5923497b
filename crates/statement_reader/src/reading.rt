//! From the text of a call to its statement.

ghost use Rattle.std.specs.Prelude.{◌≡◌, ◌≢◌, IfErr, IfOk, IsSome, MatchBool, MatchResult, None};
ghost use Rattle.ast.specs.declared.statement.Statement.{Statement as Tree};
ghost use Rattle.refusals.specs.declared.refusal.Refusal.TheVariants.{Memory};
ghost use Rattle.lexer.specs.Support as unsupported;
ghost use Rattle.statement_definitions.specs.Reading.{IsRead, IsUnread};

use ast::Statement;
use lexer::{Token, first_unsupported, tokens};
use parser::parse;
use refusals::{Limit, Refusal};
use std::alloc::Global;

/// The greatest number of bytes of a statement.
pub const LONGEST_STATEMENT: usize = 65_536;

/// The statement of a text: its length is looked at first, then its tokens, its words and its
/// grammar.
///
/// A text that is no statement is refused by the first thing that is wrong with it: X0003
/// `statement` for its length, 42000 or X0003 for its tokens, 0A000 for a word that is not
/// supported, X0003 `nesting`, then X0003 `chain` or 42000 `syntax`. Want of memory may stand in
/// place of any answer.
pub fn read_statement(alloc: Global, text: &[u8]) -> Result<Statement, Refusal>
    ensures read { IfOk result (λ x. IsRead text.now x) }
    ensures unread { IfErr result (λ refusal. refusal ≢ Memory → IsUnread text.now refusal) }
    ensures only { (x : Tree) → IsRead text.now x
        → MatchResult result (λ found. found ≡ x) (λ refusal. refusal ≡ Memory) }
{
    if text.len() > LONGEST_STATEMENT {
        return Err(Refusal::Exceeded(Limit::Statement));
    }
    let tokens = tokens(alloc, text)?;
    if !are_supported(tokens.as_slice()) {
        return Err(Refusal::NotSupported);
    }
    parse(alloc, tokens.as_slice())
}

/// Whether the forms of all words are built.
fn are_supported(tokens: &[Token]) -> bool
    ensures { MatchBool result (unsupported.first_unsupported tokens.now ≡ None) (IsSome (unsupported.first_unsupported tokens.now)) }
{
    first_unsupported(tokens).is_none()
}
