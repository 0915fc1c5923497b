//! The three rules that recursion goes through.

ghost use Rattle.parse_terminals.specs.Readers.{kinds, Gives};
ghost use Rattle.parse_expressions.specs.Levels.{inner_at};

use crate::query::Queries;
use ast::{Condition, Expression, Query};
use lexer::Token;
use parse_expressions::Rules;
use parse_terminals::ParseError;
use std::alloc::Global;

/// An expression with parentheses nested less than `depth` deep, and at most `limit` operands in a
/// chain. Refuses tokens that begin with none such, and for want of memory.
#[cycle(parser)]
pub fn expression(
    alloc: Global,
    limit: Option<usize>,
    depth: usize,
    tokens: &[Token],
) -> Result<(Expression, &[Token]), ParseError>
    ensures { Gives result ((inner_at limit depth).expression (kinds tokens.now)) }
{
    if depth == 0 {
        return Err(ParseError::Syntax);
    }
    let rules = Rules {
        alloc,
        limit,
        depth: depth - 1,
        expression,
        condition,
        query,
    };
    rules.expression(tokens)
}

/// A condition with parentheses nested less than `depth` deep, and at most `limit` operands in a
/// chain. Refuses tokens that begin with none such, and for want of memory.
#[cycle(parser)]
pub fn condition(
    alloc: Global,
    limit: Option<usize>,
    depth: usize,
    tokens: &[Token],
) -> Result<(Condition, &[Token]), ParseError>
    ensures { Gives result ((inner_at limit depth).condition (kinds tokens.now)) }
{
    if depth == 0 {
        return Err(ParseError::Syntax);
    }
    let rules = Rules {
        alloc,
        limit,
        depth: depth - 1,
        expression,
        condition,
        query,
    };
    rules.condition(tokens)
}

/// A query with parentheses nested less than `depth` deep, and at most `limit` operands in a chain.
/// Refuses tokens that begin with none such, and for want of memory.
#[cycle(parser)]
pub fn query(
    alloc: Global,
    limit: Option<usize>,
    depth: usize,
    tokens: &[Token],
) -> Result<(Query, &[Token]), ParseError>
    ensures { Gives result ((inner_at limit depth).query (kinds tokens.now)) }
{
    if depth == 0 {
        return Err(ParseError::Syntax);
    }
    let rules = Rules {
        alloc,
        limit,
        depth: depth - 1,
        expression,
        condition,
        query,
    };
    Queries { rules }.query(tokens)
}
