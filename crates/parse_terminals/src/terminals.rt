//! The parts that hold no other part, and the decisions by the tokens ahead.

ghost use Rattle.std.specs.Prelude.{◌≡◌, Some};
ghost use Rattle.parse_terminals.specs.Readers.{kinds, Finds, FindsRest, Gives};
ghost use Rattle.parse_terminals.specs.Readers as read;
ghost use Rattle.parse_terminals.specs.ReadTerminals as terminals;

use crate::cursor::{
    after_symbol, after_word, eat_word, is_symbol, is_word, name, next_is_symbol, next_is_word,
    number, skip,
};
use crate::error::ParseError;
use ast::{
    AddOperator, Alias, Column, Comparison, Literal, MultiplyOperator, Quantifier, SetFunction,
    SetOperator, Sign, TruthTest, TruthValue,
};
use items::Text;
use lexer::{Kind, Symbol, Token, Word};
use std::alloc::Global;

/// `+ | - | ||`, if one comes next.
pub fn add_operator(tokens: &[Token]) -> Option<(AddOperator, &[Token])>
    ensures { Finds result (terminals.add_operator (kinds tokens.now)) }
{
    if let Some(rest) = after_symbol(Symbol::Plus, tokens) {
        Some((AddOperator::Plus, rest))
    } else if let Some(rest) = after_symbol(Symbol::Minus, tokens) {
        Some((AddOperator::Minus, rest))
    } else {
        let rest = after_symbol(Symbol::Concatenation, tokens)?;
        Some((AddOperator::Concatenate, rest))
    }
}

/// `* | /`, if one comes next.
pub fn multiply_operator(tokens: &[Token]) -> Option<(MultiplyOperator, &[Token])>
    ensures { Finds result (terminals.multiply_operator (kinds tokens.now)) }
{
    if let Some(rest) = after_symbol(Symbol::Asterisk, tokens) {
        Some((MultiplyOperator::Times, rest))
    } else {
        let rest = after_symbol(Symbol::Solidus, tokens)?;
        Some((MultiplyOperator::Divide, rest))
    }
}

fn sign(tokens: &[Token]) -> Option<(Sign, &[Token])>
    ensures { Finds result (terminals.sign (kinds tokens.now)) }
{
    if let Some(rest) = after_symbol(Symbol::Plus, tokens) {
        Some((Sign::Plus, rest))
    } else {
        let rest = after_symbol(Symbol::Minus, tokens)?;
        Some((Sign::Minus, rest))
    }
}

/// `[+ | -]`: the sign, if one comes next.
pub fn may_sign(tokens: &[Token]) -> (Option<Sign>, &[Token])
    ensures { read.optional terminals.sign (kinds tokens.now) ≡ Some (result.0, kinds result.1.now) }
{
    match sign(tokens) {
        Some((sign, rest)) => (Some(sign), rest),
        None => (None, tokens),
    }
}

fn less(tokens: &[Token]) -> Option<(Comparison, &[Token])>
    ensures { Finds result (terminals.less (kinds tokens.now)) }
{
    if let Some(rest) = after_symbol(Symbol::NotEqual, tokens) {
        Some((Comparison::NotEqual, rest))
    } else if let Some(rest) = after_symbol(Symbol::Less, tokens) {
        Some((Comparison::Less, rest))
    } else {
        let rest = after_symbol(Symbol::LessOrEqual, tokens)?;
        Some((Comparison::LessOrEqual, rest))
    }
}

fn not_less(tokens: &[Token]) -> Option<(Comparison, &[Token])>
    ensures { Finds result (terminals.not_less (kinds tokens.now)) }
{
    if let Some(rest) = after_symbol(Symbol::Equal, tokens) {
        Some((Comparison::Equal, rest))
    } else if let Some(rest) = after_symbol(Symbol::Greater, tokens) {
        Some((Comparison::Greater, rest))
    } else {
        let rest = after_symbol(Symbol::GreaterOrEqual, tokens)?;
        Some((Comparison::GreaterOrEqual, rest))
    }
}

/// `= | <> | < | > | <= | >=`, if one comes next.
#[tactic(auto, unfolding(crate::specs::ReadTerminals::comparison))]
pub fn comparison(tokens: &[Token]) -> Option<(Comparison, &[Token])>
    ensures { Finds result (terminals.comparison (kinds tokens.now)) }
{
    match not_less(tokens) {
        Some(found) => Some(found),
        None => less(tokens),
    }
}

fn quantifier(tokens: &[Token]) -> Option<(Quantifier, &[Token])>
    ensures { Finds result (terminals.quantifier (kinds tokens.now)) }
{
    if let Some(rest) = after_word(Word::All, tokens) {
        Some((Quantifier::All, rest))
    } else {
        let rest = after_word(Word::Distinct, tokens)?;
        Some((Quantifier::Distinct, rest))
    }
}

/// `[ALL | DISTINCT]`: the word, if one comes next.
pub fn may_quantifier(tokens: &[Token]) -> (Option<Quantifier>, &[Token])
    ensures { read.optional terminals.quantifier (kinds tokens.now) ≡ Some (result.0, kinds result.1.now) }
{
    match quantifier(tokens) {
        Some((quantifier, rest)) => (Some(quantifier), rest),
        None => (None, tokens),
    }
}

fn extreme(tokens: &[Token]) -> Option<(SetFunction, &[Token])>
    ensures { Finds result (terminals.extreme (kinds tokens.now)) }
{
    if let Some(rest) = after_word(Word::Min, tokens) {
        Some((SetFunction::Min, rest))
    } else {
        let rest = after_word(Word::Max, tokens)?;
        Some((SetFunction::Max, rest))
    }
}

fn count_or_sum(tokens: &[Token]) -> Option<(SetFunction, &[Token])>
    ensures { Finds result (terminals.count_or_sum (kinds tokens.now)) }
{
    if let Some(rest) = after_word(Word::Count, tokens) {
        Some((SetFunction::Count, rest))
    } else if let Some(rest) = after_word(Word::Sum, tokens) {
        Some((SetFunction::Sum, rest))
    } else {
        let rest = after_word(Word::Avg, tokens)?;
        Some((SetFunction::Avg, rest))
    }
}

/// `COUNT | SUM | AVG | MIN | MAX`, if one comes next.
#[tactic(auto, unfolding(crate::specs::ReadTerminals::set_function))]
pub fn set_function(tokens: &[Token]) -> Option<(SetFunction, &[Token])>
    ensures { Finds result (terminals.set_function (kinds tokens.now)) }
{
    match count_or_sum(tokens) {
        Some(found) => Some(found),
        None => extreme(tokens),
    }
}

/// What follows `COUNT ( * )`, if that comes next.
#[tactic(auto, unfolding(crate::specs::ReadTerminals::count_rows))]
pub fn count_rows(tokens: &[Token]) -> Option<&[Token]>
    ensures { FindsRest result (terminals.count_rows (kinds tokens.now)) }
{
    let rest = after_word(Word::Count, tokens)?;
    let rest = after_symbol(Symbol::LeftParenthesis, rest)?;
    let rest = after_symbol(Symbol::Asterisk, rest)?;
    after_symbol(Symbol::RightParenthesis, rest)
}

/// `(UNION | EXCEPT) [ALL]`, if one comes next.
pub fn set_operator(tokens: &[Token]) -> Option<(SetOperator, &[Token])>
    ensures { Finds result (terminals.set_operator (kinds tokens.now)) }
{
    if let Some(rest) = after_word(Word::Union, tokens) {
        let (all, rest) = eat_word(Word::All, rest);
        let operator = if all {
            SetOperator::UnionAll
        } else {
            SetOperator::Union
        };
        Some((operator, rest))
    } else {
        let rest = after_word(Word::Except, tokens)?;
        let (all, rest) = eat_word(Word::All, rest);
        let operator = if all {
            SetOperator::ExceptAll
        } else {
            SetOperator::Except
        };
        Some((operator, rest))
    }
}

/// `INTERSECT [ALL]`, if it comes next: whether ALL is written.
pub fn intersect(tokens: &[Token]) -> Option<(bool, &[Token])>
    ensures { Finds result (terminals.intersect (kinds tokens.now)) }
{
    let rest = after_word(Word::Intersect, tokens)?;
    Some(eat_word(Word::All, rest))
}

/// `TRUE | FALSE | UNKNOWN`
fn truth_value(tokens: &[Token]) -> Option<(TruthValue, &[Token])>
    ensures { Finds result (terminals.truth_value (kinds tokens.now)) }
{
    if let Some(rest) = after_word(Word::True, tokens) {
        Some((TruthValue::True, rest))
    } else if let Some(rest) = after_word(Word::False, tokens) {
        Some((TruthValue::False, rest))
    } else {
        let rest = after_word(Word::Unknown, tokens)?;
        Some((TruthValue::Unknown, rest))
    }
}

/// `[IS [NOT] (TRUE | FALSE | UNKNOWN)]`: refuses IS before anything else.
#[tactic(auto, unfolding(crate::specs::ReadTerminals::truth_test))]
pub fn truth_test(tokens: &[Token]) -> Result<(Option<TruthTest>, &[Token]), ParseError>
    ensures { Gives result (terminals.truth_test (kinds tokens.now)) }
{
    let Some(rest) = after_word(Word::Is, tokens) else {
        return Ok((None, tokens));
    };
    let (is_negated, rest) = eat_word(Word::Not, rest);
    match truth_value(rest) {
        Some((value, rest)) => Ok((Some(TruthTest { is_negated, value }), rest)),
        None => Err(ParseError::Syntax),
    }
}

/// Whether a string comes next.
pub fn next_is_string(tokens: &[Token]) -> bool
    ensures { result ≡ read.next_is terminals.is_string (kinds tokens.now) }
{
    matches!(
        tokens,
        [
            Token {
                kind: Kind::Text(_),
                ..
            },
            ..
        ]
    )
}

/// Whether a number comes next.
pub fn next_is_number(tokens: &[Token]) -> bool
    ensures { result ≡ read.next_is terminals.is_number (kinds tokens.now) }
{
    matches!(
        tokens,
        [
            Token {
                kind: Kind::Number(_),
                ..
            },
            ..
        ]
    )
}

/// Whether a name comes next.
pub fn next_is_name(tokens: &[Token]) -> bool
    ensures { result ≡ read.next_is terminals.is_name (kinds tokens.now) }
{
    matches!(
        tokens,
        [
            Token {
                kind: Kind::Name(_),
                ..
            },
            ..
        ]
    )
}

/// A copy of the string that has to come next. Refuses any other token, the end, and for want of
/// memory.
pub fn string(alloc: Global, tokens: &[Token]) -> Result<(Text, &[Token]), ParseError>
    ensures { Gives result (terminals.string (kinds tokens.now)) }
{
    match tokens {
        [
            Token {
                kind: Kind::Text(text),
                ..
            },
            rest @ ..,
        ] => Ok((text.copy(alloc)?, rest)),
        _ => Err(ParseError::Syntax),
    }
}

/// `literal = [+ | -] number | string`: refuses any other tokens, and for want of memory.
#[tactic(auto, unfolding(crate::specs::ReadTerminals::literal))]
pub fn literal(alloc: Global, tokens: &[Token]) -> Result<(Literal, &[Token]), ParseError>
    ensures { Gives result (terminals.literal (kinds tokens.now)) }
{
    if next_is_string(tokens) {
        let (text, rest) = string(alloc, tokens)?;
        return Ok((Literal::Text(text), rest));
    }
    let (sign, rest) = may_sign(tokens);
    match number(rest) {
        Ok((value, rest)) => Ok((Literal::Number(sign, value), rest)),
        Err(error) => Err(error),
    }
}

/// `column = name | name . name`: refuses where a name is wanting, and for want of memory.
#[tactic(auto, unfolding(crate::specs::ReadTerminals::column))]
pub fn column(alloc: Global, tokens: &[Token]) -> Result<(Column, &[Token]), ParseError>
    ensures { Gives result (terminals.column (kinds tokens.now)) }
{
    let (first, rest) = name(alloc, tokens)?;
    match after_symbol(Symbol::Period, rest) {
        None => Ok((
            Column {
                table: None,
                name: first,
            },
            rest,
        )),
        Some(rest) => {
            let (second, rest) = name(alloc, rest)?;
            Ok((
                Column {
                    table: Some(first),
                    name: second,
                },
                rest,
            ))
        }
    }
}

/// `[AS] name`: refuses where the name is wanting, and for want of memory.
#[tactic(auto, unfolding(crate::specs::ReadTerminals::alias))]
pub fn alias(alloc: Global, tokens: &[Token]) -> Result<(Alias, &[Token]), ParseError>
    ensures { Gives result (terminals.alias (kinds tokens.now)) }
{
    let (has_as, rest) = eat_word(Word::As, tokens);
    let (name, rest) = name(alloc, rest)?;
    Ok((Alias { has_as, name }, rest))
}

fn begins_alias(tokens: &[Token]) -> bool
    ensures { result ≡ terminals.begins_alias (kinds tokens.now) }
{
    next_is_word(Word::As, tokens) || next_is_name(tokens)
}

/// `[[AS] name]`: refuses AS without a name, and for want of memory.
#[tactic(auto, unfolding(crate::specs::ReadTerminals::may_alias))]
pub fn may_alias(alloc: Global, tokens: &[Token]) -> Result<(Option<Alias>, &[Token]), ParseError>
    ensures { Gives result (terminals.may_alias (kinds tokens.now)) }
{
    if !begins_alias(tokens) {
        return Ok((None, tokens));
    }
    let (found, rest) = alias(alloc, tokens)?;
    Ok((Some(found), rest))
}

fn is_set_word(token: &Token) -> bool
    ensures { result ≡ terminals.is_set_word token.now.kind }
{
    is_word(token, Word::Union) || is_word(token, Word::Except) || is_word(token, Word::Intersect)
}

fn next_is_set_word(tokens: &[Token]) -> bool
    ensures { result ≡ read.next_is terminals.is_set_word (kinds tokens.now) }
{
    match tokens {
        [first, ..] => is_set_word(first),
        [] => false,
    }
}

fn begins_query(tokens: &[Token]) -> bool
    ensures { result ≡ terminals.begins_query (kinds tokens.now) }
{
    if next_is_word(Word::Select, tokens) {
        return true;
    }
    match tokens {
        [first, rest @ ..] => {
            is_symbol(first, Symbol::LeftParenthesis) && next_is_set_word(skip(rest))
        }
        [] => false,
    }
}

/// Whether a query stands in the parentheses that begin here, and no expression. That is so at
/// SELECT, and at a parenthesis behind whose end a set operator stands.
#[tactic(auto, unfolding(crate::specs::ReadTerminals::opens_query))]
pub fn opens_query(tokens: &[Token]) -> bool
    ensures { result ≡ terminals.opens_query (kinds tokens.now) }
{
    match tokens {
        [_, rest @ ..] => begins_query(rest),
        [] => false,
    }
}

/// Whether a query stands in the parentheses after IN, and no list.
#[tactic(auto, unfolding(crate::specs::ReadTerminals::opens_subquery))]
pub fn opens_subquery(tokens: &[Token]) -> bool
    ensures { result ≡ terminals.opens_subquery (kinds tokens.now) }
{
    match tokens {
        [_, rest @ ..] => {
            next_is_word(Word::Select, rest) || next_is_symbol(Symbol::LeftParenthesis, rest)
        }
        [] => false,
    }
}

fn is_operator(token: &Token) -> bool
    ensures { result ≡ terminals.is_operator token.now.kind }
{
    match &token.kind {
        Kind::Symbol(symbol) => !matches!(
            symbol,
            Symbol::LeftParenthesis
                | Symbol::RightParenthesis
                | Symbol::Comma
                | Symbol::Period
                | Symbol::Semicolon
        ),
        _ => false,
    }
}

fn is_predicate_word(token: &Token) -> bool
    ensures { result ≡ terminals.is_predicate_word token.now.kind }
{
    is_word(token, Word::Not)
        || is_word(token, Word::Between)
        || is_word(token, Word::In)
        || is_word(token, Word::Like)
}

fn begins_null_test(tokens: &[Token]) -> bool
    ensures { result ≡ terminals.begins_null_test (kinds tokens.now) }
{
    match tokens {
        [first, rest @ ..] => {
            is_word(first, Word::Is) && next_is_word(Word::Null, eat_word(Word::Not, rest).1)
        }
        [] => false,
    }
}

/// Whether these tokens go on with an expression, or with a predicate after its first operand.
#[tactic(auto, unfolding(crate::specs::ReadTerminals::goes_on))]
fn goes_on(tokens: &[Token]) -> bool
    ensures { result ≡ terminals.goes_on (kinds tokens.now) }
{
    match tokens {
        [first, ..] => is_operator(first) || is_predicate_word(first) || begins_null_test(tokens),
        [] => false,
    }
}

/// Whether a condition in parentheses comes next, and no expression in parentheses.
#[tactic(auto, unfolding(crate::specs::ReadTerminals::opens_condition))]
pub fn opens_condition(tokens: &[Token]) -> bool
    ensures { result ≡ terminals.opens_condition (kinds tokens.now) }
{
    match tokens {
        [first, rest @ ..] => is_symbol(first, Symbol::LeftParenthesis) && !goes_on(skip(rest)),
        [] => false,
    }
}
