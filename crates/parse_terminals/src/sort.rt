//! Sort keys.

ghost use Rattle.std.specs.Prelude.{◌≡◌, Some};
ghost use Rattle.parse_terminals.specs.Readers.{kinds, Finds, Gives};
ghost use Rattle.parse_terminals.specs.Readers as read;
ghost use Rattle.parse_terminals.specs.ReadTerminals as terminals;

use crate::cursor::{after_word, name, number};
use crate::error::ParseError;
use crate::terminals::next_is_number;
use ast::{Direction, SortColumn, SortKey};
use lexer::{Token, Word};
use std::alloc::Global;

/// `name | number`
#[tactic(auto, unfolding(crate::specs::ReadTerminals::sort_column))]
fn sort_column(alloc: Global, tokens: &[Token]) -> Result<(SortColumn, &[Token]), ParseError>
    ensures { Gives result (terminals.sort_column (kinds tokens.now)) }
{
    if next_is_number(tokens) {
        match number(tokens) {
            Ok((position, rest)) => Ok((SortColumn::Position(position), rest)),
            Err(error) => Err(error),
        }
    } else {
        let (column, rest) = name(alloc, tokens)?;
        Ok((SortColumn::Named(column), rest))
    }
}

fn direction(tokens: &[Token]) -> Option<(Direction, &[Token])>
    ensures { Finds result (terminals.direction (kinds tokens.now)) }
{
    if let Some(rest) = after_word(Word::Asc, tokens) {
        Some((Direction::Ascending, rest))
    } else {
        let rest = after_word(Word::Desc, tokens)?;
        Some((Direction::Descending, rest))
    }
}

fn may_direction(tokens: &[Token]) -> (Option<Direction>, &[Token])
    ensures { read.optional terminals.direction (kinds tokens.now) ≡ Some (result.0, kinds result.1.now) }
{
    match direction(tokens) {
        Some((direction, rest)) => (Some(direction), rest),
        None => (None, tokens),
    }
}

/// `key = (name | number) [ASC | DESC]`: refuses where neither name nor number comes, and for want
/// of memory.
#[tactic(auto, unfolding(crate::specs::ReadTerminals::sort_key))]
pub fn sort_key(alloc: Global, tokens: &[Token]) -> Result<(SortKey, &[Token]), ParseError>
    ensures { Gives result (terminals.sort_key (kinds tokens.now)) }
{
    let (column, rest) = sort_column(alloc, tokens)?;
    let (direction, rest) = may_direction(rest);
    Ok((SortKey { column, direction }, rest))
}
