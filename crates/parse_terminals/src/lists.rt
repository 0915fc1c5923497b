//! How parts are joined, and parts that are repeated.

ghost use Rattle.std.specs.Prelude.{◌≡◌, nat_le, ◌-◌, if◌then◌else◌, Some, None};
ghost use Rattle.parse_terminals.specs.Readers.{kinds, Outcome, Reader, ReadsBy, ReadsAfter, FindsBy, Gives, Finds};
ghost use Rattle.parse_terminals.specs.Readers as read;
ghost use Rattle.lexer.specs.declared.kinds.Symbol.TheVariants as s;

use crate::cursor::{after_symbol, name, symbol};
use crate::error::ParseError;
use items::{Boxed, Items};
use lexer::{Name, Symbol, Token};
use std::alloc::Global;

/// Whether a chain has as many operands after its first as the limit allows.
fn is_full(limit: Option<usize>, others: usize) -> bool
    ensures { result ≡ read.is_full limit others }
{
    match limit {
        None => false,
        Some(limit) => limit.saturating_sub(1) <= others,
    }
}

/// Items for as long as `begin` finds what begins one, put behind those in `found`. Refuses more
/// than `limit` allows (one less than it: the first operand of a chain is not among them), where an
/// item is refused, and for want of memory.
pub fn many<
    'a,
    O,
    T: Drop,
    B: Fn(&[Token]) -> Option<(O, &[Token])>,
    F: Fn(O, &[Token]) -> Result<(T, &[Token]), ParseError>,
>(
    limit: Option<usize>,
    begin: B,
    item: F,
    found: Items<T>,
    tokens: &'a [Token],
) -> Result<(Items<T>, &'a [Token]), ParseError>
where
    O: Drop,
    requires begin { B.IsAlwaysCallable begin }
    requires item { F.IsAlwaysCallable item }
    ensures { (begins : Reader O) (reads : O → Reader T) → FindsBy (B.post begin) begins
        → ReadsAfter (F.post item) reads
        → Gives result (read.many limit begins reads found (kinds tokens.now)) }
{
    let mut found = found;
    let mut rest = tokens;
    for _turn in 0..tokens.len() {
        let Some((before, after)) = begin(rest) else {
            return Ok((found, rest));
        };
        if is_full(limit, found.len()) {
            return Err(ParseError::Syntax);
        }
        let (next, after) = item(before, after)?;
        found.push(next)?;
        rest = after;
    }
    Ok((found, rest))
}

fn comma(tokens: &[Token]) -> Option<((), &[Token])>
    ensures { Finds result (read.symbol s.Comma (kinds tokens.now)) }
{
    after_symbol(Symbol::Comma, tokens).map(|rest| ((), rest))
}

/// Items with commas between them, at least one. Refuses where an item is refused, and for want of
/// memory.
pub fn listed<'a, T: Drop, F: Fn(&[Token]) -> Result<(T, &[Token]), ParseError>>(
    alloc: Global,
    item: F,
    tokens: &'a [Token],
) -> Result<(Items<T>, &'a [Token]), ParseError>
    requires { F.IsAlwaysCallable item }
    ensures { (reads : Reader T) → ReadsBy (F.post item) reads → Gives result (read.listed reads (kinds tokens.now)) }
{
    let (first, rest) = item(tokens)?;
    let mut found = Items::new(alloc);
    found.push(first)?;
    many(None, comma, |_, at| item(at), found, rest)
}

/// `names = name {, name}`: refuses where a name is wanting, and for want of memory.
pub fn names(alloc: Global, tokens: &[Token]) -> Result<(Items<Name>, &[Token]), ParseError>
    ensures { Gives result (read.listed read.name (kinds tokens.now)) }
{
    listed(alloc, |at| name(alloc, at), tokens)
}

/// What was read before, with what was read next, where that was not refused. A caller that owned a
/// tree over a `?` would drop it there, part by part, and be slow to prove; here what is dropped is
/// any `A`.
pub fn paired<'a, A: Drop, B: Drop>(
    before: A,
    next: Result<(B, &'a [Token]), ParseError>,
) -> Result<((A, B), &'a [Token]), ParseError>
    ensures { (outcome : Outcome B) → Gives next.entry outcome → Gives result (read.paired before outcome) }
{
    let (after, rest) = next?;
    Ok(((before, after), rest))
}

/// What was read, on the heap, where it was not refused and memory is not wanting. As with
/// `paired`, what may be dropped is any `T`.
pub fn boxed<'a, T: Drop>(
    alloc: Global,
    found: Result<(T, &'a [Token]), ParseError>,
) -> Result<(Boxed<T>, &'a [Token]), ParseError>
    ensures { (outcome : Outcome T) → Gives found.entry outcome → Gives result outcome }
{
    let (tree, rest) = found?;
    Ok((Boxed::new(alloc, tree)?, rest))
}

/// A tree and what follows it, where that may follow: refuses it otherwise.
pub fn only_if<T: Drop>(
    may_follow: bool,
    tree: T,
    rest: &[Token],
) -> Result<(T, &[Token]), ParseError>
    ensures { Gives result (if may_follow then Some (tree, kinds rest.now) else None) }
{
    if may_follow {
        Ok((tree, rest))
    } else {
        Err(ParseError::Syntax)
    }
}

/// What `inside` reads, between parentheses. Refuses where one of the two is wanting, or where
/// `inside` refuses.
#[tactic(auto, unfolding(crate::specs::Readers::symbol))]
pub fn parenthesized<'a, T: Drop, F: FnOnce(&[Token]) -> Result<(T, &[Token]), ParseError>>(
    inside: F,
    tokens: &'a [Token],
) -> Result<(T, &'a [Token]), ParseError>
    requires { F.IsAlwaysCallable inside }
    ensures { (reads : Reader T) → ReadsBy (F.post inside) reads
        → Gives result (read.parenthesized reads (kinds tokens.now)) }
{
    let rest = symbol(Symbol::LeftParenthesis, tokens)?;
    let (found, rest) = inside(rest)?;
    let rest = symbol(Symbol::RightParenthesis, rest)?;
    Ok((found, rest))
}
