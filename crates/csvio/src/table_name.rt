//! The table that a text names.
ghost use Rattle.std.specs.Prelude.{◌≡◌, ◌≢◌, [], ◌∷◌, ℕ, List, IfOk, IfErr, IfSome, IfNone};
ghost use Rattle.lexer.specs.declared.kinds.Kind.TheVariants as kinds;
ghost use Rattle.lexer.specs.Tokens.{kinds_of};
ghost use Rattle.refusals.specs.declared.refusal.Refusal.TheVariants.{Invalid, Memory};
ghost use Rattle.refusals.specs.declared.reason.Reason.TheVariants as reason;
ghost use Rattle.csvio.specs.TableName.{IsNameIn};

use items::Text;
use lexer::{Kind, Token, tokens};
use refusals::{Reason, Refusal};
use std::alloc::Global;

/// The name that this text is, folded as in a statement. What is no single name is refused by
/// `name`. Refuses for want of memory too.
pub(crate) fn table_name(alloc: Global, text: &[u8]) -> Result<Text, Refusal>
    ensures gives { IfOk result (IsNameIn text.now) }
    ensures only { IfOk result (λ name. (other : List ℕ) → IsNameIn text.now other → other ≡ name) }
    ensures refused { IfErr result (λ refusal. refusal ≢ Memory
        → (refusal ≡ Invalid reason.Name) × ((name : List ℕ) → IsNameIn text.now name → ⊥)) }
{
    let found = match tokens(alloc, text) {
        Ok(found) => found,
        Err(fault) => return Err(unnamed(fault)),
    };
    match only_name(found.as_slice()) {
        Some(name) => copied(alloc, name),
        None => Err(Refusal::Invalid(Reason::Name)),
    }
}

/// The refusal of a text that has this fault.
fn unnamed(fault: Refusal) -> Refusal
    ensures memory { fault ≡ Memory → result ≡ Memory }
    ensures other { fault ≢ Memory → result ≡ Invalid reason.Name }
{
    match fault {
        Refusal::Memory => Refusal::Memory,
        _ => Refusal::Invalid(Reason::Name),
    }
}

/// A copy of a text.
fn copied(alloc: Global, text: &Text) -> Result<Text, Refusal>
    ensures copied { IfOk result (λ copy. copy ≡ text.now) }
    ensures memory { IfErr result (λ refusal. refusal ≡ Memory) }
{
    match text.copy(alloc) {
        Ok(copy) => Ok(copy),
        Err(_) => Err(Refusal::Memory),
    }
}

/// The name that these tokens are.
fn only_name(tokens: &[Token]) -> Option<&Text>
    ensures is { IfSome result (λ name. kinds_of tokens.now ≡ kinds.Name name.now ∷ []) }
    ensures none { IfNone result ((name : List ℕ) → kinds_of tokens.now ≡ kinds.Name name ∷ [] → ⊥) }
{
    match tokens {
        [token] => name_of(&token.kind),
        _ => None,
    }
}

/// The name that a token is.
fn name_of(kind: &Kind) -> Option<&Text>
    ensures is { IfSome result (λ name. kind.now ≡ kinds.Name name.now) }
    ensures none { IfNone result ((name : List ℕ) → kind.now ≡ kinds.Name name → ⊥) }
{
    match kind {
        Kind::Name(name) => Some(name.as_text()),
        _ => None,
    }
}
