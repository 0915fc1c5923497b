//! That a text has its tokens, or a first fault.

ghost use Rattle.std.specs.Prelude.{◌≡◌, List};
ghost use Rattle.lexer.specs.Token.{Bytes};
ghost use Rattle.lexer.specs.Tokens.{AreTokens, IsFirstFault};
ghost use Rattle.lexer.specs.declared.kinds.Token.{Token};
ghost use Rattle.refusals.specs.declared.refusal.Refusal.{Refusal};
ghost use Rattle.syntax_laws.specs.Outcome.{HasOne};

/// Each text, of whatever bytes and length, has its tokens or a first fault from left to right, and
/// not both; and it has one list of tokens alone, and one first fault alone.
pub fn a_text_has_tokens_or_a_fault()
    ensures one_of_the_two { (text : Bytes) → HasOne text }
    ensures not_both { (text : Bytes) (tokens : List Token) (fault : Refusal) → AreTokens text tokens
        → IsFirstFault text fault → ⊥ }
    ensures one_list { (text : Bytes) (tokens others : List Token) → AreTokens text tokens → AreTokens text others
        → tokens ≡ others }
    ensures one_fault { (text : Bytes) (fault other : Refusal) → IsFirstFault text fault → IsFirstFault text other
        → fault ≡ other }
{}
