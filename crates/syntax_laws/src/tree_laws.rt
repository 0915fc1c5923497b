//! That the grammar is unambiguous.

ghost use Rattle.std.specs.Prelude.{◌≡◌, ℕ, List, Option};
ghost use Rattle.ast.specs.Grammar.{IsText, IsConditionText};
ghost use Rattle.ast.specs.Notation.{Tokens};
ghost use Rattle.ast.specs.declared.statement.Statement.{Statement};
ghost use Rattle.ast.specs.declared.tree.Condition.{Condition};
ghost use Rattle.lexer.specs.Token.{Bytes};
ghost use Rattle.lexer.specs.Tokens.{kinds_of, AreTokens};
ghost use Rattle.lexer.specs.declared.kinds.Token.{Token};

/// Tokens are one statement at most, and one condition at most: however deep their parentheses
/// nest, and whatever limit of operands a chain has, or with no limit.
pub fn tokens_have_at_most_one_tree()
    ensures statement { (limit : Option ℕ) (tokens : Tokens) (x y : Statement) → IsText limit tokens x
        → IsText limit tokens y → x ≡ y }
    ensures condition { (limit : Option ℕ) (tokens : Tokens) (x y : Condition) → IsConditionText limit tokens x
        → IsConditionText limit tokens y → x ≡ y }
{}

/// So a text is one statement at most.
pub fn texts_have_at_most_one_tree()
    ensures { (limit : Option ℕ) (text : Bytes) (tokens others : List Token) (x y : Statement) → AreTokens text tokens
        → AreTokens text others
        → IsText limit (kinds_of tokens) x → IsText limit (kinds_of others) y → x ≡ y }
{}
