//! ROLLBACK is recognised before the lexer runs, since it takes no memory and always succeeds.

ghost use Rattle.std.specs.Prelude.{◌↔◌, ◌⊎◌, IsTrue, true, false};
ghost use Rattle.lexer.specs.Recognition.{IsMadeOf};
ghost use Rattle.statement_definitions.specs.Rollback.{IsRollback, rollback_words};

use crate::reading::LONGEST_STATEMENT;
use lexer::{Word, is_made_of};

/// Whether the text is `ROLLBACK [WORK] [;]`, with white space and comments anywhere, in at most
/// 65,536 bytes.
#[tactic(auto, using(crate::proofs::Rollbacks::rollback_iff, crate::proofs::Rollbacks::too_long))]
pub fn is_rollback(text: &[u8]) -> bool
    ensures { IsTrue result ↔ IsRollback text.now }
{
    if text.len() > LONGEST_STATEMENT {
        return false;
    }
    is_made_of_rollback(text)
}

fn is_made_of_rollback(text: &[u8]) -> bool
    ensures { IsTrue result ↔ (IsMadeOf text.now (rollback_words false) ⊎ IsMadeOf text.now (rollback_words true)) }
{
    is_made_of(text, &[Word::Rollback]) || is_made_of(text, &[Word::Rollback, Word::Work])
}
