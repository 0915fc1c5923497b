//! The reply to a change of rows.
ghost use Rattle.std.specs.Prelude.{◌≡◌, Some};
ghost use Rattle.session_definitions.specs.Statements.{counted};
ghost use Rattle.transactions.specs.Refused.{IfRefused};

use replies::Reply;

/// The reply to a change that touched so many rows.
pub fn reply_for(count: usize) -> Reply
    ensures gives { result ≡ counted (Some count) }
    ensures accepted { IfRefused result (λ refusal. ⊥) }
{
    if count == 0 {
        Reply::Unchanged
    } else {
        Reply::Changed(count)
    }
}
