//! How the texts of statements are read and typed, which sessions take as it is.
ghost use Rattle.std.specs.Prelude.{◌≡◌, ◌≢◌, ◌↔◌, IsTrue, IfOk, IfErr, MatchResult};
ghost use Rattle.ast.specs.declared.statement.Statement.{Statement as Tree};
ghost use Rattle.refusals.specs.declared.refusal.Refusal.TheVariants.{Disk, Memory};
ghost use Rattle.statement_definitions.specs.Reading.{IsRead, IsUnread};
ghost use Rattle.statement_definitions.specs.Rollback.{IsRollback};
ghost use Rattle.transactions.specs.Refused.{TellsNoLimit};
ghost use Rattle.typing.specs.Finds.{Finds};
ghost use Rattle.typing.specs.Known.{known};
ghost use Rattle.typing.specs.Order.{ordered_found};
ghost use Rattle.typing.specs.Statement.{answered_found};

use ast::{OrderedQuery, Statement};
use refusals::Refusal;
use sqlval::Schema;
use std::alloc::Global;
use typing::{OrderedQuery as TypedQuery, Typed};
use typing_laws::refusals_have_reasons;

/// What reads and types statements.
pub trait Language: Drop {
    /// Whether a text is ROLLBACK. Takes no memory.
    fn is_rollback(&self, text: &[u8]) -> bool
        ensures { IsTrue result ↔ IsRollback text.now };

    /// The statement of a text, which is one at most. A text that is no statement is refused by the
    /// first thing that is wrong with it; any may be refused for want of memory.
    fn read(&self, alloc: Global, text: &[u8]) -> Result<Statement, Refusal>
        ensures read { IfOk result (λ x. IsRead text.now x) }
        ensures unread { IfErr result (λ refusal. refusal ≢ Memory → IsUnread text.now refusal) }
        ensures only { (x : Tree) → IsRead text.now x
            → MatchResult result (λ found. found ≡ x) (λ refusal. refusal ≡ Memory) };

    /// What a statement stands for over a schema: by the rules of names and types, or a reason of
    /// theirs against it; any may be refused for want of memory.
    fn typed(&self, alloc: Global, statement: &Statement, schema: &Schema) -> Result<Typed, Refusal>
        ensures finds { Finds result (answered_found statement.now schema.now) };

    /// What a query stands for over a schema, likewise.
    fn typed_query(
        &self,
        alloc: Global,
        query: &OrderedQuery,
        schema: &Schema,
    ) -> Result<TypedQuery, Refusal>
        ensures finds { Finds result (ordered_found (known schema.now) query.now) };
}

/// What a statement stands for, as a language finds it. No reason against a statement is a refusal
/// of the device, or a limit of the store: a law of the rules of names and types.
pub(crate) fn typed_by<L: Language>(
    alloc: Global,
    language: &L,
    statement: &Statement,
    schema: &Schema,
) -> Result<Typed, Refusal>
    ensures finds { Finds result (answered_found statement.now schema.now) }
    ensures device { IfErr result (λ refusal. refusal ≢ Disk) }
    ensures limits { IfErr result TellsNoLimit }
{
    refusals_have_reasons();
    language.typed(alloc, statement, schema)
}

/// What a query stands for, as a language finds it.
pub(crate) fn query_typed_by<L: Language>(
    alloc: Global,
    language: &L,
    query: &OrderedQuery,
    schema: &Schema,
) -> Result<TypedQuery, Refusal>
    ensures finds { Finds result (ordered_found (known schema.now) query.now) }
    ensures device { IfErr result (λ refusal. refusal ≢ Disk) }
    ensures limits { IfErr result TellsNoLimit }
{
    refusals_have_reasons();
    language.typed_query(alloc, query, schema)
}
